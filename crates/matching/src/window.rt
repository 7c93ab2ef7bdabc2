// A window on the caller's rows: as this the trees in which a recipe row is sought are handed about.
ghost use Rattle.std.specs.Prelude.{◌≡◌, suc, length};
ghost use Rattle.rows.specs.Embedding.{SameLabel};
ghost use Rattle.matching.specs.Placing.{HeldDeep};
ghost use Rattle.matching.specs.Asked.{chain};
ghost use Rattle.matching.specs.Path.{PathAsked};
ghost use Rattle.matching.specs.Room.{recipe_of};
ghost use Rattle.matching.specs.Engine.{Found};
ghost use Rattle.matching.specs.Window.{Whole};

use crate::question::Question;
use crate::seek::seek;
use crate::work::Work;

// Rows that stand together in a table: those behind `first` rows, up to row `end`.
#[derive(Clone, Copy)]
struct Window<'a> {
    depths: &'a [u16],
    first: usize,
    end: usize,
}

// The rows behind `first` rows, up to the end of the table.
fn behind<'a>(depths: &'a [u16], first: usize) -> Window<'a>
    ensures { (result.depths ≡ depths.entry) × (result.first ≡ first) × (result.end ≡ length depths.now) }
{
    Window {
        depths,
        first,
        end: depths.len(),
    }
}

// Of a window's rows, some of which hold the first row of the path asked, the first of these to close. What else is asked stands in
// the question.
fn seek_in<'a>(window: Window<'a>, question: &Question, work: &mut Work, k: usize) -> usize
    requires depths { window.depths.now ≡ question.now.depths.now }
    requires path { PathAsked (recipe_of question.now.shape.now question.now.labels.now) work.old.asked k }
    requires held_deep { HeldDeep (SameLabel question.now.labels.now question.now.names.now) (recipe_of question.now.shape.now question.now.labels.now) window.depths.now (chain work.old.asked 0) (suc window.first) window.end × Whole window.depths.now window.first window.end }
    ensures { Found question.now.shape.now question.now.labels.now window.entry.depths.now question.now.names.now work.old.asked work.old.log k window.entry.first window.entry.end result work.new.asked work.new.room work.new.log }
{
    let within = Question {
        depths: window.depths,
        names: question.names,
        recipe: question.recipe,
        labels: question.labels,
        shape: question.shape,
    };
    seek(&within, window.first, window.end, work, k)
}

// Of the rows behind `first` rows, some of which hold the first row of the path asked, the first of these to close. Callers say behind
// how many rows; the window is made here.
pub(crate) fn seek_behind(question: &Question, first: usize, work: &mut Work, k: usize) -> usize
    requires path { PathAsked (recipe_of question.now.shape.now question.now.labels.now) work.old.asked k }
    requires held_deep { HeldDeep (SameLabel question.now.labels.now question.now.names.now) (recipe_of question.now.shape.now question.now.labels.now) question.now.depths.now (chain work.old.asked 0) (suc first) (length question.now.depths.now) }
    ensures { Found question.now.shape.now question.now.labels.now question.now.depths.now question.now.names.now work.old.asked work.old.log k first (length question.now.depths.now) result work.new.asked work.new.room work.new.log }
{
    seek_in(behind(question.depths, first), question, work, k)
}
