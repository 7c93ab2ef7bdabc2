// Where a recipe row goes: the first to close of the listing rows in its window that hold it with all its descendants.
ghost use Rattle.std.specs.Prelude.{◌≡◌, true, ◌↔◌, ℕ, suc, ◌≤◌, ◌<◌, length, IfSome};
ghost use Rattle.rows.specs.Limits.{listing_rows};
ghost use Rattle.rows.specs.Rows.{at};
ghost use Rattle.rows.specs.Embedding.{SameLabel};
ghost use Rattle.matching.specs.Placing.{HeldDeep, FirstIn};
ghost use Rattle.matching.specs.Asked.{chain};
ghost use Rattle.matching.specs.Path.{logged, PathAsked};
ghost use Rattle.matching.specs.Room.{recipe_of};
ghost use Rattle.matching.specs.Engine.{Found};
ghost use Rattle.matching.specs.Window.{Whole};

use crate::corners::forest_corners;
use crate::log::Log;
use crate::question::Question;
use crate::work::Work;
use std::ops::ControlFlow;

// Whether the row behind `passed` rows has the label `name`, and, where there is a mark, at most that in the log.
fn is_logged(names: &[u32], name: u32, log: &Log, mark: Option<u16>, passed: usize) -> bool
    requires { (passed < listing_rows) × (passed < length names.now) }
    ensures { (result ≡ true) ↔ ((name ≡ at names.now (suc passed)) × IfSome mark (λ i. logged log.now (suc passed) ≤ i)) }
{
    if name != names[passed] {
        return false;
    }
    match mark {
        Some(mark) => log.read(passed) <= mark,
        None => true,
    }
}

// Of the rows behind `from` rows, some of which have the label `name` and, where there is a mark, at most that in the log, the first of
// these to close: the first row, then the first below that one, as long as there is one. A row shallower than `stop` is not below the row
// come upon. Kept out of its caller, where its loop is slow by the place of the code, and in some archives longer; with the log last it is
// shortest.
#[inline(never)]
pub(crate) fn seek_row(
    question: &Question,
    name: u32,
    from: usize,
    mark: Option<u16>,
    log: &Log,
) -> usize
    requires { (y : ℕ) × (suc from ≤ y) × (y ≤ length question.now.depths.now) × (name ≡ at question.now.names.now y) × IfSome mark (λ i. logged log.now y ≤ i) }
    ensures { FirstIn question.now.depths.now (λ t. (name ≡ at question.now.names.now t) × IfSome mark (λ i. logged log.now t ≤ i)) (suc from) (length question.now.depths.now) result }
{
    let depths = question.depths;
    let mut hit = 0;
    let mut stop: u16 = 0;
    for at in from..depths.len() {
        if depths[at] < stop {
            return hit;
        }
        if is_logged(question.names, name, log, mark, at) {
            hit = at + 1;
            stop = depths[at] + 1;
        }
    }
    hit
}

// Of the rows behind `first` rows up to row `end`, some of which hold the first row of the path that is asked, with all its
// descendants, the first of these to close: forest by forest, each shallower than the one before. That the path is asked holds of the working
// room at this moment and not of every one, so contracts say it and no type does.
pub(crate) fn seek(
    question: &Question,
    first: usize,
    end: usize,
    work: &mut Work,
    k: usize,
) -> usize
    requires path { PathAsked (recipe_of question.now.shape.now question.now.labels.now) work.old.asked k }
    requires held_deep { HeldDeep (SameLabel question.now.labels.now question.now.names.now) (recipe_of question.now.shape.now question.now.labels.now) question.now.depths.now (chain work.old.asked 0) (suc first) end × Whole question.now.depths.now first end }
    ensures { Found question.now.shape.now question.now.labels.now question.now.depths.now question.now.names.now work.old.asked work.old.log k first end result work.new.asked work.new.room work.new.log }
{
    work.asked.seek_path(k as u16);
    let mut at = first;
    // A `while`: a turn passes a whole forest, so no `for` counts the rows.
    while at < end {
        match forest_corners(question, work, 0, k, at) {
            ControlFlow::Break(row) => return row,
            ControlFlow::Continue(next) => at = next,
        }
    }
    unreachable!()
}
