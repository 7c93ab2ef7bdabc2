// The map of earliest close: an image for each recipe row, in row order.
ghost use Rattle.std.specs.Prelude.{◌≡◌, ◌≤◌, ◌-◌, length, take, drop, set, IfSome};
ghost use Rattle.rows.specs.Limits.{listing_rows};
ghost use Rattle.rows.specs.Rows.{at, descendants};
ghost use Rattle.rows.specs.Embedding.{SameLabel, Included};
ghost use Rattle.matching.specs.Family.{left_sibling, parent};
ghost use Rattle.matching.specs.EarliestClose.{EarliestClose};
ghost use Rattle.matching.specs.Placing.{barred};
ghost use Rattle.matching.specs.Images.{Cleared, Begun, Stage, NextRow};
ghost use Rattle.matching.specs.Engine.{Known};

use crate::link::{Kin, kin_of};
use crate::path::{ask_path, mark_chain};
use crate::question::Question;
use crate::seek::seek_row;
use crate::window::seek_behind;
use crate::work::Work;

// The image of recipe row v; 0 where there is none, for the lent map holds numbers.
fn image_of(map: &[u16], v: u16) -> u16
    ensures { result ≡ at map.now v }
{
    rows::depth_of(map, rows::Opening(v as usize))
}

// The last row that a recipe row may not go to: of the tree at its left sibling's image, or, where it has none (0, as in the shape), the
// image of its parent.
fn last_barred(depths: &[u16], map: &[u16], kin: Kin) -> usize
    ensures { result ≡ barred depths.now map.now kin.left kin.parent }
{
    if kin.left == 0 {
        return image_of(map, kin.parent) as usize;
    }
    rows::last_row_of(depths, rows::Opening(image_of(map, kin.left) as usize)).0
}

// The rows of the recipe have neither images nor marks; slots behind them stay. The map is a lent slice, so here and below contracts say that it
// has a slot for each of them.
fn clear_marks(recipe: &[u16], map: &mut [u16])
    requires { length recipe.now ≤ length map.old }
    ensures { Cleared recipe.now map.old map.new }
{
    map[..recipe.len()].fill(0);
}

// The image of recipe row v, whose window begins behind `from` rows: a leaf's by its label, a marked row's by the log, any other's by a
// pass, for which the path below it is marked.
fn find_image(question: &Question, work: &mut Work, map: &mut [u16], v: u16, from: usize) -> usize
    requires next { NextRow (SameLabel question.now.labels.now question.now.names.now) question.now.recipe.now question.now.depths.now work.old.log map.old v }
    requires begins { from ≡ barred question.now.depths.now map.old (left_sibling question.now.recipe.now v) (parent question.now.recipe.now v) }
    ensures upper_bound { (result ≤ length question.now.depths.now) × Stage (SameLabel question.now.labels.now question.now.names.now) question.now.recipe.now question.now.depths.now map.old work.new.log (set map.new (v - 1) result) v }
    ensures map_len_unchanged { length map.new ≡ length map.old }
{
    let name = question.labels[(v as usize) - 1];
    if question.shape.leaf_of(v) == v {
        return seek_row(question, name, from, None, &work.log);
    }
    let mark = image_of(map, v);
    let marked = mark != 0;
    if marked {
        return seek_row(question, name, from, Some(mark), &work.log);
    }
    let k = ask_path(question, &mut work.asked, map, v);
    seek_behind(question, from, work, k)
}

// Places recipe row v, where all rows before it have their images.
fn place_row(question: &Question, work: &mut Work, map: &mut [u16], v: u16)
    requires { NextRow (SameLabel question.now.labels.now question.now.names.now) question.now.recipe.now question.now.depths.now work.old.log map.old v }
    ensures { Stage (SameLabel question.now.labels.now question.now.names.now) question.now.recipe.now question.now.depths.now map.old work.new.log map.new v }
{
    let kin = kin_of(question.recipe, question.shape, v);
    let from = last_barred(question.depths, map, kin);
    let image = find_image(question, work, map, v, from);
    map[(v as usize) - 1] = image as u16;
}

// Places row 1 where its image is known already, and marks the rows of its chain. Answers how many rows are placed.
fn place_known(question: &Question, known: Option<usize>, map: &mut [u16]) -> usize
    requires known { IfSome known (λ t. (t ≤ listing_rows) × (1 ≤ descendants question.now.recipe.now 1)) }
    requires in_bounds { (1 ≤ length question.now.recipe.now) × (length question.now.recipe.now ≤ length map.old) }
    ensures { Begun question.now.recipe.now known map.old result map.new }
{
    let Some(row) = known else {
        return 0;
    };
    mark_chain(question, map);
    map[0] = row as u16;
    1
}

// Places all recipe rows: the first slots of the map become the map of earliest close, and later slots stay. The image of row 1
// may be known already.
pub(crate) fn place_rows(
    question: &Question,
    work: &mut Work,
    known: Option<usize>,
    map: &mut [u16],
)
    requires in_bounds { (1 ≤ length question.now.recipe.now) × (length question.now.recipe.now ≤ length map.old) }
    requires included { Included (SameLabel question.now.labels.now question.now.names.now) question.now.recipe.now question.now.depths.now }
    requires known { Known question.now.shape.now question.now.labels.now question.now.depths.now question.now.names.now work.old.log known }
    ensures earliest_close { EarliestClose (SameLabel question.now.labels.now question.now.names.now) question.now.recipe.now question.now.depths.now (take (length question.now.recipe.now) map.new) }
    ensures map_unchanged { drop (length question.now.recipe.now) map.new ≡ drop (length question.now.recipe.now) map.old }
{
    clear_marks(question.recipe, map);
    let placed = place_known(question, known, map);
    for i in placed..question.recipe.len() {
        place_row(question, work, map, (i + 1) as u16);
    }
}
