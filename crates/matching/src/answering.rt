// The answer: the tables are judged, then the corner is found, and on a yes the map.
ghost use Rattle.std.specs.Prelude.{◌≡◌, true, ◌↔◌, ℕ, ◌≤◌, length, None, Ok};
ghost use Rattle.rows.specs.Rows.{at, Row};
ghost use Rattle.rows.specs.Forest.{forest};
ghost use Rattle.matching.specs.Answer.{Answers};
ghost use Rattle.matching.specs.CornerRow.{place, width_at, row_at};
ghost use Rattle.matching.specs.Refusals.{GoodTables};
ghost use Rattle.matching.specs.Shape.{word};
ghost use Rattle.matching.specs.Room.{recipe_of};
ghost use Rattle.matching.specs.Engine.{Known, corner_of};

use crate::corners::forest_corners;
use crate::images::place_rows;
use crate::joining::is_level;
use crate::question::Question;
use crate::shape::RecipeShape;
use crate::tables::check_tables;
use crate::work::Work;
use crate::{Answer, Corner, Refusal};
use std::ops::ControlFlow;

// How many rows the first pass seeks: row 1, where it is the only root and has rows below it; else none.
fn sought_rows(shape: &RecipeShape) -> u16
    ensures { (result ≤ 1) × ((1 ≤ result) ↔ ((word 1 shape.now 1 ≡ 0) × (word 2 shape.now 1 ≡ 1 → ⊥))) }
{
    if shape.right_of(1) == 0 && shape.leaf_of(1) != 1 {
        return 1;
    }
    0
}

// The corner of the whole listing as one row of the recipe, and the image of row 1, where the search came upon it. The corner is 0 where
// nothing is found, as the room's 16 bits have it: `width_at` and `row_at` are defined of that number.
#[derive(Clone, Copy)]
struct Top {
    corner: u16,
    image: Option<usize>,
}

// The corner of a recipe of one row, with the label `name`: the row itself, where a row of the listing has its label.
fn only_row(names: &[u32], name: u32) -> Top
    ensures { (result.image ≡ None) × (result.corner ≤ 1) × ((1 ≤ result.corner) ↔ ((y : ℕ) × Row names.now y × (name ≡ at names.now y))) }
{
    Top {
        corner: names.contains(&name) as u16,
        image: None,
    }
}

// One pass over the listing, in which row 1 alone is asked; a recipe of one row needs none. One that is a larger tree is found when its root is.
fn top_corner(question: &Question, work: &mut Work) -> Top
    requires { 1 ≤ length (recipe_of question.now.shape.now question.now.labels.now) }
    ensures { (result.corner ≡ corner_of question.now.shape.now question.now.labels.now question.now.names.now (forest question.now.depths.now) 1) × Known question.now.shape.now question.now.labels.now question.now.depths.now question.now.names.now work.new.log result.image }
{
    if question.depths.is_empty() {
        return Top {
            corner: 0,
            image: None,
        };
    }
    if question.labels.len() == 1 {
        return only_row(question.names, question.labels[0]);
    }
    work.asked.seek_path(sought_rows(question.shape));
    work.asked.ask_first(1);
    match forest_corners(question, work, 0, 1, 0) {
        ControlFlow::Break(row) => Top {
            corner: 1,
            image: Some(row),
        },
        ControlFlow::Continue(_) => Top {
            corner: work.room.at(0),
            image: None,
        },
    }
}

// The place of a row among its siblings, from 1: the rows of its depth, counted back to the first shallower one.
fn place_of(recipe: &[u16], w: u16) -> u16
    requires { w ≤ length recipe.now }
    ensures { result ≡ place recipe.now w }
{
    let d = rows::depth_of(recipe, rows::Opening(w as usize));
    let mut count: u16 = 0;
    // A `for`: the check does not find what a chain of `rev`, `take_while`, `filter` and `count` gives here.
    for i in (0..w as usize).rev() {
        if recipe[i] < d {
            return count;
        }
        if recipe[i] == d {
            count += 1;
        }
    }
    count
}

// The corner whose last subtree is at row w, as width and row.
fn corner_of(question: &Question, w: u16) -> Corner
    requires { (1 ≤ length question.now.recipe.now) × (w ≤ length question.now.recipe.now) }
    ensures { (result.width ≡ width_at question.now.recipe.now w) × (result.row ≡ row_at question.now.recipe.now w) }
{
    if w == 0 {
        return Corner {
            width: 0,
            row: question.shape.leaf_of(1),
        };
    }
    Corner {
        width: place_of(question.recipe, w),
        row: question.shape.parent_of(w),
    }
}

// Whether the corner is the whole recipe: its last subtree is the last root.
fn is_whole(shape: &RecipeShape, w: u16) -> bool
    requires { w ≤ 256 }
    ensures { (result ≡ true) ↔ ((1 ≤ w) × (word 3 shape.now w ≡ 0) × (word 1 shape.now w ≡ 0)) }
{
    is_level(shape, w, 0) && shape.right_of(w) == 0
}

// The answer to two good tables with a map slice that is long enough.
fn answer_good(
    depths: &[u16],
    names: &[u32],
    recipe: &[u16],
    labels: &[u32],
    map: &mut [u16],
) -> Answer
    requires { GoodTables recipe.now labels.now depths.now names.now × (length recipe.now ≤ length map.old) }
    ensures { Answers recipe.now labels.now depths.now names.now map.old (Ok result) map.new }
{
    let mut shape = RecipeShape::new();
    shape.draw(recipe, labels);
    let question = Question {
        depths,
        names,
        recipe,
        labels,
        shape: &shape,
    };
    let mut work = Work::new();
    let top = top_corner(&question, &mut work);
    let corner = corner_of(&question, top.corner);
    if !is_whole(&shape, top.corner) {
        return Answer::Absent(corner);
    }
    place_rows(&question, &mut work, top.image, map);
    Answer::Included(corner)
}

// Whether the listing includes the recipe. A yes writes one image for each recipe row, the map of earliest close, and no further
// slot; a no and a refusal leave the map as it was. The slices come one by one, as document 01 lends them.
pub fn include(
    listing_depths: &[u16],
    listing_labels: &[u32],
    recipe_depths: &[u16],
    recipe_labels: &[u32],
    map: &mut [u16],
) -> Result<Answer, Refusal>
    ensures { Answers recipe_depths.now recipe_labels.now listing_depths.now listing_labels.now map.old result map.new }
{
    check_tables(listing_depths, listing_labels, recipe_depths, recipe_labels)?;
    if map.len() < recipe_depths.len() {
        return Err(Refusal::MapShort);
    }
    Ok(answer_good(
        listing_depths,
        listing_labels,
        recipe_depths,
        recipe_labels,
        map,
    ))
}
