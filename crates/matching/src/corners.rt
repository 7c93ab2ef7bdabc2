// The corners of the chains asked, as the rows of a listing close and join. Where they stand in the room is told by two plain numbers, `base` and
// how many (`q`, `z`): each level of the listing has its own, behind those of the level above, and a bounded type for them, or for the
// number of rows before a tree (`first`), would need an unwrap at each sum. The chains and the room are lent apart, so that a contract says at once which of them stays.
ghost use Rattle.std.specs.Prelude.{◌≡◌, true, ◌↔◌, ℕ, suc, ◌≤◌, ◌<◌, ◌+◌, length, get_or};
ghost use Rattle.rows.specs.Rows.{depth, last_row};
ghost use Rattle.rows.specs.Forest.{size, forest_at};
ghost use Rattle.matching.specs.CornerRow.{OnChain};
ghost use Rattle.matching.specs.Shape.{word};
ghost use Rattle.matching.specs.Asked.{chain, path_chains};
ghost use Rattle.matching.specs.Path.{Met, FirstPlace};
ghost use Rattle.matching.specs.Engine.{Begins, Sought, Passed, Bare, corner_of, with_tree};
ghost use Rattle.matching.specs.Room.{room_words, recipe_of, Written, closed, joined, joined_alone, Joins};

use crate::asked::Chains;
use crate::joining::{close_row, join_alone, join_row};
use crate::log::NO_ROW;
use crate::plain::plain_tree;
use crate::question::Question;
use crate::room::Room;
use crate::shape::RecipeShape;
use crate::tree::tree_end;
use crate::work::Work;
use std::ops::ControlFlow;

// No corners yet: the q words of the room from base on become 0. It is read as the parent of row 0: a 0 that stands in the code has the
// compiler call the C library, which for a few words takes longer than to write them.
fn clear(question: &Question, room: &mut Room, base: usize, q: usize)
    requires { base + q ≤ room_words }
    ensures { Written room.old base q (λ i. 0) room.new }
{
    let none = question.shape.parent_of(0);
    if q == 1 {
        room.set(base, none);
        return;
    }
    for i in 0..q {
        room.set(base + i, none);
    }
}

// Closes a row with the label name over the rows below it, whose corners on the z chains asked stand from base on. No twin of `join_leaf`: what
// is done with a slot asks other facts there.
fn close_asked(
    question: &Question,
    name: u32,
    asked: &Chains,
    room: &mut Room,
    base: usize,
    z: usize,
)
    requires z_bound { (base + z ≤ room_words) × (z ≤ 256) }
    requires by_index { (i : ℕ) → i < z → (chain asked.now i ≤ length (recipe_of question.now.shape.now question.now.labels.now)) × (get_or room.old (base + i) 0 ≤ length (recipe_of question.now.shape.now question.now.labels.now)) }
    ensures { Written room.old base z (closed question.now.shape.now question.now.labels.now name asked.now room.old base) room.new }
{
    for i in 0..z {
        let w = close_row(question, name, asked.chain(i), room.at(base + i));
        room.set(base + i, w);
    }
}

// Joins the tree whose corners on the chains asked stand behind the q corners from base on.
fn join_asked(question: &Question, asked: &Chains, room: &mut Room, base: usize, q: usize, z: usize)
    requires q_le_z { (q ≤ z) × (base + q + z ≤ room_words) }
    requires by_index { (i : ℕ) → i < q → Joins question.now.shape.now question.now.labels.now asked.now room.old base q z i }
    ensures { Written room.old base q (joined question.now.shape.now question.now.labels.now asked.now room.old base q) room.new }
{
    for i in 0..q {
        let a = room.at(base + i);
        let b = room.at(base + q + i);
        let w = join_row(question, asked, room, base + q, a, b);
        room.set(base + i, w);
    }
}

// Joins a row with the label name, below which nothing is found, to the q corners from base on.
fn join_leaf(question: &Question, name: u32, asked: &Chains, room: &mut Room, base: usize, q: usize)
    requires q_bound { (base + q ≤ room_words) × (q ≤ 256) }
    requires by_index { (i : ℕ) → i < q → OnChain (recipe_of question.now.shape.now question.now.labels.now) (chain asked.now i) (get_or room.old (base + i) 0) }
    ensures { Written room.old base q (joined_alone question.now.shape.now question.now.labels.now name asked.now room.old base) room.new }
{
    for i in 0..q {
        let w = join_alone(question, name, asked.chain(i), room.at(base + i));
        room.set(base + i, w);
    }
}

// Where the row behind `first` rows is bare, that is, all rows below it have labels of kinds that the recipe has not: the last of its
// tree.
fn bare_end(question: &Question, first: usize) -> Option<usize>
    requires { first < length question.now.depths.now }
    ensures { Bare question.now.shape.now question.now.depths.now question.now.names.now first result }
{
    tree_end(
        question.depths,
        first,
        |at| question.shape.is_foreign(question.names[at]),
    )
}

// Whether the corner w on the i-th of the path's k chains tells of it: it is a row, and stands above the next chain.
fn is_met(shape: &RecipeShape, asked: &Chains, k: usize, i: usize, w: u16) -> bool
    requires { (i < k) × (k ≤ 256) × (w ≤ 256) × (suc i < k → chain asked.now (suc i) ≤ 256) }
    ensures { (result ≡ true) ↔ Met shape.now asked.now k i w }
{
    if w == 0 {
        return false;
    }
    if i + 1 < k {
        return shape.depth_of(w) < shape.depth_of(asked.chain(i + 1));
    }
    true
}

// The place of the first row of the path that a tree includes, by its corners on the path's k chains, which stand from base on; the
// place of no row, as the log's six bits have it, if there is none.
fn first_place(shape: &RecipeShape, asked: &Chains, room: &Room, base: usize, k: usize) -> usize
    requires k_bound { (k ≤ 256) × (base + k ≤ room_words) }
    requires by_index { (i : ℕ) → i < k → (chain asked.now i ≤ 256) × (get_or room.now (base + i) 0 ≤ 256) × (1 ≤ get_or room.now (base + i) 0 → word 3 shape.now (chain asked.now 0) ≤ word 3 shape.now (get_or room.now (base + i) 0)) }
    ensures { FirstPlace shape.now asked.now room.now base k result }
{
    for i in 0..k {
        let w = room.at(base + i);
        if is_met(shape, asked, k, i, w) {
            return (shape.depth_of(w) - shape.depth_of(asked.chain(0))) as usize;
        }
    }
    usize::from(NO_ROW)
}

// Tree against forest: the tree whose first row stands behind `first` rows of the listing joins the q corners from base on, unless
// one of its rows holds the first row of the path by the chains asked. The log notes for each of its rows whose label is of a kind that
// the recipe has what its tree includes of the path.
// Goes on with how many rows stand before the tree's end, or breaks with the row found.
#[cycle(forest_corners_tree_corners)]
fn tree_corners(
    question: &Question,
    work: &mut Work,
    base: usize,
    q: usize,
    first: usize,
) -> ControlFlow<usize, usize>
    requires ready { (first < length question.now.depths.now) × Sought question.now.shape.now question.now.labels.now work.old.asked q (path_chains work.old.asked) }
    requires begins { Begins question.now.shape.now question.now.labels.now work.old.asked work.old.room base q (depth question.now.depths.now (suc first)) }
    requires by_index { (i : ℕ) → i < q → OnChain (recipe_of question.now.shape.now question.now.labels.now) (chain work.old.asked i) (get_or work.old.room (base + i) 0) }
    ensures { Passed question.now.shape.now question.now.labels.now question.now.depths.now question.now.names.now work.old.asked work.old.room work.old.log base q
        (λ i. with_tree question.now.shape.now question.now.labels.now question.now.depths.now question.now.names.now first (chain work.old.asked i) (get_or work.old.room (base + i) 0))
        (path_chains work.old.asked) first (last_row question.now.depths.now (suc first)) result work.new.asked work.new.room work.new.log }
{
    let name = question.names[first];
    if let Some(end) = bare_end(question, first) {
        work.log.write(first, NO_ROW, work.asked.path_chains());
        join_leaf(question, name, &work.asked, &mut work.room, base, q);
        return ControlFlow::Continue(end);
    }
    let z = work.asked.extend(question.shape, &work.room, base, q);
    let k = work.asked.path_chains();
    if let Some(plain) = plain_tree(question, &work.asked, z, first) {
        work.log.write_none(first, plain.end, k);
        if plain.joins {
            join_leaf(question, name, &work.asked, &mut work.room, base, q);
        }
        return ControlFlow::Continue(plain.end);
    }
    let end = forest_corners(question, work, base + q, z, first + 1)?;
    close_asked(question, name, &work.asked, &mut work.room, base + q, z);
    let place = first_place(question.shape, &work.asked, &work.room, base + q, k);
    work.log.write(first, place as u8, k);
    if place == 0 {
        return ControlFlow::Break(first + 1);
    }
    join_asked(question, &work.asked, &mut work.room, base, q, z);
    ControlFlow::Continue(end)
}

// Forest against forest: the corners from base on of the trees that stand side by side behind `first` rows of the listing, on
// the q chains asked, unless one of their rows holds the first row of the path. A row with a label of a kind that the recipe has not is
// passed over as if it were struck: the rows below it stand beside the others.
#[cycle(forest_corners_tree_corners)]
pub(crate) fn forest_corners(
    question: &Question,
    work: &mut Work,
    base: usize,
    q: usize,
    first: usize,
) -> ControlFlow<usize, usize>
    requires ready { (first < length question.now.depths.now) × Sought question.now.shape.now question.now.labels.now work.old.asked q (path_chains work.old.asked) }
    requires begins { Begins question.now.shape.now question.now.labels.now work.old.asked work.old.room base q (depth question.now.depths.now (suc first)) }
    ensures { Passed question.now.shape.now question.now.labels.now question.now.depths.now question.now.names.now work.old.asked work.old.room work.old.log base q
        (λ i. corner_of question.now.shape.now question.now.labels.now question.now.names.now (forest_at question.now.depths.now first (depth question.now.depths.now (suc first))) (chain work.old.asked i))
        (path_chains work.old.asked) first (first + size (forest_at question.now.depths.now first (depth question.now.depths.now (suc first)))) result work.new.asked work.new.room work.new.log }
{
    clear(question, &mut work.room, base, q);
    let depths = question.depths;
    let mut at = first;
    // A `while`: a turn passes a whole tree, so no `for` counts the rows.
    while at < depths.len() && depths[first] <= depths[at] {
        let struck = question.shape.is_foreign(question.names[at]);
        if struck {
            at += 1;
        } else {
            at = tree_corners(question, work, base, q, at)?;
        }
    }
    ControlFlow::Continue(at)
}
