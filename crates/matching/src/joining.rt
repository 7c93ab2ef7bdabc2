// The corner as one row of the recipe: how it changes when a listing row closes over the rows below it, and when a tree joins.
// It is a number, 0 for none, and no Option: the room keeps it in 16 bits, and 0 is document 01's row above all roots.
ghost use Rattle.std.specs.Prelude.{◌≡◌, true, ◌↔◌, ◌≤◌, ◌<◌, ◌+◌, length};
ghost use Rattle.rows.specs.Rows.{at};
ghost use Rattle.matching.specs.CornerRow.{close_row, join_row, OnChain};
ghost use Rattle.matching.specs.Shape.{word};
ghost use Rattle.matching.specs.Asked.{noted};
ghost use Rattle.matching.specs.Room.{room_words, recipe_of, following, named, alone};

use crate::asked::Chains;
use crate::question::Question;
use crate::room::Room;
use crate::shape::RecipeShape;

// The label of recipe row v; that of row 0 is 0, for a node may name row 0, which is above all roots.
pub(crate) fn label_of(labels: &[u32], v: u16) -> u32
    requires { v ≤ length labels.now }
    ensures { result ≡ at labels.now v }
{
    if v == 0 {
        return 0;
    }
    labels[(v as usize) - 1]
}

// Close a row with the label name over the rows below it, whose corner on chain x is w: the corner on chain x then.
pub(crate) fn close_row(question: &Question, name: u32, x: u16, w: u16) -> u16
    requires { (x ≤ length (recipe_of question.now.shape.now question.now.labels.now)) × (w ≤ length (recipe_of question.now.shape.now question.now.labels.now)) }
    ensures { result ≡ close_row (named question.now.labels.now) (recipe_of question.now.shape.now question.now.labels.now) x name w }
{
    let shape = question.shape;
    if w == 0 {
        let v = shape.leaf_of(x);
        if label_of(question.labels, v) == name {
            return v;
        }
        return 0;
    }
    if shape.depth_of(w) == shape.depth_of(x) {
        return w;
    }
    if shape.right_of(w) != 0 {
        return w;
    }
    let v = shape.parent_of(w);
    if label_of(question.labels, v) == name {
        return v;
    }
    w
}

// Whether b is a row, and shallower than d.
fn is_higher(shape: &RecipeShape, b: u16, d: u16) -> bool
    requires { b ≤ 256 }
    ensures { (result ≡ true) ↔ ((1 ≤ b) × (word 3 shape.now b < d)) }
{
    b != 0 && shape.depth_of(b) < d
}

// Whether w is a row of depth d.
pub(crate) fn is_level(shape: &RecipeShape, w: u16, d: u16) -> bool
    requires { w ≤ 256 }
    ensures { (result ≡ true) ↔ ((1 ≤ w) × (word 3 shape.now w ≡ d)) }
{
    w != 0 && shape.depth_of(w) == d
}

// The tree's corner on the chain after a, which the room keeps from base on; 0 where there is no such chain.
fn corner_after(shape: &RecipeShape, asked: &Chains, room: &Room, base: usize, a: u16) -> u16
    requires { (a ≤ 256) × (word 1 shape.now a ≤ 256) × (1 ≤ word 1 shape.now a → base + noted asked.now (word 1 shape.now a) < room_words) }
    ensures { result ≡ following shape.now asked.now room.now base a }
{
    let y = shape.right_of(a);
    if y == 0 {
        return 0;
    }
    room.at(base + asked.place_of(y))
}

// Join a tree, whose corners the room keeps from base on: a is the corner so far, b the tree's corner on the same chain.
pub(crate) fn join_row(
    question: &Question,
    asked: &Chains,
    room: &Room,
    base: usize,
    a: u16,
    b: u16,
) -> u16
    requires a_in_bounds { (a ≤ length (recipe_of question.now.shape.now question.now.labels.now)) × (b ≤ length (recipe_of question.now.shape.now question.now.labels.now)) × (following question.now.shape.now asked.now room.now base a ≤ length (recipe_of question.now.shape.now question.now.labels.now)) }
    requires a_bound { (word 1 question.now.shape.now a ≤ 256) × (1 ≤ word 1 question.now.shape.now a → base + noted asked.now (word 1 question.now.shape.now a) < room_words) }
    ensures { result ≡ join_row (recipe_of question.now.shape.now question.now.labels.now) a b (following question.now.shape.now asked.now room.now base a) }
{
    if a == 0 {
        return b;
    }
    let shape = question.shape;
    let d = shape.depth_of(a);
    if is_higher(shape, b, d) {
        return b;
    }
    let w = corner_after(shape, asked, room, base, a);
    if is_level(shape, w, d) {
        return w;
    }
    a
}

// How a listing row alone with the label name changes the corner a on chain x: the row's own corner, a left-most leaf, is never
// higher than a, so where a is a row, only a leaf beside it can be gained.
pub(crate) fn join_alone(question: &Question, name: u32, x: u16, a: u16) -> u16
    requires { OnChain (recipe_of question.now.shape.now question.now.labels.now) x a }
    ensures { result ≡ join_row (recipe_of question.now.shape.now question.now.labels.now) a (alone question.now.shape.now question.now.labels.now name x) (alone question.now.shape.now question.now.labels.now name (word 1 question.now.shape.now a)) }
{
    if a == 0 {
        return close_row(question, name, x, 0);
    }
    let y = question.shape.right_of(a);
    if y != 0 && question.shape.leaf_of(y) == y && label_of(question.labels, y) == name {
        return y;
    }
    a
}
