// Trees of the listing whose rows all bear one label, and that give the chains asked no more than their first row alone.
ghost use Rattle.std.specs.Prelude.{◌≡◌, ℕ, suc, ◌≤◌, ◌<◌, length};
ghost use Rattle.matching.specs.Asked.{chain};
ghost use Rattle.matching.specs.Room.{recipe_of};
ghost use Rattle.matching.specs.Engine.{next_row, Gain, OneLabel, PlainTree};

use crate::asked::Chains;
use crate::joining::label_of;
use crate::question::Question;
use crate::shape::RecipeShape;
use crate::tree::tree_end;

// The last row of such a tree, and whether it joins: else it changes nothing.
#[derive(Clone, Copy)]
pub(crate) struct Plain {
    pub(crate) end: usize,
    pub(crate) joins: bool,
}

// The row that a corner at row v needs next: its right sibling, or else its parent.
fn next_of(shape: &RecipeShape, v: u16) -> u16
    requires { v ≤ 256 }
    ensures { result ≡ next_row shape.now v }
{
    let y = shape.right_of(v);
    if y == 0 {
        return shape.parent_of(v);
    }
    y
}

// Whether a left-most leaf of the z chains asked has the label name; none where the row that such a leaf needs next has it too.
fn gain_of(question: &Question, asked: &Chains, z: usize, name: u32) -> Option<bool>
    requires z_bound { z ≤ 256 }
    requires by_index { (i : ℕ) → i < z → chain asked.now i ≤ length (recipe_of question.now.shape.now question.now.labels.now) }
    ensures { Gain question.now.shape.now question.now.labels.now asked.now z name result }
{
    let mut joins = false;
    for i in 0..z {
        let leaf = question.shape.leaf_of(asked.chain(i));
        if label_of(question.labels, leaf) == name {
            if label_of(question.labels, next_of(question.shape, leaf)) == name {
                return None;
            }
            joins = true;
        }
    }
    Some(joins)
}

// Where the rows of the tree of the row behind `first` rows, at most 16, all bear one label, the last of them.
fn plain_end(question: &Question, first: usize) -> Option<usize>
    requires { first < length question.now.depths.now }
    ensures { OneLabel question.now.depths.now question.now.names.now first result }
{
    let names = question.names;
    tree_end(
        question.depths,
        first,
        |at| at <= first + 15 && names[at] == names[first],
    )
}

// Where the tree of the row behind `first` rows, which has rows below it, is such a tree for the z chains asked: what it is. They are looked
// at only where its first two rows bear one label.
pub(crate) fn plain_tree(
    question: &Question,
    asked: &Chains,
    z: usize,
    first: usize,
) -> Option<Plain>
    requires first_in_bounds { suc first < length question.now.depths.now }
    requires z_bound { z ≤ 256 }
    requires by_index { (i : ℕ) → i < z → chain asked.now i ≤ length (recipe_of question.now.shape.now question.now.labels.now) }
    ensures { PlainTree question.now.shape.now question.now.labels.now question.now.depths.now question.now.names.now asked.now z first result }
{
    let names = question.names;
    if names[first] != names[first + 1] {
        return None;
    }
    let joins = gain_of(question, asked, z, names[first])?;
    let end = plain_end(question, first)?;
    Some(Plain { end, joins })
}
