// The recipe's shape: of each row its parent, right sibling, left-most leaf and depth, and a bit for each kind of label. Rows name one
// another by their numbers, since there is no heap (a rule of the project).
ghost use Rattle.std.specs.Prelude.{◌≡◌, true, ◌↔◌, ℕ, List, ◌%◌, ◌≤◌, ◌<◌, length};
ghost use Rattle.rows.specs.Rows.{Outline};
ghost use Rattle.matching.specs.Shape.{words, word, kind_bit, Noted, Foreign, Kinds, Shape};
ghost use Rattle.matching.specs.Linked.{Rooted};

use crate::leaves::find_leaves;
use crate::link::link_rows;
use std::marker::Model;

// The rows about a row, 0 where there is none, and its depth: 16 bits each, since the whole call has 48 KiB.
#[derive(Clone, Copy)]
pub(crate) struct Node {
    pub(crate) parent: u16,
    pub(crate) right: u16,
    pub(crate) leaf: u16,
    pub(crate) depth: u16,
}

// The rows from row 0 on, and sixteen kinds a word. Contracts see all its words, four a row and behind them those of the kinds.
#[derive(Drop)]
pub(crate) struct RecipeShape {
    pub(crate) rows: [Node; 257],
    kinds: [u16; 128],
}

impl Model for RecipeShape {
    ghost Value = { List ℕ };

    ghost view = { λ s. words s.rows s.kinds };

    ghost invariant = { λ s. (length s.rows ≡ 257) × (length s.kinds ≡ 128) };
}

impl RecipeShape {
    // No row is linked yet.
    pub(crate) fn new() -> Self
        ensures { (rd : List ℕ) → length rd ≤ 256 → Rooted rd result }
    {
        RecipeShape {
            rows: [Node {
                parent: 0,
                right: 0,
                leaf: 0,
                depth: 0,
            }; 257],
            kinds: [0; 128],
        }
    }

    // It becomes the shape of a recipe with these depths and labels. Row 0 loses the right sibling that linking left there.
    pub(crate) fn draw(&mut self, depths: &[u16], labels: &[u32])
        requires { Outline depths.now × Rooted depths.now self.old }
        ensures { Shape depths.now self.new × Kinds labels.now self.new }
    {
        find_leaves(depths, self);
        link_rows(depths, self);
        self.rows[0].right = 0;
        note_kinds(labels, &mut self.kinds);
    }

    // Rows are asked for by plain numbers: a type for one of at most 256 would need an unwrap wherever one is reckoned.

    // The parent of row v, 0 for a root.
    pub(crate) fn parent_of(&self, v: u16) -> u16
        requires { v ≤ 256 }
        ensures { result ≡ word 0 self.now v }
    {
        self.rows[v as usize].parent
    }

    // The right sibling of row v, 0 if it has none.
    pub(crate) fn right_of(&self, v: u16) -> u16
        requires { v ≤ 256 }
        ensures { result ≡ word 1 self.now v }
    {
        self.rows[v as usize].right
    }

    // The left-most leaf of the tree at row v.
    pub(crate) fn leaf_of(&self, v: u16) -> u16
        requires { v ≤ 256 }
        ensures { result ≡ word 2 self.now v }
    {
        self.rows[v as usize].leaf
    }

    // The depth of row v.
    pub(crate) fn depth_of(&self, v: u16) -> u16
        requires { v ≤ 256 }
        ensures { result ≡ word 3 self.now v }
    {
        self.rows[v as usize].depth
    }

    // Whether the recipe has no label of this one's kind, and so surely not this label.
    pub(crate) fn is_foreign(&self, label: u32) -> bool
        ensures { (result ≡ true) ↔ Foreign self.now label }
    {
        self.kinds[kind_word(label)] & kind_bit(label) == 0
    }
}

// The place of the word in which a label's kind is noted, and its bit there.
fn kind_word(label: u32) -> usize
    ensures { (result ≡ label % 128) × (result < 128) }
{
    (label % 128) as usize
}

fn kind_bit(label: u32) -> u16
    ensures { result ≡ kind_bit label }
{
    1u16 << (label / 128 % 16)
}

// Notes the kinds of the recipe's labels.
fn note_kinds(labels: &[u32], kinds: &mut [u16; 128])
    requires { length kinds.old ≡ 128 }
    ensures { Noted labels.now kinds.new (length labels.now) }
{
    for label in labels {
        kinds[kind_word(*label)] |= kind_bit(*label);
    }
}
