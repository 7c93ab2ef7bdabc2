// The parents and siblings of the recipe's rows, found row by row from row 1 on. The shape is not whole yet: so contracts, and no type, say of
// the depths and of row v what is asked.
ghost use Rattle.std.specs.Prelude.{◌≡◌, suc, length};
ghost use Rattle.rows.specs.Rows.{Row};
ghost use Rattle.matching.specs.Family.{left_sibling, parent};
ghost use Rattle.matching.specs.Linked.{Climbs, no_deeper, Linked};

use crate::shape::{Node, RecipeShape};

// A row's left sibling, 0 if it has none, and its parent: row 0 takes the right sibling of a row without a left one.
#[derive(Clone, Copy)]
pub(crate) struct Kin {
    pub left: u16,
    pub parent: u16,
}

// The last row before v that is no deeper than v, row 0 if there is none: from the row before v up by the parents.
fn no_deeper(depths: &[u16], shape: &RecipeShape, v: u16) -> u16
    requires { Row depths.now v × Climbs depths.now shape.now v }
    ensures { result ≡ no_deeper depths.now v }
{
    let d = depths[(v as usize) - 1];
    let mut u = v - 1;
    // A `while`: it climbs by the parents, which stand in no list.
    while d < shape.depth_of(u) {
        u = shape.parent_of(u);
    }
    u
}

// The left sibling and the parent of row v. The last row before v that is no deeper is the left sibling if it is as deep, and
// then has the same parent; else it is the parent.
pub(crate) fn kin_of(depths: &[u16], shape: &RecipeShape, v: u16) -> Kin
    requires { Row depths.now v × Climbs depths.now shape.now v }
    ensures left { result.left ≡ left_sibling depths.now v }
    ensures parent { result.parent ≡ parent depths.now v }
{
    let u = no_deeper(depths, shape, v);
    let d = depths[(v as usize) - 1];
    if shape.depth_of(u) == d {
        return Kin {
            left: u,
            parent: shape.parent_of(u),
        };
    }
    Kin { left: 0, parent: u }
}

// Row v is linked: it becomes the right sibling of its left sibling (of row 0 if it has none), and has its parent, no right
// sibling as yet, and its depth.
fn link_row(depths: &[u16], shape: &mut RecipeShape, v: u16)
    requires { Row depths.now v × Linked depths.now shape.old v }
    ensures { Linked depths.now shape.new (suc v) }
{
    let kin = kin_of(depths, shape, v);
    shape.rows[kin.left as usize].right = v;
    let i = v as usize;
    shape.rows[i] = Node {
        parent: kin.parent,
        right: 0,
        leaf: shape.rows[i].leaf,
        depth: depths[i - 1],
    };
}

// All rows are linked, from row 1 on.
pub(crate) fn link_rows(depths: &[u16], shape: &mut RecipeShape)
    requires { Linked depths.now shape.old 1 }
    ensures { Linked depths.now shape.new (suc (length depths.now)) }
{
    for i in 0..depths.len() {
        link_row(depths, shape, (i + 1) as u16);
    }
}
