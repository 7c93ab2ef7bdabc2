// The left-most leaves of the recipe's rows, found from the last row back. As in link.rt, the shape is not whole yet: contracts say what is asked.
ghost use Rattle.std.specs.Prelude.{◌≡◌};
ghost use Rattle.rows.specs.Rows.{Row, Outline};
ghost use Rattle.matching.specs.Family.{left_leaf};
ghost use Rattle.matching.specs.Linked.{Rooted, Leaved};

use crate::shape::RecipeShape;

// The left-most leaf of the tree at row v: the next row's if that row is deeper, and so its first child, else v itself.
fn left_leaf(depths: &[u16], shape: &RecipeShape, v: u16) -> u16
    requires { Row depths.now v × Outline depths.now × Leaved depths.now shape.now v }
    ensures { result ≡ left_leaf depths.now v }
{
    let i = v as usize;
    if rows::depth_of(depths, rows::Opening(i)) < rows::depth_of(depths, rows::Opening(i + 1)) {
        return shape.leaf_of(v + 1);
    }
    v
}

// All rows have their left-most leaves.
pub(crate) fn find_leaves(depths: &[u16], shape: &mut RecipeShape)
    requires { Outline depths.now × Rooted depths.now shape.old }
    ensures { Leaved depths.now shape.new 0 }
{
    for i in (0..depths.len()).rev() {
        let leaf = left_leaf(depths, shape, (i + 1) as u16);
        shape.rows[i + 1].leaf = leaf;
    }
}
