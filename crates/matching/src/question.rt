// What is asked: a recipe and a listing, both whole.
ghost use Rattle.std.specs.Prelude.{◌≡◌};
ghost use Rattle.matching.specs.Room.{recipe_of};
ghost use Rattle.matching.specs.Engine.{Ready};

use crate::shape::RecipeShape;

// A listing's depths and labels, and a recipe's depths, labels and shape. All that is asked of them stands in the ghost fields.
#[derive(Clone, Copy)]
pub(crate) struct Question<'a> {
    pub(crate) depths: &'a [u16],
    pub(crate) names: &'a [u32],
    pub(crate) recipe: &'a [u16],
    pub(crate) labels: &'a [u32],
    pub(crate) shape: &'a RecipeShape,
    ghost ready: { Ready shape.now labels.now depths.now names.now },
    ghost same: { recipe_of shape.now labels.now ≡ recipe.now },
}
