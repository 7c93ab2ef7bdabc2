// The two tables of a question: whether they can be asked about, or the first refusal that holds of them.
ghost use Rattle.std.specs.Prelude.{◌≡◌, ℕ};
ghost use Rattle.matching.specs.Refusals.{Gives, table_check, tables_check};
ghost use Rattle.matching.specs.declared.Refusal.{Refusal};

use crate::Refusal;
use rows::BadRow;

// What refuses a kind of table, in the order in which it is tried.
#[derive(Clone, Copy)]
struct Rules<S, D> {
    slices: Refusal,
    // A recipe without rows is refused, a listing is fine.
    empty: Result<(), Refusal>,
    most: usize,
    long: Refusal,
    step: S,
    deep: D,
}

impl<S: Fn(usize) -> Refusal, D: Fn(usize) -> Refusal> Rules<S, D> {
    // The first refusal that holds of a table: its slices differ, it has no rows, it has too many, or its first bad row.
    fn check(&self, depths: &[u16], labels: &[u32]) -> Result<(), Refusal>
        requires step { S.IsAlwaysCallable self.now.step }
        requires deep { D.IsAlwaysCallable self.now.deep }
        ensures { (step deep : ℕ → Refusal) → Gives (S.post self.now.step) step → Gives (D.post self.now.deep) deep
            → result ≡ table_check self.now.slices self.now.empty self.now.most self.now.long step deep depths.now labels.now }
    {
        if depths.len() != labels.len() {
            return Err(self.slices);
        }
        if depths.is_empty() {
            return self.empty;
        }
        if self.most < depths.len() {
            return Err(self.long);
        }
        match rows::first_bad(depths) {
            Ok(()) => Ok(()),
            Err(BadRow::Step(row)) => Err((self.step)(row)),
            Err(BadRow::TooDeep(row)) => Err((self.deep)(row)),
        }
    }
}

// The first of the refusals 1 to 9 that holds of the two tables: the recipe's before the listing's.
pub(crate) fn check_tables(
    listing_depths: &[u16],
    listing_labels: &[u32],
    recipe_depths: &[u16],
    recipe_labels: &[u32],
) -> Result<(), Refusal>
    ensures { result ≡ tables_check recipe_depths.now recipe_labels.now listing_depths.now listing_labels.now }
{
    let recipe = Rules {
        slices: Refusal::RecipeSlices,
        empty: Err(Refusal::RecipeEmpty),
        most: rows::RECIPE_ROWS,
        long: Refusal::RecipeLong,
        step: Refusal::RecipeStep,
        deep: Refusal::RecipeDeep,
    };
    let listing = Rules {
        slices: Refusal::ListingSlices,
        empty: Ok(()),
        most: rows::LISTING_ROWS,
        long: Refusal::ListingLong,
        step: Refusal::ListingStep,
        deep: Refusal::ListingDeep,
    };
    recipe.check(recipe_depths, recipe_labels)?;
    listing.check(listing_depths, listing_labels)
}
