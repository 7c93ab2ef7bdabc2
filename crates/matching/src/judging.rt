// The plain judge, kept beside the inclusion call: it tries every candidate row.
ghost use Rattle.std.specs.Prelude.{◌≡◌};
ghost use Rattle.matching.specs.Judge.{Judged, Searchable, Tells};

use crate::Refusal;
use crate::tables::check_tables;
use rows::{Opening, last_row_of};

// A table, lent once to the whole search.
#[derive(Clone, Copy)]
struct Table<'a> {
    depths: &'a [u16],
    labels: &'a [u32],
}

// What is left of a table: its rows after row `after` up to row `last`, which are whole trees.
#[derive(Clone, Copy)]
struct Rest<'a> {
    table: &'a Table<'a>,
    after: usize,
    last: usize,
    ghost searchable: { Searchable table.now.depths.now table.now.labels.now after last },
}

impl<'a> Rest<'a> {
    // The rows of the same table after row `after` up to row `last`.
    fn part(self, after: usize, last: usize) -> Rest<'a>
        requires { Searchable self.table.now.depths.now self.table.now.labels.now after last }
        ensures { (result.table.now ≡ self.entry.table.now) × (result.after ≡ after) × (result.last ≡ last) }
    {
        Rest {
            table: self.table,
            after,
            last,
        }
    }
}

// Whether what is left of the recipe lies in what is left of the listing. Each listing row with the first recipe row's label is tried
// as its image: the rows below the one must lie in the rows below the other, and the rows behind the one's tree in those behind the
// other's. What is left is lent, and both calls share one `rest`, so that a level takes little of the stack.
fn search(listing: &Rest<'_>, recipe: &Rest<'_>) -> bool
    ensures { Tells recipe.now.table.now.depths.now recipe.now.table.now.labels.now recipe.now.after recipe.now.last
        listing.now.table.now.depths.now listing.now.table.now.labels.now listing.now.after listing.now.last result }
{
    if recipe.after == recipe.last {
        return true;
    }
    let label = recipe.table.labels[recipe.after];
    let recipe_tree = last_row_of(recipe.table.depths, Opening(recipe.after + 1)).0;
    let below = recipe.part(recipe.after + 1, recipe_tree);
    let behind = recipe.part(recipe_tree, recipe.last);
    for passed in listing.after..listing.last {
        if listing.table.labels[passed] == label {
            let listing_tree = last_row_of(listing.table.depths, Opening(passed + 1)).0;
            let mut rest = listing.part(passed + 1, listing_tree);
            if search(&rest, &below) {
                rest = listing.part(listing_tree, listing.last);
                if search(&rest, &behind) {
                    return true;
                }
            }
        }
    }
    false
}

// Whether the listing includes the recipe, by the plain search; or the first of the refusals 1 to 9. Lent as `include` is.
// The laws speak of a yes and of a no apart too, so that a wrong body is refused at the case which it turns.
#[tactic(auto, using(crate::proofs::JudgeLaws::judged, crate::proofs::JudgeLaws::judged_yes, crate::proofs::JudgeLaws::judged_no))]
pub fn judge(
    listing_depths: &[u16],
    listing_labels: &[u32],
    recipe_depths: &[u16],
    recipe_labels: &[u32],
) -> Result<bool, Refusal>
    ensures { Judged recipe_depths.now recipe_labels.now listing_depths.now listing_labels.now result }
{
    check_tables(listing_depths, listing_labels, recipe_depths, recipe_labels)?;
    let listing_table = Table {
        depths: listing_depths,
        labels: listing_labels,
    };
    let recipe_table = Table {
        depths: recipe_depths,
        labels: recipe_labels,
    };
    let listing = Rest {
        table: &listing_table,
        after: 0,
        last: listing_depths.len(),
    };
    let recipe = Rest {
        table: &recipe_table,
        after: 0,
        last: recipe_depths.len(),
    };
    Ok(search(&listing, &recipe))
}
