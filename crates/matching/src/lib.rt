// The inclusion answer: whether a listing includes a recipe, with its map or its corner.
#![tactic(auto)]

ghost use Rattle.std.specs.Prelude.{◌≡◌, Some};
ghost use Rattle.matching.specs.Refusals.{refusal_number, refusal_place, number_and_place};

mod answering;
mod asked;
mod corners;
mod images;
mod joining;
mod judging;
mod leaves;
mod link;
mod log;
mod path;
mod plain;
mod question;
mod room;
mod seek;
mod shape;
mod tables;
mod tree;
mod window;
mod work;

pub use answering::include;
pub use judging::judge;
use std::fmt;

// Why a question about a recipe and a listing is refused: document 01's numbers 1 to 10, a bad row with its number.
#[derive(Clone, Copy, Debug, PartialEq, Eq)]
pub enum Refusal {
    RecipeSlices,
    RecipeEmpty,
    RecipeLong,
    RecipeStep(usize),
    RecipeDeep(usize),
    ListingSlices,
    ListingLong,
    ListingStep(usize),
    ListingDeep(usize),
    MapShort,
}

impl Refusal {
    // Document 01's number.
    pub fn number(self) -> u32
        ensures { result ≡ refusal_number self }
    {
        match self {
            Refusal::RecipeSlices => 1,
            Refusal::RecipeEmpty => 2,
            Refusal::RecipeLong => 3,
            Refusal::RecipeStep(_) => 4,
            Refusal::RecipeDeep(_) => 5,
            Refusal::ListingSlices => 6,
            Refusal::ListingLong => 7,
            Refusal::ListingStep(_) => 8,
            Refusal::ListingDeep(_) => 9,
            Refusal::MapShort => 10,
        }
    }

    // Document 01's place: the bad row, or 0.
    pub fn place(self) -> usize
        ensures { result ≡ refusal_place self }
    {
        match self {
            Refusal::RecipeStep(row)
            | Refusal::RecipeDeep(row)
            | Refusal::ListingStep(row)
            | Refusal::ListingDeep(row) => row,
            Refusal::RecipeSlices
            | Refusal::RecipeEmpty
            | Refusal::RecipeLong
            | Refusal::ListingSlices
            | Refusal::ListingLong
            | Refusal::MapShort => 0,
        }
    }
}

// The number and the place, with a space between.
impl fmt::Display for Refusal {
    ghost output = { λ refusal. Some (number_and_place refusal) };

    fn fmt<W: fmt::Write>(&self, f: &mut fmt::Formatter<W>) -> fmt::Result {
        write!(f, "{} {}", self.number(), self.place())
    }
}

// A left corner of the recipe: the first `width` subtrees of row `row`. Row 0 is above all roots.
#[derive(Clone, Copy, Debug, PartialEq, Eq)]
pub struct Corner {
    pub width: u16,
    pub row: u16,
}

// Whether the listing includes the recipe, with the highest and widest left corner that it does include.
#[derive(Clone, Copy, Debug, PartialEq, Eq)]
pub enum Answer {
    Included(Corner),
    Absent(Corner),
}
