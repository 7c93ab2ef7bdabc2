// What is said of an input: its two parcels read in their order, then bytes after them, then the inclusion answer.
ghost use Rattle.std.specs.Prelude.{◌≡◌};
ghost use Rattle.rows.specs.Limits.{recipe_rows};
ghost use Rattle.host.specs.Refusals.{said_number, said_place};
ghost use Rattle.host.specs.Outcome.{zeros, Said};
ghost use Rattle.host.specs.declared.outcome.Refusal.TheVariants as said;

use crate::table::Table;
use matching::{Answer, Corner};
use parcels::Limit;

// A yes with its corner and how many images, or a no with its corner.
#[derive(Clone, Copy, Debug, PartialEq, Eq)]
pub(crate) enum Outcome {
    Included(Corner, usize),
    Absent(Corner),
}

// Why an input gets neither: a parcel is refused, bytes stand behind both, or the tables are refused.
#[derive(Clone, Copy, Debug, PartialEq, Eq)]
pub(crate) enum Refusal {
    Parcel(parcels::Refusal),
    BytesAfter(usize),
    Tables(matching::Refusal),
}

impl Refusal {
    // Document 01's number.
    pub(crate) fn number(self) -> u32
        ensures { result ≡ said_number self }
    {
        match self {
            Refusal::Parcel(refusal) => refusal.number(),
            Refusal::BytesAfter(_) => 15,
            Refusal::Tables(refusal) => refusal.number(),
        }
    }

    // And its place.
    pub(crate) fn place(self) -> usize
        ensures { result ≡ said_place self }
    {
        match self {
            Refusal::Parcel(refusal) => refusal.place(),
            Refusal::BytesAfter(place) => place,
            Refusal::Tables(refusal) => refusal.place(),
        }
    }
}

impl From<parcels::Refusal> for Refusal {
    ghost from_gives = { λ x refusal. refusal ≡ said.Parcel x };

    fn from(refusal: parcels::Refusal) -> Refusal {
        Refusal::Parcel(refusal)
    }
}

impl From<matching::Refusal> for Refusal {
    ghost from_gives = { λ x refusal. refusal ≡ said.Tables x };

    fn from(refusal: matching::Refusal) -> Refusal {
        Refusal::Tables(refusal)
    }
}

// What is said of an input. The map's first slots are the images of a yes.
pub(crate) fn of_input(input: &[u8], map: &mut [u16]) -> Result<Outcome, Refusal>
    requires { map.old ≡ zeros recipe_rows }
    ensures { Said input.now result map.new }
{
    let mut recipe = Table::<{ rows::RECIPE_ROWS }>::new();
    let pattern = recipe.read(input, 0, Limit::Recipe)?;
    let mut listing = Table::<{ rows::LISTING_ROWS }>::new();
    let target = listing.read(input, pattern.next, Limit::Listing)?;
    if target.next < input.len() {
        return Err(Refusal::BytesAfter(target.next));
    }
    let answer = matching::include(
        &listing.depths[..target.count],
        &listing.labels[..target.count],
        &recipe.depths[..pattern.count],
        &recipe.labels[..pattern.count],
        map,
    )?;
    match answer {
        Answer::Included(corner) => Ok(Outcome::Included(corner, pattern.count)),
        Answer::Absent(corner) => Ok(Outcome::Absent(corner)),
    }
}
