// Parcels: how a table travels. A parcel is read and written whole, or refused.
#![tactic(auto)]

mod fields;
mod judge;
mod numbers;
mod parcel;
mod sums;

ghost use Rattle.std.specs.Prelude.{◌≡◌, ◌+◌, ◌*◌, ◌≤◌, length, Some};
ghost use Rattle.std.proofs.lemmas.List.Edits.{sets};
ghost use Rattle.rows.specs.Limits.{listing_rows};
ghost use Rattle.parcels.specs.Parcel.{parcel_of};
ghost use Rattle.parcels.specs.Write.{write_of, written};
ghost use Rattle.parcels.specs.Read.{read_of, filled, labels_in, depths_in};
ghost use Rattle.parcels.specs.Refusals.{number_of, place_of, number_and_place};

use crate::parcel::Parcel;
use crate::sums::Sums;
use std::fmt;

// Whose row limit holds.
#[derive(Clone, Copy, Debug, PartialEq, Eq)]
pub enum Limit {
    Recipe,
    Listing,
}

// Why a parcel is not read or not written, with its place in the input where that is not 0. specs/Refusals.antt has the numbers.
#[derive(Clone, Copy, Debug, PartialEq, Eq)]
pub enum Refusal {
    // The row slices to write differ in length.
    SlicesDiffer,
    // More rows to write than a listing may have.
    OverLimit,
    // The input ends inside a field.
    Ended(usize),
    // The second count differs from the first.
    SecondCount(usize),
    // The third count is not 2.
    ThirdCount(usize),
    // A sum differs.
    SumDiffers(usize),
    // The first count is over the limit.
    FirstCount(usize),
    // The lent bytes are too short for the parcel.
    BytesTooShort,
    // A lent row slice is too short for the rows.
    RowsTooShort,
}

impl Refusal {
    // Its number of refusal.
    pub fn number(self) -> u32
        ensures { result ≡ number_of self }
    {
        match self {
            Refusal::SlicesDiffer => 6,
            Refusal::OverLimit => 7,
            Refusal::Ended(_) => 11,
            Refusal::SecondCount(_) => 12,
            Refusal::ThirdCount(_) => 13,
            Refusal::SumDiffers(_) => 14,
            Refusal::FirstCount(_) => 16,
            Refusal::BytesTooShort => 17,
            Refusal::RowsTooShort => 18,
        }
    }

    // Its place in the input, or 0.
    pub fn place(self) -> usize
        ensures { result ≡ place_of self }
    {
        match self {
            Refusal::Ended(place)
            | Refusal::SecondCount(place)
            | Refusal::ThirdCount(place)
            | Refusal::SumDiffers(place)
            | Refusal::FirstCount(place) => place,
            Refusal::SlicesDiffer
            | Refusal::OverLimit
            | Refusal::BytesTooShort
            | Refusal::RowsTooShort => 0,
        }
    }
}

// The number and the place, with a space between.
impl fmt::Display for Refusal {
    ghost output = { λ refusal. Some (number_and_place refusal) };

    fn fmt<W: fmt::Write>(&self, f: &mut fmt::Formatter<W>) -> fmt::Result {
        write!(f, "{} {}", self.number(), self.place())
    }
}

// The rows that were read: how many, and the place after their parcel.
#[derive(Clone, Copy, Debug, PartialEq, Eq)]
pub struct Rows {
    pub count: usize,
    pub next: usize,
}

// Puts the parcel of a table at the front of bytes that have room for it. Later bytes stay.
fn put_parcel(depths: &[u16], labels: &[u32], bytes: &mut [u8])
    requires depths_len { (length depths.now ≡ length labels.now) × (length labels.now ≤ listing_rows) }
    requires labels_in_bounds { 20 + 6 * length labels.now ≤ length bytes.old }
    ensures { bytes.new ≡ sets bytes.old 0 (parcel_of depths.now labels.now) }
{
    let n = labels.len();
    let whole = Sums::of_table(labels, depths);
    fields::put(bytes, 0, labels);
    fields::put(bytes, 4 + 4 * n, depths);
    fields::put(bytes, 8 + 6 * n, &[whole.first, whole.second]);
}

// Writes a table, of any depths, as a parcel at the front of the lent bytes. Bytes after the parcel stay, and a refusal changes none.
#[tactic(auto, unfolding(crate::specs::Write::write_of))]
pub fn write(depths: &[u16], labels: &[u32], bytes: &mut [u8]) -> Result<usize, Refusal>
    ensures answer { result ≡ write_of depths.now labels.now bytes.old }
    ensures bytes_after { bytes.new ≡ written depths.now labels.now bytes.old }
{
    let n = labels.len();
    if depths.len() != n {
        return Err(Refusal::SlicesDiffer);
    }
    if rows::LISTING_ROWS < n {
        return Err(Refusal::OverLimit);
    }
    let size = 20 + 6 * n;
    if bytes.len() < size {
        return Err(Refusal::BytesTooShort);
    }
    put_parcel(depths, labels, bytes);
    Ok(size)
}

// Reads the parcel that starts at a place of the input into the lent row slices. It fills the first slots of each, one a row;
// later slots stay, and a refusal changes none: all is judged before a slot is filled.
#[tactic(auto, using(crate::proofs::Accepting::fillable))]
pub fn read(
    bytes: &[u8],
    start: usize,
    limit: Limit,
    depths: &mut [u16],
    labels: &mut [u32],
) -> Result<Rows, Refusal>
    ensures answer { result ≡ read_of bytes.now start limit depths.old labels.old }
    ensures depths_after { depths.new ≡ filled result (depths_in bytes.now start) depths.old }
    ensures labels_after { labels.new ≡ filled result (labels_in bytes.now start) labels.old }
{
    let claimed = judge::claim(bytes, start, judge::most_rows(limit))?;
    let parcel = Parcel {
        bytes,
        start,
        rows: claimed,
    };
    let agreed = parcel.agree()?;
    let rows = judge::room(agreed, depths.len(), labels.len())?;
    fields::fill(bytes, start + 4, rows.count, labels);
    fields::fill(bytes, parcel.depths_at(), rows.count, depths);
    Ok(rows)
}
