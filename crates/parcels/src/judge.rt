// The reader's judgement of an input, before a row is handed out: its fields in reading order, and last the room.
ghost use Rattle.std.specs.Prelude.{◌≡◌, ◌+◌, ◌≤◌};
ghost use Rattle.rows.specs.Limits.{listing_rows};
ghost use Rattle.parcels.specs.Read.{most_rows, section_of, claim_of, room_of};

use crate::numbers::Field;
use crate::{Limit, Refusal, Rows, numbers};

// A whole section: its count and the place after it. A section's count is not yet a count of rows that were read, so these are no `Rows`.
#[derive(Clone, Copy)]
pub(crate) struct Whole {
    pub count: usize,
    pub next: usize,
}

// The most rows that a parcel may have.
pub(crate) fn most_rows(limit: Limit) -> usize
    ensures { result ≡ most_rows limit }
{
    match limit {
        Limit::Recipe => rows::RECIPE_ROWS,
        Limit::Listing => rows::LISTING_ROWS,
    }
}

// Looks at the section at a place: its count, first for being whole, then for lying between least and most; then its fields.
#[tactic(auto, unfolding(crate::specs::Read::section_of))]
fn section(
    bytes: &[u8],
    at: usize,
    least: usize,
    most: usize,
    width: usize,
    miscounted: Refusal,
) -> Result<Whole, Refusal>
    requires { (most ≤ listing_rows) × (width ≤ 4) }
    ensures { result ≡ section_of bytes.now at least most width miscounted }
{
    let ended = Refusal::Ended(bytes.len());
    if numbers::ends(bytes.len(), at, 4) {
        return Err(ended);
    }
    let count = u32::read(bytes, at) as usize;
    if count < least || most < count {
        return Err(miscounted);
    }
    let size = width * count;
    if numbers::ends(bytes.len(), at + 4, size) {
        return Err(ended);
    }
    Ok(Whole {
        count,
        next: at + 4 + size,
    })
}

// Looks at the three sections in their order: the labels, the depths, the two sums.
#[tactic(auto, unfolding(crate::specs::Read::claim_of))]
pub(crate) fn claim(bytes: &[u8], start: usize, most: usize) -> Result<Rows, Refusal>
    requires { most ≤ listing_rows }
    ensures { result ≡ claim_of bytes.now start most }
{
    let labels = section(bytes, start, 0, most, 4, Refusal::FirstCount(start))?;
    let n = labels.count;
    let second = labels.next;
    let depths = section(bytes, second, n, n, 2, Refusal::SecondCount(second))?;
    let third = depths.next;
    let sums = section(bytes, third, 2, 2, 4, Refusal::ThirdCount(third))?;
    Ok(Rows {
        count: n,
        next: sums.next,
    })
}

// What was agreed, if both lent row slices have a slot for each row.
pub(crate) fn room(agreed: Rows, depths: usize, labels: usize) -> Result<Rows, Refusal>
    ensures { result ≡ room_of (Ok agreed) depths labels }
{
    if depths < agreed.count || labels < agreed.count {
        return Err(Refusal::RowsTooShort);
    }
    Ok(agreed)
}
