// A parcel that the input claims: where its parts stand, and whether its sums are those of its rows.
ghost use Rattle.std.specs.Prelude.{◌≡◌, ◌+◌, ◌*◌, ◌≤◌, length};
ghost use Rattle.rows.specs.Limits.{listing_rows};
ghost use Rattle.parcels.specs.Read.{depths_at, sums_at, sums_agree, agreed_of};

use crate::numbers::Field;
use crate::sums::Sums;
use crate::{Refusal, Rows};

// All its bytes lie in the input.
#[derive(Clone, Copy)]
pub(crate) struct Parcel<'a> {
    pub bytes: &'a [u8],
    pub start: usize,
    pub rows: Rows,
    ghost few: { rows.count ≤ listing_rows },
    ghost within: { start + (20 + 6 * rows.count) ≤ length bytes.now },
}

impl Parcel<'_> {
    // Where its depths stand, and where its sums.
    pub(crate) fn depths_at(&self) -> usize
        ensures { result ≡ depths_at self.now.start self.now.rows.count }
    {
        self.start + 4 + 4 * self.rows.count + 4
    }

    fn sums_at(&self) -> usize
        ensures { result ≡ sums_at self.now.start self.now.rows.count }
    {
        self.start + 4 + 4 * self.rows.count + 4 + 2 * self.rows.count + 4
    }

    // Whether both sums of the input are those of its rows.
    #[tactic(auto, using(crate::proofs::Summing::table_sums), unfolding(crate::specs::Read::sums_agree))]
    fn sums_agree(&self) -> bool
        ensures { result ≡ sums_agree self.now.bytes.now self.now.start self.now.rows.count }
    {
        let count = self.rows.count;
        let counted = Sums::none().add(count as u32);
        let labelled = counted.add_in::<u32>(self.bytes, self.start + 4, count);
        let whole = labelled.add_in::<u16>(self.bytes, self.depths_at(), count);
        let at = self.sums_at();
        u32::read(self.bytes, at) == whole.first && u32::read(self.bytes, at + 4) == whole.second
    }

    // Its rows, if both sums agree.
    pub(crate) fn agree(&self) -> Result<Rows, Refusal>
        ensures { result ≡ agreed_of self.now.bytes.now self.now.start (Ok self.now.rows) }
    {
        if self.sums_agree() {
            return Ok(self.rows);
        }
        Err(Refusal::SumDiffers(self.sums_at()))
    }
}
