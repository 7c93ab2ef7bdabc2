// Which refusal, if any, in document 01's order.
ghost use Rattle.std.specs.Prelude.{◌≡◌, OnOk, suc, ◌+◌, ◌-◌, ◌≤◌, length};
ghost use Rattle.rows.specs.Limits.{deepest};
ghost use Rattle.rows.specs.Rows.{WellFormed};
ghost use Rattle.rows.specs.FirstBad.{most_at};
ghost use Rattle.journal.specs.Entry.{room, may_return, may_rise};
ghost use Rattle.journal.specs.Lent.{lent_of};
ghost use Rattle.journal.specs.Refusals.{lent_verdict, strike_verdict, undo_verdict, Sound, Strikable, Returnable};

use crate::entry::Entry;
use crate::{ENTRY_WORDS, JOURNAL_WORDS, Refusal};

// What a call is lent, in document 01's form: the table's two slices and its count of rows, the journal's slice and its count of entries.
#[derive(Clone, Copy)]
pub(crate) struct Lent<'a> {
    pub(crate) depths: &'a [u16],
    pub(crate) labels: &'a [u32],
    pub(crate) rows: usize,
    pub(crate) journal: &'a [u32],
    pub(crate) entries: usize,
}

impl<'a> Lent<'a> {
    // Numbers 21 to 24: the slices, the row count, the first bad row, the journal.
    #[tactic(auto, unfolding(crate::specs::Refusals::lent_verdict, crate::specs::Refusals::journal_verdict))]
    fn lent_verdict(self) -> Result<(), Refusal>
        ensures verdict { result ≡ lent_verdict (lent_of self.entry) }
        ensures sound { OnOk result (Sound (lent_of self.entry)) }
    {
        if self.depths.len() != self.labels.len() {
            return Err(Refusal::TableSlices);
        }
        if rows::LISTING_ROWS < self.depths.len() {
            return Err(Refusal::TableSlices);
        }
        if self.depths.len() < self.rows {
            return Err(Refusal::RowCount);
        }
        rows::first_bad(&self.depths[..self.rows])?;
        if self.journal.len() % ENTRY_WORDS != 0 {
            return Err(Refusal::JournalSlice);
        }
        if JOURNAL_WORDS < self.journal.len() {
            return Err(Refusal::JournalSlice);
        }
        if self.room() < self.entries {
            return Err(Refusal::JournalSlice);
        }
        Ok(())
    }

    // How many entries the journal has room for.
    fn room(self) -> usize
        ensures { result ≡ room self.entry.journal.now }
    {
        self.journal.len() / ENTRY_WORDS
    }

    // A strike's numbers, 21 to 26.
    #[tactic(auto, unfolding(crate::specs::Refusals::strike_verdict))]
    pub(crate) fn strike_verdict(self, row: usize) -> Result<(), Refusal>
        ensures verdict { result ≡ strike_verdict (lent_of self.entry) row }
        ensures strikable { OnOk result (Strikable (lent_of self.entry) row) }
    {
        self.lent_verdict()?;
        if row < 1 {
            return Err(Refusal::NoSuchRow);
        }
        if self.rows < row {
            return Err(Refusal::NoSuchRow);
        }
        if self.room() <= self.entries {
            return Err(Refusal::JournalFull);
        }
        Ok(())
    }

    // An undo's numbers, 21 to 24 and 27 to 29.
    #[tactic(auto, unfolding(crate::specs::Refusals::undo_verdict))]
    pub(crate) fn undo_verdict(self) -> Result<(), Refusal>
        ensures verdict { result ≡ undo_verdict (lent_of self.entry) }
        ensures returnable { OnOk result (Returnable (lent_of self.entry)) }
    {
        self.lent_verdict()?;
        if self.entries < 1 {
            return Err(Refusal::NoEntries);
        }
        if self.depths.len() <= self.rows {
            return Err(Refusal::TableFull);
        }
        let newest = Entry::read(self.journal, self.entries - 1);
        if !may_return(&self.depths[..self.rows], newest) {
            return Err(Refusal::NeverStruck);
        }
        Ok(())
    }
}

// Number 29's test: whether the row of an entry may return at its place.
#[tactic(auto, using(crate::proofs::Rises::return_here), unfolding(crate::specs::Entry::may_return))]
fn may_return(depths: &[u16], entry: Entry) -> bool
    requires { WellFormed depths.now }
    ensures { result ≡ may_return depths.now entry.row entry.depth entry.below }
{
    if entry.row < 1 {
        return false;
    }
    if depths.len() < entry.row - 1 {
        return false;
    }
    if u32::from(most_at(depths, entry.row)) < entry.depth {
        return false;
    }
    if u32::from(rows::DEEPEST) < entry.depth {
        return false;
    }
    may_rise(&depths[entry.row - 1..], entry.below, entry.depth as u16)
}

// The most that the depth of a row at place `row` may be: 0 for row 1, one more than the depth before it for a later row.
fn most_at(depths: &[u16], row: usize) -> u16
    requires well_formed { WellFormed depths.now }
    requires le_row { (1 ≤ row) × (row ≤ suc (length depths.now)) }
    ensures { result ≡ most_at depths.now row }
{
    if row == 1 {
        return 0;
    }
    depths[row - 2] + 1
}

// Whether the first `below` of the rows behind a row of depth `depth` that returns may rise under it, and just they stand below it.
#[tactic(auto, using(crate::proofs::Rises::rise_short))]
fn may_rise(behind: &[u16], below: usize, depth: u16) -> bool
    requires { depth ≤ deepest }
    ensures { result ≡ may_rise (suc depth) depth below behind.now }
{
    if behind.len() < below {
        return false;
    }
    let mut most = depth + 1;
    for &d in &behind[..below] {
        if d < depth || most <= d || rows::DEEPEST <= d {
            return false;
        }
        most = d + 2;
    }
    behind.len() == below || behind[below] <= depth
}
