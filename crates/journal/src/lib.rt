// Strike and undo: the engineer edits a listing by striking rows, and the journal takes strikes back.
#![tactic(auto)]

mod moves; // slots that move by one place
mod entry; // an entry and its words in the journal
mod judge; // which refusal, if any

ghost use Rattle.std.specs.Prelude.{◌≡◌, Some};
ghost use Rattle.journal.specs.Lent.{lent};
ghost use Rattle.journal.specs.Refusals.{number, place, number_and_place, of_bad_row, strike_answer, after_strike, undo_answer, after_undo};

use entry::Entry;
use judge::Lent;
use rows::BadRow;
use std::fmt;

// The most words of a journal, and the words of an entry.
pub const JOURNAL_WORDS: usize = 16384;

pub const ENTRY_WORDS: usize = 4;

// Why a call is refused: document 01's numbers 21 to 29, in their order. A bad row has its number.
#[derive(Clone, Copy, Debug, PartialEq, Eq)]
pub enum Refusal {
    TableSlices,
    RowCount,
    BadRow(usize),
    JournalSlice,
    NoSuchRow,
    JournalFull,
    NoEntries,
    TableFull,
    NeverStruck,
}

impl Refusal {
    // Document 01's number of a refusal.
    pub fn number(self) -> u32
        ensures { result ≡ number self }
    {
        match self {
            Refusal::TableSlices => 21,
            Refusal::RowCount => 22,
            Refusal::BadRow(_) => 23,
            Refusal::JournalSlice => 24,
            Refusal::NoSuchRow => 25,
            Refusal::JournalFull => 26,
            Refusal::NoEntries => 27,
            Refusal::TableFull => 28,
            Refusal::NeverStruck => 29,
        }
    }

    // Its place: the first bad row, or 0.
    pub fn place(self) -> usize
        ensures { result ≡ place self }
    {
        match self {
            Refusal::BadRow(row) => row,
            _ => 0,
        }
    }
}

// The first bad row, whatever is bad there.
impl From<BadRow> for Refusal {
    ghost from_gives = { λ bad why. why ≡ of_bad_row bad };

    fn from(bad: BadRow) -> Refusal {
        match bad {
            BadRow::Step(row) | BadRow::TooDeep(row) => Refusal::BadRow(row),
        }
    }
}

// As document 01's line has it: the number and the place.
impl fmt::Display for Refusal {
    ghost output = { λ why. Some (number_and_place why) };

    fn fmt<W: fmt::Write>(&self, f: &mut fmt::Formatter<W>) -> fmt::Result {
        write!(f, "{} {}", self.number(), self.place())
    }
}

// The counts of rows and of entries that the caller goes on with.
#[derive(Clone, Copy, Debug, PartialEq, Eq)]
pub struct Counts {
    pub rows: usize,
    pub entries: usize,
}

// Both calls take slices and counts one by one, as document 01 lends them.

// Strikes a row of the table and writes its entry. A refusal leaves all slices as they were.
pub fn strike(
    depths: &mut [u16],
    labels: &mut [u32],
    count: usize,
    journal: &mut [u32],
    entries: usize,
    row: usize,
) -> Result<Counts, Refusal>
    ensures answer { result ≡ strike_answer (lent depths.old labels.old count journal.old entries) row }
    ensures depths { depths.new ≡ (after_strike (lent depths.old labels.old count journal.old entries) row).depths }
    ensures labels { labels.new ≡ (after_strike (lent depths.old labels.old count journal.old entries) row).labels }
    ensures journal { journal.new ≡ (after_strike (lent depths.old labels.old count journal.old entries) row).journal }
{
    let lent = Lent {
        depths,
        labels,
        rows: count,
        journal,
        entries,
    };
    lent.strike_verdict(row)?;
    let below = rows::descendants_of(&depths[..count], rows::Opening(row));
    let entry = Entry {
        row,
        label: labels[row - 1],
        depth: u32::from(depths[row - 1]),
        below,
    };
    entry.write(journal, entries);
    for depth in &mut depths[row..row + below] {
        *depth -= 1;
    }
    moves::close(depths, row, count, 0);
    moves::close(labels, row, count, 0);
    Ok(Counts {
        rows: count - 1,
        entries: entries + 1,
    })
}

// Takes the newest strike back: its row returns, and its entry's words become 0. A refusal leaves all slices as they were.
pub fn undo(
    depths: &mut [u16],
    labels: &mut [u32],
    count: usize,
    journal: &mut [u32],
    entries: usize,
) -> Result<Counts, Refusal>
    ensures answer { result ≡ undo_answer (lent depths.old labels.old count journal.old entries) }
    ensures depths { depths.new ≡ (after_undo (lent depths.old labels.old count journal.old entries)).depths }
    ensures labels { labels.new ≡ (after_undo (lent depths.old labels.old count journal.old entries)).labels }
    ensures journal { journal.new ≡ (after_undo (lent depths.old labels.old count journal.old entries)).journal }
{
    let lent = Lent {
        depths,
        labels,
        rows: count,
        journal,
        entries,
    };
    lent.undo_verdict()?;
    let entry = Entry::read(journal, entries - 1);
    Entry::NONE.write(journal, entries - 1);
    let first = entry.row - 1;
    for depth in &mut depths[first..first + entry.below] {
        *depth += 1;
    }
    moves::open(depths, entry.row, count, entry.depth as u16);
    moves::open(labels, entry.row, count, entry.label);
    Ok(Counts {
        rows: count + 1,
        entries: entries - 1,
    })
}
