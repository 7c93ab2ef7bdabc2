// An entry of the journal, and its words there.
ghost use Rattle.std.specs.Prelude.{◌≡◌, ◌+◌, ◌*◌, ◌^◌, ◌<◌, ◌≤◌, length};
ghost use Rattle.journal.specs.Entry.{entry_words, entry_at, noted, words, written};

use crate::ENTRY_WORDS;

// The row struck, its label, its depth, and its descendants before the strike.
#[derive(Clone, Copy)]
pub(crate) struct Entry {
    pub(crate) row: usize,
    pub(crate) label: u32,
    pub(crate) depth: u32,
    pub(crate) below: usize,
}

impl Entry {
    // No entry: its words are 0.
    pub(crate) const NONE: Entry = Entry {
        row: 0,
        label: 0,
        depth: 0,
        below: 0,
    };

    // The entry behind `entries` others.
    pub(crate) fn read(journal: &[u32], entries: usize) -> Entry
        requires { entries * entry_words + entry_words ≤ length journal.now }
        ensures { noted result ≡ entry_at journal.now entries }
    {
        let at = entries * ENTRY_WORDS;
        Entry {
            row: journal[at] as usize,
            label: journal[at + 1],
            depth: journal[at + 2],
            below: journal[at + 3] as usize,
        }
    }

    // Its words are written behind `entries` other entries.
    pub(crate) fn write(self, journal: &mut [u32], entries: usize)
        requires fits { (self.row < 2 ^ 32) × (self.below < 2 ^ 32) }
        requires room { entries * entry_words + entry_words ≤ length journal.old }
        ensures { journal.new ≡ written journal.old entries (words (noted self)) }
    {
        let at = entries * ENTRY_WORDS;
        let words = [self.row as u32, self.label, self.depth, self.below as u32];
        journal[at..at + ENTRY_WORDS].copy_from_slice(&words);
    }
}
