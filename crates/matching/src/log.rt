// The log of a pass: for each listing row six bits, the place of the first row of the path that its tree includes; 63 where there is none. A byte
// has those of one of the first 3,072 rows below two bits of one of the others, whose six stand in three bytes. It has nothing of rows whose
// labels are of kinds that the recipe has not. It stays bytes read by hand: with a byte for each row the call would take over 48 KiB.
ghost use Rattle.std.specs.Prelude.{◌≡◌, ℕ, List, suc, ◌/◌, ◌%◌, ◌≤◌, ◌<◌, length, replicate};
ghost use Rattle.rows.specs.Limits.{listing_rows};
ghost use Rattle.matching.specs.Path.{log_bytes, logged, topped, Put, Blank};

use std::marker::Model;

// The place of no row: what the log has where a tree includes no row of the path.
pub(crate) const NO_ROW: u8 = 63;

#[derive(Drop)]
pub(crate) struct Log {
    bytes: [u8; 3072],
}

impl Model for Log {
    ghost Value = { List ℕ };

    ghost view = { λ log. log.bytes };

    ghost invariant = { λ log. length log.bytes ≡ log_bytes };
}

// The lower six bits of a byte, and the upper two.
fn lower(b: u8) -> u8
    ensures { (result ≡ b % 64) × (result < 64) }
{
    b % 64
}

fn upper(b: u8) -> u8
    ensures { (result ≡ b / 64) × (result < 4) }
{
    b / 64
}

impl Log {
    pub(crate) fn new() -> Self
        ensures { length result ≡ log_bytes }
    {
        Log { bytes: [0; 3072] }
    }

    // What the log has for the row behind `first` rows.
    pub(crate) fn read(&self, first: usize) -> u16
        requires { first < listing_rows }
        ensures { result ≡ logged self.now (suc first) }
    {
        if first < 3072 {
            return u16::from(lower(self.bytes[first]));
        }
        u16::from(
            upper(self.bytes[first - 3072])
                + 4 * upper(self.bytes[first - 2048])
                + 16 * upper(self.bytes[first - 1024]),
        )
    }

    // The upper two bits of byte i become x.
    fn put_upper(&mut self, i: usize, x: u8)
        requires { (i < log_bytes) × (x < 4) }
        ensures { self.new ≡ topped self.old i x }
    {
        self.bytes[i] = 64 * x + lower(self.bytes[i]);
    }

    // The log gets `place` for the row behind `first` rows, unless there is no path: then nobody reads it.
    pub(crate) fn write(&mut self, first: usize, place: u8, k: usize)
        requires { (first < listing_rows) × (place < 64) }
        ensures { Put self.old first place k self.new }
    {
        // Names the bytes, so that their number is known where nothing is written.
        let _ = &self.bytes;
        if k == 0 {
            return;
        }
        if first < 3072 {
            self.bytes[first] = 64 * upper(self.bytes[first]) + place;
            return;
        }
        self.put_upper(first - 3072, place % 4);
        self.put_upper(first - 2048, place / 4 % 4);
        self.put_upper(first - 1024, place / 16);
    }

    // The log gets the place of no row for the rows behind `first` rows up to row `end`.
    pub(crate) fn write_none(&mut self, first: usize, end: usize, k: usize)
        requires { (first ≤ end) × (end ≤ listing_rows) }
        ensures { Blank self.old first end k self.new }
    {
        // Names the bytes, so that their number is known where the stretch has no row.
        let _ = &self.bytes;
        for at in first..end {
            self.write(at, NO_ROW, k);
        }
    }
}
