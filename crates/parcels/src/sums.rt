// The two sums of a parcel: both run modulo 4,294,967,296 and start at 0.
ghost use Rattle.std.specs.Prelude.{◌≡◌, ◌+◌, ◌*◌, ◌≤◌, length, drop, map};
ghost use Rattle.rows.specs.Limits.{listing_rows};
ghost use Rattle.parcels.specs.Numbers.{numbers};
ghost use Rattle.parcels.specs.Sums.{none, added, added_all};

use crate::numbers::Field;

// The first sum adds up words; the second adds up the first sum's value after each word.
#[derive(Clone, Copy)]
pub(crate) struct Sums {
    pub first: u32,
    pub second: u32,
}

impl Sums {
    // No word summed yet.
    #[tactic(auto, unfolding(crate::specs::Sums::none))]
    pub(crate) fn none() -> Sums
        ensures { result ≡ none }
    {
        Sums {
            first: 0,
            second: 0,
        }
    }

    // The sums after one more word.
    #[tactic(auto, unfolding(crate::specs::Sums::added))]
    pub(crate) fn add(self, word: u32) -> Sums
        ensures { result ≡ added self word }
    {
        let first = self.first.wrapping_add(word);
        let second = self.second.wrapping_add(first);
        Sums { first, second }
    }

    // The sums after all numbers of a slice.
    pub(crate) fn add_all<F: Field>(self, values: &[F]) -> Sums
        ensures { result ≡ added_all self (map F.value values.now) }
    {
        let mut after = self;
        for x in values {
            after = after.add(x.word());
        }
        after
    }

    // The sums after n numbers that stand in bytes from a place on.
    pub(crate) fn add_in<F: Field>(self, bytes: &[u8], at: usize, n: usize) -> Sums
        requires { at + F.WIDTH * n ≤ length bytes.now }
        ensures { result ≡ added_all self (numbers F.WIDTH n (drop at bytes.now)) }
    {
        let mut after = self;
        for i in 0..n {
            after = after.add(F::read(bytes, at + F::WIDTH * i).word());
        }
        after
    }

    // The sums over a table: its count, its labels and its depths, in that order.
    pub(crate) fn of_table(labels: &[u32], depths: &[u16]) -> Sums
        requires { length labels.now ≤ listing_rows }
        ensures { result ≡ added_all (added_all (added none (length labels.now)) labels.now) depths.now }
    {
        let count = labels.len() as u32;
        Sums::none().add(count).add_all(labels).add_all(depths)
    }
}
