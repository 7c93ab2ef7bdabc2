// Sections in bytes: a table's labels, four bytes each, its depths, two bytes each, and the two sums.
ghost use Rattle.std.specs.Prelude.{◌≡◌, ◌+◌, ◌*◌, ◌≤◌, ◌++◌, length, drop, map};
ghost use Rattle.std.proofs.lemmas.List.Edits.{sets};
ghost use Rattle.rows.specs.Limits.{listing_rows};
ghost use Rattle.parcels.specs.Numbers.{numbers};
ghost use Rattle.parcels.specs.Parcel.{section};

use crate::numbers::Field;

// Fills the first n slots with the numbers that stand in bytes from a place on. Later slots stay.
pub(crate) fn fill<F: Field>(bytes: &[u8], at: usize, n: usize, slots: &mut [F])
    requires { (at + F.WIDTH * n ≤ length bytes.now) × (n ≤ length slots.old) }
    ensures { map F.value slots.new ≡ numbers F.WIDTH n (drop at bytes.now) ++ drop n (map F.value slots.old) }
{
    for i in 0..n {
        slots[i] = F::read(bytes, at + F::WIDTH * i);
    }
}

// Puts a section into bytes from a place on: the count of its numbers, then each. Other bytes stay.
pub(crate) fn put<F: Field>(bytes: &mut [u8], at: usize, values: &[F])
    requires { (length values.now ≤ listing_rows) × (at + (4 + F.WIDTH * length values.now) ≤ length bytes.old) }
    ensures { bytes.new ≡ sets bytes.old at (section F.WIDTH (map F.value values.now)) }
{
    let count = values.len() as u32;
    count.put(bytes, at);
    for (i, &value) in values.iter().enumerate() {
        value.put(bytes, at + 4 + F::WIDTH * i);
    }
}
