// Single numbers in bytes, little-endian: two bytes for a depth, four for a label, a count or a sum.
ghost use Rattle.std.specs.Prelude.{◌≡◌, ℕ, ◌+◌, ◌≤◌, length, drop, nat_lt};
ghost use Rattle.std.proofs.lemmas.List.Edits.{sets};
ghost use Rattle.parcels.specs.Numbers.{le, number};

// Whether an input of that length ends before or inside a field of a size at a place.
pub(crate) fn ends(length: usize, at: usize, size: usize) -> bool
    ensures { result ≡ nat_lt length (at + size) }
{
    length < at || length - at < size
}

// A number of a section, and its width in bytes.
pub(crate) trait Field: Copy {
    ghost WIDTH: { ℕ };

    ghost value: { Self → ℕ };

    const WIDTH: usize;

    // The number that the bytes from a place on make.
    fn read(bytes: &[u8], at: usize) -> Self
        requires { at + WIDTH ≤ length bytes.now }
        ensures { value result ≡ number WIDTH (drop at bytes.now) };

    // Puts the number into bytes from a place on. Other bytes stay.
    fn put(self, bytes: &mut [u8], at: usize)
        requires { at + WIDTH ≤ length bytes.old }
        ensures { bytes.new ≡ sets bytes.old at (le WIDTH (value self)) };

    // The number as a word that the sums add up.
    fn word(self) -> u32
        ensures { result ≡ value self };
}

impl Field for u16 {
    ghost WIDTH = { 2 };

    ghost value = { λ x. x };

    const WIDTH: usize = 2;

    #[tactic(auto, using(crate::proofs::LittleEndian::number_two))]
    fn read(bytes: &[u8], at: usize) -> u16 {
        u16::from_le_bytes([bytes[at], bytes[at + 1]])
    }

    #[tactic(auto, using(crate::proofs::LittleEndian::copied, crate::proofs::LittleEndian::le_two, crate::proofs::Runs::le_length))]
    fn put(self, bytes: &mut [u8], at: usize) {
        bytes[at..at + 2].copy_from_slice(&self.to_le_bytes());
    }

    fn word(self) -> u32 {
        u32::from(self)
    }
}

impl Field for u32 {
    ghost WIDTH = { 4 };

    ghost value = { λ x. x };

    const WIDTH: usize = 4;

    #[tactic(auto, using(crate::proofs::LittleEndian::number_four))]
    fn read(bytes: &[u8], at: usize) -> u32 {
        u32::from_le_bytes([bytes[at], bytes[at + 1], bytes[at + 2], bytes[at + 3]])
    }

    #[tactic(auto, using(crate::proofs::LittleEndian::copied, crate::proofs::LittleEndian::le_four, crate::proofs::Runs::le_length))]
    fn put(self, bytes: &mut [u8], at: usize) {
        bytes[at..at + 4].copy_from_slice(&self.to_le_bytes());
    }

    fn word(self) -> u32 {
        self
    }
}
