// A table's slots, into which a parcel is read.
ghost use Rattle.std.specs.Prelude.{◌≡◌, ◌≤◌, IfOk};
ghost use Rattle.parcels.specs.Read.{read_of};
ghost use Rattle.host.specs.Outcome.{zeros};
ghost use Rattle.host.specs.Table.{Holds};

use parcels::{Limit, Rows};

// A slot for each of N rows in both arrays: of fixed size, since there is no heap.
#[derive(Drop)]
pub(crate) struct Table<const N: usize> {
    pub(crate) depths: [u16; N],
    pub(crate) labels: [u32; N],
}

impl<const N: usize> Table<N> {
    pub(crate) fn new() -> Table<N> {
        Table {
            depths: [0; N],
            labels: [0; N],
        }
    }

    // Reads the parcel that starts at a place of the input. Its rows stand in the first slots.
    pub(crate) fn read(
        &mut self,
        input: &[u8],
        start: usize,
        limit: Limit,
    ) -> Result<Rows, parcels::Refusal>
        ensures answer { result ≡ read_of input.now start limit (zeros N) (zeros N) }
        ensures fit { IfOk result (λ rows. rows.count ≤ N) }
        ensures rows { IfOk result (λ rows. Holds input.now start rows.count self.new.depths self.new.labels) }
    {
        parcels::read(input, start, limit, &mut self.depths, &mut self.labels)
    }
}
