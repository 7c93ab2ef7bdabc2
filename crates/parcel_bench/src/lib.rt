// The reader and the writer as C calls, for the bench to time beside plain C ones.
#![tactic(auto)]

ghost use Rattle.std.specs.Prelude.{◌≡◌};
ghost use Rattle.parcels.specs.Write.{write_of, written};
ghost use Rattle.parcel_bench.specs.Places.{read_listing, depths_after, labels_after, place_after, length_given};

use parcels::Limit;

// The place after the listing's parcel at the front of the input, or 0 for a refusal: C gets one number.
#[unsafe(no_mangle)]
pub extern "C" fn parcel_bench_read(bytes: &[u8], depths: &mut [u16], labels: &mut [u32]) -> usize
    ensures answer { result ≡ place_after (read_listing bytes.now depths.old labels.old) }
    ensures depths_after { depths.new ≡ depths_after bytes.now depths.old labels.old }
    ensures labels_after { labels.new ≡ labels_after bytes.now depths.old labels.old }
{
    match parcels::read(bytes, 0, Limit::Listing, depths, labels) {
        Ok(rows) => rows.next,
        Err(_) => 0,
    }
}

// The parcel's length, or 0 for a refusal: C gets one number.
#[unsafe(no_mangle)]
pub extern "C" fn parcel_bench_write(depths: &[u16], labels: &[u32], bytes: &mut [u8]) -> usize
    ensures answer { result ≡ length_given (write_of depths.now labels.now bytes.old) }
    ensures bytes_after { bytes.new ≡ written depths.now labels.now bytes.old }
{
    parcels::write(depths, labels, bytes).unwrap_or(0)
}
