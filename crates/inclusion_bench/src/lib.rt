// The inclusion answer as a C call, for the bench to time and for the test of its room on the stack.
#![tactic(auto)]

ghost use Rattle.std.specs.Prelude.{◌≡◌, ◌+◌, ◌*◌};
ghost use Rattle.inclusion_bench.specs.Code.{Coded};

use matching::{Answer, Corner};

// The corner as one number.
fn code_of(corner: Corner) -> u64
    ensures { result ≡ 65536 * corner.width + corner.row }
{
    65536 * (corner.width as u64) + corner.row as u64
}

// The answer as one number, for C gets one: an odd one on a yes, an even one on a no, 2 to the 40th for a refusal.
#[unsafe(no_mangle)]
pub extern "C" fn inclusion_bench_include(
    listing_depths: &[u16],
    listing_labels: &[u32],
    recipe_depths: &[u16],
    recipe_labels: &[u32],
    map: &mut [u16],
) -> u64
    ensures { Coded recipe_depths.now recipe_labels.now listing_depths.now listing_labels.now map.old result map.new }
{
    match matching::include(
        listing_depths,
        listing_labels,
        recipe_depths,
        recipe_labels,
        map,
    ) {
        Ok(Answer::Included(corner)) => 2 * code_of(corner) + 1,
        Ok(Answer::Absent(corner)) => 2 * code_of(corner),
        Err(_) => 1099511627776,
    }
}
