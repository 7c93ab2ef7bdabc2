// The working room of the passes over a listing.
ghost use Rattle.std.specs.Prelude.{◌≡◌, length};
ghost use Rattle.matching.specs.Room.{room_words};
ghost use Rattle.matching.specs.Path.{log_bytes};

use crate::asked::Chains;
use crate::log::Log;
use crate::room::Room;

// The chains that are asked, the corners found on them, level below level, and the log: arrays of fixed size, since there is no heap.
#[derive(Drop)]
pub(crate) struct Work {
    pub(crate) asked: Chains,
    pub(crate) room: Room,
    pub(crate) log: Log,
    ghost size: { length room ≡ room_words },
    ghost log_size: { length log ≡ log_bytes },
}

impl Work {
    // Nothing asked, found or logged.
    pub(crate) fn new() -> Self {
        Work {
            asked: Chains::new(),
            room: Room::new(),
            log: Log::new(),
        }
    }
}
