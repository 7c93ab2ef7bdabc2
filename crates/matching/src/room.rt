// The room in which the corners of the chains asked are kept, level below level.
ghost use Rattle.std.specs.Prelude.{◌≡◌, ℕ, List, ◌<◌, length, get_or, set};
ghost use Rattle.matching.specs.Room.{room_words};

use std::marker::Model;

#[derive(Drop)]
pub(crate) struct Room {
    words: [u16; 14592],
}

impl Model for Room {
    ghost Value = { List ℕ };

    ghost view = { λ room. room.words };

    ghost invariant = { λ room. length room.words ≡ room_words };
}

impl Room {
    // No corner is kept yet.
    pub(crate) fn new() -> Self
        ensures { length result ≡ room_words }
    {
        Room { words: [0; 14592] }
    }

    // The corner behind i words.
    pub(crate) fn at(&self, i: usize) -> u16
        requires { i < room_words }
        ensures { result ≡ get_or self.now i 0 }
    {
        self.words[i]
    }

    // The word behind i words becomes this corner.
    pub(crate) fn set(&mut self, i: usize, corner: u16)
        requires { i < room_words }
        ensures { (length self.old ≡ room_words) × (self.new ≡ set self.old i corner) }
    {
        self.words[i] = corner;
    }
}
