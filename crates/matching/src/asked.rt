// The chains that are asked of a tree. How many, a caller knows: each level's list is the front of the next level's.
ghost use Rattle.std.specs.Prelude.{◌≡◌, true, ◌↔◌, ℕ, List, ◌∷◌, ◌++◌, ◌≤◌, ◌<◌, ◌+◌, length, get_or, set};
ghost use Rattle.matching.specs.Asked.{Asked, chain, noted, path_chains, Member, Asks, after, Extends};
ghost use Rattle.matching.specs.Room.{room_words};

use crate::room::Room;
use crate::shape::RecipeShape;
use std::marker::Model;

// A list of recipe rows, how many of them make the path that is sought, and for each row from row 1 on its place in the list. Contracts see
// all its words, one behind the other.
#[derive(Drop)]
pub(crate) struct Chains {
    rows: [u16; 256],
    path: u16,
    places: [u16; 256],
}

impl Model for Chains {
    ghost Value = { List ℕ };

    ghost view = { λ asked. asked.rows ++ asked.path ∷ asked.places };

    ghost invariant = { λ asked. (length asked.rows ≡ 256) × (length asked.places ≡ 256) };
}

impl Chains {
    // Nothing is asked or sought.
    pub(crate) fn new() -> Self
        ensures { length result ≡ 513 }
    {
        Chains {
            rows: [0; 256],
            path: 0,
            places: [0; 256],
        }
    }

    // The i-th chain asked.
    pub(crate) fn chain(&self, i: usize) -> u16
        requires { i < 256 }
        ensures { result ≡ chain self.now i }
    {
        self.rows[i]
    }

    // The place noted for row y.
    pub(crate) fn place_of(&self, y: u16) -> usize
        requires { (1 ≤ y) × (y ≤ 256) }
        ensures { result ≡ noted self.now y }
    {
        usize::from(self.places[(y as usize) - 1])
    }

    // How many chains the path sought has.
    pub(crate) fn path_chains(&self) -> usize
        ensures { result ≡ path_chains self.now }
    {
        usize::from(self.path)
    }

    // The first k chains asked make the path that is sought.
    pub(crate) fn seek_path(&mut self, k: u16)
        ensures { self.new ≡ set self.old 256 k }
    {
        self.path = k;
    }

    // Whether row y is among the first z.
    fn is_asked(&self, z: usize, y: u16) -> bool
        requires { (z ≤ 256) × (1 ≤ y) × (y ≤ 256) }
        ensures { (result ≡ true) ↔ Member self.now z y }
    {
        let p = self.place_of(y);
        p < z && self.rows[p] == y
    }

    // Asks row y too, unless it is 0 or asked already. Answers how many are asked then.
    pub(crate) fn ask(&mut self, z: usize, y: u16) -> usize
        requires { (y ≤ 256) × Asked 256 self.old z }
        ensures { Asks self.old z y self.new result }
    {
        if y == 0 || self.is_asked(z, y) {
            return z;
        }
        self.rows[z] = y;
        self.places[(y as usize) - 1] = z as u16;
        z + 1
    }

    // Asks row y first.
    pub(crate) fn ask_first(&mut self, y: u16) -> usize
        requires { y ≤ 256 }
        ensures { (length self.old ≡ 513) × Asks self.old 0 y self.new result }
    {
        // Names the words, so that their number is known.
        let _ = &self.rows;
        self.ask(0, y)
    }

    // Asks also the chain after each of the q corners that room keeps from base on. Answers how many are asked then.
    pub(crate) fn extend(
        &mut self,
        shape: &RecipeShape,
        room: &Room,
        base: usize,
        q: usize,
    ) -> usize
        requires q_bound { (base + q ≤ room_words) × Asked 256 self.old q }
        requires by_index { (i : ℕ) → i < q → (get_or room.now (base + i) 0 ≤ 256) × (after shape.now room.now (base + i) ≤ 256) }
        ensures { Extends shape.now self.old room.now base q q self.new result }
    {
        let mut z = q;
        for i in 0..q {
            z = self.ask(z, shape.right_of(room.at(base + i)));
        }
        z
    }
}
