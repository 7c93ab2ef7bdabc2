// A path down the recipe, whose rows are sought together: a row, of its children the one with the most rows below it, and so on. Rows of it
// that are first children stand on one chain, and one corner tells of them all.
ghost use Rattle.std.specs.Prelude.{◌≡◌, [], ◌∷◌, ℕ, ◌≤◌, ◌<◌, ◌-◌, length};
ghost use Rattle.rows.specs.Rows.{Row, depth, descendants};
ghost use Rattle.matching.specs.Family.{parent};
ghost use Rattle.matching.specs.Asked.{chain, Asked};
ghost use Rattle.matching.specs.Room.{room_words, room_for};
ghost use Rattle.matching.specs.Path.{PathAsked, AsksNext, Marks};

use crate::asked::Chains;
use crate::log::NO_ROW;
use crate::question::Question;
use crate::shape::RecipeShape;

// How many chains a path from row v on may have: 63, one for each place that the log can tell; fewer where the levels of a pass might not have
// room, that is in a recipe of over 228 rows: 15, and in its upper levels one.
fn most_chains(question: &Question, v: u16) -> usize
    ensures { (1 ≤ result) × ((k : ℕ) → k ≤ result → k ≤ length question.now.recipe.now → room_for (length question.now.recipe.now) k (64 - depth question.now.recipe.now v) ≤ room_words) }
{
    let small = question.recipe.len() <= 228;
    if small {
        return 63;
    }
    if 4 <= rows::depth_of(question.recipe, rows::Opening(v as usize)) {
        return 15;
    }
    1
}

// Of the children of row u, which has some, the one with the most rows below it; of several the first. Any child would do: the choice
// only saves steps.
fn widest_child(question: &Question, u: u16) -> u16
    requires { Row question.now.recipe.now u × (1 ≤ descendants question.now.recipe.now u) }
    ensures { Row question.now.recipe.now result × (parent question.now.recipe.now result ≡ u) }
{
    let mut best = u + 1;
    let mut most = 0;
    let mut c = u + 1;
    // A `while`: it follows the right siblings, which stand in no list.
    while c != 0 {
        let below = rows::descendants_of(question.recipe, rows::Opening(c as usize));
        if most < below {
            most = below;
            best = c;
        }
        c = question.shape.right_of(c);
    }
    best
}

// Asks row u too, unless it stands on the chain asked last. Answers how many are asked then, if that is not more than `most`.
fn ask_next(shape: &RecipeShape, asked: &mut Chains, k: usize, most: usize, u: u16) -> Option<usize>
    requires { (1 ≤ k) × (u ≤ 256) × Asked 256 asked.old k }
    ensures { AsksNext shape.now asked.old k most u asked.new result }
{
    if shape.leaf_of(u) == shape.leaf_of(asked.chain(k - 1)) {
        return Some(k);
    }
    if most <= k {
        return None;
    }
    Some(asked.ask(k, u))
}

// Asks the chains of the path from row v on that goes on by the widest child as long as it has rows below it, and marks in the map its rows
// behind v with their places. Answers how many chains.
pub(crate) fn ask_path(question: &Question, asked: &mut Chains, map: &mut [u16], v: u16) -> usize
    requires inner { Row question.now.recipe.now v × (1 ≤ descendants question.now.recipe.now v) }
    requires map_len { length question.now.recipe.now ≤ length map.old }
    ensures path_asked { PathAsked question.now.recipe.now asked.new result × (chain asked.new 0 ≡ v) }
    ensures marks { Marks question.now.recipe.now asked.new result 63 map.old map.new }
{
    let most = most_chains(question, v);
    let mut k = asked.ask_first(v);
    let mut u = widest_child(question, v);
    for place in 1..u16::from(NO_ROW) {
        if question.shape.leaf_of(u) == u {
            return k;
        }
        let Some(z) = ask_next(question.shape, asked, k, most, u) else {
            return k;
        };
        k = z;
        map[(u as usize) - 1] = place;
        u = widest_child(question, u);
    }
    k
}

// Marks in the map the rows of row 1's chain behind row 1 that have rows below them, where row 1 has such: their places are their depths.
pub(crate) fn mark_chain(question: &Question, map: &mut [u16])
    requires { (1 ≤ descendants question.now.recipe.now 1) × (length question.now.recipe.now ≤ length map.old) }
    ensures { Marks question.now.recipe.now (1 ∷ []) 1 63 map.old map.new }
{
    for place in 1..u16::from(NO_ROW) {
        if question.shape.leaf_of(place + 1) == place + 1 {
            return;
        }
        map[place as usize] = place;
    }
}
