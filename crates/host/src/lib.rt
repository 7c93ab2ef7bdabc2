// What people touch: from an input's bytes, a recipe's parcel followed by a listing's, to its answer line.
#![tactic(auto)]

mod line;
mod outcome;
mod table;

ghost use Rattle.std.specs.Prelude.{◌≤◌, length};
ghost use Rattle.host.specs.Put.{Put};
ghost use Rattle.host.specs.Host.{line_of, Shown, answer_bytes, Answered, Entry};

use outcome::{Outcome, Refusal};

// The fewest bytes that an answer buffer has: as many as the longest line.
pub const ANSWER_BYTES: usize = 1295;

// Puts an outcome's line at the front of the buffer and gives its length. Later bytes stay.
fn put_outcome(outcome: Result<Outcome, Refusal>, map: &[u16], answer: &mut [u8]) -> usize
    requires { Shown outcome map.now answer.old }
    ensures { Put answer.old (line_of outcome map.now) answer.new result }
{
    match outcome {
        Ok(Outcome::Included(corner, n)) => line::put_line(
            answer,
            b"included",
            corner.width as usize,
            corner.row as usize,
            &map[..n],
        ),
        Ok(Outcome::Absent(corner)) => line::put_line(
            answer,
            b"absent",
            corner.width as usize,
            corner.row as usize,
            &[],
        ),
        Err(refusal) => line::put_line(
            answer,
            b"refused",
            refusal.number() as usize,
            refusal.place(),
            &[],
        ),
    }
}

// Puts the line of an input at the front of a buffer with room for the longest, and gives its length. Later bytes stay.
#[tactic(auto, using(crate::proofs::Longest::said_shown), unfolding(crate::specs::Outcome::zeros))]
fn put_answer(input: &[u8], answer: &mut [u8]) -> usize
    requires { answer_bytes ≤ length answer.old }
    ensures { Answered input.now answer.old result answer.new }
{
    let mut map = [0; rows::RECIPE_ROWS];
    let outcome = outcome::of_input(input, &mut map);
    put_outcome(outcome, &map, answer)
}

// The C entry, which the crate host_c exports, and the program's one call. Gives the length of the input's line, which stands at the
// front of the answer buffer afterwards, all later bytes as they were; or 0 with no byte changed for number 19, a buffer under 1,295 bytes.
// C gets one number, so it is no `Result`.
pub fn polashvek_answer(input: &[u8], answer: &mut [u8]) -> usize
    ensures { Entry input.now answer.old result answer.new }
{
    if answer.len() < ANSWER_BYTES {
        return 0;
    }
    put_answer(input, answer)
}
