// Reads and writes parcels as the cases on standard input ask, and prints each outcome whole: the answer and every lent slice
// afterwards. An independent program makes the cases and compares.
//
// A case is nine words of four bytes: 0 to read or 1 to write; the start's low and high word; 0 for a recipe's limit or 1 for a
// listing's; the input's length; the lengths of the lent depths and labels; the first value and the step that fill the slots, and the bytes to write.
// After a case to read stands its input. Only the input and the slots that are asked for are lent.
#![tactic(auto)]

ghost use Rattle.std.specs.Prelude.{◌<◌, ◌≤◌, length, IfOk};

use parcels::{Limit, Refusal, Rows};
use std::fmt::Display;
use std::io::{self, Read, Write};

const HEADER: usize = 36;

const MOST_BYTES: usize = 65536;

const MOST_SLOTS: usize = 4100;

// What a case asks for: at most so many bytes and slots are lent.
#[derive(Clone, Copy)]
struct Case {
    reads: bool,
    start: usize,
    limit: Limit,
    bytes: usize,
    depths: usize,
    labels: usize,
    first: u32,
    step: u32,
}

// The header's word with a number.
fn word(header: &[u8; HEADER], number: usize) -> u32
    requires { number < 9 }
{
    let at = 4 * number;
    u32::from_le_bytes([header[at], header[at + 1], header[at + 2], header[at + 3]])
}

impl Case {
    fn of(header: &[u8; HEADER]) -> Case
        ensures bytes_fit { result.bytes ≤ MOST_BYTES }
        ensures depths_fit { result.depths ≤ MOST_SLOTS }
        ensures labels_fit { result.labels ≤ MOST_SLOTS }
    {
        Case {
            reads: word(header, 0) == 0,
            start: word(header, 1) as usize + 4294967296 * (word(header, 2) as usize),
            limit: if word(header, 3) == 0 {
                Limit::Recipe
            } else {
                Limit::Listing
            },
            bytes: (word(header, 4) as usize).min(MOST_BYTES),
            depths: (word(header, 5) as usize).min(MOST_SLOTS),
            labels: (word(header, 6) as usize).min(MOST_SLOTS),
            first: word(header, 7),
            step: word(header, 8),
        }
    }
}

// Slots that step up from a first value.
fn step_up<T: Copy, F: Fn(T) -> T>(slots: &mut [T], first: T, next: F)
    requires { F.IsAlwaysCallable next }
{
    let mut value = first;
    for slot in slots {
        *slot = value;
        value = next(value);
    }
}

// Reads until the bytes are full or the input ends, and answers how many it read.
// A loop by hand: no call of the library does both without asking for memory. docs/DECISIONS.md says why each program has its own.
fn read_full(input: &mut impl Read, bytes: &mut [u8]) -> io::Result<usize>
    ensures { IfOk result (λ n. n ≤ length bytes.new) }
{
    let mut done = 0;
    while done < bytes.len() {
        let n = input.read(&mut bytes[done..])?;
        if n == 0 {
            break;
        }
        done += n;
    }
    Ok(done)
}

// Each value on a line.
fn show_all<T: Display>(out: &mut impl Write, values: &[T]) -> io::Result<()> {
    for value in values {
        writeln!(out, "{value}")?;
    }
    Ok(())
}

// Three numbers: 0, the count of rows and the place after the parcel; or a refusal's number, its place and 0.
fn show_read(out: &mut impl Write, answer: Result<Rows, Refusal>) -> io::Result<()> {
    match answer {
        Ok(rows) => writeln!(out, "0\n{}\n{}", rows.count, rows.next),
        Err(refusal) => show_refusal(out, refusal),
    }
}

// Three numbers: 0, the parcel's length and 0; or a refusal's number, its place and 0.
fn show_write(out: &mut impl Write, answer: Result<usize, Refusal>) -> io::Result<()> {
    match answer {
        Ok(length) => writeln!(out, "0\n{length}\n0"),
        Err(refusal) => show_refusal(out, refusal),
    }
}

fn show_refusal(out: &mut impl Write, refusal: Refusal) -> io::Result<()> {
    writeln!(out, "{}\n{}\n0", refusal.number(), refusal.place())
}

// The row slots before a case runs.
fn step_rows(case: Case, depths: &mut [u16], labels: &mut [u32]) {
    let step = (case.step % 65536) as u16;
    step_up(
        depths,
        (case.first % 65536) as u16,
        |depth| depth.wrapping_add(step),
    );
    step_up(labels, case.first, |label| label.wrapping_add(case.step));
}

fn read_case(
    input: &mut impl Read,
    out: &mut impl Write,
    case: Case,
    bytes: &mut [u8],
    depths: &mut [u16],
    labels: &mut [u32],
) -> io::Result<()> {
    read_full(input, bytes)?;
    step_rows(case, depths, labels);
    let answer = parcels::read(bytes, case.start, case.limit, depths, labels);
    show_read(out, answer)?;
    show_all(out, depths)?;
    show_all(out, labels)
}

fn write_case(
    out: &mut impl Write,
    case: Case,
    bytes: &mut [u8],
    depths: &mut [u16],
    labels: &mut [u32],
) -> io::Result<()> {
    step_rows(case, depths, labels);
    let step = (case.step % 256) as u8;
    step_up(
        bytes,
        (case.first % 256) as u8,
        |byte| byte.wrapping_add(step),
    );
    show_write(out, parcels::write(depths, labels, bytes))?;
    out.write_all(bytes)
}

// Runs one case, and answers whether there was one. There is no heap: what a case may lend stands in arrays of the largest sizes.
fn one_case(input: &mut impl Read, out: &mut impl Write) -> io::Result<bool> {
    let mut header = [0u8; HEADER];
    let mut bytes = [0u8; MOST_BYTES];
    let mut depths = [0u16; MOST_SLOTS];
    let mut labels = [0u32; MOST_SLOTS];
    if read_full(input, &mut header)? < HEADER {
        return Ok(false);
    }
    let case = Case::of(&header);
    let bytes = &mut bytes[..case.bytes];
    let depths = &mut depths[..case.depths];
    let labels = &mut labels[..case.labels];
    // The input says which call it is: there is nobody to hand over a closure.
    if case.reads {
        read_case(input, out, case, bytes, depths, labels)?;
    } else {
        write_case(out, case, bytes, depths, labels)?;
    }
    Ok(true)
}

// A proved loop has to end, and nothing says that the input does: the loop counts its turns.
fn main(rt: HostRuntime) -> io::Result<()> {
    let mut input = rt.stdin();
    let mut out = rt.stdout();
    for _ in 0..u64::MAX {
        if !one_case(&mut input, &mut out)? {
            break;
        }
    }
    Ok(())
}
