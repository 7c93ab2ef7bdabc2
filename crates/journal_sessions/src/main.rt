// Plays the sessions of strikes and undos that standard input lists, and writes after each call its answer and every lent slot.
// Input, in bytes: 3 begins a session (slots for depths, slots for labels, rows, words of the journal, entries, and then the slots' contents);
// 1 and a row is a strike, and any other byte an undo.
#![tactic(auto)]

ghost use Rattle.std.specs.Prelude.{◌≤◌, length, IfOk};

use journal::{Counts, Refusal};
use std::fmt::Display;
use std::io::{self, Read, Write};

// The slots of a session: the first `lent` of N. There is no heap here, so the count stands beside the array.
#[derive(Drop)]
struct Slots<T, const N: usize> {
    all: [T; N],
    lent: usize,
}

// The session in play: what a call is lent, and its counts.
#[derive(Drop)]
struct Play {
    depths: Slots<u16, 80>,
    labels: Slots<u32, 80>,
    words: Slots<u32, 64>,
    rows: usize,
    entries: usize,
}

// The byte at a place of the input; 0 past its end, so that an input that is cut still plays.
fn byte_at(input: &[u8], i: usize) -> u8 {
    input.get(i).copied().unwrap_or(0)
}

// The input behind its first n bytes.
fn behind(input: &[u8], n: usize) -> &[u8]
    ensures { length result.now ≤ length input.now }
{
    &input[n.min(input.len())..]
}

// The word that a byte stands for: itself, but 255 stands for 70,000, which is over every depth.
fn word_of(byte: u8) -> u32 {
    if byte == 255 { 70000 } else { u32::from(byte) }
}

impl<T: Copy + Drop + Display, const N: usize> Slots<T, N> {
    // How many are lent. No ghost field says that they fit: a struct with one does not lend its array of N.
    fn count(&self) -> usize
        ensures { result ≤ N }
    {
        self.lent.min(N)
    }

    // The lent slots.
    fn lent(&mut self) -> &mut [T] {
        let n = self.count();
        &mut self.all[..n]
    }

    // Lends so many slots, filled with what the input's bytes stand for, and gives the input behind them.
    fn fill<'a, F: Fn(u8) -> T + Drop>(&mut self, lent: u8, input: &'a [u8], value: F) -> &'a [u8]
        requires { F.IsAlwaysCallable value }
        ensures { length result.now ≤ length input.now }
    {
        let n = usize::from(lent).min(N);
        for i in 0..n {
            self.all[i] = value(byte_at(input, i));
        }
        self.lent = n;
        behind(input, n)
    }

    // Writes every lent slot.
    fn say<W: Write>(&self, out: &mut W) -> io::Result<()> {
        for slot in &self.all[..self.count()] {
            write!(out, "{slot} ")?;
        }
        Ok(())
    }
}

impl Play {
    // Begins a session: its sizes and counts, and the contents of its slots. Gives the input behind them.
    fn begin<'a>(&mut self, input: &'a [u8]) -> &'a [u8]
        ensures { length result.now ≤ length input.now }
    {
        self.rows = usize::from(byte_at(input, 2));
        self.entries = usize::from(byte_at(input, 4));
        let rest = behind(input, 5);
        let rest = self.depths.fill(byte_at(input, 0), rest, u16::from);
        let rest = self.labels.fill(byte_at(input, 1), rest, word_of);
        self.words.fill(byte_at(input, 3), rest, word_of)
    }

    // A strike of a row.
    fn strike<W: Write>(&mut self, out: &mut W, row: usize) -> io::Result<()> {
        let depths = self.depths.lent();
        let labels = self.labels.lent();
        let words = self.words.lent();
        let answer = journal::strike(depths, labels, self.rows, words, self.entries, row);
        self.settle(out, answer)
    }

    // An undo.
    fn undo<W: Write>(&mut self, out: &mut W) -> io::Result<()> {
        let depths = self.depths.lent();
        let labels = self.labels.lent();
        let words = self.words.lent();
        let answer = journal::undo(depths, labels, self.rows, words, self.entries);
        self.settle(out, answer)
    }

    // Takes over the counts that a call leaves, and writes its answer and a line with every slot.
    fn settle<W: Write>(&mut self, out: &mut W, answer: Result<Counts, Refusal>) -> io::Result<()> {
        match answer {
            Ok(counts) => {
                self.rows = counts.rows;
                self.entries = counts.entries;
                write!(out, "0 {} {} ", counts.rows, counts.entries)?;
            }
            Err(why) => write!(out, "{why} ")?,
        }
        self.depths.say(out)?;
        self.labels.say(out)?;
        self.words.say(out)?;
        out.write_all(b"\n")
    }
}

// Reads until the bytes are full or the input ends, and answers how many it read.
// Its count goes on by as many as were read, so no `for` or iterator counts it; docs/DECISIONS.md says why each program has its own.
fn read_full(input: &mut impl Read, bytes: &mut [u8]) -> io::Result<usize>
    ensures { IfOk result (λ n. n ≤ length bytes.new) }
{
    let mut done = 0;
    while done < bytes.len() {
        let n = input.read(&mut bytes[done..])?;
        if n == 0 {
            break;
        }
        done += n;
    }
    Ok(done)
}

fn main(rt: HostRuntime) -> io::Result<()> {
    let mut bytes = [0u8; 65536];
    let n = read_full(&mut rt.stdin(), &mut bytes)?;
    let mut play = Play {
        depths: Slots {
            all: [0; 80],
            lent: 0,
        },
        labels: Slots {
            all: [0; 80],
            lent: 0,
        },
        words: Slots {
            all: [0; 64],
            lent: 0,
        },
        rows: 0,
        entries: 0,
    };
    let mut out = rt.stdout();
    let mut input = &bytes[..n];
    while let Some((&op, rest)) = input.split_first() {
        input = rest;
        // The input says which call it is: there is nobody to hand over a closure.
        match op {
            3 => input = play.begin(input),
            1 => {
                play.strike(&mut out, usize::from(byte_at(input, 0)))?;
                input = behind(input, 1);
            }
            _ => play.undo(&mut out)?,
        }
    }
    Ok(())
}
