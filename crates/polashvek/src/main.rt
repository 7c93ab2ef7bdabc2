// Reads a recipe's parcel followed by a listing's from standard input, and prints the answer line.
//
// Two parcels have at most 20 + 6 * 256 + 20 + 6 * 4,096 = 26,152 bytes, so one byte more than that is read and the rest is left
// unread: a count over its limit is refused 16 where it stands, and else the first byte after the listing's parcel, which is
// number 15's place, is among those read. No later byte can change the line: `line_front` of the host's laws proves it.
// A read that fails is an input that ended there. A write that fails ends the program with an error.
#![tactic(auto)]

ghost use Rattle.std.specs.Prelude.{◌≤◌, length};

use std::io;
use std::io::Read;

// Reads until the buffer is full, the input ends or a read fails, and gives how many bytes stand at the buffer's front.
// By hand, as the project asks for no memory: of std's calls `read_exact` tells no count, and only `read_to_end`, into a `Vec`, does.
fn read_full(reader: &mut impl Read, buffer: &mut [u8]) -> usize
    ensures { result ≤ length buffer.new }
{
    let mut count = 0;
    while count < buffer.len() {
        match reader.read(&mut buffer[count..]) {
            Ok(0) | Err(_) => break,
            Ok(n) => count += n,
        }
    }
    count
}

fn main(rt: HostRuntime) -> io::Result<()> {
    // There is no heap: the largest input has its array.
    let mut input = [0u8; 26153];
    let count = read_full(&mut rt.stdin(), &mut input);
    let mut answer = [0; host::ANSWER_BYTES];
    let length = host::polashvek_answer(&input[..count], &mut answer);
    rt.write_all(&answer[..length])
}
