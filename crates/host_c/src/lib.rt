// The host's one call for C, as include/polashvek.h declares it: each slice is a pointer and then a length.
#![tactic(auto)]

ghost use Rattle.host.specs.Host.{Entry};

// Gives the length of the input's line, which stands at the front of the answer buffer afterwards, all later bytes as they were; or 0
// with no byte changed for number 19, a buffer under 1,295 bytes: C gets one number.
#[unsafe(no_mangle)]
pub extern "C" fn polashvek_answer(input: &[u8], answer: &mut [u8]) -> usize
    ensures { Entry input.now answer.old result answer.new }
{
    host::polashvek_answer(input, answer)
}
