// The answer line as bytes: a word, numbers after single spaces, one newline. Each function puts its bytes at the front of what it is
// lent, gives how many and leaves all later bytes.
//
// By hand, since with `write!` the line is not proved (tried): std tells what was written where it gives `Ok`, and never that it does.
ghost use Rattle.std.specs.Prelude.{◌∷◌, ◌≤◌, length};
ghost use Rattle.host.specs.Line.{space, digits, spaced, line};
ghost use Rattle.host.specs.Put.{Put};

// Puts a word.
fn put_word(answer: &mut [u8], word: &[u8]) -> usize
    requires { length word.now ≤ length answer.old }
    ensures { Put answer.old word.now answer.new result }
{
    answer[..word.len()].copy_from_slice(word);
    word.len()
}

// Puts the decimal digits of a number: those of its tenth first, then its last.
// By hand, so that nothing more is trusted: std puts digits through `write!` alone.
fn put_digits(answer: &mut [u8], n: usize) -> usize
    requires { length (digits n) ≤ length answer.old }
    ensures { Put answer.old (digits n) answer.new result }
{
    if n < 10 {
        answer[0] = b'0' + n as u8;
        return 1;
    }
    let last = put_digits(answer, n / 10);
    answer[last] = b'0' + (n % 10) as u8;
    last + 1
}

// Puts a single space and the digits of a number.
fn put_number(answer: &mut [u8], n: usize) -> usize
    requires { length (space ∷ digits n) ≤ length answer.old }
    ensures { Put answer.old (space ∷ digits n) answer.new result }
{
    answer[0] = b' ';
    1 + put_digits(&mut answer[1..], n)
}

// Puts the images of a map, each after a single space.
fn put_images(answer: &mut [u8], images: &[u16]) -> usize
    requires { length (spaced images.now) ≤ length answer.old }
    ensures { Put answer.old (spaced images.now) answer.new result }
{
    let mut count = 0;
    for image in images {
        count += put_number(&mut answer[count..], *image as usize);
    }
    count
}

// Puts a whole line: a word, two numbers, images where there are some, one newline.
pub(crate) fn put_line(
    answer: &mut [u8],
    word: &[u8],
    first: usize,
    second: usize,
    images: &[u16],
) -> usize
    requires { length (line word.now (first ∷ second ∷ images.now)) ≤ length answer.old }
    ensures { Put answer.old (line word.now (first ∷ second ∷ images.now)) answer.new result }
{
    let mut count = put_word(answer, word);
    count += put_number(&mut answer[count..], first);
    count += put_number(&mut answer[count..], second);
    count += put_images(&mut answer[count..], images);
    answer[count] = b'\n';
    count + 1
}
