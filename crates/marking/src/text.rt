// The line's text written into a lent buffer: the same bytes as by `Display`, and beside it because this cannot fail, where a writer can. The
// program writes its line from such a buffer, at once.
ghost use Rattle.std.specs.Prelude.{[], ◌∷◌, ◌++◌, ◌≡◌, ◌+◌, ◌<◌, ◌^◌, ◌≤◌, length};
ghost use Rattle.buffers.specs.Over.{over};
ghost use Rattle.marking.specs.Lines.{line_of, Written};
ghost use Rattle.rules.specs.Program.{decimal, numbered, text_of, printed};

use crate::Line;
use crate::program::mark_input;
use buffers::{put_byte, put_bytes};

// No line is longer.
pub const LINE_LENGTH: usize = 64;

// A decimal number.
fn put_decimal(text: &mut [u8], at: usize, n: u32) -> usize
    requires { at < 2 ^ 32 }
    ensures { (result ≡ at + length (decimal n)) × (text.new ≡ over text.old at (decimal n)) }
{
    if n < 10 {
        return put_byte(text, at, (48 + n) as u8);
    }
    let next = put_decimal(text, at, n / 10);
    put_byte(text, next, (48 + n % 10) as u8)
}

// A space and a decimal number.
fn put_number(text: &mut [u8], at: usize, n: u32) -> usize
    requires { at < 64 }
    ensures value { (result ≡ at + length (32 ∷ decimal n)) × (text.new ≡ over text.old at (32 ∷ decimal n)) }
    ensures upper_bound { result ≤ at + 11 }
{
    let digits = put_byte(text, at, 32);
    put_decimal(text, digits, n)
}

// A word and one number.
fn put_done(text: &mut [u8], word: &[u8], done: u32) -> usize
    requires { length word.now ≤ 6 }
    ensures written { Written text.old text.new (word.now ++ numbered (done ∷ [])) result }
    ensures upper_bound { result ≤ 18 }
{
    let at = put_bytes(text, 0, word);
    let end = put_number(text, at, done);
    put_byte(text, end, 10)
}

// The five numbers of a refusal, after its word.
fn put_refused(
    text: &mut [u8],
    word: &[u8],
    number: u32,
    sheet: u32,
    place: u32,
    done: u32,
    score: u32,
) -> usize
    requires { length word.now ≤ 7 }
    ensures written { Written text.old text.new (word.now ++ numbered (number ∷ sheet ∷ place ∷ done ∷ score ∷ [])) result }
    ensures upper_bound { result ≤ 63 }
{
    let at = put_bytes(text, 0, word);
    let first = put_number(text, at, number);
    let second = put_number(text, first, sheet);
    let third = put_number(text, second, place);
    let fourth = put_number(text, third, done);
    let fifth = put_number(text, fourth, score);
    put_byte(text, fifth, 10)
}

// A line. How many bytes it has.
fn put_line(text: &mut [u8], line: Line) -> usize
    ensures written { Written text.old text.new (text_of (line_of line)) result }
    ensures upper_bound { result ≤ 63 }
{
    match line {
        Line::Safe(done) => put_done(text, b"SAFE", done),
        Line::Unsafe(done) => put_done(text, b"UNSAFE", done),
        Line::Refused(answer) => put_refused(
            text,
            b"REFUSED",
            answer.number,
            answer.sheet,
            answer.place,
            answer.done,
            answer.score,
        ),
    }
}

// What the program prints for any input, written from the start of a lent buffer. How many bytes it has; bytes past them stay.
pub fn mark_text(input: &[u8], text: &mut [u8]) -> usize
    ensures value { (result ≡ length (printed input.now)) × (text.new ≡ over text.old 0 (printed input.now)) }
    ensures upper_bound { result ≤ 63 }
{
    put_line(text, mark_input(input))
}
