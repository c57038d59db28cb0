// Reads calls from standard input and writes what each answers, a line a call: those that mark no paper.
// tests/typed_papers.py writes the calls, with those of tests/fair_papers.py last, and says what must be written for each.
// A call that begins with F asks for the fair copy of a model: the length of a label and the label, the limits on locations and joint
// switches in four bytes each, the length of the buffer that is lent and the model's length in two bytes each, and the model. Its line has
// the label, the five numbers of the answer and the buffer's bytes after the call; before it they are all 165.
// Any other call: a byte n, the length of a text in two bytes, and the text, which is read as a typed row in n variables. Its line has the
// number of the answer, the place, the eight coefficients and the bound.
#![tactic(auto)]

ghost use Rattle.std.specs.Prelude.{◌^◌, ◌<◌};

use fair_copies::copies::fair_copy;
use formats::Limits;
use inputs::read_full;
use rules::Answer;
use std::io;
use typed::row::read_row;
use typed::{NO_ROW, TypedRow, Unread};

// Writes the coefficients and the bound of a row.
fn write_numbers(rt: &impl Print, row: TypedRow) -> io::Result<()> {
    for x in row.coefficients {
        print!(rt; " {x}")?;
    }
    print!(rt; " {}", row.bound)
}

// Writes the answer on a typed row: a refused text has zeros for the row.
fn write_row(rt: &impl Print, read: Result<TypedRow, Unread>) -> io::Result<()> {
    match read {
        Ok(row) => {
            print!(rt; "0 0")?;
            write_numbers(rt, row)?;
        }
        Err(unread) => {
            print!(rt; "{} {}", unread.number(), unread.place())?;
            write_numbers(rt, NO_ROW)?;
        }
    }
    rt.write_all(b"\n")
}

// Writes the answer on a fair copy.
fn write_answer(rt: &impl Print, answer: Answer) -> io::Result<()> {
    print!(rt;
        ": {} {} {} {} {}",
        answer.number, answer.sheet, answer.place, answer.done, answer.score
    )
}

// Writes bytes one after the other, each as two digits to the base 16.
fn write_bytes(rt: &impl Print, bytes: &[u8]) -> io::Result<()> {
    for byte in bytes {
        print!(rt; "{byte:02x}")?;
    }
    Ok(())
}

// A checksum with one more byte.
fn summed(sum: u64, byte: u8) -> u64
    requires { sum < 2 ^ 32 }
    ensures { result < 2 ^ 32 }
{
    (sum * 257 + u64::from(byte)) % 4294967291
}

// The checksum of bytes: the number that they are to the base 257, modulo the greatest prime below 2^32.
fn checksum(bytes: &[u8]) -> u64 {
    let mut sum: u64 = 0;
    for byte in bytes {
        sum = summed(sum, *byte);
    }
    sum
}

// Writes a buffer and ends the line: nothing of an empty one, the bytes of one of at most 1024, else a checksum.
fn write_buffer(rt: &impl Print, bytes: &[u8]) -> io::Result<()> {
    if bytes.is_empty() {
        return rt.write_all(b"\n");
    }
    if bytes.len() <= 1024 {
        rt.write_all(b" ")?;
        write_bytes(rt, bytes)?;
    } else {
        rt.write_all(b" checksum ")?;
        rt.print(checksum(bytes))?;
    }
    rt.write_all(b"\n")
}

// The byte at a place, 0 past the end.
fn byte_at(all: &[u8], at: usize) -> u8 {
    all.get(at).copied().unwrap_or(0)
}

// The number in the two bytes at a place.
fn two_bytes(all: &[u8], at: usize) -> u16
    requires { at < 2 ^ 20 }
{
    u16::from_be_bytes([byte_at(all, at), byte_at(all, at + 1)])
}

// The number in the four bytes at a place.
fn four_bytes(all: &[u8], at: usize) -> u32
    requires { at < 2 ^ 19 }
{
    u32::from(two_bytes(all, at)) * 65536 + u32::from(two_bytes(all, at + 2))
}

// Writes the answer on a fair copy into a buffer, and the buffer.
fn copy(rt: &impl Print, model: &[u8], buffer: &mut [u8], limits: Limits) -> io::Result<()> {
    write_answer(rt, fair_copy(model, buffer, limits))?;
    write_buffer(rt, buffer)
}

// The same for a fresh buffer of a length.
fn copy_into(rt: &impl Print, model: &[u8], room: u16, limits: Limits) -> io::Result<()> {
    let mut fresh = [165u8; 65536];
    let size = usize::from(room);
    copy(rt, model, &mut fresh[..size], limits)
}

// Answers the fair copy that is asked for at a place, and gives the place after it.
fn copy_at(rt: &impl Print, all: &[u8], at: usize) -> io::Result<usize>
    requires { at < 2 ^ 18 }
{
    let label = at + 2;
    let head = label + usize::from(byte_at(all, at + 1));
    let model = head + 12;
    let end = model + usize::from(two_bytes(all, head + 10));
    if all.len() < end {
        return Ok(at);
    }
    rt.write_all(&all[label..head])?;
    let limits = Limits {
        locations: four_bytes(all, head),
        joints: four_bytes(all, head + 4),
    };
    copy_into(rt, &all[model..end], two_bytes(all, head + 8), limits)?;
    Ok(end)
}

// Answers the typed row at a place, and gives the place after it.
fn row_at(rt: &impl Print, all: &[u8], at: usize) -> io::Result<usize>
    requires { at < 2 ^ 18 }
{
    let text = at + 3;
    let end = text + usize::from(two_bytes(all, at + 1));
    if all.len() < end {
        return Ok(at);
    }
    write_row(rt, read_row(&all[text..end], u32::from(byte_at(all, at))))?;
    Ok(end)
}

// Answers the call at a place, and gives the place after it: the same where there is none.
fn call(rt: &impl Print, all: &[u8], at: usize) -> io::Result<usize> {
    if 262144 <= at {
        return Ok(at);
    }
    if byte_at(all, at) == b'F' {
        return copy_at(rt, all, at);
    }
    row_at(rt, all, at)
}

// Answers the calls one after the other.
fn calls(rt: &impl Print, all: &[u8]) -> io::Result<()> {
    let mut at: usize = 0;
    for _ in 0..8000 {
        at = call(rt, all, at)?;
    }
    Ok(())
}

fn main(rt: HostRuntime) -> io::Result<()> {
    let mut all = [0u8; 262144];
    let n = read_full(&mut rt.reader(), &mut all)?;
    calls(&rt, &all[..n])
}
