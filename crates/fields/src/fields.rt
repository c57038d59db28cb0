// Fields: big-endian numbers of one, two and four bytes, and their ranges. A cut field is refused as 4 at its first byte, a value
// outside its range as 5 there.
ghost use Rattle.std.specs.Prelude.{◌≡◌, ◌&&◌, ◌||◌, ◌+◌, leb, ltb, eqb, length};
ghost use Rattle.formats.specs.Reading.{u8, u16, u32, passing, must, within, below};
ghost use Rattle.fields.specs.Answers.{got_field};

use crate::{Cause, Read, Refusal};
use farkas::words::number;

// One byte.
pub fn byte(s: &[u8], at: usize) -> Read<u32>
    ensures { got_field result ≡ u8 s.now at }
{
    if at < s.len() {
        Ok((s[at] as u32, at + 1))
    } else {
        Err(Refusal(Cause::Cut, at))
    }
}

// Two bytes.
pub fn half(s: &[u8], at: usize) -> Read<u32>
    ensures { got_field result ≡ u16 s.now at }
{
    let length = s.len();
    if 2 <= length {
        if at <= length - 2 {
            let high = s[at] as u32;
            let low = s[at + 1] as u32;
            return Ok((high * 256 + low, at + 2));
        }
    }
    Err(Refusal(Cause::Cut, at))
}

// Four bytes.
pub fn word(s: &[u8], at: usize) -> Read<u32>
    ensures { got_field result ≡ u32 s.now at }
{
    let length = s.len();
    if 4 <= length {
        if at <= length - 4 {
            return Ok((number(s, at), at + 4));
        }
    }
    Err(Refusal(Cause::Cut, at))
}

// A field, read at this place, whose value must lie in a range.
pub fn in_range(read: Read<u32>, at: usize, least: u32, most: u32) -> Read<u32>
    ensures { got_field result ≡ passing (λ v. leb least v && leb v most) 5 at (got_field read) }
{
    let (value, next) = read?;
    if value < least {
        return Err(Refusal(Cause::Range, at));
    }
    if most < value {
        return Err(Refusal(Cause::Range, at));
    }
    Ok((value, next))
}

// A byte in a range.
pub fn byte_within(s: &[u8], at: usize, least: u32, most: u32) -> Read<u32>
    ensures { got_field result ≡ within least most u8 s.now at }
{
    in_range(byte(s, at), at, least, most)
}

// Four bytes in a range.
pub fn word_within(s: &[u8], at: usize, least: u32, most: u32) -> Read<u32>
    ensures { got_field result ≡ within least most u32 s.now at }
{
    in_range(word(s, at), at, least, most)
}

// Two bytes in a range.
pub fn half_within(s: &[u8], at: usize, least: u32, most: u32) -> Read<u32>
    ensures { got_field result ≡ within least most u16 s.now at }
{
    in_range(half(s, at), at, least, most)
}

// A field, read at this place, whose value must be below a count.
pub fn under(read: Read<u32>, at: usize, count: u32) -> Read<u32>
    ensures { got_field result ≡ passing (λ v. ltb v count) 5 at (got_field read) }
{
    let (value, next) = read?;
    if value < count {
        Ok((value, next))
    } else {
        Err(Refusal(Cause::Range, at))
    }
}

// A byte below a count.
pub fn byte_below(s: &[u8], at: usize, count: u32) -> Read<u32>
    ensures { got_field result ≡ below count u8 s.now at }
{
    under(byte(s, at), at, count)
}

// A byte below a count, or 255.
pub fn byte_numbered(s: &[u8], at: usize, count: u32) -> Read<u32>
    ensures { got_field result ≡ must (λ v. ltb v count || eqb v 255) 5 u8 s.now at }
{
    let (value, next) = byte(s, at)?;
    if value < count {
        return Ok((value, next));
    }
    if value == 255 {
        return Ok((value, next));
    }
    Err(Refusal(Cause::Range, at))
}
