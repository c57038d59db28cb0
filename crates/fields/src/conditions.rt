// Conditions: a row count, then rows. Rows have no range, so they are passed over at once and stay where they are.
ghost use Rattle.std.specs.Prelude.{◌≡◌, ◌+◌, ◌*◌, ◌≤◌, length};
ghost use Rattle.formats.specs.Reading.{many};
ghost use Rattle.formats.specs.Rows.{read_row, read_condition};
ghost use Rattle.fields.specs.Places.{rows_from};
ghost use Rattle.fields.specs.Answers.{got_as, got_rows};

use crate::fields::byte_within;
use crate::versions::rows_bytes;
use crate::{Cause, Next, Read, Refusal};

// Passes over so many rows of n coefficients; a cut one is refused at the first of its numbers that is cut.
pub fn pass_rows(s: &[u8], at: usize, version: u32, count: usize, n: usize) -> Next
    requires at_in_bounds { at ≤ length s.now }
    requires count_bound { (count ≤ 255) × (n ≤ 16) }
    ensures { got_as (rows_from s.now version n at count) result ≡ many count (read_row version n) s.now at }
{
    let left = s.len() - at;
    let size = rows_bytes(version, n, count);
    if size <= left {
        Ok(at + size)
    } else {
        Err(Refusal(Cause::Cut, at + left / 4 * 4))
    }
}

// A condition with at most so many rows of n coefficients: its count, and the place after it. Its rows begin at the byte after the count.
pub fn condition(s: &[u8], at: usize, version: u32, most: u32, n: usize) -> Read<u32>
    requires { (most ≤ 255) × (n ≤ 16) }
    ensures { got_rows s.now version n at result ≡ read_condition version most n s.now at }
{
    let (count, from) = byte_within(s, at, 0, most)?;
    let next = pass_rows(s, from, version, count as usize, n)?;
    Ok((count, next))
}
