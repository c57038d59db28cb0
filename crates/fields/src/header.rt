// A sheet's header, tested before its body: its length, its version, its kind. Its paper number. And its end.
ghost use Rattle.std.specs.Prelude.{◌≡◌};
ghost use Rattle.formats.specs.Reading as reading;
ghost use Rattle.formats.specs.Reading.{length_right, read_paper};
ghost use Rattle.fields.specs.Answers.{got_field, got_as};

use crate::fields::word;
use crate::versions::{HEADER_LENGTH, has_paper, kind_fits, version_fits};
use crate::{Cause, Next, Read, Refusal};

// Whether the sheet has from 4 to 32,768 bytes, and its first two say how many follow them.
pub fn length_right(s: &[u8]) -> bool
    ensures { result ≡ length_right s.now }
{
    let length = s.len();
    if length < 4 {
        return false;
    }
    if 32768 < length {
        return false;
    }
    s[0] as usize * 256 + s[1] as usize + 2 == length
}

// The header of a sheet of this kind: the version, and the place of the body.
pub fn header(s: &[u8], kind: u32) -> Read<u32>
    ensures { got_field result ≡ reading.header kind s.now 0 }
{
    if !length_right(s) {
        return Err(Refusal(Cause::Length, 0));
    }
    let version = s[2] as u32;
    if !version_fits(kind, version) {
        return Err(Refusal(Cause::Version, 2));
    }
    if !kind_fits(kind, s[3] as u32) {
        return Err(Refusal(Cause::Kind, 3));
    }
    Ok((version, HEADER_LENGTH))
}

// The paper number of a sheet's body, and the place after it: 0 where the version has none.
pub fn read_paper(s: &[u8], at: usize, version: u32) -> Read<u32>
    ensures { got_field result ≡ read_paper version s.now at }
{
    if has_paper(version) {
        return word(s, at);
    }
    Ok((0, at))
}

// The end of the sheet: no byte is left at this place.
pub fn finished(s: &[u8], at: usize) -> Next
    ensures { got_as tt result ≡ reading.finished s.now at }
{
    if s.len() <= at {
        Ok(at)
    } else {
        Err(Refusal(Cause::Cut, at))
    }
}
