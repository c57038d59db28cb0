// The call: the tests that come before the text, the scan, and the working-out of a text that keeps the rules.
ghost use Rattle.std.specs.Prelude.{◌≡◌, ◌≤◌, IfErr};
ghost use Rattle.typed.specs.Typed.{typed_row, refusal_place};

use crate::scan::scan;
use crate::working::work;
use crate::{TypedRow, Unread};

// A row has at most this many variables.
const VARIABLES: u32 = 8;

// A text has at most this many bytes.
const TEXT_LENGTH: usize = 255;

// A row typed as text, in this many variables: the row, or why there is none, whose place is at most 255.
pub fn read_row(text: &[u8], variables: u32) -> Result<TypedRow, Unread>
    ensures value { result ≡ typed_row variables text.now }
    ensures place { IfErr result (λ unread. refusal_place unread ≤ 255) }
{
    if variables < 1 {
        return Err(Unread::Variables);
    }
    if VARIABLES < variables {
        return Err(Unread::Variables);
    }
    if TEXT_LENGTH < text.len() {
        return Err(Unread::Rules(TEXT_LENGTH));
    }
    scan(text)?;
    let form = work(text, variables as u8)?.form;
    let coefficients = form.coefficients;
    Ok(TypedRow {
        coefficients,
        bound: form.number,
    })
}
