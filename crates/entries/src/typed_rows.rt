// A row typed as text (02, order 1).
ghost use Rattle.std.specs.Prelude.{◌≡◌};
ghost use Rattle.rules.specs.Marking.{answer};
ghost use Rattle.entries.specs.ReadRow.{read_row};

use crate::ReadRow;
use rules::Answer;
use typed::NO_ROW;
use typed::row::read_row;

// The answer to a typed row: sheet 2, with nothing done.
#[tactic(auto, unfolding(rules::specs::Marking::answer))]
fn answered(number: u32, place: u32) -> Answer
    ensures { result ≡ answer number 2 place 0 0 }
{
    Answer {
        number,
        sheet: 2,
        place,
        done: 0,
        score: 0,
    }
}

// The row that a text says, in so many variables, or why there is none.
#[unsafe(no_mangle)]
pub extern "C" fn silfoddra_read_row(text: &[u8], variables: u32) -> ReadRow
    ensures { result ≡ read_row variables text.now }
{
    match read_row(text, variables) {
        Ok(row) => {
            let coefficients = row.coefficients;
            ReadRow {
                answer: answered(0, 0),
                coefficients,
                bound: row.bound,
            }
        }
        Err(unread) => {
            let coefficients = NO_ROW.coefficients;
            ReadRow {
                answer: answered(unread.number(), unread.place() as u32),
                coefficients,
                bound: NO_ROW.bound,
            }
        }
    }
}
