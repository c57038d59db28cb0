// Answers on the model and on the sheet that goes with it.
ghost use Rattle.std.specs.Prelude.{◌≡◌, ◌≤◌, length};
ghost use Rattle.fields.specs.Causes.{number_of};
ghost use Rattle.rules.specs.Marking.{answer};

use fields::Refusal;
use rules::Answer;

// The answer on a model that is refused.
pub fn model_refused(refusal: Refusal) -> Answer
    requires { refusal.1 ≤ 32768 }
    ensures { result ≡ answer (number_of refusal.0) 0 refusal.1 0 0 }
{
    Answer {
        number: u32::from(refusal.0),
        sheet: 0,
        place: refusal.1 as u32,
        done: 0,
        score: 0,
    }
}

// The answer on a second sheet, a run or a certificate, that is refused.
pub fn second_refused(refusal: Refusal, done: u32, score: u32) -> Answer
    requires { refusal.1 ≤ 32768 }
    ensures { result ≡ answer (number_of refusal.0) 1 refusal.1 done score }
{
    Answer {
        number: u32::from(refusal.0),
        sheet: 1,
        place: refusal.1 as u32,
        done,
        score,
    }
}

// The answer on a second sheet that is accepted: its place is the sheet's length.
pub fn second_accepted(second: &[u8], done: u32) -> Answer
    requires { length second.now ≤ 32768 }
    ensures { result ≡ answer 0 1 (length second.now) done 100 }
{
    Answer {
        number: 0,
        sheet: 1,
        place: second.len() as u32,
        done,
        score: 100,
    }
}
