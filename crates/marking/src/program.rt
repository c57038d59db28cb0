// The line for any input: the input is cut into two sheets, and the second is marked as a run or as a certificate.
ghost use Rattle.std.specs.Prelude.{◌≡◌, ◌<◌, ◌≤◌, length};
ghost use Rattle.rules.specs.Program.{is_run, refused_line, mark_line, printed, text_of};
ghost use Rattle.marking.specs.Lines.{line_of, cut_at, sheets_line};

use crate::Line;
use certificates::certificate::mark_certificate;
use model_sheets::limits::exam_limits;
use rules::Answer;
use runs::run::mark_run;

// Where the first sheet ends: its first two bytes say how many follow them, and it ends with the input at the latest.
fn first_length(input: &[u8]) -> usize
    ensures { result ≡ cut_at input.now }
{
    let [high, low, ..] = *input else {
        return input.len();
    };
    let first = usize::from(u16::from_be_bytes([high, low])) + 2;
    first.min(input.len())
}

// Whether a second sheet is marked as a run: its byte 3 is 3.
fn is_run(second: &[u8]) -> bool
    ensures { result ≡ is_run second.now }
{
    second.get(3) == Some(&3)
}

// The line of an answer: that of an acceptance is made of how much was done.
#[tactic(auto, unfolding(crate::specs::Lines::line_of))]
fn line_for<F: FnOnce(u32) -> Line>(accepted: F, a: Answer) -> Line
    requires { F.IsAlwaysCallable accepted }
    ensures accepted { a.number ≡ 0 → F.post accepted a.done result }
    ensures refused { 0 < a.number → line_of result ≡ refused_line a }
{
    if a.number == 0 {
        accepted(a.done)
    } else {
        Line::Refused(a)
    }
}

// The line for two sheets, under the exam's limits.
fn mark_sheets(first: &[u8], second: &[u8]) -> Line
    ensures line { line_of result ≡ sheets_line first.now second.now }
    ensures upper_bound { length (text_of (line_of result)) ≤ 63 }
{
    let exam = exam_limits();
    if is_run(second) {
        line_for(Line::Unsafe, mark_run(first, second, exam))
    } else {
        line_for(Line::Safe, mark_certificate(first, second, exam))
    }
}

// The line for any input; of more than 65,536 bytes it is a refusal. No line has more than 63 bytes.
pub fn mark_input(input: &[u8]) -> Line
    ensures line { line_of result ≡ mark_line input.now }
    ensures upper_bound { length (printed input.now) ≤ 63 }
{
    if 65536 < input.len() {
        return Line::Refused(Answer {
            number: 1,
            sheet: 0,
            place: 0,
            done: 0,
            score: 0,
        });
    }
    let (first, second) = input.split_at(first_length(input));
    mark_sheets(first, second)
}
