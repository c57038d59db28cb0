// The line that the program prints, for any input.
#![tactic(auto)]

ghost use Rattle.std.specs.Prelude.{Some};
ghost use Rattle.std.specs.Fmt.{WritesOnOk};
ghost use Rattle.rules.specs.Program.{refused_line, text_of};
ghost use Rattle.marking.specs.Lines.{line_of};

use rules::Answer;
use std::fmt;

pub mod program;
pub mod text;

// The line that the program prints: document 01, "What is handed back". A refusal is told by all its numbers.
#[derive(Clone, Copy)]
pub enum Line {
    Safe(u32),
    Unsafe(u32),
    Refused(Answer),
}

// A word, then decimal numbers, with single spaces, ended by a newline.
impl fmt::Display for Line {
    ghost output = { λ line. Some (text_of (line_of line)) };

    fn fmt<W: fmt::Write>(&self, f: &mut fmt::Formatter<W>) -> fmt::Result {
        match *self {
            Line::Safe(done) => writeln!(f, "SAFE {done}"),
            Line::Unsafe(done) => writeln!(f, "UNSAFE {done}"),
            Line::Refused(answer) => write_refusal(f, answer),
        }
    }
}

// A refusal by its numbers.
fn write_refusal<W: fmt::Write>(f: &mut fmt::Formatter<W>, answer: Answer) -> fmt::Result
    ensures { WritesOnOk W.write_str_gives f.old result (text_of (refused_line answer)) f.new }
{
    let Answer {
        number,
        sheet,
        place,
        done,
        score,
    } = answer;
    writeln!(f, "REFUSED {number} {sheet} {place} {done} {score}")
}
