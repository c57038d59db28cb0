// Reads papers from standard input and writes what marking each gives: its label and the five numbers of the answer.
// tests/marking_papers.py writes the papers, and says what must be written for each.
// A paper: the label's length and the label, a kind, a number in two bytes, a sheet's length in two bytes, and the sheet. Kind 0 takes
// the sheet as the model for the papers that follow, 1 marks it as a certificate, 2 as a run; 3 asks for the joint list's answer with
// so many records lent as the number says; 4 asks for the program's line for the sheet's bytes as its input; 5 asks for the part that show
// row gives, with the number's high byte as the obligation and its low byte as the hypothesis: how many bytes, and the bytes; 6 states, in
// the sheet's first eight bytes, the limits on locations and joint switches for the papers that follow, until then the exam's.
#![tactic(auto)]

use certificates::certificate::mark_certificate;
use formats::Limits;
use inputs::read_full;
use joint_lists::list::list_begin;
use marking::program::mark_input;
use model_sheets::limits::exam_limits;
use queries::show::show_row;
use rules::Answer;
use runs::run::mark_run;
use std::io;

// What a paper asks for.
#[derive(Clone, Copy)]
enum Kind {
    Model,
    Certificate,
    Run,
    List,
    Line,
    Part,
    Limits,
}

impl From<u8> for Kind {
    fn from(kind: u8) -> Kind {
        match kind {
            0 => Kind::Model,
            1 => Kind::Certificate,
            2 => Kind::Run,
            3 => Kind::List,
            4 => Kind::Line,
            6 => Kind::Limits,
            _ => Kind::Part,
        }
    }
}

// A paper, and all bytes from its sheet on: a sheet of limits that is too short is read on in what follows.
#[derive(Clone, Copy)]
struct Paper<'a> {
    label: &'a [u8],
    kind: Kind,
    asked: u16,
    sheet: &'a [u8],
    onward: &'a [u8],
}

// What a paper is marked beside, and under which limits.
#[derive(Clone, Copy)]
struct Desk<'a> {
    model: &'a [u8],
    limits: Limits,
}

// Writes an answer.
fn write_answer(rt: &impl Print, answer: Answer) -> io::Result<()> {
    let Answer {
        number,
        sheet,
        place,
        done,
        score,
    } = answer;
    println!(rt; ": {number} {sheet} {place} {done} {score}")
}

// Writes how many bytes a part has, and the bytes.
fn write_part(rt: &impl Print, part: &[u8]) -> io::Result<()> {
    print!(rt; ": {}", part.len())?;
    for byte in part {
        print!(rt; " {byte}")?;
    }
    println!(rt)
}

// The limits that the first eight bytes state; bytes past the end are 0.
fn stated(bytes: &[u8]) -> Limits {
    let byte = |i: usize| bytes.get(i).copied().unwrap_or(0);
    Limits {
        locations: u32::from_be_bytes([byte(0), byte(1), byte(2), byte(3)]),
        joints: u32::from_be_bytes([byte(4), byte(5), byte(6), byte(7)]),
    }
}

impl<'a> Desk<'a> {
    // Marks a paper, and writes what that gives.
    fn mark(self, rt: &impl Print, paper: Paper<'a>) -> io::Result<()> {
        let Desk { model, limits } = self;
        let sheet = paper.sheet;
        rt.write_all(paper.label)?;
        match paper.kind {
            Kind::Certificate => write_answer(rt, mark_certificate(model, sheet, limits)),
            Kind::Run => write_answer(rt, mark_run(model, sheet, limits)),
            Kind::List => {
                let lent = usize::from(paper.asked);
                write_answer(
                    rt,
                    list_begin(model, lent, limits.locations, limits.joints).answer,
                )
            }
            Kind::Line => print!(rt; ": {}", mark_input(sheet)),
            // A part: `take` passes neither a model nor limits.
            _ => {
                let [obligation, hypothesis] = paper.asked.to_be_bytes();
                write_part(
                    rt,
                    show_row(
                        model,
                        sheet,
                        u32::from(obligation),
                        u32::from(hypothesis),
                        limits.locations,
                        limits.joints,
                    ),
                )
            }
        }
    }

    // Takes a paper: a model or limits for those that follow, or one to mark.
    fn take(self, rt: &impl Print, paper: Paper<'a>) -> io::Result<Desk<'a>> {
        match paper.kind {
            Kind::Model => Ok(Desk {
                model: paper.sheet,
                limits: self.limits,
            }),
            Kind::Limits => Ok(Desk {
                model: self.model,
                limits: stated(paper.onward),
            }),
            _ => {
                self.mark(rt, paper)?;
                Ok(self)
            }
        }
    }
}

// The first paper, and what follows it; none if it is cut short.
fn first_paper(all: &[u8]) -> Option<(Paper<'_>, &[u8])> {
    let (length, after) = all.split_first()?;
    let (label, after) = after.split_at_checked(usize::from(*length))?;
    let [kind, asked_high, asked_low, high, low, onward @ ..] = after else {
        return None;
    };
    let size = u16::from_be_bytes([*high, *low]);
    let (sheet, rest) = onward.split_at_checked(usize::from(size))?;
    let paper = Paper {
        label,
        kind: Kind::from(*kind),
        asked: u16::from_be_bytes([*asked_high, *asked_low]),
        sheet,
        onward,
    };
    Some((paper, rest))
}

// Takes the papers, at most 2,000, which begin within 500,000 bytes.
fn papers(rt: &impl Print, all: &[u8]) -> io::Result<()> {
    let mut desk = Desk {
        model: &[],
        limits: exam_limits(),
    };
    let mut rest = all;
    for _ in 0..2000 {
        if 500000 <= all.len().saturating_sub(rest.len()) {
            return Ok(());
        }
        let Some((paper, next)) = first_paper(rest) else {
            return Ok(());
        };
        desk = desk.take(rt, paper)?;
        rest = next;
    }
    Ok(())
}

fn main(rt: HostRuntime) -> io::Result<()> {
    let mut all = [0u8; 524288];
    let n = read_full(&mut rt.reader(), &mut all)?;
    papers(&rt, &all[..n])
}
