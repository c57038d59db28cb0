// Reads papers from standard input and writes what reading each gives: its label, the refusal's number, or 0, and the place of the
// refusal, or where reading ended. tests/sheet_papers.py writes the papers, and says what must be written for each.
// A paper: the label's length and the label, a kind, three arguments, the sheet's length in two bytes, and the sheet. Kinds stay bytes: each is
// looked at in one `match`, which calls its reader.
#![tactic(auto)]

ghost use Rattle.std.specs.Prelude.{◌^◌, ◌<◌};
ghost use Rattle.models.specs.Index.{GoodIndex};

use fields::header::header;
use fields::{Next, Refusal};
use inputs::read_full;
use joint_switches::joints::location_count;
use model_sheets::limits::exam_limits;
use model_sheets::sheet::model_into;
use models::layout::{INDEX_LENGTH, Index, VARIABLES_AT, VERSION_AT};
use second_sheets::certificate::{entry, proof_head, read_regions};
use second_sheets::ranges::REGIONS_LENGTH;
use second_sheets::run::{opening, step};
use std::io;

// Writes where reading ended, or the refusal.
fn answer(rt: &impl Print, end: Next) -> io::Result<()> {
    match end {
        Ok(place) => println!(rt; ": 0 {place}"),
        Err(Refusal(cause, place)) => {
            let number = u32::from(cause);
            println!(rt; ": {number} {place}")
        }
    }
}

// Reads a model.
fn try_model(rt: &impl Print, s: &[u8]) -> io::Result<()> {
    let mut index = [0u16; INDEX_LENGTH];
    answer(rt, model_into(s, &mut index, exam_limits()))
}

// Reads a certificate's header and regions.
fn try_regions(rt: &impl Print, model: &[u8], index: &Index, s: &[u8]) -> io::Result<()>
    requires { GoodIndex model.now index.now }
{
    match header(s, 2) {
        Err(refusal) => answer(rt, Err(refusal)),
        Ok((_, at)) => {
            let version = u32::from(index[VERSION_AT]);
            let n = usize::from(index[VARIABLES_AT]);
            let locations = location_count(model, index);
            if s.len() > 32768 || n > 8 || locations > 64 {
                return Ok(());
            }
            let mut regions = [0u16; REGIONS_LENGTH];
            answer(rt, read_regions(s, at, version, n, locations, &mut regions))
        }
    }
}

// Reads a proof's head.
fn try_head(rt: &impl Print, s: &[u8], at: usize, zero: bool) -> io::Result<()> {
    answer(rt, proof_head(s, at, zero).map(|(_, next)| next))
}

// Reads an entry of a proof.
fn try_entry(rt: &impl Print, s: &[u8], at: usize, hypotheses: u32, least: u32) -> io::Result<()> {
    answer(rt, entry(s, at, hypotheses, least).map(|(_, next)| next))
}

// Reads a run's header and opening.
fn try_opening(rt: &impl Print, model: &[u8], index: &Index, s: &[u8]) -> io::Result<()>
    requires { GoodIndex model.now index.now }
{
    match header(s, 3) {
        Err(refusal) => answer(rt, Err(refusal)),
        Ok((_, at)) => {
            if s.len() > 32768 {
                return Ok(());
            }
            let locations = location_count(model, index);
            let mut values = [0i64; 8];
            let begun = opening(index, locations, s, at, &mut values);
            answer(rt, begun.map(|(_, next)| next))
        }
    }
}

// Reads a step of a run.
fn try_step(rt: &impl Print, model: &[u8], index: &Index, s: &[u8], at: usize) -> io::Result<()>
    requires { GoodIndex model.now index.now }
{
    if s.len() > 32768 {
        return Ok(());
    }
    let mut values = [0i64; 8];
    answer(rt, step(index, s, at, &mut values).map(|(_, next)| next))
}

// Reads what stands beside a model.
fn try_beside(rt: &impl Print, model: &[u8], kind: usize, at: usize, s: &[u8]) -> io::Result<()> {
    let mut index = [0u16; INDEX_LENGTH];
    match model_into(model, &mut index, exam_limits()) {
        Err(refusal) => answer(rt, Err(refusal)),
        Ok(_) => match kind {
            2 => try_regions(rt, model, &index, s),
            5 => try_opening(rt, model, &index, s),
            _ => try_step(rt, model, &index, s, at),
        },
    }
}

// The byte at a place, 0 past the end.
fn byte_at(all: &[u8], at: usize) -> usize
    ensures { result < 256 }
{
    all.get(at).map_or(0, |byte| usize::from(*byte))
}

// Reads a sheet as the kind and arguments at `head` say.
fn try_sheet(rt: &impl Print, all: &[u8], head: usize, model: &[u8], s: &[u8]) -> io::Result<()>
    requires { head < 2 ^ 18 }
{
    let kind = byte_at(all, head);
    let at = byte_at(all, head + 1);
    let second = byte_at(all, head + 2) as u32;
    match kind {
        1 => try_model(rt, s),
        3 => try_head(rt, s, at, second == 1),
        4 => try_entry(rt, s, at, second, byte_at(all, head + 3) as u32),
        _ => try_beside(rt, model, kind, at, s),
    }
}

// Where the next paper begins, and the model that it is read beside.
#[derive(Clone, Copy)]
struct Place {
    at: usize,
    model: usize,
    end: usize,
}

// Reads the paper at a place.
fn paper(rt: &impl Print, all: &[u8], place: Place) -> io::Result<Place> {
    let at = place.at;
    let model = place.model;
    let model_end = place.end;
    if all.len() <= at {
        return Ok(place);
    }
    if 131072 <= at {
        return Ok(place);
    }
    let label = at + 1;
    let head = label + byte_at(all, at);
    let sheet = head + 6;
    let end = sheet + byte_at(all, head + 4) * 256 + byte_at(all, head + 5);
    if end > all.len() || model > model_end || model_end > all.len() {
        return Ok(place);
    }
    if byte_at(all, head) == 0 {
        return Ok(Place {
            at: end,
            model: sheet,
            end,
        });
    }
    rt.write_all(&all[label..head])?;
    try_sheet(rt, all, head, &all[model..model_end], &all[sheet..end])?;
    Ok(Place {
        at: end,
        model,
        end: model_end,
    })
}

// Reads the papers.
fn papers(rt: &impl Print, all: &[u8]) -> io::Result<()> {
    let mut place = Place {
        at: 0,
        model: 0,
        end: 0,
    };
    for _ in 0..1000 {
        place = paper(rt, all, place)?;
    }
    Ok(())
}

fn main(rt: HostRuntime) -> io::Result<()> {
    let mut all = [0u8; 98304];
    let n = read_full(&mut rt.reader(), &mut all)?;
    papers(&rt, &all[..n])
}
