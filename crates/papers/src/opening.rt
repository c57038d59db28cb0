// How a paper opens: the stated limits and the model, in every call that reads one; then the second sheet, in every call that takes two. And
// what a model's index says by the places of its numbers.
ghost use Rattle.std.specs.Prelude.{OnOk, IfOk, IfErr, List, ◌≡◌, ℕ, ◌+◌, ◌*◌, ◌≤◌, ◌<◌};
ghost use Rattle.fields.specs.Answers.{got_field};
ghost use Rattle.formats.specs.Locations.{location_count};
ghost use Rattle.models.specs.Index.{entry, Kept, index_length, components_from, model_from, version_in, paper_in};
ghost use Rattle.papers.specs.Opening.{model_answer, opened_model, ModelOpen, paper_answer, opened, Open};
ghost use Rattle.papers.specs.Paper.{Accepted};
ghost use Rattle.rules.specs.Marking.{answer};
ghost use Rattle.rules.specs.Opening.{open_second};

use crate::answers::{model_refused, second_refused};
use fields::header::{header, read_paper};
use fields::versions::pair_of;
use fields::{Cause, Read, Refusal};
use formats::Limits;
use model_sheets::limits::limits_fit;
use model_sheets::sheet::model_into;
use models::layout::{Index, LOCATIONS_AT, PAPER_AT, VERSION_AT};
use rules::Answer;

// The answer to limits that do not fit.
fn limits_refused() -> Answer
    ensures { result ≡ answer 5 2 0 0 0 }
{
    Answer {
        number: 5,
        sheet: 2,
        place: 0,
        done: 0,
        score: 0,
    }
}

// The stated limits are tested, then the model is read into a lent index: nothing to tell where both are good, else the answer that refuses
// them. After a refusal the index is free.
pub fn open_model(model: &[u8], index: &mut Index, limits: Limits) -> Result<(), Answer>
    ensures value { model_answer result ≡ opened_model limits model.now }
    ensures kept { Kept 0 index_length index.old index.new }
    ensures model_open { OnOk result (ModelOpen limits model.now index.new) }
    ensures refused { IfErr result (λ answer. 1 ≤ answer.number) }
{
    if !limits_fit(limits) {
        return Err(limits_refused());
    }
    match model_into(model, index, limits) {
        Ok(_) => Ok(()),
        Err(refusal) => Err(model_refused(refusal)),
    }
}

// How a second sheet of this kind opens, beside a model with this index: its version, and the place where its own fields begin, behind its
// paper number. 18 where its version does not go with the model's, at place 2, and where its paper number is another one, at that number.
pub fn open_second(index: &Index, second: &[u8], kind: u32) -> Read<u32>
    ensures { (model : List ℕ) → got_field result ≡ open_second kind (model_from model index.now) second.now 0 }
{
    let (version, at) = header(second, kind)?;
    if version != pair_of(version_of(index)) {
        return Err(Refusal(Cause::Pairing, 2));
    }
    let (paper, body) = read_paper(second, at, version)?;
    if paper != paper_of(index) {
        return Err(Refusal(Cause::Pairing, at));
    }
    Ok((version, body))
}

// The model is opened, then the second sheet: the place where its own fields begin where both are good, else the answer that refuses the
// paper. After a refusal the index is free.
pub fn open_paper(
    model: &[u8],
    second: &[u8],
    kind: u32,
    index: &mut Index,
    limits: Limits,
) -> Result<usize, Answer>
    ensures value { paper_answer result ≡ opened limits kind model.now second.now }
    ensures kept { Kept 0 index_length index.old index.new }
    ensures open { IfOk result (λ body. Open limits kind model.now index.new second.now body) }
    ensures refused { IfErr result (λ answer. 1 ≤ answer.number) }
{
    open_model(model, index, limits)?;
    match open_second(index, second, kind) {
        Ok((_, body)) => Ok(body),
        Err(refusal) => Err(second_refused(refusal, 0, 0)),
    }
}

// How many locations there are: the index has their count. The sheet is handed over for the contract.
pub fn locations_of(model: &[u8], index: &Index) -> u32
    requires { Accepted model.now index.now }
    ensures { result ≡ location_count (components_from model.now index.now) }
{
    u32::from(index[LOCATIONS_AT])
}

// The version of the model's sheet.
pub fn version_of(index: &Index) -> u32
    ensures { result ≡ version_in index.now }
{
    u32::from(index[VERSION_AT])
}

// A number by its halves.
fn joined(high: u16, low: u16) -> u32
    ensures { result ≡ high * 65536 + low }
{
    u32::from(high) * 65536 + u32::from(low)
}

// The paper number of the model's sheet, 0 where its version has none.
pub fn paper_of(index: &Index) -> u32
    ensures { result ≡ paper_in index.now }
{
    joined(index[PAPER_AT], index[PAPER_AT + 1])
}

// A number of an index, by its place.
pub fn number_at(index: &Index, i: usize) -> usize
    requires { i < index_length }
    ensures { result ≡ entry index.now i }
{
    usize::from(index[i])
}
