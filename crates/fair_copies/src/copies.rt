// The fair copy whole: how long it is, whether it fits, and its bytes.
ghost use Rattle.std.specs.Prelude.{Some, None, cond, ◌≡◌, ◌+◌, ◌^◌, ◌≤◌, ◌<◌, leb, length};
ghost use Rattle.buffers.specs.Written.{Written};
ghost use Rattle.models.specs.Index.{model_from, version_in, paper_in};
ghost use Rattle.writing.specs.Writing.{write_paper, write_fields, write_body};
ghost use Rattle.fair_models.specs.FairCopy.{fair_model, fair_copy, copy_answer, copy_over, fair_answer, buffer_after};
ghost use Rattle.fair_copies.specs.Copyable.{Copyable};

use crate::parts::{
    KEPT_LENGTH, MOST_ROWS, Scratch, conditions_of, put_components, put_entries, put_items,
};
use buffers::{put_byte, put_half, put_word};
use fields::versions::{HEADER_LENGTH, has_paper};
use formats::Limits;
use models::layout::{FIRST_OWNER, INDEX_LENGTH, Index, VARIABLES_AT};
use papers::opening::{number_at, open_model, paper_of, version_of};
use rules::Answer;

// How many counts a model's fields begin with: variables, components, unsafe conditions.
const COUNTS: usize = 3;

// The kind of a model's sheet.
const MODEL_KIND: u8 = 1;

// The fields of the copy's body behind its paper number. The place after them.
fn put_fields(
    out: &mut [u8],
    at: usize,
    model: &[u8],
    index: &Index,
    scratch: &mut Scratch,
) -> usize
    requires copyable { Copyable model.now index.now }
    requires at_bound { at < 2 ^ 51 }
    ensures written { Written out.old at (write_fields (fair_model (model_from model.now index.now))) out.new result }
    ensures upper_bound { result ≤ at + 472059 }
{
    let counts = put_entries(out, at, index, VARIABLES_AT, COUNTS);
    let owners = put_entries(
        out,
        counts,
        index,
        FIRST_OWNER,
        number_at(index, VARIABLES_AT),
    );
    let components = put_components(out, owners, model, index, scratch);
    put_items(out, components, model, index, conditions_of(index), scratch)
}

// The paper number, where the model's version has one. The place after it.
fn put_paper(out: &mut [u8], at: usize, index: &Index) -> usize
    requires { at < 2 ^ 50 }
    ensures written { Written out.old at (write_paper (version_in index.now) (paper_in index.now)) out.new result }
    ensures upper_bound { result ≤ at + 4 }
{
    if !has_paper(version_of(index)) {
        return at;
    }
    put_word(out, at, paper_of(index))
}

// The body of the copy. The place after it.
fn put_body(out: &mut [u8], at: usize, model: &[u8], index: &Index, scratch: &mut Scratch) -> usize
    requires copyable { Copyable model.now index.now }
    requires at_bound { at < 2 ^ 50 }
    ensures written { Written out.old at (write_body (fair_model (model_from model.now index.now))) out.new result }
    ensures upper_bound { result ≤ at + 472063 }
{
    let fields = put_paper(out, at, index);
    put_fields(out, fields, model, index, scratch)
}

// How long the copy is: its body on an empty buffer, after the header.
fn copy_length(model: &[u8], index: &Index, scratch: &mut Scratch) -> usize
    requires { Copyable model.now index.now }
    ensures { result ≡ length (fair_copy (model_from model.now index.now)) }
{
    let mut none = [0u8; 0];
    put_body(&mut none, HEADER_LENGTH, model, index, scratch)
}

// The length that the copy needs where it does not fit so much room. It is no longer than the model, so that it is measured only where
// there is less room than that.
fn lacking(model: &[u8], index: &Index, room: usize, scratch: &mut Scratch) -> Option<usize>
    requires copyable { Copyable model.now index.now }
    requires index_in_bounds { length (fair_copy (model_from model.now index.now)) ≤ length model.now }
    ensures { result ≡ cond (leb (length (fair_copy (model_from model.now index.now))) room) None (Some (length (fair_copy (model_from model.now index.now)))) }
{
    if model.len() <= room {
        return None;
    }
    let needed = copy_length(model, index, scratch);
    if needed <= room {
        return None;
    }
    Some(needed)
}

// The copy: its body, then the header, which has its length. The place after it.
fn put_copy(out: &mut [u8], model: &[u8], index: &Index, scratch: &mut Scratch) -> usize
    requires { Copyable model.now index.now }
    ensures written { Written out.old 0 (fair_copy (model_from model.now index.now)) out.new result }
    ensures upper_bound { result ≤ 472067 }
{
    let end = put_body(out, HEADER_LENGTH, model, index, scratch);
    put_half(out, 0, (end - 2) as u32);
    put_byte(out, 2, version_of(index) as u8);
    put_byte(out, 3, MODEL_KIND);
    end
}

// The copy of a model that is open: 15 where it does not fit the buffer.
fn copy_open(model: &[u8], index: &Index, copy: &mut [u8]) -> Answer
    requires copyable { Copyable model.now index.now }
    requires index_in_bounds { length (fair_copy (model_from model.now index.now)) ≤ length model.now }
    ensures value { result ≡ copy_answer (length model.now) (length (fair_copy (model_from model.now index.now))) (leb (length (fair_copy (model_from model.now index.now))) (length copy.old)) }
    ensures copy_after { copy.new ≡ copy_over copy.old (fair_copy (model_from model.now index.now)) (leb (length (fair_copy (model_from model.now index.now))) (length copy.old)) }
{
    let mut scratch = Scratch {
        kept: [0; KEPT_LENGTH],
        sorted: [0; MOST_ROWS],
    };
    if let Some(needed) = lacking(model, index, copy.len(), &mut scratch) {
        return Answer {
            number: 15,
            sheet: 2,
            place: needed as u32,
            done: 0,
            score: 0,
        };
    }
    let written = put_copy(copy, model, index, &mut scratch);
    Answer {
        number: 0,
        sheet: 0,
        place: model.len() as u32,
        done: written as u32,
        score: 0,
    }
}

// The fair copy of a model, in a lent buffer, under the limits that the caller states.
pub fn fair_copy(model: &[u8], copy: &mut [u8], limits: Limits) -> Answer
    ensures value { result ≡ fair_answer limits model.now (length copy.old) }
    ensures copy_after { copy.new ≡ buffer_after limits model.now copy.old }
{
    let mut index = [0u16; INDEX_LENGTH];
    match open_model(model, &mut index, limits) {
        Ok(_) => copy_open(model, &index, copy),
        Err(answer) => answer,
    }
}
