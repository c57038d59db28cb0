// The joint list's answer: whether a lent table has room for every joint switch of a model, and how many there are.
ghost use Rattle.std.specs.Prelude.{◌≡◌, ◌≤◌, length};
ghost use Rattle.models.specs.Index.{components_from};
ghost use Rattle.joint_switches.specs.Counted.{Counted};
ghost use Rattle.formats.specs.Joint.{joints};
ghost use Rattle.formats.specs.ModelSheet.{stated};
ghost use Rattle.rules.specs.Beside.{list_of, list_answer};
ghost use Rattle.joint_lists.specs.Records.{SheetIndex};

use crate::Listing;
use formats::Limits;
use models::layout::{INDEX_LENGTH, Index, JOINTS_AT};
use papers::opening::open_model;
use rules::Answer;

// The answer on a model that was read: its index has its joint switches counted; 15 where the table is too short.
fn count_answer(model: &[u8], index: &Index, lent: usize) -> Answer
    requires counted { Counted model.now index.now }
    requires model_len_bound { (length model.now ≤ 32768) × (length (joints (components_from model.now index.now)) ≤ 4096) }
    ensures { result ≡ list_of (components_from model.now index.now) (length model.now) lent }
{
    let count = index[JOINTS_AT] as u32;
    if count as usize <= lent {
        return Answer {
            number: 0,
            sheet: 0,
            place: model.len() as u32,
            done: count,
            score: 0,
        };
    }
    Answer {
        number: 15,
        sheet: 2,
        place: count,
        done: 0,
        score: 0,
    }
}

// The answer for a table of so many records, with the model read into a lent index.
fn answer_into(model: &[u8], records: usize, index: &mut Index, limits: Limits) -> Answer
    ensures value { result ≡ list_answer limits model.now records }
    ensures sheet_index { SheetIndex limits model.now index.new }
{
    match open_model(model, index, limits) {
        Ok(_) => count_answer(model, index, records),
        Err(answer) => answer,
    }
}

// The answer for a table of so many records, and the model's index.
pub fn list_begin(model: &[u8], records: usize, locations: u32, joints: u32) -> Listing
    ensures { (result.answer ≡ list_answer (stated locations joints) model.now records) × SheetIndex (stated locations joints) model.now result.index }
{
    let limits = Limits { locations, joints };
    let mut index = [0u16; INDEX_LENGTH];
    let answer = answer_into(model, records, &mut index, limits);
    Listing { answer, index }
}

// How many records are written.
pub fn record_count(answer: Answer) -> usize
    ensures { result ≡ answer.done }
{
    answer.done as usize
}
