// The run sheet's fields: how a run begins, and its steps. Values stand beside a step, in a slice that the caller lends: as many of its
// first numbers as there are variables. A refusal leaves these free; the numbers after them stay as they are.
ghost use Rattle.std.specs.Prelude.{List, [], ◌≡◌, ℕ, ◌≤◌, length, take};
ghost use Rattle.models.specs.Index.{model_from, components_in, index_length, variables_in};
ghost use Rattle.formats.specs.RunSheet.{read_values, read_flow, read_jump, read_step};
ghost use Rattle.fields.specs.Answers.{got_field, got_as};
ghost use Rattle.second_sheets.specs.RunAnswers.{read_value, KeptValues, switch_bytes, held_bytes, read_with, step_as, step_in, held_with, held_step, opening_as, opening_in, read_opening_fields, read_opening_of};

use crate::ranges::{LEAST_VALUE, MOST_FACTOR, MOST_STEPS, MOST_VALUE};
use crate::{Opening, Step, Switches};
use farkas::words::signed_word;
use fields::fields::{byte_below, byte_numbered, byte_within, half_within, word_within};
use fields::{Cause, Next, Read, Refusal};
use models::layout::{
    BLOCK_LENGTH, COMPONENTS_AT, FIRST_BLOCK, Index, SWITCH_COUNT_AT, VARIABLES_AT,
};

// A value of a state: four bytes, from −2^27 to 2^27.
pub fn value(s: &[u8], at: usize) -> Read<i64>
    requires { length s.now ≤ 32768 }
    ensures { got_field result ≡ read_value s.now at }
{
    let length = s.len();
    if length < 4 {
        return Err(Refusal(Cause::Cut, at));
    }
    if length - 4 < at {
        return Err(Refusal(Cause::Cut, at));
    }
    let value = signed_word(s, at);
    if value < LEAST_VALUE {
        return Err(Refusal(Cause::Range, at));
    }
    if MOST_VALUE < value {
        return Err(Refusal(Cause::Range, at));
    }
    Ok((value, at + 4))
}

// The values of a state with n variables.
pub fn values_into(s: &[u8], at: usize, n: usize, values: &mut [i64]) -> Next
    requires { (length s.now ≤ 32768) × (n ≤ length values.old) }
    ensures result_after { got_as (take n values.new) result ≡ read_values n s.now at }
    ensures kept_values { KeptValues 0 n values.old values.new }
{
    let mut place = at;
    for i in 0..n {
        let (v, next) = value(s, place)?;
        values[i] = v;
        place = next;
    }
    Ok(place)
}

// The switch bytes of a jump, one for each component of the index.
fn switches(index: &[u16], s: &[u8], at: usize) -> Read<Switches>
    requires { (index_length ≤ length index.now) × (components_in index.now ≤ 4) }
    ensures { got_field result ≡ held_bytes (switch_bytes index.now s.now at) }
{
    let components = index[COMPONENTS_AT] as usize;
    let mut bytes: [u8; 4] = [255; 4];
    let mut place = at;
    for k in 0..components {
        let (switch, next) = byte_numbered(
            s,
            place,
            index[FIRST_BLOCK + BLOCK_LENGTH * k + SWITCH_COUNT_AT] as u32,
        )?;
        bytes[k] = switch as u8;
        place = next;
    }
    Ok((
        Switches {
            a: bytes[0],
            b: bytes[1],
            c: bytes[2],
            d: bytes[3],
        },
        place,
    ))
}

// A step with its new values, which are read here.
fn with_values(step: Step, s: &[u8], at: usize, n: usize, values: &mut [i64]) -> Read<Step>
    requires { (length s.now ≤ 32768) × (n ≤ length values.old) }
    ensures by_index { (c : ℕ) → step_as c (take n values.new) result ≡ read_with n c step s.now at }
    ensures value { got_field result ≡ held_with step (read_values n s.now at) }
    ensures kept_values { KeptValues 0 n values.old values.new }
{
    let after = values_into(s, at, n, values)?;
    Ok((step, after))
}

// A flow: its time, then its new values. Of a model only the index counts.
fn flow_step(index: &[u16], s: &[u8], at: usize, values: &mut [i64]) -> Read<Step>
    requires { (index_length ≤ length index.now) × ((length s.now ≤ 32768) × (variables_in index.now ≤ length values.old)) }
    ensures by_index { (model : List ℕ) → step_in index.now values.new result ≡ read_flow (model_from model index.now) s.now at }
    ensures by_index_2 { (model : List ℕ) → got_field result ≡ held_step (read_flow (model_from model index.now) s.now at) }
    ensures kept_values { KeptValues 0 (variables_in index.now) values.old values.new }
{
    let (time, next) = word_within(s, at, 0, MOST_FACTOR)?;
    with_values(
        Step::Flow(time),
        s,
        next,
        index[VARIABLES_AT] as usize,
        values,
    )
}

// A jump: its event, then its switch bytes, then its new values. Of a model only the index counts.
fn jump_step(index: &[u16], s: &[u8], at: usize, values: &mut [i64]) -> Read<Step>
    requires index_length_in_bounds { (index_length ≤ length index.now) × (components_in index.now ≤ 4) }
    requires s_len_bound { (length s.now ≤ 32768) × (variables_in index.now ≤ length values.old) }
    ensures by_index { (model : List ℕ) → step_in index.now values.new result ≡ read_jump (model_from model index.now) s.now at }
    ensures by_index_2 { (model : List ℕ) → got_field result ≡ held_step (read_jump (model_from model index.now) s.now at) }
    ensures kept_values { KeptValues 0 (variables_in index.now) values.old values.new }
{
    let (event, next) = byte_within(s, at, 0, 15)?;
    let (by, after) = switches(index, s, next)?;
    with_values(
        Step::Jump(event, by),
        s,
        after,
        index[VARIABLES_AT] as usize,
        values,
    )
}

// A step of a run of a model that has this index: its kind, then a flow or a jump. Of a model only the index counts.
pub fn step(index: &Index, s: &[u8], at: usize, values: &mut [i64]) -> Read<Step>
    requires { (components_in index.now ≤ 4) × ((length s.now ≤ 32768) × (variables_in index.now ≤ length values.old)) }
    ensures by_index { (model : List ℕ) → step_in index.now values.new result ≡ read_step (model_from model index.now) s.now at }
    ensures by_index_2 { (model : List ℕ) → got_field result ≡ held_step (read_step (model_from model index.now) s.now at) }
    ensures kept_values { KeptValues 0 (variables_in index.now) values.old values.new }
{
    let (kind, next) = byte_within(s, at, 0, 1)?;
    if kind == 0 {
        flow_step(index, s, next, values)
    } else {
        jump_step(index, s, next, values)
    }
}

// How a run begins, before its values: its q, how many steps it has, and its location, one of so many.
fn opening_fields(s: &[u8], at: usize, locations: u32) -> Read<Opening>
    ensures { opening_as [] at result ≡ read_opening_fields locations s.now at }
{
    let (q, second) = word_within(s, at, 1, MOST_FACTOR)?;
    let (steps, third) = half_within(s, second, 0, MOST_STEPS)?;
    let (location, next) = byte_below(s, third, locations)?;
    Ok((Opening { q, steps, location }, next))
}

// How a run begins of a model that has this index and so many locations: its fields, then its first values.
pub fn opening(
    index: &Index,
    locations: u32,
    s: &[u8],
    at: usize,
    values: &mut [i64],
) -> Read<Opening>
    requires { (variables_in index.now ≤ 8) × ((length s.now ≤ 32768) × (variables_in index.now ≤ length values.old)) }
    ensures result_after { opening_in index.now values.new at result ≡ read_opening_of locations (variables_in index.now) s.now at }
    ensures kept_values { KeptValues 0 (variables_in index.now) values.old values.new }
{
    let (opening, first) = opening_fields(s, at, locations)?;
    let after = values_into(s, first, index[VARIABLES_AT] as usize, values)?;
    Ok((opening, after))
}
