// The model's body, read left to right into an index: what its fields say, and where its rows stand (specs/Index.antt).
ghost use Rattle.std.specs.Prelude.{◌≡◌, cond, map, ◌+◌, ◌*◌, ◌≤◌, ◌<◌, eqb, length, set};
ghost use Rattle.formats.specs.Reading.{many};
ghost use Rattle.formats.specs.Rows.{read_condition};
ghost use Rattle.formats.specs.Model.{has_event, read_mode, read_switch, read_component};
ghost use Rattle.formats.specs.Joint.{count_up};
ghost use Rattle.models.specs.Index.{Sized, span_rows, three_from, read_three, mode_from, mode_place, read_label, labelled_from, read_labelled, switch_from, switch_place, read_alphabet, read_counts, counts_from, component_from, component_place, Kept, block_length, first_block, first_mode, first_switch, first_unsafe, index_length};
ghost use Rattle.fields.specs.Answers.{got_field, got_as};

use crate::layout::{
    BLOCK_LENGTH, COUNT_AT, FIRST_BLOCK, FIRST_MODE, FIRST_SWITCH, INITIAL_AT, LABEL_AT,
    LABEL_LENGTH, MODE_COUNT_AT, MODE_LENGTH, SECOND_SPAN, SWITCH_COUNT_AT, SWITCH_LENGTH,
    TARGET_AT, THIRD_SPAN,
};
use fields::conditions::condition;
use fields::fields::{byte_below, byte_within, half};
use fields::{Cause, Next, Read, Refusal};

// Keeps the place of a condition's first row, and how many rows it has.
fn put_span(index: &mut [u16], i: usize, from: usize, count: u32)
    requires { (i + 1 < length index.old) × ((from ≤ 32768) × (count ≤ 255)) }
    ensures { index.new ≡ set (set index.old i from) (i + 1) count }
{
    index[i] = from as u16;
    index[i + COUNT_AT] = count as u16;
}

// A condition, kept at two numbers of the index.
pub fn condition_into(
    s: &[u8],
    at: usize,
    most: u32,
    version: u32,
    n: usize,
    index: &mut [u16],
    i: usize,
) -> Next
    requires sized { Sized s.now index.old }
    requires most_bound { (most ≤ 255) × ((n ≤ 16) × (i + 1 < index_length)) }
    ensures result_after { got_as (span_rows s.now version n index.new i) result ≡ read_condition version most n s.now at }
    ensures kept { Kept i (i + 2) index.old index.new }
{
    let (count, next) = condition(s, at, version, most, n)?;
    put_span(index, i, at + 1, count);
    Ok(next)
}

// A mode's three conditions, initial with at most so many rows, invariant and flow, kept at six numbers of the index.
fn conditions_into(
    s: &[u8],
    at: usize,
    most: u32,
    version: u32,
    n: usize,
    index: &mut [u16],
    i: usize,
) -> Next
    requires sized { Sized s.now index.old }
    requires most_bound { (most ≤ 255) × ((n ≤ 16) × (i + 5 < index_length)) }
    ensures result_after { got_as (three_from s.now version n index.new i) result ≡ read_three version most n s.now at }
    ensures kept { Kept i (i + 6) index.old index.new }
{
    let second = condition_into(s, at, most, version, n, index, i)?;
    let third = condition_into(s, second, 8, version, n, index, i + SECOND_SPAN)?;
    condition_into(s, third, 8, version, n, index, i + THIRD_SPAN)
}

// How many initial rows a mode may have: none where start is 0.
fn most_initial(start: u32) -> u32
    ensures { result ≡ cond (eqb start 0) 0 8 }
{
    if start == 0 {
        return 0;
    }
    8
}

// A mode, kept at seven numbers of the index.
fn mode_into(s: &[u8], at: usize, version: u32, n: usize, index: &mut [u16], i: usize) -> Next
    requires sized { Sized s.now index.old }
    requires n_bound { (n ≤ 16) × (i + 6 < index_length) }
    ensures result_after { got_as (mode_from s.now version n index.new i) result ≡ read_mode version n s.now at }
    ensures kept { Kept i (i + 7) index.old index.new }
{
    let (start, next) = byte_within(s, at, 0, 1)?;
    index[i] = start as u16;
    conditions_into(
        s,
        next,
        most_initial(start),
        version,
        n,
        index,
        i + INITIAL_AT,
    )
}

// So many modes of the component whose block begins here.
fn modes_into(
    s: &[u8],
    at: usize,
    version: u32,
    n: usize,
    index: &mut [u16],
    block: usize,
    count: usize,
) -> Next
    requires sized { Sized s.now index.old }
    requires n_bound { (n ≤ 16) × ((block ≤ 673) × (count ≤ 8)) }
    ensures result_after { got_as (map (λ j. mode_from s.now version n index.new (mode_place block j)) (count_up 0 count)) result ≡ many count (read_mode version n) s.now at }
    ensures kept { Kept (block + first_mode) (block + first_switch) index.old index.new }
{
    let mut place = at;
    for j in 0..count {
        place = mode_into(
            s,
            place,
            version,
            n,
            index,
            block + FIRST_MODE + MODE_LENGTH * j,
        )?;
    }
    Ok(place)
}

// Whether an alphabet has an event.
pub fn has_event(alphabet: u32, e: u32) -> bool
    requires { e ≤ 15 }
    ensures { result ≡ has_event alphabet e }
{
    (alphabet >> e) % 2 == 1
}

// A label: 0, or an event of the alphabet, else refused as 6.
fn label(s: &[u8], at: usize, alphabet: u32) -> Read<u32>
    ensures { got_field result ≡ read_label alphabet s.now at }
{
    let (value, next) = byte_within(s, at, 0, 15)?;
    if value == 0 {
        return Ok((value, next));
    }
    if has_event(alphabet, value) {
        return Ok((value, next));
    }
    Err(Refusal(Cause::Label, at))
}

// A switch's label and jump condition, kept at three numbers of the index.
fn labelled_into(
    s: &[u8],
    at: usize,
    version: u32,
    n: usize,
    alphabet: u32,
    index: &mut [u16],
    i: usize,
) -> Next
    requires sized { Sized s.now index.old }
    requires n_bound { (n ≤ 8) × (i + 2 < index_length) }
    ensures result_after { got_as (labelled_from s.now version n index.new i) result ≡ read_labelled version n alphabet s.now at }
    ensures kept { Kept i (i + 3) index.old index.new }
{
    let (value, next) = label(s, at, alphabet)?;
    index[i] = value as u16;
    condition_into(s, next, 8, version, 2 * n, index, i + LABEL_LENGTH)
}

// A switch, kept at five numbers of the index.
fn switch_into(
    s: &[u8],
    at: usize,
    version: u32,
    n: usize,
    alphabet: u32,
    modes: u32,
    index: &mut [u16],
    i: usize,
) -> Next
    requires sized { Sized s.now index.old }
    requires n_bound { (n ≤ 8) × ((modes ≤ 8) × (i + 4 < index_length)) }
    ensures result_after { got_as (switch_from s.now version n index.new i) result ≡ read_switch version n alphabet modes s.now at }
    ensures kept { Kept i (i + 5) index.old index.new }
{
    let (source, second) = byte_below(s, at, modes)?;
    let (target, third) = byte_below(s, second, modes)?;
    index[i] = source as u16;
    index[i + TARGET_AT] = target as u16;
    labelled_into(s, third, version, n, alphabet, index, i + LABEL_AT)
}

// What a switch of a component may name: its events, and so many modes.
#[derive(Clone, Copy)]
struct Naming {
    alphabet: u32,
    modes: u32,
}

// So many switches of the component whose block begins here.
fn switches_into(
    s: &[u8],
    at: usize,
    version: u32,
    n: usize,
    may: Naming,
    index: &mut [u16],
    block: usize,
    count: usize,
) -> Next
    requires sized { Sized s.now index.old }
    requires n_bound { (n ≤ 8) × ((may.modes ≤ 8) × ((block ≤ 673) × (count ≤ 32))) }
    ensures result_after { got_as (map (λ i. switch_from s.now version n index.new (switch_place block i)) (count_up 0 count)) result ≡ many count (read_switch version n may.alphabet may.modes) s.now at }
    ensures kept { Kept (block + first_switch) (block + block_length) index.old index.new }
{
    let mut place = at;
    for j in 0..count {
        place = switch_into(
            s,
            place,
            version,
            n,
            may.alphabet,
            may.modes,
            index,
            block + FIRST_SWITCH + SWITCH_LENGTH * j,
        )?;
    }
    Ok(place)
}

// An alphabet: two bytes, bit 0 clear.
fn alphabet(s: &[u8], at: usize) -> Read<u32>
    ensures { got_field result ≡ read_alphabet s.now at }
{
    let (value, next) = half(s, at)?;
    if value % 2 == 0 {
        return Ok((value, next));
    }
    Err(Refusal(Cause::Range, at))
}

// A component's alphabet, mode count and switch count, kept at three numbers of the index.
fn counts_into(s: &[u8], at: usize, index: &mut [u16], block: usize) -> Next
    requires { (index_length ≤ length index.old) × (block + 2 < index_length) }
    ensures result_after { got_as (counts_from index.new block) result ≡ read_counts s.now at }
    ensures kept { Kept block (block + first_mode) index.old index.new }
{
    let (events, second) = alphabet(s, at)?;
    let (modes, third) = byte_within(s, second, 1, 8)?;
    let (switches, next) = byte_within(s, third, 0, 32)?;
    index[block] = (events % 65536) as u16;
    index[block + MODE_COUNT_AT] = modes as u16;
    index[block + SWITCH_COUNT_AT] = switches as u16;
    Ok(next)
}

// A component, kept at the block that begins here.
fn component_into(
    s: &[u8],
    at: usize,
    version: u32,
    n: usize,
    index: &mut [u16],
    block: usize,
) -> Next
    requires sized { Sized s.now index.old }
    requires n_bound { (n ≤ 8) × (block ≤ 673) }
    ensures result_after { got_as (component_from s.now version n index.new block) result ≡ read_component version n s.now at }
    ensures kept { Kept block (block + block_length) index.old index.new }
{
    let second = counts_into(s, at, index, block)?;
    let events = index[block] as u32;
    let modes = index[block + MODE_COUNT_AT] as u32;
    let switches = index[block + SWITCH_COUNT_AT] as usize;
    let third = modes_into(s, second, version, n, index, block, modes as usize)?;
    switches_into(
        s,
        third,
        version,
        n,
        Naming {
            alphabet: events,
            modes,
        },
        index,
        block,
        switches,
    )
}

// So many components.
pub fn components_into(
    s: &[u8],
    at: usize,
    version: u32,
    n: usize,
    index: &mut [u16],
    count: usize,
) -> Next
    requires sized { Sized s.now index.old }
    requires n_bound { (n ≤ 8) × (count ≤ 4) }
    ensures result_after { got_as (map (λ k. component_from s.now version n index.new (component_place k)) (count_up 0 count)) result ≡ many count (read_component version n) s.now at }
    ensures kept { Kept first_block first_unsafe index.old index.new }
{
    let mut place = at;
    for k in 0..count {
        place = component_into(s, place, version, n, index, FIRST_BLOCK + BLOCK_LENGTH * k)?;
    }
    Ok(place)
}
