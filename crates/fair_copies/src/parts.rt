// The parts of a fair copy, one after the other: modes, switches, components and unsafe conditions, by where the index keeps them.
ghost use Rattle.std.specs.Prelude.{◌≡◌, ℕ, ◌+◌, ◌*◌, ◌^◌, ◌≤◌, ◌<◌, length};
ghost use Rattle.formats.specs.Joint.{count_up, join_all};
ghost use Rattle.models.specs.Index.{entry, version_in, index_length, components_in, variables_in, GoodSpan};
ghost use Rattle.buffers.specs.Written.{Written};
ghost use Rattle.fair_copies.specs.Copyable.{Copyable, entries, component_bytes};
ghost use Rattle.fair_copies.specs.Items.{span_bytes, spans_bytes, item_bytes, items_bytes, GoodSpans, GoodItem, GoodItems, mode_items, switch_items, condition_items};

use buffers::{put_byte, put_half};
use fair_conditions::conditions::{Stretch, put_condition};
use models::layout::{
    BLOCK_LENGTH, COMPONENTS_AT, CONDITIONS_AT, COUNT_AT, FIRST_BLOCK, FIRST_MODE, FIRST_SWITCH,
    FIRST_UNSAFE, INITIAL_AT, Index, JUMP_AT, MODE_COUNT_AT, MODE_LENGTH, SECOND_SPAN,
    SWITCH_COUNT_AT, SWITCH_LENGTH, UNSAFE_LENGTH, UNSAFE_ROWS_AT, VARIABLES_AT,
};
use papers::opening::{number_at, version_of};

// Eight rows of seventeen numbers, and eight row numbers: what a condition needs.
pub(crate) const KEPT_LENGTH: usize = 136;

pub(crate) const MOST_ROWS: usize = 8;

// The numbers of a condition's rows and their order, while it is written.
#[derive(Clone, Copy)]
pub(crate) struct Scratch {
    pub(crate) kept: [u32; KEPT_LENGTH],
    pub(crate) sorted: [u8; MOST_ROWS],
}

// Items that an index keeps one after the other, the modes of a component, its switches, or the unsafe conditions: how many coefficients
// their rows have, the place of the first, how many numbers each takes, and how many there are. Each has some numbers that are bytes of the
// sheet, then, from a number on, its conditions.
#[derive(Clone, Copy)]
pub(crate) struct Items {
    n: usize,
    first: usize,
    step: usize,
    count: usize,
    head: usize,
    rows: usize,
    spans: usize,
}

// What each function says of the place after what it writes is a bound: a condition has a byte for its count and eight rows of at most 68
// bytes, 545 in all; an item four bytes and three conditions, 1,639; a component four bytes and twice 32 items; and so on.

// So many numbers of an index, a byte each. The place after them.
pub(crate) fn put_entries(
    out: &mut [u8],
    at: usize,
    index: &Index,
    from: usize,
    count: usize,
) -> usize
    requires { (at < 2 ^ 58) × ((from + count ≤ index_length) × ((k : ℕ) → k < count → entry index.now (from + k) < 256)) }
    ensures written { Written out.old at (entries index.now from count) out.new result }
    ensures value { result ≡ at + count }
{
    let mut next = at;
    for i in 0..count {
        next = put_byte(out, next, number_at(index, from + i) as u8);
    }
    next
}

// The condition that an index keeps at a place, with n coefficients a row. The place after it.
fn put_span(
    out: &mut [u8],
    at: usize,
    model: &[u8],
    index: &Index,
    place: usize,
    n: usize,
    scratch: &mut Scratch,
) -> usize
    requires model_len_bound { (length model.now ≤ 32768) × ((place + 1 < index_length) × GoodSpan model.now (version_in index.now) n index.now place) }
    requires at_bound { (at < 2 ^ 57) × (n ≤ 16) }
    ensures written { Written out.old at (span_bytes model.now index.now n place) out.new result }
    ensures upper_bound { result ≤ at + 545 }
{
    let version = version_of(index);
    let first = number_at(index, place);
    let rows = number_at(index, place + COUNT_AT) as u8;
    let stretch = Stretch {
        version,
        n,
        place: first,
        rows,
    };
    put_condition(
        out,
        at,
        model,
        stretch,
        &mut scratch.kept,
        &mut scratch.sorted,
    )
}

// The conditions of an item, one after the other: an index keeps each as two numbers. The place after them.
fn put_spans(
    out: &mut [u8],
    at: usize,
    model: &[u8],
    index: &Index,
    items: Items,
    place: usize,
    scratch: &mut Scratch,
) -> usize
    requires model_len_bound { (length model.now ≤ 32768) × ((place + 2 * items.spans ≤ index_length) × GoodSpans model.now index.now items place) }
    requires at_bound { (at < 2 ^ 56) × ((items.n ≤ 16) × (items.spans ≤ 3)) }
    ensures written { Written out.old at (spans_bytes model.now index.now items place) out.new result }
    ensures upper_bound { result ≤ at + 1635 }
{
    let mut next = at;
    for i in 0..items.spans {
        next = put_span(
            out,
            next,
            model,
            index,
            place + SECOND_SPAN * i,
            items.n,
            scratch,
        );
    }
    next
}

// The item that an index keeps at a place: its first numbers, a byte each, then its conditions. The place after it.
fn put_item(
    out: &mut [u8],
    at: usize,
    model: &[u8],
    index: &Index,
    items: Items,
    place: usize,
    scratch: &mut Scratch,
) -> usize
    requires model_len_bound { (length model.now ≤ 32768) × GoodItem model.now index.now items place }
    requires at_bound { at < 2 ^ 55 }
    ensures written { Written out.old at (item_bytes model.now index.now items place) out.new result }
    ensures upper_bound { result ≤ at + 1639 }
{
    let head = put_entries(out, at, index, place, items.head);
    put_spans(out, head, model, index, items, place + items.rows, scratch)
}

// All items of a kind. The place after them.
pub(crate) fn put_items(
    out: &mut [u8],
    at: usize,
    model: &[u8],
    index: &Index,
    items: Items,
    scratch: &mut Scratch,
) -> usize
    requires model_len_bound { (length model.now ≤ 32768) × GoodItems model.now index.now items }
    requires at_bound { at < 2 ^ 54 }
    ensures written { Written out.old at (items_bytes model.now index.now items) out.new result }
    ensures upper_bound { result ≤ at + 52448 }
{
    let mut next = at;
    for i in 0..items.count {
        next = put_item(
            out,
            next,
            model,
            index,
            items,
            items.first + items.step * i,
            scratch,
        );
    }
    next
}

// The modes of the component whose block begins here.
fn modes_of(index: &Index, block: usize) -> Items
    requires { block + 1 < index_length }
    ensures { result ≡ mode_items index.now block }
{
    let n = number_at(index, VARIABLES_AT);
    let count = number_at(index, block + MODE_COUNT_AT);
    Items {
        n,
        first: block + FIRST_MODE,
        step: MODE_LENGTH,
        count,
        head: INITIAL_AT,
        rows: INITIAL_AT,
        spans: 3,
    }
}

// Its switches.
fn switches_of(index: &Index, block: usize) -> Items
    requires { (block + 2 < index_length) × (variables_in index.now ≤ 8) }
    ensures { result ≡ switch_items index.now block }
{
    let n = number_at(index, VARIABLES_AT);
    let count = number_at(index, block + SWITCH_COUNT_AT);
    Items {
        n: 2 * n,
        first: block + FIRST_SWITCH,
        step: SWITCH_LENGTH,
        count,
        head: JUMP_AT,
        rows: JUMP_AT,
        spans: 1,
    }
}

// The unsafe conditions.
pub(crate) fn conditions_of(index: &Index) -> Items
    ensures { result ≡ condition_items index.now }
{
    let n = number_at(index, VARIABLES_AT);
    let components = number_at(index, COMPONENTS_AT);
    let count = number_at(index, CONDITIONS_AT);
    Items {
        n,
        first: FIRST_UNSAFE,
        step: UNSAFE_LENGTH,
        count,
        head: components,
        rows: UNSAFE_ROWS_AT,
        spans: 1,
    }
}

// Component k: its alphabet, how many modes and switches it has, then these. The place after it.
fn put_component(
    out: &mut [u8],
    at: usize,
    model: &[u8],
    index: &Index,
    k: usize,
    scratch: &mut Scratch,
) -> usize
    requires copyable { Copyable model.now index.now × (k < components_in index.now) }
    requires at_bound { at < 2 ^ 53 }
    ensures written { Written out.old at (component_bytes model.now index.now k) out.new result }
    ensures upper_bound { result ≤ at + 104900 }
{
    let block = FIRST_BLOCK + BLOCK_LENGTH * k;
    let alphabet = put_half(out, at, u32::from(index[block]));
    let counts = put_entries(out, alphabet, index, block + MODE_COUNT_AT, 2);
    let modes = put_items(out, counts, model, index, modes_of(index, block), scratch);
    put_items(out, modes, model, index, switches_of(index, block), scratch)
}

// All components. The place after them.
pub(crate) fn put_components(
    out: &mut [u8],
    at: usize,
    model: &[u8],
    index: &Index,
    scratch: &mut Scratch,
) -> usize
    requires copyable { Copyable model.now index.now }
    requires at_bound { at < 2 ^ 52 }
    ensures written { Written out.old at (join_all (component_bytes model.now index.now) (count_up 0 (components_in index.now))) out.new result }
    ensures upper_bound { result ≤ at + 419600 }
{
    let count = number_at(index, COMPONENTS_AT);
    let mut next = at;
    for k in 0..count {
        next = put_component(out, next, model, index, k, scratch);
    }
    next
}
