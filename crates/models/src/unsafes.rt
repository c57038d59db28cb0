// The variables' owners and the unsafe conditions, the parts of a model's body beside its components, kept in the index
// (specs/Index.antt).
ghost use Rattle.std.specs.Prelude.{◌≡◌, map, ℕ, ◌+◌, ◌≤◌, ◌<◌};
ghost use Rattle.formats.specs.Reading.{u8, below, many};
ghost use Rattle.formats.specs.Model.{read_unsafe};
ghost use Rattle.formats.specs.Joint.{count_up};
ghost use Rattle.models.specs.Index.{Sized, entry, owner_place, unsafe_from, unsafes_from, read_unsafe_modes, unsafe_modes_from, components_from, Kept, components_in, first_total, first_unsafe, index_length, mode_count_in, switch_count_in};
ghost use Rattle.fields.specs.Answers.{got_as};

use crate::layout::{
    BLOCK_LENGTH, FIRST_MODE_COUNT, FIRST_OWNER, FIRST_UNSAFE, UNSAFE_LENGTH, UNSAFE_ROWS_AT,
};
use crate::model::condition_into;
use fields::Next;
use fields::fields::{byte_below, byte_numbered};

// So many owners, each a byte below the count of components.
pub fn owners_into(s: &[u8], at: usize, n: usize, c: u32, index: &mut [u16]) -> Next
    requires sized { Sized s.now index.old }
    requires n_bound { (n ≤ 8) × (c ≤ 4) }
    ensures result_after { got_as (map (λ v. entry index.new (owner_place v)) (count_up 0 n)) result ≡ many n (below c u8) s.now at }
    ensures kept { Kept 3 11 index.old index.new }
{
    let mut place = at;
    for v in 0..n {
        let (owner, next) = byte_below(s, place, c)?;
        index[FIRST_OWNER + v] = owner as u16;
        place = next;
    }
    Ok(place)
}

// A byte for each component, one of its modes or 255, kept from a number of the index on.
fn unsafe_modes_into(s: &[u8], at: usize, c: usize, index: &mut [u16], i: usize) -> Next
    requires sized { Sized s.now index.old }
    requires c_value { (c ≡ components_in index.old) × ((c ≤ 4) × ((first_unsafe ≤ i) × (i + 5 < index_length))) }
    requires by_index { (k : ℕ) → k < c → mode_count_in index.old k ≤ 8 }
    ensures result_after { got_as (unsafe_modes_from c index.new i) result ≡ read_unsafe_modes (components_from s.now index.old) s.now at }
    ensures kept { Kept i (i + 4) index.old index.new }
{
    let mut place = at;
    for k in 0..c {
        let modes = index[FIRST_MODE_COUNT + BLOCK_LENGTH * k] as u32;
        let (mode, next) = byte_numbered(s, place, modes)?;
        index[i + k] = mode as u16;
        place = next;
    }
    Ok(place)
}

// An unsafe condition, kept at six numbers of the index: its modes, and its rows at the last two.
fn unsafe_into(
    s: &[u8],
    at: usize,
    version: u32,
    n: usize,
    c: usize,
    index: &mut [u16],
    i: usize,
) -> Next
    requires sized { Sized s.now index.old }
    requires n_bound { (n ≤ 8) × ((c ≡ components_in index.old) × ((c ≤ 4) × ((first_unsafe ≤ i) × (i + 5 < index_length)))) }
    requires by_index { (k : ℕ) → k < c → mode_count_in index.old k ≤ 8 }
    ensures result_after { got_as (unsafe_from s.now version n c index.new i) result ≡ read_unsafe version n (components_from s.now index.old) s.now at }
    ensures kept { Kept i (i + 6) index.old index.new }
{
    let next = unsafe_modes_into(s, at, c, index, i)?;
    condition_into(s, next, 8, version, n, index, i + UNSAFE_ROWS_AT)
}

// So many unsafe conditions. The components that they name stay as they were.
pub fn unsafes_into(
    s: &[u8],
    at: usize,
    version: u32,
    n: usize,
    c: usize,
    count: usize,
    index: &mut [u16],
) -> Next
    requires sized { Sized s.now index.old }
    requires n_bound { (n ≤ 8) × ((c ≡ components_in index.old) × ((c ≤ 4) × (count ≤ 16))) }
    requires by_index { (k : ℕ) → k < c → (mode_count_in index.old k ≤ 8) × (switch_count_in index.old k ≤ 32) }
    ensures result_after { got_as (unsafes_from s.now version n c count index.new) result ≡ many count (read_unsafe version n (components_from s.now index.old)) s.now at }
    ensures kept { Kept first_unsafe first_total index.old index.new }
{
    let mut place = at;
    for u in 0..count {
        place = unsafe_into(
            s,
            place,
            version,
            n,
            c,
            index,
            FIRST_UNSAFE + UNSAFE_LENGTH * u,
        )?;
    }
    Ok(place)
}
