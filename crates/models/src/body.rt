// The model's body, whole: its counts, owners, components and unsafe conditions.
ghost use Rattle.std.specs.Prelude.{◌≡◌, ◌≤◌, length};
ghost use Rattle.formats.specs.Model.{read_model_body};
ghost use Rattle.models.specs.Index.{Sized, read_totals, totals_from, read_parts, parts_from, model_from, paper_in, Kept, components_in, first_block, first_total, index_length, variables_in, version_in, first_owner};
ghost use Rattle.fields.specs.Answers.{got_as};

use crate::layout::{COMPONENTS_AT, CONDITIONS_AT, VARIABLES_AT};
use crate::model::components_into;
use crate::unsafes::{owners_into, unsafes_into};
use fields::Next;
use fields::fields::byte_within;

// How many variables, components and unsafe conditions there are, kept at the first three numbers of the index.
fn totals_into(s: &[u8], at: usize, index: &mut [u16]) -> Next
    requires { index_length ≤ length index.old }
    ensures result_after { got_as (totals_from index.new) result ≡ read_totals s.now at }
    ensures kept { Kept 0 first_owner index.old index.new }
{
    let (variables, second) = byte_within(s, at, 1, 8)?;
    let (components, third) = byte_within(s, second, 1, 4)?;
    let (conditions, next) = byte_within(s, third, 0, 16)?;
    index[VARIABLES_AT] = variables as u16;
    index[COMPONENTS_AT] = components as u16;
    index[CONDITIONS_AT] = conditions as u16;
    Ok(next)
}

// The components, then the unsafe conditions.
fn parts_into(
    s: &[u8],
    at: usize,
    version: u32,
    n: usize,
    c: usize,
    count: usize,
    index: &mut [u16],
) -> Next
    requires sized { Sized s.now index.old }
    requires n_bound { (n ≤ 8) × ((c ≤ 4) × (count ≤ 16)) }
    requires n_value { (n ≡ variables_in index.old) × ((c ≡ components_in index.old) × (version ≡ version_in index.old)) }
    ensures result_after { got_as (parts_from s.now version n c count index.new) result ≡ read_parts version n c count s.now at }
    ensures kept { Kept first_block first_total index.old index.new }
{
    let next = components_into(s, at, version, n, index, c)?;
    unsafes_into(s, next, version, n, c, count, index)
}

// The body from this place on; the index has the version and the paper number already. After a refusal the numbers of the index are free;
// what a longer array holds past them stays.
pub fn body_into(s: &[u8], at: usize, version: u32, index: &mut [u16]) -> Next
    requires sized { Sized s.now index.old }
    requires version_value { version ≡ version_in index.old }
    ensures result_after { got_as (model_from s.now index.new) result ≡ read_model_body version (paper_in index.old) s.now at }
    ensures kept { Kept 0 first_total index.old index.new }
{
    let second = totals_into(s, at, index)?;
    let n = index[VARIABLES_AT] as usize;
    let c = index[COMPONENTS_AT] as u32;
    let count = index[CONDITIONS_AT] as usize;
    let third = owners_into(s, second, n, c, index)?;
    parts_into(s, third, version, n, c as usize, count, index)
}
