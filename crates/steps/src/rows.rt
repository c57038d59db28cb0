// Rows on values, which stand in a slice: whether one holds, all of a condition, and those of every present mode.
ghost use Rattle.std.specs.Prelude.{◌≡◌, ◌+◌, ◌*◌, ◌^◌, ◌≤◌, ◌<◌, length, take};
ghost use Rattle.formats.specs.Versions.{row_bytes};
ghost use Rattle.farkas.specs.Lists.{every};
ghost use Rattle.farkas.specs.Rows.{row_holds};
ghost use Rattle.formats.specs.Joint.{count_up};
ghost use Rattle.fields.specs.Places.{row_at};
ghost use Rattle.models.specs.Index.{span_rows, GoodSpan, components_in, index_length, variables_in, version_in};
ghost use Rattle.rules.specs.Runs as runs;
ghost use Rattle.papers.specs.Standing.{GoodModes};
ghost use Rattle.steps.specs.Held.{SmallPoint, mode_holds};

use farkas::words::signed_word;
use farkas::{compare, multiply_add};
use fields::versions::{is_strict, row_bytes};
use models::layout::{COMPONENTS_AT, COUNT_AT, Index, VARIABLES_AT};
use papers::opening::{number_at, version_of};
use papers::standing::mode_place;

// Whether a row with so many coefficients holds at the first values of a point, over q: a·p ≤ b·q, or a·p < b·q where
// it is strict.
fn row_holds(s: &[u8], at: usize, version: u32, count: usize, point: &[i64], q: u32) -> bool
    requires count_in_bounds { (at + row_bytes version count ≤ length s.now) × (length s.now ≤ 32768) }
    requires small_point { SmallPoint count point.now × (q < 2 ^ 24) }
    ensures { result ≡ row_holds q (take count point.now) (row_at s.now version count at).row }
{
    let mut sum: i64 = 0;
    for i in 0..count {
        sum = multiply_add(sum, signed_word(s, at + 4 * i), point[i]);
    }
    let bound = multiply_add(0, signed_word(s, at + 4 * count), i64::from(q));
    compare(is_strict(version, s, at), sum, bound)
}

// Whether the rows hold that an index keeps at a place.
pub fn condition_holds(
    s: &[u8],
    index: &Index,
    place: usize,
    count: usize,
    point: &[i64],
    q: u32,
) -> bool
    requires s_len_bound { (length s.now ≤ 32768) × ((place + 1 < index_length) × GoodSpan s.now (version_in index.now) count index.now place) }
    requires small_point { SmallPoint count point.now × (q < 2 ^ 24) }
    ensures { result ≡ runs.condition_holds q (take count point.now) (span_rows s.now (version_in index.now) count index.now place) }
{
    let version = version_of(index);
    let rows = number_at(index, place + COUNT_AT);
    let first = number_at(index, place);
    for j in 0..rows {
        let at = first + row_bytes(version, count) * j;
        if !row_holds(s, at, version, count, point, q) {
            return false;
        }
    }
    true
}

// Whether the rows hold that an index keeps of the modes at an offset: 1 initial, 3 invariant, 5 flow.
pub fn modes_hold(
    model: &[u8],
    index: &Index,
    modes: [u8; 4],
    offset: usize,
    point: &[i64],
    q: u32,
) -> bool
    requires model_len_bound { (length model.now ≤ 32768) × ((components_in index.now ≤ 4) × ((offset ≤ 5) × GoodModes model.now index.now modes offset)) }
    requires small_point { SmallPoint (variables_in index.now) point.now × (q < 2 ^ 24) }
    ensures { result ≡ every (mode_holds model.now index.now modes offset q point.now) (count_up 0 (components_in index.now)) }
{
    let n = number_at(index, VARIABLES_AT);
    let components = number_at(index, COMPONENTS_AT);
    (0..components).all(|k| {
        let place = mode_place(k, modes[k], offset);
        condition_holds(model, index, place, n, point, q)
    })
}
