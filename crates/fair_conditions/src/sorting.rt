// Kept rows in ascending order. Row k stands at 17·k, its numbers one after the other; the order is a list of row numbers, and a row that
// stands in it already is not taken again.
ghost use Rattle.std.specs.Prelude.{◌≡◌, ◌+◌, ◌*◌, ◌≤◌, ◌<◌, length, take, set, get_or};
ghost use Rattle.fair_rows.specs.FairRows.{order};
ghost use Rattle.fair_conditions.specs.Held.{kept_numbers, standing, kept_row, carried_on, left_behind, slip, Among};

use std::cmp::Ordering;

// The most numbers that a row has.
const ROW_LENGTH: usize = 17;

// How so many kept numbers stand to as many others: the first that differ decide.
fn compare(kept: &[u32], a: usize, b: usize, count: usize) -> Ordering
    requires { (a + count ≤ length kept.now) × (b + count ≤ length kept.now) }
    ensures { result ≡ standing (order (kept_numbers kept.now a count) (kept_numbers kept.now b count)) }
{
    kept[a..a + count].cmp(&kept[b..b + count])
}

// Where row k stands.
pub(crate) fn row_base(k: u8) -> usize
    ensures { result ≡ 17 * k }
{
    ROW_LENGTH * usize::from(k)
}

// A row that is carried meets the one at a place of the order: the lower of them stays there, the other is carried on. None is carried on
// where they are the same.
fn meet(kept: &[u32], sorted: &mut [u8], i: usize, carried: u8, count: usize) -> Option<u8>
    requires in_bounds { (136 ≤ length kept.now) × (count ≤ 17) }
    requires i_in_bounds { (i < length sorted.old) × ((carried < 8) × (get_or sorted.old i 0 < 8)) }
    ensures value { result ≡ carried_on (order (kept_numbers kept.now (17 * carried) count) (kept_numbers kept.now (17 * get_or sorted.old i 0) count)) carried (get_or sorted.old i 0) }
    ensures sorted_after { sorted.new ≡ set sorted.old i (left_behind (order (kept_numbers kept.now (17 * carried) count) (kept_numbers kept.now (17 * get_or sorted.old i 0) count)) carried (get_or sorted.old i 0)) }
{
    let met = sorted[i];
    match compare(kept, row_base(carried), row_base(met), count) {
        Ordering::Less => {
            sorted[i] = carried;
            Some(met)
        }
        Ordering::Equal => None,
        Ordering::Greater => Some(carried),
    }
}

// Row k, with n coefficients, takes its place among the first rows of the order. How many there are then.
pub(crate) fn insert(kept: &[u32], sorted: &mut [u8], count: usize, k: u8, n: usize) -> usize
    requires in_bounds { (136 ≤ length kept.now) × (n ≤ 16) }
    requires count_in_bounds { (count < length sorted.old) × ((k < 8) × Among 0 (take count sorted.old)) }
    ensures sorted_after { take result sorted.new ≡ slip (kept_row kept.now n) k (take count sorted.old) }
    ensures upper_bound { result ≤ count + 1 }
{
    let mut carried = k;
    for i in 0..count {
        let Some(next) = meet(kept, sorted, i, carried, n + 1) else {
            return count;
        };
        carried = next;
    }
    sorted[count] = carried;
    count + 1
}
