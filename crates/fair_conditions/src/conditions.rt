// The fair rows of a condition of a sheet: gathered, then written.
ghost use Rattle.std.specs.Prelude.{List, ◌∷◌, map, ◌≡◌, ℕ, ◌+◌, ◌*◌, ◌^◌, ◌≤◌, ◌<◌, length, take};
ghost use Rattle.farkas.specs.Rows.{Row};
ghost use Rattle.farkas.specs.Words.{NumbersIn, row_in};
ghost use Rattle.fair_rows.specs.FairRows.{fair_rows};
ghost use Rattle.fields.specs.Places.{rows_from};
ghost use Rattle.formats.specs.Joint.{join_all};
ghost use Rattle.formats.specs.Versions.{row_bytes};
ghost use Rattle.writing.specs.Changed.{unplaced};
ghost use Rattle.writing.specs.Writing.{write_number, write_row};
ghost use Rattle.buffers.specs.Over.{over};
ghost use Rattle.buffers.specs.Written.{Written};
ghost use Rattle.fair_conditions.specs.Held.{kept_numbers, Among, rows_by, stretch_bytes, GoodStretch};

use crate::divisors::{coded, keep_divided, row_divisor};
use crate::sorting::{insert, row_base};
use buffers::{put_byte, put_word};
use fields::versions::row_bytes;

// Rows of a sheet: its version, how many coefficients a row has, the place of the first, and how many there are.
#[derive(Clone, Copy)]
pub struct Stretch {
    pub version: u32,
    pub n: usize,
    pub place: usize,
    pub rows: u8,
}

// Row j of a condition, with n coefficients: divided and put into the order, or dropped. How many rows the order then has.
fn take_row(
    s: &[u8],
    at: usize,
    n: usize,
    kept: &mut [u32],
    sorted: &mut [u8],
    count: usize,
    j: u8,
) -> usize
    requires numbers_in { NumbersIn s.now at (n + 1) × ((n ≤ 16) × (j < 8)) }
    requires in_bounds { (136 ≤ length kept.old) × ((count < length sorted.old) × Among (j + 1) (take count sorted.old)) }
    ensures result_after { (rows : List Row) → rows_by kept.old n sorted.old count ≡ fair_rows rows → rows_by kept.new n sorted.new result ≡ fair_rows (row_in s.now at n ∷ rows) }
    ensures upper_bound { (result ≤ count + 1) × Among j (take result sorted.new) }
{
    let divisor = row_divisor(s, at, n);
    if divisor == 0 {
        return count;
    }
    keep_divided(s, at, n + 1, divisor, kept, row_base(j));
    insert(kept, sorted, count, j, n)
}

// The rows of a condition, the last first. How many are left of them.
fn gather(
    s: &[u8],
    place: usize,
    version: u32,
    n: usize,
    rows: u8,
    kept: &mut [u32],
    sorted: &mut [u8],
) -> usize
    requires by_index { ((j : ℕ) → j < rows → place + row_bytes version n * (j + 1) ≤ length s.now) × ((length s.now ≤ 32768) × ((n ≤ 16) × (rows ≤ 8))) }
    requires in_bounds { (136 ≤ length kept.old) × (8 ≤ length sorted.old) }
    ensures result_after { rows_by kept.new n sorted.new result ≡ fair_rows (map (λ x. x.row) (rows_from s.now version n place rows)) }
    ensures upper_bound { (result ≤ rows) × Among 0 (take result sorted.new) }
{
    let size = row_bytes(version, n);
    let mut count: usize = 0;
    for j in (0..rows).rev() {
        count = take_row(s, place + size * usize::from(j), n, kept, sorted, count, j);
    }
    count
}

// So many kept numbers, from a place on. The place after them.
fn put_numbers(out: &mut [u8], at: usize, kept: &[u32], base: usize, count: usize) -> usize
    requires { (at < 2 ^ 60) × ((count ≤ 17) × (base + count ≤ length kept.now)) }
    ensures written { Written out.old at (join_all write_number (kept_numbers kept.now base count)) out.new result }
    ensures value { result ≡ at + 4 * count }
{
    let mut next = at;
    for i in 0..count {
        next = put_word(out, next, coded(kept[base + i]));
    }
    next
}

// The rows of an order, with n coefficients each. The place after them. The version is handed over for the contract.
fn put_rows(
    out: &mut [u8],
    at: usize,
    kept: &[u32],
    sorted: &[u8],
    count: usize,
    version: u32,
    n: usize,
) -> usize
    requires at_bound { (at < 2 ^ 59) × ((count ≤ 8) × (n ≤ 16)) }
    requires in_bounds { (136 ≤ length kept.now) × ((count ≤ length sorted.now) × Among 0 (take count sorted.now)) }
    ensures written { Written out.old at (join_all (write_row version) (map unplaced (rows_by kept.now n sorted.now count))) out.new result }
    ensures upper_bound { result ≤ at + 68 * count }
{
    let mut next = at;
    for i in 0..count {
        next = put_numbers(out, next, kept, row_base(sorted[i]), n + 1);
    }
    next
}

// A condition of so many rows: the count of its fair rows, then the rows. The place after them. The room is two slices, of at least so many
// numbers: a struct of arrays would ask for just so many.
pub fn put_condition(
    out: &mut [u8],
    at: usize,
    s: &[u8],
    stretch: Stretch,
    kept: &mut [u32],
    sorted: &mut [u8],
) -> usize
    requires good_stretch { GoodStretch s.now stretch }
    requires at_bound { (at < 2 ^ 58) × ((136 ≤ length kept.old) × (8 ≤ length sorted.old)) }
    ensures value { result ≡ at + length (stretch_bytes s.now stretch) }
    ensures out_after { out.new ≡ over out.old at (stretch_bytes s.now stretch) }
    ensures upper_bound { result ≤ at + 545 }
{
    let count = gather(
        s,
        stretch.place,
        stretch.version,
        stretch.n,
        stretch.rows,
        kept,
        sorted,
    );
    let first = put_byte(out, at, count as u8);
    put_rows(out, first, kept, sorted, count, stretch.version, stretch.n)
}
