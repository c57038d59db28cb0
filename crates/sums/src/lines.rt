// The hypotheses of a table: found by a cursor over its segments, and added to the sums straight from the bytes of their sheets.
ghost use Rattle.std.specs.Prelude.{◌≡◌, false, ◌+◌, ◌*◌, ◌-◌, ◌≤◌, ◌<◌, length};
ghost use Rattle.farkas.specs.Rows.{row_of, strictly};
ghost use Rattle.farkas.specs.Farkas.{add_row};
ghost use Rattle.farkas.specs.Sums.{Spare};
ghost use Rattle.hypotheses.specs.Tables.{end_of, row_place, keeps, hypothesis_in, GoodLine};
ghost use Rattle.sums.specs.Summing.{segment_for, InSegment, line_in, table_line};

use crate::Line;
use farkas::{add_one, add_rates, add_row, opposite, times};
use fields::versions::{is_strict, rows_bytes};

// The segment of a hypothesis, from a segment on that does not come after it. How many segments there are is not asked, so no `for`: the
// hypothesis lies before the end of the last.
pub fn segment_of(table: &[u16], from: usize, segments: usize, h: u32) -> usize
    requires le_from { (1 ≤ from) × ((from ≤ segments) × ((segments ≤ 23) × (96 ≤ length table.now))) }
    requires from_bound { (end_of table.now (from - 1) ≤ h) × (h < end_of table.now segments) }
    ensures { ((result ≡ segment_for table.now h from (segments - from)) × (from ≤ result)) × InSegment table.now segments result h }
{
    let mut g = from;
    while table[4 * g] as u32 <= h {
        g += 1;
    }
    g
}

// A hypothesis, by its segment and its number.
pub fn line_at(table: &[u16], g: usize, segments: usize, h: u32) -> Line
    requires { (96 ≤ length table.now) × ((segments ≤ 23) × InSegment table.now segments g h) }
    ensures { result ≡ line_in table.now g h }
{
    let form = table[4 * g + 1] as u32;
    let place = table[4 * g + 2] as usize;
    let row = (h - table[4 * g - 4] as u32) as usize;
    Line { form, place, row }
}

// Where the row of a hypothesis stands: so many rows of n coefficients after the first.
pub fn row_place(version: u32, n: usize, line: Line) -> usize
    requires { (n ≤ 16) × ((line.place < 65536) × (line.row < 65536)) }
    ensures { result ≡ row_place version n line.place line.row }
{
    line.place + rows_bytes(version, n, line.row)
}

// A row of a variable that stays, added m times: "x'−x ≤ 0", or "x−x' ≤ 0".
fn add_staying(sums: &mut [i64], n: usize, v: usize, row: usize, m: u32, bound: i64) -> i64
    requires n_bound { (n ≤ 8) × ((v < n) × (n + n ≤ length sums.old)) }
    requires spare { Spare m (row_of sums.old bound) }
    ensures { row_of sums.new result ≡ add_row (row_of sums.old bound) m (keeps n v row) }
{
    if row == 0 {
        add_one(sums, n + v, times(m));
        add_one(sums, v, opposite(m));
        return bound;
    }
    add_one(sums, n + v, opposite(m));
    add_one(sums, v, times(m));
    bound
}

// A hypothesis of form 6 and above, added m times: the time, a jump row, or a row of a variable that stays.
fn add_later(
    model: &[u8],
    version: u32,
    n: usize,
    line: Line,
    m: u32,
    sums: &mut [i64],
    bound: i64,
) -> i64
    requires model_len_bound { (length model.now ≤ 32768) × ((n ≤ 8) × ((line.place < 65536) × ((line.row < 65536) × (6 ≤ line.form)))) }
    requires good_line { GoodLine model.now model.now version n (length sums.old) (table_line line) × Spare m (row_of sums.old bound) }
    ensures { row_of sums.new result ≡ add_row (row_of sums.old bound) m (strictly false (hypothesis_in model.now model.now version n line.form line.place line.row).row) }
{
    if line.form == 6 {
        add_one(sums, n + n, opposite(m));
        return bound;
    }
    if line.form == 7 {
        return add_row(
            sums,
            bound,
            m,
            0,
            model,
            row_place(version, 2 * n, line),
            2 * n,
        );
    }
    add_staying(sums, n, line.place, line.row, m, bound)
}

// Whether a hypothesis is strict: the row of a sheet as it is marked; a flow row, the time and a staying variable never.
pub fn line_strict(model: &[u8], second: &[u8], version: u32, n: usize, line: Line) -> bool
    requires { (n ≤ 8) × ((line.place < 65536) × (line.row < 65536)) }
    ensures { result ≡ (hypothesis_in model.now second.now version n line.form line.place line.row).row.strict }
{
    if line.form == 1 {
        return is_strict(version, second, row_place(version, n, line));
    }
    if line.form < 5 {
        return is_strict(version, model, row_place(version, n, line));
    }
    if line.form == 7 {
        return is_strict(version, model, row_place(version, 2 * n, line));
    }
    false
}

// A hypothesis, its mark aside, added m times: a row on x, a row on x', a flow row, or a later form.
// A part of the loop over entries wherever a proof is marked: a call for each costs, counted, up to a third more.
#[inline(always)]
pub fn add_line(
    model: &[u8],
    second: &[u8],
    version: u32,
    n: usize,
    line: Line,
    m: u32,
    sums: &mut [i64],
    bound: i64,
) -> i64
    requires model_len_bound { (length model.now ≤ 32768) × ((length second.now ≤ 32768) × ((n ≤ 8) × ((line.place < 65536) × (line.row < 65536)))) }
    requires good_line { GoodLine model.now second.now version n (length sums.old) (table_line line) × Spare m (row_of sums.old bound) }
    ensures { row_of sums.new result ≡ add_row (row_of sums.old bound) m (strictly false (hypothesis_in model.now second.now version n line.form line.place line.row).row) }
{
    if line.form == 1 {
        return add_row(sums, bound, m, 0, second, row_place(version, n, line), n);
    }
    if line.form < 4 {
        return add_row(sums, bound, m, 0, model, row_place(version, n, line), n);
    }
    if line.form == 4 {
        return add_row(sums, bound, m, n, model, row_place(version, n, line), n);
    }
    if line.form == 5 {
        add_rates(sums, m, model, row_place(version, n, line), n);
        return bound;
    }
    add_later(model, version, n, line, m, sums, bound)
}
