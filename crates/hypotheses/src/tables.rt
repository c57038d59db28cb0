// Tables of hypotheses, by pushes in the listed order. Hypotheses that stand one after the other are one segment of four numbers: how many
// hypotheses there are up to its end, its form, its place, and its owner. Forms are those of specs/Tables.antt: they are numbers and no enum,
// since a table is a lent slice of numbers (no heap), and contracts tell its lines by them.
ghost use Rattle.std.specs.Prelude.{Bool, ℕ, ◌≡◌, ◌++◌, ◌+◌, ◌*◌, ◌≤◌, ◌<◌, length};
ghost use Rattle.models.specs.Index.{entry, components_in, GoodIndex};
ghost use Rattle.models.specs.Counts.{per_component, KnownModes, KnownSwitches};
ghost use Rattle.hypotheses.specs.Tables.{segment, end_of, Stacked, lines_in, Onto};
ghost use Rattle.hypotheses.specs.Listing.{kept_lines, mode_lines, switch_line, switch_lines, variable_line, variable_lines, TestedBy, staying_lines, still_lines, FewRows, FewJumps, FewJump};

use fields::versions::keeps_blanks;
use models::layout::{COMPONENTS_AT, COUNT_AT, Index, VARIABLES_AT};
use papers::blanks::{kept_in_flow, kept_in_jump, owner_stays};
use papers::opening::version_of;
use papers::standing::{mode_place, switch_place};

// A table has room for 23 segments, after one that is empty. The most that a list has is 22, that of a flow: a region, four invariants on x
// and four on x', four flow conditions, the time, eight variables that keep their value. They have at most 129 hypotheses. A jump has at most 21
// segments.
pub const TABLE_LENGTH: usize = 96;

// The form of the rows of a jump, and of the rows of a variable that keeps its value.
const JUMP_FORM: u16 = 7;

const STAYING_FORM: u16 = 8;

// One segment more: so many hypotheses of a form from a place on, of one owner.
pub fn push(table: &mut [u16], at: usize, form: u16, place: u16, owner: u16, count: u16) -> usize
    requires in_bounds { (96 ≤ length table.old) × (at ≤ 22) }
    requires stacked { Stacked table.old at × (count ≤ 16) }
    ensures result_after { lines_in table.new result ≡ lines_in table.old at ++ (segment form place owner count) }
    ensures onto { Onto table.old at 1 table.new result }
{
    let first = table[4 * at];
    table[4 * at + 4] = first + count;
    table[4 * at + 5] = form;
    table[4 * at + 6] = place;
    table[4 * at + 7] = owner;
    at + 1
}

// How many hypotheses a table has, up to a segment.
pub fn lines(table: &[u16], at: usize) -> u32
    requires { (96 ≤ length table.now) × (at ≤ 23) }
    ensures { result ≡ end_of table.now at }
{
    u32::from(table[4 * at])
}

// The rows that two numbers of an index tell: the place of the first, and how many.
pub fn push_kept(
    index: &[u16],
    kept: usize,
    form: u16,
    owner: u16,
    table: &mut [u16],
    at: usize,
) -> usize
    requires kept_in_bounds { (kept + 1 < length index.now) × (entry index.now (kept + 1) ≤ 16) }
    requires in_bounds { (96 ≤ length table.old) × ((at ≤ 22) × Stacked table.old at) }
    ensures result_after { lines_in table.new result ≡ lines_in table.old at ++ (kept_lines form owner index.now kept) }
    ensures onto { Onto table.old at 1 table.new result }
{
    push(table, at, form, index[kept], owner, index[kept + COUNT_AT])
}

// A condition of every present mode, component by component: kept so many numbers into the mode's place.
pub fn push_modes(
    index: &Index,
    modes: [u8; 4],
    offset: usize,
    form: u16,
    table: &mut [u16],
    at: usize,
) -> usize
    requires few_rows { FewRows index.now modes offset }
    requires in_bounds { (96 ≤ length table.old) × ((at ≤ 19) × Stacked table.old at) }
    ensures result_after { lines_in table.new result ≡ lines_in table.old at ++ (mode_lines form offset index.now 0 (per_component index.now modes)) }
    ensures onto { Onto table.old at 4 table.new result }
{
    let mut to = at;
    for k in 0..usize::from(index[COMPONENTS_AT]) {
        let component = k as u16;
        to = push_kept(
            index,
            mode_place(k, modes[k], offset),
            form,
            component,
            table,
            to,
        );
    }
    to
}

// The rows of a component's switch, where it moves.
fn push_switch(index: &Index, k: usize, i: u8, table: &mut [u16], at: usize) -> usize
    requires k_bound { (k < 4) × FewJump index.now k i }
    requires in_bounds { (96 ≤ length table.old) × ((at ≤ 22) × Stacked table.old at) }
    ensures result_after { lines_in table.new result ≡ lines_in table.old at ++ (switch_line index.now k i) }
    ensures onto { Onto table.old at 1 table.new result }
{
    if i == 255 {
        return at;
    }
    push_kept(index, switch_place(k, i), JUMP_FORM, k as u16, table, at)
}

// The rows of every switch by which a component moves.
pub fn push_switches(index: &Index, switches: [u8; 4], table: &mut [u16], at: usize) -> usize
    requires index_bound { (components_in index.now ≤ 4) × FewJumps index.now switches }
    requires in_bounds { (96 ≤ length table.old) × ((at ≤ 19) × Stacked table.old at) }
    ensures result_after { lines_in table.new result ≡ lines_in table.old at ++ (switch_lines index.now 0 (per_component index.now switches)) }
    ensures onto { Onto table.old at 4 table.new result }
{
    let mut to = at;
    for k in 0..usize::from(index[COMPONENTS_AT]) {
        to = push_switch(index, k, switches[k], table, to);
    }
    to
}

// The two rows of a variable, where it keeps its value.
fn push_variable(kept: bool, v: usize, table: &mut [u16], at: usize) -> usize
    requires v_bound { v < 8 }
    requires in_bounds { (96 ≤ length table.old) × ((at ≤ 22) × Stacked table.old at) }
    ensures result_after { lines_in table.new result ≡ lines_in table.old at ++ (variable_line kept v) }
    ensures onto { Onto table.old at 1 table.new result }
{
    if !kept {
        return at;
    }
    let variable = v as u16;
    push(table, at, STAYING_FORM, variable, variable, 2)
}

// The two rows of every variable, of n, that passes a test.
fn push_those<F: Fn(usize) -> bool>(n: usize, kept: F, table: &mut [u16], at: usize) -> usize
    requires n_bound { n ≤ 8 }
    requires kept_called { (v : ℕ) → v < n → F.pre kept v }
    requires in_bounds { (96 ≤ length table.old) × ((at ≤ 15) × Stacked table.old at) }
    ensures result_after { (test : ℕ → Bool) → TestedBy F.post kept n test → lines_in table.new result ≡ lines_in table.old at ++ (variable_lines test n) }
    ensures onto { Onto table.old at 8 table.new result }
{
    let mut to = at;
    for v in 0..n {
        to = push_variable(kept(v), v, table, to);
    }
    to
}

// The two rows of every variable that keeps its value in a jump by these switches. Where no blank is kept, only owners are looked at.
pub fn push_staying(
    model: &[u8],
    index: &Index,
    switches: [u8; 4],
    table: &mut [u16],
    at: usize,
) -> usize
    requires good_index { GoodIndex model.now index.now × ((length model.now ≤ 32768) × KnownSwitches index.now switches) }
    requires in_bounds { (96 ≤ length table.old) × ((at ≤ 15) × Stacked table.old at) }
    ensures result_after { lines_in table.new result ≡ lines_in table.old at ++ (staying_lines model.now index.now switches) }
    ensures onto { Onto table.old at 8 table.new result }
{
    let n = usize::from(index[VARIABLES_AT]);
    if !keeps_blanks(version_of(index)) {
        return push_those(n, |v| owner_stays(index, switches, v), table, at);
    }
    push_those(n, |v| kept_in_jump(model, index, switches, v), table, at)
}

// The two rows of every variable that keeps its value in a flow in these modes.
pub fn push_still(
    model: &[u8],
    index: &Index,
    modes: [u8; 4],
    table: &mut [u16],
    at: usize,
) -> usize
    requires good_index { GoodIndex model.now index.now × ((length model.now ≤ 32768) × KnownModes index.now modes) }
    requires in_bounds { (96 ≤ length table.old) × ((at ≤ 15) × Stacked table.old at) }
    ensures result_after { lines_in table.new result ≡ lines_in table.old at ++ (still_lines model.now index.now modes) }
    ensures onto { Onto table.old at 8 table.new result }
{
    if !keeps_blanks(version_of(index)) {
        return at;
    }
    let n = usize::from(index[VARIABLES_AT]);
    push_those(n, |v| kept_in_flow(model, index, modes, v), table, at)
}
