// Variables that keep their value in a step: in a jump those whose owner stays; and, where blanks are kept, those that no row mentions: in a
// flow no flow row of the owner's mode, in a jump no row of the owner's switch, as to the value after. In version 1 no blank is kept.
ghost use Rattle.std.specs.Prelude.{◌≡◌, ◌+◌, ◌*◌, ◌≤◌, ◌<◌, length};
ghost use Rattle.models.specs.Index.{GoodIndex, GoodSpan, components_in, index_length, span_rows, switch_count_in, variables_in, version_in};
ghost use Rattle.models.specs.Counts.{KnownModes, KnownSwitches};
ghost use Rattle.rules.specs.Runs as runs;
ghost use Rattle.papers.specs.Blanks.{Owned, still_at, stays_at, lands_at, rests_at, KnownIn, keeps_at};

use crate::opening::{number_at, version_of};
use crate::standing::{mode_place, switch_place};
use farkas::words::number;
use fields::versions::{keeps_blanks, row_bytes};
use models::layout::{COUNT_AT, FIRST_OWNER, FLOW_AT, Index, VARIABLES_AT};

// Whether no row that an index keeps at a place, with so many coefficients, has one other than 0 at this unknown.
fn unmentioned(s: &[u8], index: &Index, place: usize, count: usize, i: usize) -> bool
    requires s_len_bound { (length s.now ≤ 32768) × ((place + 1 < index_length) × GoodSpan s.now (version_in index.now) count index.now place) }
    requires i_lt_count { (i < count) × (count ≤ 16) }
    ensures { result ≡ runs.unmentioned i (span_rows s.now (version_in index.now) count index.now place) }
{
    let version = version_of(index);
    let rows = number_at(index, place + COUNT_AT);
    let mut at = number_at(index, place);
    for _j in 0..rows {
        if number(s, at + 4 * i) != 0 {
            return false;
        }
        at += row_bytes(version, count);
    }
    true
}

// Whether a variable keeps its value in a flow in these modes.
pub fn kept_in_flow(model: &[u8], index: &Index, modes: [u8; 4], v: usize) -> bool
    requires good_index { GoodIndex model.now index.now × (length model.now ≤ 32768) }
    requires known_modes { KnownModes index.now modes × (v < variables_in index.now) }
    ensures { result ≡ still_at model.now index.now modes v }
{
    if !keeps_blanks(version_of(index)) {
        return false;
    }
    let owner = number_at(index, FIRST_OWNER + v);
    let place = mode_place(owner, modes[owner], FLOW_AT);
    unmentioned(model, index, place, number_at(index, VARIABLES_AT), v)
}

// Whether a variable's owner stays in a jump by these switches.
pub fn owner_stays(index: &Index, switches: [u8; 4], v: usize) -> bool
    requires { Owned index.now × (v < variables_in index.now) }
    ensures { result ≡ stays_at index.now switches v }
{
    let owner = number_at(index, FIRST_OWNER + v);
    switches[owner] == 255
}

// Whether a variable whose owner moves by this switch keeps its value.
fn blank_in_jump(model: &[u8], index: &Index, owner: usize, i: u8, v: usize) -> bool
    requires good_index { GoodIndex model.now index.now × (length model.now ≤ 32768) }
    requires owner_bound { (owner < components_in index.now) × ((i < switch_count_in index.now owner) × (v < variables_in index.now)) }
    ensures { result ≡ lands_at model.now index.now owner i v }
{
    if !keeps_blanks(version_of(index)) {
        return false;
    }
    let place = switch_place(owner, i);
    let n = number_at(index, VARIABLES_AT);
    unmentioned(model, index, place, 2 * n, n + v)
}

// Whether a variable keeps its value in a jump by these switches.
pub fn kept_in_jump(model: &[u8], index: &Index, switches: [u8; 4], v: usize) -> bool
    requires good_index { GoodIndex model.now index.now × (length model.now ≤ 32768) }
    requires known_switches { KnownSwitches index.now switches × (v < variables_in index.now) }
    ensures { result ≡ rests_at model.now index.now switches v }
{
    let owner = number_at(index, FIRST_OWNER + v);
    let i = switches[owner];
    if i == 255 {
        return true;
    }
    blank_in_jump(model, index, owner, i, v)
}

// Whether a variable keeps its value: in a flow in these modes, or in a jump by these switches. One test with a flag: a closure in its place
// took two instructions more a jump, counted.
pub fn keeps(model: &[u8], index: &Index, flow: bool, numbers: [u8; 4], v: usize) -> bool
    requires good_index { GoodIndex model.now index.now × (length model.now ≤ 32768) }
    requires known_in { KnownIn flow index.now numbers × (v < variables_in index.now) }
    ensures { result ≡ keeps_at model.now index.now flow numbers v }
{
    if flow {
        return kept_in_flow(model, index, numbers, v);
    }
    kept_in_jump(model, index, numbers, v)
}
