// Tests on the values of states, which stand in a lent slice: the values before in its first numbers, one to a variable, those after in as
// many numbers from there on, and then their change. How a run may begin, unsafe states, the rules of flows and jumps.
ghost use Rattle.std.specs.Prelude.{◌≡◌, false, not, ℕ, ◌+◌, ◌*◌, ◌^◌, ◌≤◌, ◌<◌, eqb, length};
ghost use Rattle.farkas.specs.Lists.{every};
ghost use Rattle.formats.specs.Joint.{stays, count_up};
ghost use Rattle.models.specs.Index.{model_from, GoodIndex, components_in, conditions_in, switch_count_in, variables_in};
ghost use Rattle.models.specs.Counts.{per_component, KnownModes, KnownSwitches};
ghost use Rattle.papers.specs.Blanks.{KnownIn, Owned, keeps_at, still_at, stays_at};
ghost use Rattle.rules.specs.Runs as runs;
ghost use Rattle.steps.specs.Held.{Located, SmallValues, SmallState, SmallPoint, state_of, state_in, values_after, with_changes, moved_on, unsafe_at, move_holds, same_at, kept_at};

use crate::rows::{condition_holds, modes_hold};
use fields::versions::keeps_blanks;
use models::layout::{
    COMPONENTS_AT, CONDITIONS_AT, FIRST_UNSAFE, FLOW_AT, INITIAL_AT, INVARIANT_AT, Index,
    UNSAFE_LENGTH, UNSAFE_ROWS_AT, VARIABLES_AT,
};
use papers::blanks::{keeps, owner_stays};
use papers::opening::{number_at, version_of};
use papers::standing::{all_start, modes_fit, switch_place};

// Whether a run may begin in a state.
pub fn start_allowed(model: &[u8], index: &Index, modes: [u8; 4], q: u32, state: &[i64]) -> bool
    requires located { Located model.now index.now modes }
    requires small_values { SmallValues (variables_in index.now) state.now × (q < 2 ^ 24) }
    ensures { result ≡ runs.start_allowed (model_from model.now index.now) q (state_in model.now index.now modes state.now) }
{
    modes_hold(model, index, modes, INVARIANT_AT, state, q)
        && all_start(model, index, modes)
        && modes_hold(model, index, modes, INITIAL_AT, state, q)
}

// Whether the modes and the rows of an unsafe condition fit.
fn unsafe_fits(model: &[u8], index: &Index, u: usize, modes: [u8; 4], state: &[i64], q: u32) -> bool
    requires located { Located model.now index.now modes × (u < conditions_in index.now) }
    requires small_point { SmallPoint (variables_in index.now) state.now × (q < 2 ^ 24) }
    ensures { result ≡ unsafe_at model.now index.now modes q state.now u }
{
    let place = FIRST_UNSAFE + UNSAFE_LENGTH * u + UNSAFE_ROWS_AT;
    let n = number_at(index, VARIABLES_AT);
    modes_fit(model, index, u, modes) && condition_holds(model, index, place, n, state, q)
}

// Whether a state is unsafe: some unsafe condition fits.
pub fn is_unsafe(model: &[u8], index: &Index, modes: [u8; 4], q: u32, state: &[i64]) -> bool
    requires located { Located model.now index.now modes }
    requires small_values { SmallValues (variables_in index.now) state.now × (q < 2 ^ 24) }
    ensures { result ≡ runs.is_unsafe (model_from model.now index.now) q (state_in model.now index.now modes state.now) }
{
    let conditions = number_at(index, CONDITIONS_AT);
    (0..conditions).any(|u| unsafe_fits(model, index, u, modes, state, q))
}

// Whether the values after are those before.
fn same_values(n: usize, state: &[i64]) -> bool
    requires { 2 * n ≤ length state.now }
    ensures { result ≡ every (same_at n state.now) (count_up 0 n) }
{
    (0..n).all(|v| same_value(v, n, state))
}

// By how much each value changes, behind the values after.
fn changes_into(n: usize, state: &mut [i64])
    requires { SmallValues (2 * n) state.old × (3 * n ≤ length state.old) }
    ensures { state.new ≡ with_changes n state.old }
{
    for i in 0..n {
        state[2 * n + i] = state[n + i] - state[i];
    }
}

// Whether a variable's value is the same after as before.
fn same_value(v: usize, n: usize, state: &[i64]) -> bool
    requires { (v < n) × (2 * n ≤ length state.now) }
    ensures { result ≡ same_at n state.now v }
{
    state[n + v] == state[v]
}

// Whether a variable's value has changed though a flow in these modes, or a jump by these switches, keeps it. Rows are looked at only where
// it has changed.
fn moved(
    model: &[u8],
    index: &Index,
    flow: bool,
    numbers: [u8; 4],
    v: usize,
    n: usize,
    state: &[i64],
) -> bool
    requires good_index { GoodIndex model.now index.now × (length model.now ≤ 32768) }
    requires known_in { KnownIn flow index.now numbers × (v < variables_in index.now) }
    requires v_lt_n { (v < n) × (2 * n ≤ length state.now) }
    ensures { not result ≡ kept_at (keeps_at model.now index.now flow numbers) n state.now v }
{
    if same_value(v, n, state) {
        return false;
    }
    keeps(model, index, flow, numbers, v)
}

// Whether the variables keep their values that no flow row mentions.
fn still_kept(model: &[u8], index: &Index, modes: [u8; 4], state: &[i64]) -> bool
    requires good_index { GoodIndex model.now index.now × (length model.now ≤ 32768) }
    requires known_modes { KnownModes index.now modes × (2 * variables_in index.now ≤ length state.now) }
    ensures { result ≡ every (kept_at (still_at model.now index.now modes) (variables_in index.now) state.now) (count_up 0 (variables_in index.now)) }
{
    if !keeps_blanks(version_of(index)) {
        return true;
    }
    let n = number_at(index, VARIABLES_AT);
    (0..n).all(|v| !moved(model, index, true, modes, v, n, state))
}

// Whether a flow of this time meets its rule. The changes of the values stand behind them then.
pub fn flow_rule(model: &[u8], index: &Index, modes: [u8; 4], time: u32, state: &mut [i64]) -> bool
    requires located { Located model.now index.now modes × (time < 2 ^ 24) }
    requires small_state { SmallState index.now state.old }
    ensures value { result ≡ runs.flow_rule (model_from model.now index.now) (state_in model.now index.now modes state.old) time (values_after index.now state.old) }
    ensures state_after { state.new ≡ with_changes (variables_in index.now) state.old }
{
    let n = number_at(index, VARIABLES_AT);
    changes_into(n, state);
    let changes = 2 * n;
    modes_hold(model, index, modes, FLOW_AT, &state[changes..], time)
        && still_kept(model, index, modes, state)
        && (time != 0 || same_values(n, state))
}

// Whether a component stays, or the rows of its switch hold at the values before and after.
fn move_holds(model: &[u8], index: &Index, k: usize, i: u8, state: &[i64], q: u32) -> bool
    requires good_index { GoodIndex model.now index.now × (length model.now ≤ 32768) }
    requires k_bound { (k < components_in index.now) × (eqb i stays ≡ false → i < switch_count_in index.now k) }
    requires small_point { SmallPoint (2 * variables_in index.now) state.now × (q < 2 ^ 24) }
    ensures { result ≡ move_holds model.now index.now q state.now k i }
{
    if i == 255 {
        return true;
    }
    let place = switch_place(k, i);
    condition_holds(
        model,
        index,
        place,
        2 * number_at(index, VARIABLES_AT),
        state,
        q,
    )
}

// Whether the rows of a jump by these switches hold, from whichever location.
pub fn jump_rows(model: &[u8], index: &Index, q: u32, switches: [u8; 4], state: &[i64]) -> bool
    requires good_index { GoodIndex model.now index.now × (length model.now ≤ 32768) }
    requires known_switches { KnownSwitches index.now switches }
    requires small_values { SmallValues (2 * variables_in index.now) state.now × (q < 2 ^ 24) }
    ensures { (location : ℕ) → result ≡ runs.jump_rows (model_from model.now index.now) q (state_of index.now location state.now) (per_component index.now switches) (values_after index.now state.now) }
{
    let components = number_at(index, COMPONENTS_AT);
    (0..components).all(|k| move_holds(model, index, k, switches[k], state, q))
}

// Whether a variable's value is the same after as before, where its owner stays.
fn value_kept(index: &Index, switches: [u8; 4], v: usize, n: usize, state: &[i64]) -> bool
    requires owned { Owned index.now × (v < variables_in index.now) }
    requires v_lt_n { (v < n) × (2 * n ≤ length state.now) }
    ensures { result ≡ kept_at (stays_at index.now switches) n state.now v }
{
    if !owner_stays(index, switches, v) {
        return true;
    }
    same_value(v, n, state)
}

// Whether the variables keep their values that a jump by these switches keeps, from whichever location. Where no blank is kept, only
// owners are looked at.
pub fn staying_kept(model: &[u8], index: &Index, switches: [u8; 4], state: &[i64]) -> bool
    requires good_index { GoodIndex model.now index.now × (length model.now ≤ 32768) }
    requires known_switches { KnownSwitches index.now switches × (2 * variables_in index.now ≤ length state.now) }
    ensures { (location : ℕ) → result ≡ runs.staying_kept (model_from model.now index.now) (state_of index.now location state.now) (per_component index.now switches) (values_after index.now state.now) }
{
    let n = number_at(index, VARIABLES_AT);
    if !keeps_blanks(version_of(index)) {
        return (0..n).all(|v| value_kept(index, switches, v, n, state));
    }
    (0..n).all(|v| !moved(model, index, false, switches, v, n, state))
}

// The values after a step are those before the next.
pub fn keep_values(index: &Index, state: &mut [i64])
    requires { 2 * variables_in index.now ≤ length state.old }
    ensures { state.new ≡ moved_on (variables_in index.now) state.old }
{
    let n = number_at(index, VARIABLES_AT);
    state.copy_within(n..2 * n, 0);
}
