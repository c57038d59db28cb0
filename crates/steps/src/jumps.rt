// Steps of a run: joint switches, the rule of a jump, whether a step is allowed, and the modes that it leads to.
ghost use Rattle.std.specs.Prelude.{◌≡◌, ◌*◌, ◌^◌, ◌≤◌, ◌<◌, drop, length};
ghost use Rattle.formats.specs.Joint.{moves, part_in, members_move, all_stay, one_moves, is_joint};
ghost use Rattle.models.specs.Index.{components_from, model_from, GoodIndex, components_in, variables_in};
ghost use Rattle.models.specs.Counts.{component_at, per_component, KnownSwitches};
ghost use Rattle.second_sheets.specs.RunAnswers.{KeptValues};
ghost use Rattle.rules.specs.Runs as runs;
ghost use Rattle.steps.specs.Held.{Located, SmallValues, SmallState, KnownStep, state_in, values_after, step_with, modes_by, modes_next};

use crate::rows::modes_hold;
use crate::values::{flow_rule, jump_rows, staying_kept};
use joint_switches::joints::{in_scope, leaves_by, mode_after, scope_mask};
use models::layout::{
    BLOCK_LENGTH, COMPONENTS_AT, FIRST_BLOCK, INVARIANT_AT, Index, SWITCH_COUNT_AT, VARIABLES_AT,
};
use papers::opening::number_at;
use second_sheets::Step;

// Whether a component moves by this number: that of one of its switches, which has this label and leaves this mode.
fn moves_by(model: &[u8], index: &Index, k: usize, mode: u8, e: u32, i: u8) -> bool
    requires good_index { GoodIndex model.now index.now }
    requires k_bound { k < components_in index.now }
    ensures { result ≡ moves (component_at model.now index.now k) mode e i }
{
    let count = number_at(index, FIRST_BLOCK + BLOCK_LENGTH * k + SWITCH_COUNT_AT);
    let switch = usize::from(i);
    switch < count && leaves_by(model, index, k, switch, mode, e)
}

// A component's part in an event: a member of the scope moves by this number, any other component stays.
fn part_in(model: &[u8], index: &Index, k: usize, mode: u8, e: u32, i: u8) -> bool
    requires good_index { GoodIndex model.now index.now }
    requires k_bound { (k < components_in index.now) × (e ≤ 15) }
    ensures { result ≡ part_in (component_at model.now index.now k) mode e i }
{
    if in_scope(model, index, k, e) {
        moves_by(model, index, k, mode, e, i)
    } else {
        i == 255
    }
}

// Whether every component has its part in an event.
fn members_move(model: &[u8], index: &Index, modes: [u8; 4], e: u32, switches: [u8; 4]) -> bool
    requires good_index { GoodIndex model.now index.now }
    requires e_bound { e ≤ 15 }
    ensures { result ≡ members_move (components_from model.now index.now) (per_component index.now modes) e (per_component index.now switches) }
{
    let components = number_at(index, COMPONENTS_AT);
    (0..components).all(|k| part_in(model, index, k, modes[k], e, switches[k]))
}

// Whether every component from one on stays.
fn all_stay(model: &[u8], index: &Index, switches: [u8; 4], from: usize) -> bool
    requires good_index { GoodIndex model.now index.now }
    requires from_bound { from ≤ components_in index.now }
    ensures { result ≡ all_stay (drop from (components_from model.now index.now)) (drop from (per_component index.now switches)) }
{
    let components = number_at(index, COMPONENTS_AT);
    (from..components).all(|k| switches[k] == 255)
}

// Whether one component moves, by a switch with label 0, and every other stays.
fn one_moves(model: &[u8], index: &Index, modes: [u8; 4], switches: [u8; 4]) -> bool
    requires { GoodIndex model.now index.now }
    ensures { result ≡ one_moves (components_from model.now index.now) (per_component index.now modes) (per_component index.now switches) }
{
    let components = number_at(index, COMPONENTS_AT);
    for k in 0..components {
        if switches[k] != 255 {
            return moves_by(model, index, k, modes[k], 0, switches[k])
                && all_stay(model, index, switches, k + 1);
        }
    }
    false
}

// How many components move: those whose number is not 255.
fn mover_count(model: &[u8], index: &Index, switches: [u8; 4]) -> u32
    requires { GoodIndex model.now index.now }
    ensures { result ≡ length (runs.movers (components_from model.now index.now) (per_component index.now switches)) }
{
    let components = number_at(index, COMPONENTS_AT);
    let mut count: u32 = 0;
    for k in 0..components {
        count += u32::from(switches[k] != 255);
    }
    count
}

// Whether switch numbers, one per component, are a joint switch of an event from a location with these modes. As many components
// move as the scope mask has ones, and an empty scope gives no step.
pub fn is_joint(model: &[u8], index: &Index, modes: [u8; 4], e: u32, switches: [u8; 4]) -> bool
    requires good_index { GoodIndex model.now index.now }
    requires e_bound { e ≤ 15 }
    ensures { result ≡ is_joint (components_from model.now index.now) (per_component index.now modes) e (per_component index.now switches) }
{
    if e == 0 {
        return one_moves(model, index, modes, switches);
    }
    let members = scope_mask(model, index, e).count_ones();
    members != 0
        && mover_count(model, index, switches) == members
        && members_move(model, index, modes, e, switches)
}

// Whether a jump meets its rule: a joint switch from the present location, whose rows hold, and staying components keep their values.
pub fn jump_rule(
    model: &[u8],
    index: &Index,
    modes: [u8; 4],
    q: u32,
    e: u32,
    switches: [u8; 4],
    state: &[i64],
) -> bool
    requires located { Located model.now index.now modes }
    requires known_switches { KnownSwitches index.now switches × (e ≤ 15) }
    requires small_values { SmallValues (2 * variables_in index.now) state.now × (q < 2 ^ 24) }
    ensures { result ≡ runs.jump_rule (model_from model.now index.now) q (state_in model.now index.now modes state.now) e (per_component index.now switches) (values_after index.now state.now) }
{
    is_joint(model, index, modes, e, switches)
        && jump_rows(model, index, q, switches, state)
        && staying_kept(model, index, switches, state)
}

// Whether a step meets its rule. The numbers behind the values after are free then.
fn rule_met(
    model: &[u8],
    index: &Index,
    modes: [u8; 4],
    q: u32,
    by: Step,
    state: &mut [i64],
) -> bool
    requires located { Located model.now index.now modes × KnownStep index.now by }
    requires small_state { SmallState index.now state.old × (q < 2 ^ 24) }
    ensures value { result ≡ runs.rule_met (model_from model.now index.now) q (state_in model.now index.now modes state.old) (step_with index.now by state.old) }
    ensures kept_values { KeptValues (2 * variables_in index.now) (3 * variables_in index.now) state.old state.new }
{
    match by {
        Step::Flow(time) => flow_rule(model, index, modes, time, state),
        Step::Jump(e, w) => jump_rule(model, index, modes, q, e, [w.a, w.b, w.c, w.d], state),
    }
}

// Whether a step is allowed: it leads to an admissible state and meets its rule. The modes that it leads to are handed over. The numbers
// behind the values after are free then.
pub fn step_allowed(
    model: &[u8],
    index: &Index,
    modes: [u8; 4],
    q: u32,
    by: Step,
    targets: [u8; 4],
    state: &mut [i64],
) -> bool
    requires located { Located model.now index.now modes × KnownStep index.now by }
    requires targets_value { targets ≡ modes_next model.now index.now modes by }
    requires small_state { SmallState index.now state.old × (q < 2 ^ 24) }
    ensures value { result ≡ runs.step_allowed (model_from model.now index.now) q (state_in model.now index.now modes state.old) (step_with index.now by state.old) }
    ensures kept_values { KeptValues (2 * variables_in index.now) (3 * variables_in index.now) state.old state.new }
{
    let n = number_at(index, VARIABLES_AT);
    modes_hold(model, index, targets, INVARIANT_AT, &state[n..], q)
        && rule_met(model, index, modes, q, by, state)
}

// The modes after a joint switch with these switches.
fn modes_by(model: &[u8], index: &Index, modes: [u8; 4], switches: [u8; 4]) -> [u8; 4]
    requires { GoodIndex model.now index.now × KnownSwitches index.now switches }
    ensures { result ≡ modes_by model.now index.now modes switches }
{
    let components = number_at(index, COMPONENTS_AT);
    let mut after = modes;
    for k in 0..components {
        after[k] = mode_after(model, index, k, modes[k], switches[k]);
    }
    after
}

// The modes of the location that a step leads to: a flow keeps them.
pub fn modes_after(model: &[u8], index: &Index, modes: [u8; 4], by: Step) -> [u8; 4]
    requires { GoodIndex model.now index.now × KnownStep index.now by }
    ensures { result ≡ modes_next model.now index.now modes by }
{
    match by {
        Step::Flow(_) => modes,
        Step::Jump(_, w) => modes_by(model, index, modes, [w.a, w.b, w.c, w.d]),
    }
}
