// Marking a run sheet: its opening, its steps one after the other, and its end. The values of its states stand in one lent slice: those
// before a step in its first numbers, one to a variable, those after in as many numbers from there on, and their change behind them.
ghost use Rattle.std.specs.Prelude.{Ok, IfOk, IfErr, ◌≡◌, ◌+◌, ◌^◌, ◌≤◌, ◌<◌, length};
ghost use Rattle.models.specs.Index.{model_from};
ghost use Rattle.papers.specs.Paper.{Accepted};
ghost use Rattle.runs.specs.RunHeld.{marked_as, RunStands, StopStands, marked_body, steps_from};
ghost use Rattle.rules.specs.Marking.{close_run, mark_run};

use crate::{RunMarked, Stopped};
use fields::header::finished;
use fields::{Cause, Refusal};
use formats::Limits;
use joint_switches::joints::{location_count, modes_at};
use models::layout::{INDEX_LENGTH, Index, VARIABLES_AT};
use papers::answers::{second_accepted, second_refused};
use papers::opening::{number_at, open_paper};
use rules::Answer;
use second_sheets::ranges::LOCATION_OFFSET;
use second_sheets::run::{opening, step};
use steps::jumps::{modes_after, step_allowed};
use steps::values::{is_unsafe, keep_values, start_allowed};

// So many numbers hold the values before and after a step and their change: up to 8 of each.
const STATE_LENGTH: usize = 24;

// One step: it is read, then tested; 13 at its first byte. After a refusal the numbers behind the values reached are free.
fn mark_step(
    model: &[u8],
    index: &Index,
    s: &[u8],
    q: u32,
    run: RunMarked,
    state: &mut [i64],
) -> Result<RunMarked, Stopped>
    requires accepted { Accepted model.now index.now × (length s.now ≤ 32768) }
    requires run_stands { RunStands index.now s.now run state.old }
    requires q_bound { (q < 2 ^ 24) × (run.done < 4095) }
    ensures state_after { marked_as model.now index.now result state.new ≡ steps_from model.now index.now q run state.old 1 s.now }
    ensures run_stands_2 { IfOk result (λ run. RunStands index.now s.now run state.new) }
    ensures stop_stands { IfErr result (λ stop. StopStands index.now s.now stop state.new) }
{
    let n = number_at(index, VARIABLES_AT);
    let done = run.done;
    let (by, place) = step(index, s, run.place, &mut state[n..]).map_err(|refusal| Stopped {
        refusal,
        done,
    })?;
    let modes = run.modes;
    let targets = modes_after(model, index, modes, by);
    if !step_allowed(model, index, modes, q, by, targets, state) {
        let refusal = Refusal(Cause::Step, run.place);
        return Err(Stopped { refusal, done });
    }
    keep_values(index, state);
    Ok(RunMarked {
        place,
        done: done + 1,
        modes: targets,
    })
}

// The steps, one after the other: marking stops at the first that fails.
fn mark_steps(
    model: &[u8],
    index: &Index,
    s: &[u8],
    q: u32,
    steps: u32,
    first: RunMarked,
    state: &mut [i64],
) -> Result<RunMarked, Stopped>
    requires accepted { Accepted model.now index.now × (length s.now ≤ 32768) }
    requires run_stands { RunStands index.now s.now first state.old }
    requires q_bound { (q < 2 ^ 24) × (first.done + steps ≤ 4095) }
    ensures state_after { marked_as model.now index.now result state.new ≡ steps_from model.now index.now q first state.old steps s.now }
    ensures run_stands_2 { IfOk result (λ run. RunStands index.now s.now run state.new) }
    ensures stop_stands { IfErr result (λ stop. StopStands index.now s.now stop state.new) }
{
    let mut run = first;
    for _i in 0..steps {
        run = mark_step(model, index, s, q, run, state)?;
    }
    Ok(run)
}

// The end of a run whose steps passed: no bytes are left, and the state reached is unsafe; 14 at the sheet's length.
fn close_run(model: &[u8], index: &Index, s: &[u8], q: u32, run: RunMarked, state: &[i64]) -> Answer
    requires accepted { Accepted model.now index.now × (length s.now ≤ 32768) }
    requires run_stands { RunStands index.now s.now run state.now × (q < 2 ^ 24) }
    ensures { result ≡ close_run (model_from model.now index.now) q s.now (marked_as model.now index.now (Ok run) state.now) }
{
    if let Err(refusal) = finished(s, run.place) {
        return second_refused(refusal, run.done, 0);
    }
    let modes = run.modes;
    if is_unsafe(model, index, modes, q, state) {
        second_accepted(s, run.done)
    } else {
        second_refused(Refusal(Cause::End, s.len()), run.done, 0)
    }
}

// A run sheet from its own fields on: its opening, 12 at the location byte, then its steps and its end. The slice is free then.
fn mark_body(model: &[u8], index: &Index, s: &[u8], body: usize, state: &mut [i64]) -> Answer
    requires accepted { Accepted model.now index.now × (24 ≤ length state.old) }
    requires body_in_bounds { (body ≤ length s.now) × (length s.now ≤ 32768) }
    ensures { result ≡ marked_body model.now index.now s.now body }
{
    let (opening, place) = match opening(index, location_count(model, index), s, body, state) {
        Ok(read) => read,
        Err(refusal) => return second_refused(refusal, 0, 0),
    };
    let modes = modes_at(model, index, opening.location);
    if !start_allowed(model, index, modes, opening.q, state) {
        return second_refused(Refusal(Cause::Start, body + LOCATION_OFFSET), 0, 0);
    }
    let first = RunMarked {
        place,
        done: 0,
        modes,
    };
    match mark_steps(model, index, s, opening.q, opening.steps, first, state) {
        Ok(run) => close_run(model, index, s, opening.q, run, state),
        Err(stop) => second_refused(stop.refusal, stop.done, 0),
    }
}

// Marks a run: the stated limits and the model go first, then the run sheet.
pub fn mark_run(model: &[u8], second: &[u8], limits: Limits) -> Answer
    ensures { result ≡ mark_run limits model.now second.now }
{
    let mut index = [0u16; INDEX_LENGTH];
    match open_paper(model, second, 3, &mut index, limits) {
        Ok(body) => {
            let mut state = [0i64; STATE_LENGTH];
            mark_body(model, &index, second, body, &mut state)
        }
        Err(answer) => answer,
    }
}
