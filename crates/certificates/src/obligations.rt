// The proofs of a certificate, one per obligation, read and tested in order up to the first that fails.
ghost use Rattle.std.specs.Prelude.{OnOk, ◌≡◌, ◌+◌, ◌*◌, ◌≤◌, ◌<◌, length, get_or};
ghost use Rattle.formats.specs.Versions.{row_bytes};
ghost use Rattle.farkas.specs.Lists.{every};
ghost use Rattle.formats.specs.Locations.{location_count};
ghost use Rattle.formats.specs.Joint.{count_up, join_all};
ghost use Rattle.models.specs.Index.{components_from};
ghost use Rattle.rules.specs.Marking.{mark_proofs};
ghost use Rattle.papers.specs.Paper.{of_paper, held_next, obligations_for};
ghost use Rattle.fields.specs.Answers.{got_as};
ghost use Rattle.hypotheses.specs.Tables.{Stacked};
ghost use Rattle.hypotheses.specs.Listing.{GoodGroup, no_task, tasks_of, mark_task, mark_tasks, location_tasks_for};
ghost use Rattle.certificates.specs.Passed.{stands_at, marked_from, goal_place, rowless, Fresh, Underway};

use crate::joint_marks::mark_joints;
use crate::{Failed, Marking};
use fields::Next;
use fields::versions::rows_bytes;
use hypotheses::Group;
use hypotheses::groups::group_at;
use hypotheses::tables::TABLE_LENGTH;
use joint_switches::joints::modes_at;
use models::layout::{CONDITIONS_AT, JOINTS_AT, VARIABLES_AT};
use papers::Paper;
use papers::regions::region_rows;
use second_sheets::ranges::Regions;
use sums::proofs::mark_proof;

// Where the row of a group's goal stands, by its number.
fn goal_place(group: Group, n: usize, goal: u32) -> usize
    requires { (n ≤ 8) × ((goal ≤ 16) × (group.from + row_bytes group.version n * goal ≤ 32768)) }
    ensures { result ≡ goal_place group n goal }
{
    group.from + rows_bytes(group.version, n, goal as usize)
}

// The proof of a group's goal, by its number: read from a place on, and tested. The sums must be 0 before, and are 0 again where it passes.
// A part of both loops over goals: a call for each costs, counted, up to half as many instructions again.
#[inline(always)]
fn mark_goal(
    model: &[u8],
    second: &[u8],
    n: usize,
    table: &[u16],
    group: Group,
    goal: u32,
    place: usize,
    sums: &mut [i64],
) -> Next
    requires model_len_bound { (length model.now ≤ 32768) × ((length second.now ≤ 32768) × ((n ≤ 8) × (96 ≤ length table.now))) }
    requires good_group { GoodGroup model.now second.now n table.now group × ((goal < group.goals) × Fresh sums.old) }
    ensures value { got_as tt result ≡ held_next (mark_task (get_or (tasks_of model.now second.now n table.now group) goal no_task) second.now place) }
    ensures fresh { OnOk result (Fresh sums.new) }
{
    let row = goal_place(group, n, goal);
    let width = group.width;
    mark_proof(
        model,
        second,
        n,
        table,
        group,
        row,
        place,
        &mut sums[..width],
    )
}

// The proofs of a group's goals, from where marking stands, up to the first that fails. The sums must be 0 before, and are 0 again where
// all have passed.
pub fn mark_group(
    model: &[u8],
    second: &[u8],
    n: usize,
    table: &[u16],
    group: Group,
    from: Marking,
    sums: &mut [i64],
) -> Result<Marking, Failed>
    requires model_len_bound { (length model.now ≤ 32768) × ((length second.now ≤ 32768) × ((n ≤ 8) × (96 ≤ length table.now))) }
    requires good_group { GoodGroup model.now second.now n table.now group × (Underway second.now from × Fresh sums.old) }
    ensures value { stands_at result ≡ marked_from (tasks_of model.now second.now n table.now group) second.now from }
    ensures fresh { OnOk result (Fresh sums.new) }
{
    let goals = group.goals;
    let mut place = from.place;
    for goal in 0..goals {
        // A refusal goes on with what has passed: `map_err`, whose closure would hold the counter, is no plainer than two arms.
        match mark_goal(model, second, n, table, group, goal, place, sums) {
            Ok(next) => {
                place = next;
            }
            Err(refusal) => {
                return Err(Failed {
                    refusal,
                    done: from.done + goal,
                });
            }
        }
    }
    Ok(Marking {
        place,
        done: from.done + goals,
    })
}

// The proofs of all locations, from a place on, up to the first that fails: of each location those of its start, of its flow and of each
// unsafe condition, and of each of these one for each row. Their table is built once for all rows.
fn mark_locations(
    paper: Paper,
    locations: u32,
    at: usize,
    table: &mut [u16],
    sums: &mut [i64],
) -> Result<Marking, Failed>
    requires locations_value { (locations ≡ location_count (components_from paper.model.now paper.index.now)) × (at ≤ length paper.second.now) }
    requires in_bounds { (96 ≤ length table.old) × (Stacked table.old 0 × Fresh sums.old) }
    ensures value { stands_at result ≡ mark_tasks (join_all (of_paper location_tasks_for paper.entry) (count_up 0 locations)) paper.entry.second.now at 0 }
    ensures stacked { OnOk result (Stacked table.new 0 × Fresh sums.new) }
{
    let n = paper.index[VARIABLES_AT] as usize;
    let groups = paper.index[CONDITIONS_AT] as u32 + 2;
    let mut place = at;
    let mut done = 0;
    // Document 01 asks for a labelled break here: the first proof that fails leaves all three loops.
    'marking: {
        for location in 0..locations {
            let modes = modes_at(paper.model, paper.index, location);
            for g in 0..groups {
                let group = group_at(paper, location, modes, g, table);
                for goal in 0..group.goals {
                    match mark_goal(
                        paper.model,
                        paper.second,
                        n,
                        table,
                        group,
                        goal,
                        place,
                        sums,
                    ) {
                        Ok(next) => {
                            place = next;
                            done += 1;
                        }
                        Err(refusal) => break 'marking Err(Failed { refusal, done }),
                    }
                }
            }
        }
        Ok(Marking { place, done })
    }
}

// Whether no region has a row.
fn no_rows(regions: &Regions, locations: u32) -> bool
    requires { locations ≤ 64 }
    ensures { result ≡ every (rowless regions.now) (count_up 0 locations) }
{
    (0..locations).all(|l| region_rows(regions, l) == 0)
}

// The proofs of all obligations, from a place on, up to the first that fails: those of the locations, then those of the joint switches.
// Where there is no joint switch or no region has a row, there is nothing more to prove.
pub fn mark_obligations(paper: Paper, locations: u32, at: usize) -> Result<Marking, Failed>
    requires locations_value { (locations ≡ location_count (components_from paper.model.now paper.index.now)) × (at ≤ length paper.second.now) }
    ensures { stands_at result ≡ mark_proofs (of_paper obligations_for paper.entry locations) paper.entry.second.now at 0 }
{
    let mut table = [0u16; TABLE_LENGTH];
    let mut sums: [i64; 17] = [0; 17];
    let marked = mark_locations(paper, locations, at, &mut table, &mut sums)?;
    if paper.index[JOINTS_AT] == 0 {
        return Ok(marked);
    }
    if no_rows(paper.regions, locations) {
        return Ok(marked);
    }
    mark_joints(paper, locations, marked, &mut table, &mut sums)
}
