// What has to be proved at a location and at a joint switch: for each group of proofs its table of hypotheses, built once, and its goals.
ghost use Rattle.std.specs.Prelude.{◌≡◌, ◌++◌, ◌+◌, ◌*◌, ◌≤◌, ◌<◌, length};
ghost use Rattle.formats.specs.Locations.{location_count};
ghost use Rattle.models.specs.Index.{components_from, conditions_in, variables_in, version_in, GoodIndex, Kept};
ghost use Rattle.models.specs.Counts.{per_component, KnownSwitches};
ghost use Rattle.hypotheses.specs.Tables.{segment, Stacked, lines_in, Onto};
ghost use Rattle.hypotheses.specs.Listing.{here_lines, start_lines, still_lines, flow_lines, unsafe_lines, landing_lines, tasks_of, GoodGroup, empty_group, region_group, group_tasks_for, jump_tasks_for, HereIn};
ghost use Rattle.papers.specs.Standing.{KnownModes, Stands};
ghost use Rattle.papers.specs.Paper.{of_paper};

use crate::Group;
use crate::tables::{lines, push, push_kept, push_modes, push_staying, push_still, push_switches};
use joint_switches::Landing;
use joint_switches::joints::modes_at;
use models::layout::{
    FIRST_UNSAFE, FLOW_AT, INITIAL_AT, INVARIANT_AT, Index, UNSAFE_LENGTH, UNSAFE_ROWS_AT,
    VARIABLES_AT,
};
use papers::Paper;
use papers::opening::version_of;
use papers::regions::region_rows;
use papers::standing::{all_start, modes_fit};

// The forms of hypotheses that are pushed here, as specs/Tables.antt has them.
const INITIAL_FORM: u16 = 0;

const REGION_FORM: u16 = 1;

const INVARIANT_FORM: u16 = 2;

const UNSAFE_FORM: u16 = 3;

const NEXT_FORM: u16 = 4;

const RATE_FORM: u16 = 5;

const TIME_FORM: u16 = 6;

// What belongs to no component or variable has owner 0.
const NO_OWNER: u16 = 0;

// A location's region and invariants, on x.
pub fn push_here(paper: Paper, location: u32, modes: [u8; 4], table: &mut [u16]) -> usize
    requires location_bound { (location < location_count (components_from paper.model.now paper.index.now)) × KnownModes paper.index.now modes }
    requires in_bounds { (96 ≤ length table.old) × Stacked table.old 0 }
    ensures result_after { lines_in table.new result ≡ lines_in table.old 0 ++ (here_lines paper.entry.index.now paper.entry.regions.now location (per_component paper.entry.index.now modes)) }
    ensures onto { Onto table.old 0 5 table.new result }
{
    let regions = paper.regions;
    let at = push_kept(
        regions,
        2 * (location as usize),
        REGION_FORM,
        NO_OWNER,
        table,
        0,
    );
    push_modes(paper.index, modes, INVARIANT_AT, INVARIANT_FORM, table, at)
}

// The table of a start: initial rows, invariants.
pub fn start_table(model: &[u8], index: &Index, modes: [u8; 4], table: &mut [u16]) -> usize
    requires good_index { GoodIndex model.now index.now × KnownModes index.now modes }
    requires in_bounds { (96 ≤ length table.old) × Stacked table.old 0 }
    ensures result_after { lines_in table.new result ≡ lines_in table.old 0 ++ (start_lines index.now (per_component index.now modes)) }
    ensures onto { Onto table.old 0 8 table.new result }
{
    let at = push_modes(index, modes, INITIAL_AT, INITIAL_FORM, table, 0);
    push_modes(index, modes, INVARIANT_AT, INVARIANT_FORM, table, at)
}

// The time of a flow in these modes, and the rows of variables that keep their value in it.
fn push_time(model: &[u8], index: &Index, modes: [u8; 4], table: &mut [u16], at: usize) -> usize
    requires good_index { GoodIndex model.now index.now × ((length model.now ≤ 32768) × KnownModes index.now modes) }
    requires in_bounds { (96 ≤ length table.old) × ((at ≤ 14) × Stacked table.old at) }
    ensures result_after { lines_in table.new result ≡ lines_in table.old at ++ (segment 6 0 0 1 ++ still_lines model.now index.now modes) }
    ensures onto { Onto table.old at 9 table.new result }
{
    let time = push(table, at, TIME_FORM, 0, NO_OWNER, 1);
    push_still(model, index, modes, table, time)
}

// The table of a flow: region and invariants on x, invariants on x', flow rows, the time, and the rows of variables that keep their value.
pub fn flow_table(paper: Paper, location: u32, modes: [u8; 4], table: &mut [u16]) -> usize
    requires location_bound { (location < location_count (components_from paper.model.now paper.index.now)) × KnownModes paper.index.now modes }
    requires in_bounds { (96 ≤ length table.old) × Stacked table.old 0 }
    ensures result_after { lines_in table.new result ≡ lines_in table.old 0 ++ (flow_lines paper.entry.model.now paper.entry.index.now paper.entry.regions.now location modes) }
    ensures onto { Onto table.old 0 22 table.new result }
{
    let here = push_here(paper, location, modes, table);
    let after = push_modes(paper.index, modes, INVARIANT_AT, NEXT_FORM, table, here);
    let rates = push_modes(paper.index, modes, FLOW_AT, RATE_FORM, table, after);
    push_time(paper.model, paper.index, modes, table, rates)
}

// The table of an unsafe condition: region, invariants, unsafe rows.
pub fn unsafe_table(
    paper: Paper,
    location: u32,
    modes: [u8; 4],
    u: usize,
    table: &mut [u16],
) -> usize
    requires location_bound { (location < location_count (components_from paper.model.now paper.index.now)) × KnownModes paper.index.now modes }
    requires u_bound { (u < conditions_in paper.index.now) × ((96 ≤ length table.old) × Stacked table.old 0) }
    ensures result_after { lines_in table.new result ≡ lines_in table.old 0 ++ (unsafe_lines paper.entry.index.now paper.entry.regions.now location (per_component paper.entry.index.now modes) u) }
    ensures onto { Onto table.old 0 6 table.new result }
{
    let index = paper.index;
    let here = push_here(paper, location, modes, table);
    push_kept(
        index,
        FIRST_UNSAFE + UNSAFE_LENGTH * u + UNSAFE_ROWS_AT,
        UNSAFE_FORM,
        NO_OWNER,
        table,
        here,
    )
}

// The table of a joint switch, on the segments of its source: target invariants on x', jump rows, the rows of variables that keep their
// value.
pub fn jump_table(
    model: &[u8],
    index: &Index,
    targets: [u8; 4],
    switches: [u8; 4],
    here: usize,
    table: &mut [u16],
) -> usize
    requires good_index { GoodIndex model.now index.now × ((length model.now ≤ 32768) × (KnownModes index.now targets × KnownSwitches index.now switches)) }
    requires in_bounds { (96 ≤ length table.old) × ((here ≤ 5) × Stacked table.old here) }
    ensures result_after { lines_in table.new result ≡ lines_in table.old here ++ (landing_lines model.now index.now (per_component index.now targets) switches) }
    ensures onto { Onto table.old here 16 table.new result }
{
    let after = push_modes(index, targets, INVARIANT_AT, NEXT_FORM, table, here);
    let moved = push_switches(index, switches, table, after);
    push_staying(model, index, switches, table, moved)
}

// Nothing to prove.
fn no_group() -> Group
    ensures { result ≡ empty_group }
{
    Group {
        version: 0,
        segments: 0,
        hypotheses: 0,
        goals: 0,
        from: 0,
        shift: 0,
        width: 17,
        zero: false,
    }
}

// The rows of a location's region, to be proved from a table on the unknowns from `shift` on.
fn region_group(
    index: &Index,
    regions: &[u16],
    location: u32,
    table: &[u16],
    segments: usize,
    shift: usize,
    width: usize,
) -> Group
    requires in_bounds { (128 ≤ length regions.now) × (location < 64) }
    requires in_bounds_2 { (96 ≤ length table.now) × (segments ≤ 23) }
    ensures { result ≡ region_group (version_in index.now) regions.now location table.now segments shift width }
{
    let version = version_of(index);
    let hypotheses = lines(table, segments);
    let goals = region_rows(regions, location);
    let from = usize::from(regions[2 * (location as usize)]);
    Group {
        version,
        segments,
        hypotheses,
        goals,
        from,
        shift,
        width,
        zero: false,
    }
}

// The proofs from the start of a location, where all its modes are start modes. Where its region has no rows there is nothing to prove,
// and no table is built.
fn start_group(paper: Paper, location: u32, modes: [u8; 4], table: &mut [u16]) -> Group
    requires stands { Stands paper.model.now paper.index.now location modes × ((96 ≤ length table.old) × Stacked table.old 0) }
    ensures result_after { tasks_of paper.entry.model.now paper.entry.second.now (variables_in paper.entry.index.now) table.new result ≡ of_paper group_tasks_for paper.entry location 0 }
    ensures good_group { GoodGroup paper.entry.model.now paper.entry.second.now (variables_in paper.entry.index.now) table.new result }
{
    let index = paper.index;
    let regions = paper.regions;
    if region_rows(regions, location) == 0 {
        return no_group();
    }
    if !all_start(paper.model, index, modes) {
        return no_group();
    }
    let segments = start_table(paper.model, index, modes, table);
    region_group(
        index,
        regions,
        location,
        table,
        segments,
        0,
        usize::from(index[VARIABLES_AT]),
    )
}

// The proofs after a flow in a location.
fn flow_group(paper: Paper, location: u32, modes: [u8; 4], table: &mut [u16]) -> Group
    requires stands { Stands paper.model.now paper.index.now location modes × ((96 ≤ length table.old) × Stacked table.old 0) }
    ensures result_after { tasks_of paper.entry.model.now paper.entry.second.now (variables_in paper.entry.index.now) table.new result ≡ of_paper group_tasks_for paper.entry location 1 }
    ensures good_group { GoodGroup paper.entry.model.now paper.entry.second.now (variables_in paper.entry.index.now) table.new result }
{
    let index = paper.index;
    let regions = paper.regions;
    if region_rows(regions, location) == 0 {
        return no_group();
    }
    let segments = flow_table(paper, location, modes, table);
    let n = usize::from(index[VARIABLES_AT]);
    region_group(index, regions, location, table, segments, n, n + n + 1)
}

// The proof that an unsafe condition is not met in a location, where the location's modes fit it.
fn unsafe_group(paper: Paper, location: u32, modes: [u8; 4], u: usize, table: &mut [u16]) -> Group
    requires stands { Stands paper.model.now paper.index.now location modes × ((u < conditions_in paper.index.now) × ((96 ≤ length table.old) × Stacked table.old 0)) }
    ensures result_after { tasks_of paper.entry.model.now paper.entry.second.now (variables_in paper.entry.index.now) table.new result ≡ of_paper group_tasks_for paper.entry location (2 + u) }
    ensures good_group { GoodGroup paper.entry.model.now paper.entry.second.now (variables_in paper.entry.index.now) table.new result }
{
    if !modes_fit(paper.model, paper.index, u, modes) {
        return no_group();
    }
    let segments = unsafe_table(paper, location, modes, u, table);
    let hypotheses = lines(table, segments);
    let version = version_of(paper.index);
    Group {
        version,
        segments,
        hypotheses,
        goals: 1,
        from: 0,
        shift: 0,
        width: usize::from(paper.index[VARIABLES_AT]),
        zero: true,
    }
}

// A group of proofs of a location, by its number.
pub fn group_at(paper: Paper, location: u32, modes: [u8; 4], g: u32, table: &mut [u16]) -> Group
    requires stands { Stands paper.model.now paper.index.now location modes × ((g < 2 + conditions_in paper.index.now) × ((96 ≤ length table.old) × Stacked table.old 0)) }
    ensures result_after { tasks_of paper.entry.model.now paper.entry.second.now (variables_in paper.entry.index.now) table.new result ≡ of_paper group_tasks_for paper.entry location g }
    ensures good_group { GoodGroup paper.entry.model.now paper.entry.second.now (variables_in paper.entry.index.now) table.new result }
{
    match g {
        0 => start_group(paper, location, modes, table),
        1 => flow_group(paper, location, modes, table),
        _ => {
            let u = (g - 2) as usize;
            unsafe_group(paper, location, modes, u, table)
        }
    }
}

// The proofs after a joint switch from a location, by the region of its target: its table goes on from the location's segments, which
// stay.
pub fn jump_group(
    paper: Paper,
    location: u32,
    landing: Landing,
    here: usize,
    table: &mut [u16],
) -> Group
    requires target_bound { (landing.target < location_count (components_from paper.model.now paper.index.now)) × KnownSwitches paper.index.now landing.switches }
    requires in_bounds { (96 ≤ length table.old) × HereIn paper.model.now paper.index.now paper.regions.now location here table.old }
    ensures result_after { tasks_of paper.entry.model.now paper.entry.second.now (variables_in paper.entry.index.now) table.new result ≡ of_paper jump_tasks_for paper.entry location (per_component paper.entry.index.now landing.switches) landing.target }
    ensures good_group { GoodGroup paper.entry.model.now paper.entry.second.now (variables_in paper.entry.index.now) table.new result }
    ensures kept { Kept (4 * here + 4) 96 table.old table.new }
{
    let index = paper.index;
    let regions = paper.regions;
    let targets = modes_at(paper.model, index, landing.target);
    let switches = landing.switches;
    let segments = jump_table(paper.model, index, targets, switches, here, table);
    let n = usize::from(index[VARIABLES_AT]);
    region_group(index, regions, landing.target, table, segments, n, n + n)
}
