// How many obligations there are: the goals of each group, counted and never listed.
ghost use Rattle.std.specs.Prelude.{◌≡◌, ◌+◌, ◌*◌, ◌≤◌, ◌<◌, length};
ghost use Rattle.formats.specs.Locations.{location_count};
ghost use Rattle.formats.specs.Joint.{numbers_from, joints};
ghost use Rattle.models.specs.Index.{components_from, model_from, GoodIndex};
ghost use Rattle.models.specs.Counts.{per_component};
ghost use Rattle.joint_switches.specs.Numbered.{ByMode};
ghost use Rattle.rules.specs.Runs.{modes_fit};
ghost use Rattle.papers.specs.Standing.{Stands};
ghost use Rattle.papers.specs.Paper.{of_paper, regions_of, location_obligations_for, obligations_for};
ghost use Rattle.scores.specs.Counting.{rows_into};

use joint_switches::into::{ENTERING_LENGTH, EnteringTable, count_entering, joints_into};
use joint_switches::joints::modes_at;
use models::layout::{CONDITIONS_AT, Index};
use papers::Paper;
use papers::standing::{all_start, modes_fit};

// How many unsafe conditions there are whose modes fit the present ones.
fn fitting_count(model: &[u8], index: &Index, modes: [u8; 4]) -> u32
    requires { GoodIndex model.now index.now }
    ensures { result ≡ length (numbers_from 0 (λ u. modes_fit u.modes (per_component index.now modes)) (model_from model.now index.now).unsafe) }
{
    let mut count: u32 = 0;
    for u in 0..usize::from(index[CONDITIONS_AT]) {
        count += u32::from(modes_fit(model, index, u, modes));
    }
    count
}

// How many rows a location's region has.
pub fn region_rows(paper: Paper, location: u32) -> u32
    requires location_bound { location < location_count (components_from paper.model.now paper.index.now) }
    ensures { result ≡ length (of_paper regions_of paper.entry location) }
{
    let regions = paper.regions;
    papers::regions::region_rows(regions, location)
}

// How many goals a location with these modes has: its region's rows from the start, if all its modes are start modes; after a flow; and one
// for each unsafe condition that fits.
fn goals_here(paper: Paper, location: u32, modes: [u8; 4]) -> u32
    requires stands { Stands paper.model.now paper.index.now location modes }
    ensures { result ≡ length (of_paper location_obligations_for paper.entry location) }
{
    let rows = region_rows(paper, location);
    let fitting = fitting_count(paper.model, paper.index, modes);
    let starts = u32::from(all_start(paper.model, paper.index, modes));
    starts * rows + (rows + fitting)
}

// How many goals a location has.
pub fn location_goals(paper: Paper, location: u32) -> u32
    requires location_bound { location < location_count (components_from paper.model.now paper.index.now) }
    ensures { result ≡ length (of_paper location_obligations_for paper.entry location) }
{
    let modes = modes_at(paper.model, paper.index, location);
    goals_here(paper, location, modes)
}

// How many goals the joint switches have that lead into a location with these modes: each has its region's rows.
fn goals_into(paper: Paper, table: &EnteringTable, location: u32, modes: [u8; 4]) -> u32
    requires stands { Stands paper.model.now paper.index.now location modes × ByMode paper.model.now paper.index.now table.now }
    ensures { result ≡ of_paper rows_into paper.entry location }
{
    let rows = region_rows(paper, location);
    if rows == 0 {
        return 0;
    }
    rows * joints_into(paper.model, paper.index, table, modes)
}

// How many obligations there are, by the table of switches that enter modes: of each location its own, and those of the joint switches
// that lead into it.
fn goals_by(paper: Paper, table: &EnteringTable, locations: u32) -> u32
    requires table { ByMode paper.model.now paper.index.now table.now }
    requires locations_value { (locations ≡ location_count (components_from paper.model.now paper.index.now)) × (length (joints (components_from paper.model.now paper.index.now)) ≤ 4096) }
    ensures { result ≡ length (of_paper obligations_for paper.entry locations) }
{
    let mut count: u32 = 0;
    for location in 0..locations {
        let modes = modes_at(paper.model, paper.index, location);
        let here = goals_here(paper, location, modes);
        count += here + goals_into(paper, table, location, modes);
    }
    count
}

// How many obligations there are in all. No joint switch is gone through: those that lead into a location are counted by its modes.
pub fn obligation_count(paper: Paper, locations: u32) -> u32
    requires locations_value { (locations ≡ location_count (components_from paper.model.now paper.index.now)) × (length (joints (components_from paper.model.now paper.index.now)) ≤ 4096) }
    ensures { result ≡ length (of_paper obligations_for paper.entry locations) }
{
    let mut table = [0u8; ENTERING_LENGTH];
    count_entering(paper.model, paper.index, &mut table);
    goals_by(paper, &table, locations)
}
