// The proofs of joint switches, location by location and event by event, read and tested in order up to the first that fails.
ghost use Rattle.std.specs.Prelude.{OnOk, ◌≡◌, ◌+◌, ◌*◌, ◌≤◌, ◌<◌, length};
ghost use Rattle.formats.specs.Locations.{location_count};
ghost use Rattle.formats.specs.Joint.{joints_of, joints};
ghost use Rattle.models.specs.Index.{components_from, Kept};
ghost use Rattle.models.specs.Counts.{per_component, KnownSwitches};
ghost use Rattle.joint_switches.specs.Slots.{Listed};
ghost use Rattle.papers.specs.Paper.{of_paper, on_paper};
ghost use Rattle.papers.specs.Standing.{Stands};
ghost use Rattle.hypotheses.specs.Tables.{Stacked};
ghost use Rattle.hypotheses.specs.Listing.{jump_tasks_for, joint_tasks_for};
ghost use Rattle.certificates.specs.Passed.{stands_at, marked_from, leaving_tasks, Fresh, Underway, Ready};

use crate::obligations::mark_group;
use crate::{Failed, Leaving, Listing, Marking};
use hypotheses::groups::{jump_group, push_here};
use joint_switches::Landing;
use joint_switches::joints::modes_at;
use joint_switches::slots::{NO_WAYS, Way, landing_at, list_slot};
use models::layout::{FIRST_TOTAL, VARIABLES_AT};
use papers::Paper;
use papers::regions::region_rows;

// The proofs of one joint switch: one for each row of its target's region.
fn mark_switch(
    paper: Paper,
    from: Leaving,
    landing: Landing,
    table: &mut [u16],
    sums: &mut [i64],
) -> Result<Marking, Failed>
    requires target_bound { (landing.target < location_count (components_from paper.model.now paper.index.now)) × KnownSwitches paper.index.now landing.switches }
    requires ready { on_paper Ready paper from table.old sums.old }
    ensures value { stands_at result ≡ marked_from (of_paper jump_tasks_for paper.entry from.location (per_component paper.entry.index.now landing.switches) landing.target) paper.entry.second.now from.marking }
    ensures fresh { OnOk result (Fresh sums.new) }
    ensures kept { Kept (4 * from.here + 4) 96 table.old table.new }
{
    let regions = paper.regions;
    if region_rows(regions, landing.target) == 0 {
        return Ok(from.marking);
    }
    let group = jump_group(paper, from.location, landing, from.here, table);
    let n = paper.index[VARIABLES_AT] as usize;
    mark_group(
        paper.model,
        paper.second,
        n,
        table,
        group,
        from.marking,
        sums,
    )
}

// The proofs of the joint switches of one event from a location, as the table of their ways lists them.
fn mark_switches(
    paper: Paper,
    listing: Listing,
    ways: &[Way],
    table: &mut [u16],
    sums: &mut [i64],
) -> Result<Marking, Failed>
    requires stands { Stands paper.model.now paper.index.now listing.from.location listing.from.modes × (Listed paper.model.now paper.index.now listing.from.modes listing.slot.e ways.now listing.slot × (listing.slot.e ≤ 15)) }
    requires ready { on_paper Ready paper listing.from table.old sums.old }
    ensures value { stands_at result ≡ marked_from (of_paper joint_tasks_for paper.entry (joints_of (components_from paper.entry.model.now paper.entry.index.now) listing.from.location listing.slot.e)) paper.entry.second.now listing.from.marking }
    ensures fresh { OnOk result (Fresh sums.new) }
    ensures kept { Kept (4 * listing.from.here + 4) 96 table.old table.new }
{
    let slot = listing.slot;
    let from = listing.from;
    let mut marking = from.marking;
    for x in 0..slot.count {
        let at = Leaving { marking, ..from };
        let landing = landing_at(paper.index, slot, ways, x);
        marking = mark_switch(paper, at, landing, table, sums)?;
    }
    Ok(marking)
}

// The proofs of the joint switches of one event from a location. Where the event has any, they are listed once for all.
fn mark_event(
    paper: Paper,
    e: u32,
    from: Leaving,
    table: &mut [u16],
    sums: &mut [i64],
) -> Result<Marking, Failed>
    requires stands { Stands paper.model.now paper.index.now from.location from.modes × (e ≤ 15) }
    requires ready { on_paper Ready paper from table.old sums.old }
    ensures value { stands_at result ≡ marked_from (of_paper joint_tasks_for paper.entry (joints_of (components_from paper.entry.model.now paper.entry.index.now) from.location e)) paper.entry.second.now from.marking }
    ensures fresh { OnOk result (Fresh sums.new) }
    ensures kept { Kept (4 * from.here + 4) 96 table.old table.new }
{
    if paper.index[FIRST_TOTAL + e as usize] == 0 {
        return Ok(from.marking);
    }
    let mut ways = NO_WAYS;
    let modes = from.modes;
    let slot = list_slot(paper.model, paper.index, from.location, modes, e, &mut ways);
    let listing = Listing { slot, from };
    mark_switches(paper, listing, &ways, table, sums)
}

// The proofs of all joint switches from a location, event by event. The table begins with what holds of the location, pushed once.
fn mark_leaving(
    paper: Paper,
    location: u32,
    from: Marking,
    table: &mut [u16],
    sums: &mut [i64],
) -> Result<Marking, Failed>
    requires location_bound { (location < location_count (components_from paper.model.now paper.index.now)) × (Underway paper.second.now from × Fresh sums.old) }
    requires in_bounds { (96 ≤ length table.old) × Stacked table.old 0 }
    ensures value { stands_at result ≡ marked_from (of_paper leaving_tasks paper.entry location) paper.entry.second.now from }
    ensures stacked { OnOk result (Stacked table.new 0 × Fresh sums.new) }
{
    let modes = modes_at(paper.model, paper.index, location);
    let here = push_here(paper, location, modes, table);
    let mut marking = from;
    for e in 0..16 {
        let at = Leaving {
            location,
            modes,
            here,
            marking,
        };
        marking = mark_event(paper, e, at, table, sums)?;
    }
    Ok(marking)
}

// The proofs of all joint switches, location by location.
pub fn mark_joints(
    paper: Paper,
    locations: u32,
    from: Marking,
    table: &mut [u16],
    sums: &mut [i64],
) -> Result<Marking, Failed>
    requires locations_value { (locations ≡ location_count (components_from paper.model.now paper.index.now)) × (Underway paper.second.now from × Fresh sums.old) }
    requires in_bounds { (96 ≤ length table.old) × Stacked table.old 0 }
    ensures { stands_at result ≡ marked_from (of_paper joint_tasks_for paper.entry (joints (components_from paper.entry.model.now paper.entry.index.now))) paper.entry.second.now from }
{
    let mut marking = from;
    for location in 0..locations {
        marking = mark_leaving(paper, location, marking, table, sums)?;
    }
    Ok(marking)
}
