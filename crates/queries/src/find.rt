// The obligation with a number, found in one pass without listing any: locations, groups and joint switches are passed over by the count of
// their goals.
ghost use Rattle.std.specs.Prelude.{IfSome, ◌≡◌, ◌+◌, ◌≤◌, ◌<◌, length};
ghost use Rattle.formats.specs.Locations.{location_count};
ghost use Rattle.formats.specs.Joint.{joints_of, joints};
ghost use Rattle.models.specs.Index.{components_from, model_from, conditions_in};
ghost use Rattle.rules.specs.Obligations.{location_obligations};
ghost use Rattle.papers.specs.Paper.{of_paper, on_paper, regions_of};
ghost use Rattle.papers.specs.Standing.{Stands};
ghost use Rattle.queries.specs.Finding.{one_at, KnownSought, paper_obligations, group_obligations_for, sought_in_for, LeadsToLocation, LeadsToGroup, ListedFrom, leaving_from, SoughtInFor};

use crate::{JumpLine, Sought, Spot};
use joint_switches::Slot;
use joint_switches::joints::modes_at;
use joint_switches::slots::{NO_WAYS, Way, landing_at, list_slot};
use models::layout::{CONDITIONS_AT, FIRST_TOTAL, LOCATIONS_AT};
use papers::Paper;
use papers::standing::{all_start, modes_fit};
use scores::counting::{location_goals, region_rows};
use std::ops::ControlFlow;

// The location that has the obligation, or the number of locations where none has.
fn find_location(paper: Paper, locations: u32, o: u32) -> Spot
    requires locations_value { locations ≡ location_count (components_from paper.model.now paper.index.now) }
    ensures { on_paper LeadsToLocation paper.entry locations o result }
{
    let mut left = o;
    for at in 0..locations {
        let goals = location_goals(paper, at);
        if left < goals {
            return Spot { at, left };
        }
        left -= goals;
    }
    Spot {
        at: locations,
        left,
    }
}

// How many goals a location's start has.
fn start_goals(paper: Paper, location: u32, modes: [u8; 4]) -> u32
    requires stands { Stands paper.model.now paper.index.now location modes }
    ensures { result ≡ length (of_paper group_obligations_for paper.entry location 0) }
{
    if all_start(paper.model, paper.index, modes) {
        region_rows(paper, location)
    } else {
        0
    }
}

// How many goals a group of a location has.
fn group_goals(paper: Paper, location: u32, modes: [u8; 4], g: u32) -> u32
    requires stands { Stands paper.model.now paper.index.now location modes × (g < 2 + conditions_in paper.index.now) }
    ensures { result ≡ length (of_paper group_obligations_for paper.entry location g) }
{
    match g {
        0 => start_goals(paper, location, modes),
        1 => region_rows(paper, location),
        _ => u32::from(modes_fit(paper.model, paper.index, (g - 2) as usize, modes)),
    }
}

// The group that has one of a location's obligations, and its line there.
fn find_group(paper: Paper, location: u32, o: u32) -> Spot
    requires location_bound { location < location_count (components_from paper.model.now paper.index.now) }
    requires o_in_bounds { o < length (location_obligations (model_from paper.model.now paper.index.now) (of_paper regions_of paper) location) }
    ensures leads_to_group { on_paper LeadsToGroup paper.entry location o result }
    ensures at_bound { result.at < 2 + conditions_in paper.entry.index.now }
{
    let modes = modes_at(paper.model, paper.index, location);
    let groups = 2 + paper.index[CONDITIONS_AT] as u32;
    let mut left = o;
    for at in 0..groups {
        let goals = group_goals(paper, location, modes, at);
        if left < goals {
            return Spot { at, left };
        }
        left -= goals;
    }
    Spot { at: groups, left }
}

// The obligation with a number among those of an event's joint switches, from the table that lists them.
fn find_switch(
    paper: Paper,
    location: u32,
    slot: Slot,
    ways: &[Way],
    from: Spot,
) -> ControlFlow<JumpLine, Spot>
    requires location_bound { (location < location_count (components_from paper.model.now paper.index.now)) × ListedFrom paper.model.now paper.index.now location ways.now slot }
    requires e_bound { (slot.e ≤ 15) × (from.at + length (joints_of (components_from paper.model.now paper.index.now) location slot.e) ≤ 4096) }
    ensures { on_paper SoughtInFor paper.entry (joints_of (components_from paper.entry.model.now paper.entry.index.now) location slot.e) from result }
{
    let count = slot.count;
    let first = from.at;
    let mut left = from.left;
    for at in 0..count {
        let landing = landing_at(paper.index, slot, ways, at);
        let goals = region_rows(paper, landing.target);
        if left < goals {
            return ControlFlow::Break(JumpLine {
                number: first + at,
                location,
                event: slot.e,
                nth: at,
                line: left,
            });
        }
        left -= goals;
    }
    ControlFlow::Continue(Spot {
        at: first + count,
        left,
    })
}

// The same from the location: where the event has joint switches they are listed once.
fn find_event(
    paper: Paper,
    location: u32,
    modes: [u8; 4],
    e: u32,
    from: Spot,
) -> ControlFlow<JumpLine, Spot>
    requires stands { Stands paper.model.now paper.index.now location modes × ((e ≤ 15) × (from.at + length (joints_of (components_from paper.model.now paper.index.now) location e) ≤ 4096)) }
    ensures { on_paper SoughtInFor paper.entry (joints_of (components_from paper.entry.model.now paper.entry.index.now) location e) from result }
{
    if paper.index[FIRST_TOTAL + e as usize] == 0 {
        return ControlFlow::Continue(from);
    }
    let mut ways = NO_WAYS;
    let slot = list_slot(paper.model, paper.index, location, modes, e, &mut ways);
    find_switch(paper, location, slot, &ways, from)
}

// The obligation with a number among those of the joint switches that leave a location, event by event.
fn find_leaving(paper: Paper, location: u32, from: Spot) -> ControlFlow<JumpLine, Spot>
    requires location_bound { (location < location_count (components_from paper.model.now paper.index.now)) × (from.at + length (leaving_from paper.model.now paper.index.now location) ≤ 4096) }
    ensures { on_paper SoughtInFor paper.entry (leaving_from paper.entry.model.now paper.entry.index.now location) from result }
{
    let modes = modes_at(paper.model, paper.index, location);
    let mut spot = from;
    for e in 0..16 {
        spot = find_event(paper, location, modes, e, spot)?;
    }
    ControlFlow::Continue(spot)
}

// The obligation with a number among those of all joint switches, location by location.
fn find_jump(paper: Paper, locations: u32, o: u32) -> ControlFlow<JumpLine, Spot>
    requires locations_value { (locations ≡ location_count (components_from paper.model.now paper.index.now)) × (length (joints (components_from paper.model.now paper.index.now)) ≤ 4096) }
    ensures { on_paper SoughtInFor paper.entry (joints (components_from paper.entry.model.now paper.entry.index.now)) (record { at = 0; left = o }) result }
{
    let mut spot = Spot { at: 0, left: o };
    for location in 0..locations {
        spot = find_leaving(paper, location, spot)?;
    }
    ControlFlow::Continue(spot)
}

// The obligation with a number, if there is one: those of the locations first, then those of the joint switches.
pub fn find(paper: Paper, o: u32) -> Option<Sought>
    requires index_len_bound { length (joints (components_from paper.model.now paper.index.now)) ≤ 4096 }
    ensures result_value { of_paper sought_in_for paper.entry result ≡ one_at (of_paper paper_obligations paper.entry) o }
    ensures known_sought { IfSome result (KnownSought paper.entry.model.now paper.entry.index.now) }
{
    let locations = paper.index[LOCATIONS_AT] as u32;
    let place = find_location(paper, locations, o);
    if locations <= place.at {
        let found = find_jump(paper, locations, place.left);
        return found.break_value().map(Sought::AtJoint);
    }
    let group = find_group(paper, place.at, place.left);
    Some(Sought::AtLocation(place.at, group.at, group.left))
}
