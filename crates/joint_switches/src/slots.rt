// The joint switches of one event from one location, listed in a table that the caller lends, and then found by their number. Of event 0
// each has a line: who moves, by which switch, and where that leads. Of an event from 1 each component's ways are listed, with what each
// gives to the target's number; a joint switch's number has a digit for each component, and its target is the sum.
ghost use Rattle.std.specs.Prelude.{◌≡◌, ◌+◌, ◌*◌, ◌≤◌, ◌<◌, length, set, replicate};
ghost use Rattle.formats.specs.Locations.{location_count, modes_at};
ghost use Rattle.formats.specs.Joint.{stays, switch_of, bit};
ghost use Rattle.models.specs.Index.{GoodIndex, components_from, components_in};
ghost use Rattle.models.specs.Counts.{component_at, per_component, KnownModes};
ghost use Rattle.joint_switches.specs.Counted.{Counted};
ghost use Rattle.joint_switches.specs.Slots.{digit_landing, landing_in, Digits, Ready, ListedAs, Listed, silent_in, together_in, leaving_by, parts_by, leaves_by, Fitting, line_for, WaysAt, MoversAt, OtherLines};

use crate::joints::{component_count, in_scope, leaves_by, mode_count, switch_count};
use crate::{Landing, Slot};
use models::layout::{
    BLOCK_LENGTH, COMPONENTS_AT, FIRST_BLOCK, FIRST_SWITCH, FIRST_TOTAL, Index, LOCATIONS_AT,
    SWITCH_LENGTH, TARGET_AT,
};

// A line of a table: by which switch a component moves, which component it is, and where that leads. Four bytes: with three,
// marking 1,024 joint switches took 4 % more instructions.
#[derive(Clone, Copy)]
pub struct Way {
    pub switch: u8,
    pub mover: u8,
    pub landing: u16,
}

pub const WAYS_LENGTH: usize = 128;

// A table for the joint switches of one event from one location.
pub type Ways = [Way; WAYS_LENGTH];

// One without lines.
pub const NO_WAYS: Ways = [Way {
    switch: 0,
    mover: 0,
    landing: 0,
}; WAYS_LENGTH];

// A component's part in an event: its number and mode, the event, and what the target's number is by its mode after it, a rest from the
// other components and a unit for each mode.
#[derive(Clone, Copy)]
struct Part {
    k: usize,
    mode: u8,
    e: u32,
    rest: u32,
    unit: u32,
}

// The mode that a switch leads into.
fn target_in(s: &[u8], index: &Index, k: usize, i: usize) -> u32
    requires good_index { GoodIndex s.now index.now }
    requires k_bound { (k < components_in index.now) × (i < length (component_at s.now index.now k).switches) }
    ensures { result ≡ (switch_of (component_at s.now index.now k) i).target }
{
    u32::from(index[FIRST_BLOCK + BLOCK_LENGTH * k + FIRST_SWITCH + SWITCH_LENGTH * i + TARGET_AT])
}

// Puts a switch in a line of the table if it has the event's label and leaves the mode, and tells which line is next.
fn take_switch(s: &[u8], index: &Index, part: Part, i: usize, at: usize, ways: &mut [Way]) -> usize
    requires good_index { GoodIndex s.now index.now × Fitting s.now index.now part }
    requires i_in_bounds { i < length (component_at s.now index.now part.k).switches }
    requires at_bound { (at < 128) × (128 ≤ length ways.old) }
    ensures value { result ≡ at + bit (leaves_by s.now index.now part i) }
    ensures ways_after { ways.new ≡ line_for s.now index.now part i at ways.old }
{
    let k = part.k;
    if !leaves_by(s, index, k, i, part.mode, part.e) {
        return at;
    }
    let landing = part.rest + target_in(s, index, k, i) * part.unit;
    ways[at] = Way {
        switch: i as u8,
        mover: k as u8,
        landing: landing as u16,
    };
    at + 1
}

// Lists the switches of a component that have the event's label and leave its mode, from a line on, and tells which line is next.
fn list_leaving(s: &[u8], index: &Index, part: Part, from: usize, ways: &mut [Way]) -> usize
    requires good_index { GoodIndex s.now index.now × Fitting s.now index.now part }
    requires from_bound { (from ≤ 96) × (128 ≤ length ways.old) }
    ensures value { result ≡ from + length (leaving_by s.now index.now part) }
    ensures ways_at { WaysAt s.now index.now part from (leaving_by s.now index.now part) ways.new }
    ensures movers_at { MoversAt part.k from (length (leaving_by s.now index.now part)) ways.new }
    ensures other_lines { OtherLines from ways.old ways.new }
{
    let mut at = from;
    for i in 0..switch_count(s, index, part.k) {
        at = take_switch(s, index, part, i, at, ways);
    }
    at
}

// Lists the ways in which a component takes part in an event from 1, at its own places, and tells how many: by its switches if it is in
// the scope, else one, by staying.
fn list_part(s: &[u8], index: &Index, part: Part, ways: &mut [Way]) -> u32
    requires good_index { GoodIndex s.now index.now × Fitting s.now index.now part }
    requires mode_in_bounds { (part.mode < length (component_at s.now index.now part.k).modes) × (part.e ≤ 15) }
    requires in_bounds { 128 ≤ length ways.old }
    ensures value { result ≡ length (parts_by s.now index.now part) }
    ensures ways_at { WaysAt s.now index.now part (32 * part.k) (parts_by s.now index.now part) ways.new }
    ensures other_lines { OtherLines (32 * part.k) ways.old ways.new }
{
    let k = part.k;
    if in_scope(s, index, k, part.e) {
        return (list_leaving(s, index, part, 32 * k, ways) - 32 * k) as u32;
    }
    let landing = part.rest + u32::from(part.mode) * part.unit;
    ways[32 * k] = Way {
        switch: 255,
        mover: k as u8,
        landing: landing as u16,
    };
    1
}

// Lists the joint switches of an event from 1 whose scope is not empty: the ways of each component from these modes. It is over with the
// first component that cannot take part.
fn list_together(s: &[u8], index: &Index, modes: [u8; 4], e: u32, ways: &mut [Way]) -> Slot
    requires good_index { GoodIndex s.now index.now × KnownModes index.now modes }
    requires index_bound { (location_count (components_from s.now index.now) ≤ 64) × ((1 ≤ e) × (e ≤ 15)) }
    requires in_bounds { 128 ≤ length ways.old }
    ensures { ListedAs (together_in s.now index.now modes e) s.now index.now modes e ways.new result }
{
    let mut counts = [0u32; 4];
    let mut count: u32 = 1;
    let mut unit: u32 = 1;
    for k in (0..component_count(s, index)).rev() {
        let part = Part {
            k,
            mode: modes[k],
            e,
            rest: 0,
            unit,
        };
        let n = list_part(s, index, part, ways);
        counts[k] = n;
        count = n * count;
        if count == 0 {
            return Slot {
                e,
                count: 0,
                ways: counts,
            };
        }
        unit = mode_count(s, index, k) * unit;
    }
    Slot {
        e,
        count,
        ways: counts,
    }
}

// Lists the joint switches of event 0: each component moves alone, and the others keep their part of the location's number.
fn list_silent(s: &[u8], index: &Index, location: u32, modes: [u8; 4], ways: &mut [Way]) -> Slot
    requires good_index { GoodIndex s.now index.now × Counted s.now index.now }
    requires index_bound { location_count (components_from s.now index.now) ≤ 64 }
    requires location_bound { (location < location_count (components_from s.now index.now)) × (per_component index.now modes ≡ modes_at (components_from s.now index.now) location) }
    requires in_bounds { 128 ≤ length ways.old }
    ensures { ListedAs (silent_in s.now index.now modes) s.now index.now modes 0 ways.new result }
{
    let mut unit = u32::from(index[LOCATIONS_AT]);
    let mut at: usize = 0;
    for k in 0..component_count(s, index) {
        unit /= mode_count(s, index, k);
        let mode = modes[k];
        let part = Part {
            k,
            mode,
            e: 0,
            rest: location - u32::from(mode) * unit,
            unit,
        };
        at = list_leaving(s, index, part, at, ways);
    }
    Slot {
        e: 0,
        count: at as u32,
        ways: [0; 4],
    }
}

// Lists the joint switches of an event from a location with these modes; none where the event has none at all, as the index says.
pub fn list_slot(
    s: &[u8],
    index: &Index,
    location: u32,
    modes: [u8; 4],
    e: u32,
    ways: &mut [Way],
) -> Slot
    requires good_index { GoodIndex s.now index.now × Counted s.now index.now }
    requires index_bound { (location_count (components_from s.now index.now) ≤ 64) × (e ≤ 15) }
    requires location_bound { (location < location_count (components_from s.now index.now)) × (per_component index.now modes ≡ modes_at (components_from s.now index.now) location) }
    requires in_bounds { 128 ≤ length ways.old }
    ensures { Listed s.now index.now modes e ways.new result }
{
    if index[FIRST_TOTAL + e as usize] == 0 {
        return Slot {
            e,
            count: 0,
            ways: [0; 4],
        };
    }
    if e == 0 {
        return list_silent(s, index, location, modes, ways);
    }
    list_together(s, index, modes, e, ways)
}

// Four switch numbers where one component moves.
pub fn alone(k: usize, i: u8) -> [u8; 4]
    requires { k < 4 }
    ensures { result ≡ set (replicate 4 stays) k i }
{
    let mut switches = [255u8; 4];
    switches[k] = i;
    switches
}

// A joint switch of an event from 1, by the digits of its number.
fn together_at(index: &Index, ways: &[Way], counts: [u32; 4], x: u32) -> Landing
    requires index_bound { (components_in index.now ≤ 4) × (128 ≤ length ways.now) }
    requires digits { Digits index.now counts }
    ensures { result ≡ digit_landing index.now counts ways.now x }
{
    let mut switches = [255u8; 4];
    let mut target: u32 = 0;
    let mut left = x;
    for k in (0..usize::from(index[COMPONENTS_AT])).rev() {
        let count = counts[k];
        let way = 32 * k + (left % count) as usize;
        switches[k] = ways[way].switch;
        target += u32::from(ways[way].landing);
        left /= count;
    }
    Landing { switches, target }
}

// A joint switch by its number, as the table tells it.
pub fn landing_at(index: &Index, slot: Slot, ways: &[Way], x: u32) -> Landing
    requires { Ready index.now slot ways.now × (x < slot.count) }
    ensures { result ≡ landing_in index.now slot ways.now x }
{
    if slot.e == 0 {
        let way = ways[x as usize];
        let switches = alone(usize::from(way.mover), way.switch);
        return Landing {
            switches,
            target: u32::from(way.landing),
        };
    }
    let counts = slot.ways;
    together_at(index, ways, counts, x)
}
