// Locations and joint switches of a model, counted and found by its index.
#![tactic(auto)]

pub mod into;
pub mod joints;
pub mod numbered;
pub mod slots;
pub mod totals;

// The joint switches of an event from a location, in a table: the event, how many there are, and how many ways each component has in an
// event from 1.
#[derive(Clone, Copy)]
pub struct Slot {
    pub e: u32,
    pub count: u32,
    pub ways: [u32; 4],
}

// A joint switch: its switches, 255 for a staying or absent component, and the location that it leads to.
#[derive(Clone, Copy)]
pub struct Landing {
    pub switches: [u8; 4],
    pub target: u32,
}
