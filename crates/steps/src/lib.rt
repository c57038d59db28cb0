// Whether a step of a run is allowed: rows on states, starts and unsafe states, flows, and joint switches by their bytes.
#![tactic(auto)]

pub mod jumps;
pub mod rows;
pub mod values;
