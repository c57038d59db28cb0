// The hypotheses of an obligation, kept in tables: for a start, a flow, an unsafe condition and a joint switch.
#![tactic(auto)]

pub mod groups;
pub mod tables;

// What is to be proved from one table: the version of the sheets that its rows stand in, how many segments and how many hypotheses it has,
// how many goals, where the goals' rows begin, on which unknowns they are put, and how many unknowns there are; and whether it is an unsafe
// condition, whose goal is no row.
#[derive(Clone, Copy)]
pub struct Group {
    pub version: u32,
    pub segments: usize,
    pub hypotheses: u32,
    pub goals: u32,
    pub from: usize,
    pub shift: usize,
    pub width: usize,
    pub zero: bool,
}
