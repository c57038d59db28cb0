// A proof read and tested: its entries are summed as they are read, entry by entry, and the sums judged.
#![tactic(auto)]

pub mod lines;
pub mod proofs;

// A hypothesis of a table: its form, the place of its segment, and its number there.
#[derive(Clone, Copy)]
pub struct Line {
    pub form: u32,
    pub place: usize,
    pub row: usize,
}

// How far the entries of a proof are read: the place of the next, the least hypothesis that it may name, the segment to seek that from, the
// summed bound, and whether a strict row is among the summed.
#[derive(Clone, Copy)]
pub struct Reached {
    pub place: usize,
    pub least: u32,
    pub segment: usize,
    pub bound: i64,
    pub strict: bool,
}
