// The joint list: its answer, and its records in batches.
#![tactic(auto)]

pub mod list;
pub mod records;

use models::layout::Index;
use rules::Answer;

// The answer, and the index of the model; free where the sheet is no model.
#[derive(Clone, Copy)]
pub struct Listing {
    pub answer: Answer,
    pub index: Index,
}

// Up to 64 records, each packed in one word, and the place in the list after them: a slot, sixteen to a location, and how many joint
// switches from there on are passed over.
#[derive(Clone, Copy)]
pub struct Batch {
    pub words: [u64; 64],
    pub count: usize,
    pub slot: u32,
    pub x: u32,
}

// How many words of a batch are filled, and the place in the list after them.
#[derive(Clone, Copy)]
pub struct Filled {
    pub count: usize,
    pub slot: u32,
    pub x: u32,
}
