// The structs that the definitions name. The crate has no functions: it says what runs, obligations and answers are, and proves what an
// acceptance means.
#![tactic(auto)]

// What every marking entry answers: document 01, "What is handed back".
#[repr(C)]
#[derive(Clone, Copy)]
pub struct Answer {
    pub number: u32,
    pub sheet: u32,
    pub place: u32,
    pub done: u32,
    pub score: u32,
}

// A record of the joint list: document 01, "Beside the marking".
#[repr(C)]
#[derive(Clone, Copy)]
pub struct Joint {
    pub source: u8,
    pub event: u8,
    pub switches: [u8; 4],
    pub target: u8,
}
