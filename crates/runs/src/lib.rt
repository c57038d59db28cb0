// Run sheets marked: the steps one after the other, and the whole sheet.
#![tactic(auto)]

pub mod run;

use fields::Refusal;

// How far a run has come: the place of its next step, how many steps passed, and the modes of the location reached. The values reached stand
// beside it, in the first numbers of a lent slice.
#[derive(Clone, Copy)]
pub struct RunMarked {
    pub place: usize,
    pub done: u32,
    pub modes: [u8; 4],
}

// Why and where marking stopped, and how many steps had passed.
#[derive(Clone, Copy)]
pub struct Stopped {
    pub refusal: Refusal,
    pub done: u32,
}
