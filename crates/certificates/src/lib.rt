// Certificates marked: the proofs of all obligations, location by location, then joint switch by joint switch; and the whole sheet.
#![tactic(auto)]

use fields::Refusal;

pub mod certificate;
pub mod joint_marks;
pub mod obligations;

// Where marking stands: the place reached, and how many proofs have passed.
#[derive(Clone, Copy)]
pub struct Marking {
    pub place: usize,
    pub done: u32,
}

// Where marking ends at a proof that fails: what refuses it, and how many proofs have passed before it.
#[derive(Clone, Copy)]
pub struct Failed {
    pub refusal: Refusal,
    pub done: u32,
}

// Where the proofs of the joint switches from a location stand: the location, its modes, how many segments of the table are its own, and
// where marking stands.
#[derive(Clone, Copy)]
pub struct Leaving {
    pub location: u32,
    pub modes: [u8; 4],
    pub here: usize,
    pub marking: Marking,
}

// The joint switches of an event from a location, as a table lists them, and where their proofs begin.
#[derive(Clone, Copy)]
pub struct Listing {
    pub slot: joint_switches::Slot,
    pub from: Leaving,
}
