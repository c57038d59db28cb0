// The fields of certificates and run sheets, read by a model's index.
#![tactic(auto)]

pub mod certificate;
pub mod ranges;
pub mod run;

// How a proof of a certificate begins: its k, and how many entries follow.
#[derive(Clone, Copy)]
pub struct Head {
    pub k: u32,
    pub count: u32,
}

// An entry of a proof: its hypothesis and its multiplier.
#[derive(Clone, Copy)]
pub struct Entry {
    pub hypothesis: u32,
    pub multiplier: u32,
}

// A switch number for each component, 255 where it stays or is absent.
#[derive(Clone, Copy)]
pub struct Switches {
    pub a: u8,
    pub b: u8,
    pub c: u8,
    pub d: u8,
}

// A step of a run: a flow with its time, or a jump with its event and switches.
#[derive(Clone, Copy)]
pub enum Step {
    Flow(u32),
    Jump(u32, Switches),
}

// How a run begins: its q, how many steps follow, and its location.
#[derive(Clone, Copy)]
pub struct Opening {
    pub q: u32,
    pub steps: u32,
    pub location: u32,
}
