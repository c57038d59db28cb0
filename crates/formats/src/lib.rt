// The struct that the definitions name. The crate has no functions: it says what a sheet is, and proves what reading one gives.
#![tactic(auto)]

// How many locations and joint switches a model may have. Each caller states its own: document 02, order 2.
#[derive(Clone, Copy)]
pub struct Limits {
    pub locations: u32,
    pub joints: u32,
}
