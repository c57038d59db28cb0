// Model sheets read whole: the body into its index, then the limits on locations and joint switches, which a caller states.
#![tactic(auto)]

pub mod limits;
pub mod sheet;
