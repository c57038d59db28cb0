// How many obligations a certificate has, counted and never listed, and the score of a refused one.
#![tactic(auto)]

pub mod counting;
pub mod rounding;
