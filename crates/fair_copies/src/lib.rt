// The fair copy of a model, written into a lent buffer: the model's index is walked from its first field to its last.
#![tactic(auto)]

pub mod copies;
pub mod parts;
