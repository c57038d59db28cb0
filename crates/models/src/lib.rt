// The body of a model sheet, read into an index.
#![tactic(auto)]

pub mod body;
pub mod layout;
pub mod model;
pub mod unsafes;
