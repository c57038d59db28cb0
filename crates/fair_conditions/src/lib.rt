// The fair rows of a condition: divided, sorted and written into a lent buffer.
#![tactic(auto)]

pub mod conditions;
pub mod divisors;
pub mod sorting;
