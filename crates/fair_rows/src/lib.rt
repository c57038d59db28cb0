// No functions: the crate says what the fair rows of a condition are, and proves what they mean.
#![tactic(auto)]
