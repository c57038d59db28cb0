// No functions: the crate says what the fair copy of a model is, and proves that it allows the same runs and unsafe states.
#![tactic(auto)]
