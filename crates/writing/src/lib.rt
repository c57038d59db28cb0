// No functions: the crate says how a model is written as bytes, and proves that reading them gives the model back.
#![tactic(auto)]
