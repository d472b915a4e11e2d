// The walk over a hall's plans: so far, the best score that it holds.
#![tactic(auto)]

pub mod held;
