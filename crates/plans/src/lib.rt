// Plans of a hall: rows, what a search for a plan answers, and in specs/ whole plans, positions and the walk over them.
#![tactic(auto)]

pub mod answer;
pub mod row;
