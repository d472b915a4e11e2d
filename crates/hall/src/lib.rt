// The hall's board: vehicles, their steps, and the four calls that change them.
#![tactic(auto)]

pub mod board;
pub mod fault;
pub mod step;
pub mod vehicle;
