// A day sheet: its lines read, run on the board one at a time, and what came of them printed.
#![tactic(auto)]

pub mod fault;
pub mod kind;
pub mod line;
pub mod print;
mod reading;
pub mod run;
