// The walk over the positions of a hall: a depth-first search for a best plan that drops what cannot be better.
#![tactic(auto)]

mod position;
mod root;
mod setting;
mod trail;
mod walker;
