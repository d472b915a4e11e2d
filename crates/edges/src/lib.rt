// Opening hours and goals at their edges, each of their refusals with the index by which it is told, and hours and a goal of
// a hall's own.
#![tactic(auto)]

#[cfg(test)]
mod opening;
#[cfg(test)]
mod own;
#[cfg(test)]
mod scoring;
