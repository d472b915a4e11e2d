// Each refusal of the board, of a line and of a sheet once, with the numbers by which it is told.
#![tactic(auto)]

#[cfg(test)]
mod tests;
