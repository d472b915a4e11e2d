// A sheet being run, one line at a time.
ghost use Rattle.std.specs.Prelude.{◌≤◌};

use crate::kind::Kind;

pub mod lines;

// What an accepted line did: its number, counted from 1, its kind and what its call answered.
#[derive(Clone, Copy, Debug, PartialEq, Eq)]
pub struct Entry {
    pub line: usize,
    pub kind: Kind,
    pub answer: u32,
}

// How far the run of a sheet has come: where the next line begins, and how many lines are behind it. The text is passed to
// each call: a cursor that held it by reference would ask its caller to leave it as it is.
#[derive(Clone, Copy)]
pub struct Cursor {
    at: usize,
    behind: usize,
    ghost counted: { behind ≤ at },
}
