// The bytes of a sheet: lines of fields that tabs part, numbers read from them, and lines printed.
#![tactic(auto)]

pub mod bytes;
pub mod cells;
pub mod number;
