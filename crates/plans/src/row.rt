// Rows of a plan.

// A step that is still to begin, with the minutes that the plan gives it.
#[derive(Clone, Copy, Debug, PartialEq, Eq)]
pub struct Row {
    pub vehicle: u32,
    pub step: u32,
    pub station: u32,
    pub begin: u32,
    pub end: u32,
}
