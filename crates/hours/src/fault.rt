// Why opening hours are not made.
ghost use Rattle.std.specs.Prelude.{◌≡◌};
ghost use Rattle.hours.specs.Faults.{refusal_of, index_of};

use crate::windows::MOST_WINDOWS;

// Each case has a refusal number, and an index where a list of records is at fault. The rules give cases one number together,
// and a case that holds an index has no discriminant, so methods give both.
#[derive(Clone, Copy, Debug, PartialEq, Eq)]
pub enum HoursFault {
    // More windows than there may be.
    WindowCount,
    // The window at this index is the first that is outside its limits.
    WindowOutside(usize),
    // The station or the minutes of a closure are outside their limits.
    ClosureOutside,
}

impl HoursFault {
    // The number of the refusal.
    pub fn refusal(&self) -> u32
        ensures number { result ≡ refusal_of self.now }
    {
        match self {
            HoursFault::WindowCount | HoursFault::WindowOutside(_) => 32,
            HoursFault::ClosureOutside => 33,
        }
    }

    // The index that the refusal tells, if any: the number of windows that there may be, where there are more.
    pub fn index(&self) -> Option<usize>
        ensures told { result ≡ index_of self.now }
    {
        match self {
            HoursFault::WindowCount => Some(MOST_WINDOWS),
            HoursFault::WindowOutside(index) => Some(*index),
            HoursFault::ClosureOutside => None,
        }
    }
}
