// Why a goal is not made.
ghost use Rattle.std.specs.Prelude.{◌≡◌};
ghost use Rattle.goals.specs.Faults.{refusal_of, index_of};

use crate::MOST_VEHICLES;

// Each case has a refusal number and an index. The rules give cases one number together, and a case that holds an index has
// no discriminant, so methods give both.
#[derive(Clone, Copy, Debug, PartialEq, Eq)]
pub enum GoalFault {
    // Not one due minute for each vehicle.
    DueCount,
    // The due minute at this index is the first that is beyond the last one.
    DueBeyond(usize),
}

impl GoalFault {
    // The number of the refusal.
    pub fn refusal(&self) -> u32
        ensures number { result ≡ refusal_of self.now }
    {
        match self {
            GoalFault::DueCount | GoalFault::DueBeyond(_) => 34,
        }
    }

    // The index that the refusal tells: the right count of due minutes, where there are more or fewer.
    pub fn index(&self) -> usize
        ensures told { result ≡ index_of self.now }
    {
        match self {
            GoalFault::DueCount => MOST_VEHICLES,
            GoalFault::DueBeyond(index) => *index,
        }
    }
}
