// Why the board refuses a call.
ghost use Rattle.std.specs.Prelude.{◌≡◌};
ghost use Rattle.hall.specs.Faults.{refusal_of, field_of};

// Each case has a refusal number and names the field of the call that it is about. Where a booked step is at fault, the
// case holds the step's number.
#[derive(Clone, Copy, Debug, PartialEq, Eq)]
pub enum BoardFault {
    VehicleUnknown,
    StepRuns,
    NoStepLeft,
    StationTaken,
    NoStepRuns,
    TooEarly,
    MinutesOutside,
    BeyondLastMinute,
    BoardFull,
    StepCount,
    StationUnknown(u32),
    LengthOutside(u32),
}

impl BoardFault {
    // The number of the refusal. The rules fix these numbers, and a case that holds a step's number has no discriminant.
    pub fn refusal(&self) -> u32
        ensures { result ≡ refusal_of self.now }
    {
        match self {
            BoardFault::VehicleUnknown => 10,
            BoardFault::StepRuns => 11,
            BoardFault::NoStepLeft => 12,
            BoardFault::StationTaken => 13,
            BoardFault::NoStepRuns => 14,
            BoardFault::TooEarly => 15,
            BoardFault::MinutesOutside => 16,
            BoardFault::BeyondLastMinute => 17,
            BoardFault::BoardFull => 20,
            BoardFault::StepCount => 21,
            BoardFault::StationUnknown(_) => 22,
            BoardFault::LengthOutside(_) => 23,
        }
    }

    // The field that the refusal is about: 0 is the call itself, and its arguments are counted from 1, as the rules fix.
    pub fn field(&self) -> usize
        ensures { result ≡ field_of self.now }
    {
        match self {
            BoardFault::BoardFull | BoardFault::StepCount => 0,
            BoardFault::StationUnknown(step) => 1 + 2 * (*step as usize),
            BoardFault::LengthOutside(step) => 2 + 2 * (*step as usize),
            _ => 1,
        }
    }
}
