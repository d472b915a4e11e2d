// Steps: as they are booked, and as the board records them.
ghost use Rattle.std.specs.Prelude.{◌≡◌};
ghost use Rattle.hall.specs.Log.{begin_of, least_time};
ghost use Rattle.hall.specs.Rules.{booked};

// A booked step: a station and a length in minutes.
#[derive(Clone, Copy, Debug, PartialEq, Eq)]
pub struct Step {
    pub station: u32,
    pub length: u32,
}

// How far a step has come, with the minutes that are recorded of it.
#[derive(Clone, Copy, Debug, PartialEq, Eq)]
pub enum Progress {
    Waiting,
    Running { begin: u32 },
    Done { begin: u32, end: u32 },
}

impl Progress {
    // The recorded begin; 0 where none is recorded, as in the rules. It is read of steps that run: a pattern at each read
    // would need an arm for the others, which never runs.
    pub(crate) fn begin(self) -> u32
        ensures { result ≡ begin_of self }
    {
        match self {
            Progress::Waiting => 0,
            Progress::Running { begin } | Progress::Done { begin, .. } => begin,
        }
    }
}

// A step of a vehicle in the hall. The rules speak of a record's station and length, so it holds no booked step.
#[derive(Clone, Copy, Debug, PartialEq, Eq)]
pub struct StepRecord {
    pub station: u32,
    pub length: u32,
    pub progress: Progress,
}

// A booked step as it is entered, not begun.
impl From<Step> for StepRecord {
    ghost from_gives = { λ step r. r ≡ booked step };

    fn from(step: Step) -> StepRecord {
        StepRecord {
            station: step.station,
            length: step.length,
            progress: Progress::Waiting,
        }
    }
}

impl StepRecord {
    // The least time that the step has to run before it may be finished.
    pub(crate) fn least_time(self) -> u32
        ensures { result ≡ least_time self.length }
    {
        self.length
    }
}
