// A vehicle in the hall.
ghost use Rattle.std.specs.Prelude.{◌≡◌, ◌<◌, ◌≤◌, map, length, position, slice_index_or};
ghost use Rattle.hall.specs.Log.{waiting, running, next_step, occupies, blank, steps_with, begin_of};
ghost use Rattle.hall.specs.Rules.{booked, step_fault, unless};
ghost use Rattle.hall.specs.View.{steps_of};
ghost use Rattle.hall.specs.declared.step.Progress.TheVariants.{Running, Done};

use crate::fault::BoardFault;
use crate::step::{Progress, Step, StepRecord};
use short::Short;

// Stations are numbered from 0 up to this one.
const LAST_STATION: u32 = 15;

// The longest step, in minutes.
const LONGEST_STEP: u32 = 1440;

// The most steps of a vehicle.
pub const MOST_STEPS: usize = 8;

// A vehicle's steps, in their order.
#[derive(Clone, Copy)]
pub struct Vehicle {
    pub steps: Short<StepRecord, MOST_STEPS>,
}

impl Vehicle {
    // The number of the next step to begin, where one is left.
    pub(crate) fn next(&self) -> Option<usize>
        ensures { result ≡ position (λ r. waiting r.progress) (steps_of self.now) }
    {
        self.steps
            .as_slice()
            .iter()
            .position(|record| matches!(record.progress, Progress::Waiting))
    }

    // How many steps of the vehicle are begun.
    pub fn begun(&self) -> usize
        ensures { result ≡ next_step (steps_of self.now) }
    {
        self.next().unwrap_or(self.steps.as_slice().len())
    }

    // The number of the running step, where one runs: a chain as that of `next`, of another progress; a function of both would
    // take the test as a closure.
    pub(crate) fn running(&self) -> Option<usize>
        ensures { result ≡ position (λ r. running r.progress) (steps_of self.now) }
    {
        self.steps.as_slice().iter().position(|record| matches!(
            record.progress,
            Progress::Running { .. }
        ))
    }

    // Whether a step of the vehicle runs on the station.
    pub(crate) fn occupies(&self, station: u32) -> bool
        ensures { result ≡ occupies station (steps_of self.now) }
    {
        self.steps.as_slice().iter().any(|record| matches!(
            record.progress,
            Progress::Running { .. }
        ) && record.station == station)
    }

    // Writes another progress of step `j`.
    fn mark(&mut self, j: usize, progress: Progress)
        requires { j < length (steps_of self.old) }
        ensures steps { steps_of self.new ≡ steps_with (steps_of self.old) j progress }
    {
        let record = self.steps.as_slice()[j];
        self.steps.set(j, StepRecord { progress, ..record });
    }

    // Writes the begin of step `j`.
    pub(crate) fn start(&mut self, j: usize, minute: u32)
        requires { j < length (steps_of self.old) }
        ensures steps { steps_of self.new ≡ steps_with (steps_of self.old) j (Running minute) }
    {
        self.mark(j, Progress::Running { begin: minute });
    }

    // Writes the end of step `j`.
    pub(crate) fn end(&mut self, j: usize, minute: u32)
        requires { j < length (steps_of self.old) }
        ensures steps { steps_of self.new
            ≡ steps_with (steps_of self.old) j (Done (begin_of (slice_index_or (steps_of self.old) j blank).progress) minute) }
    {
        let begin = self.steps.as_slice()[j].progress.begin();
        self.mark(j, Progress::Done { begin, end: minute });
    }

    // The vehicle with these steps, none begun.
    pub(crate) fn booked(steps: &[Step]) -> Vehicle
        requires { length steps.now ≤ 8 }
        ensures steps { steps_of result ≡ map booked steps.now }
    {
        let blank = StepRecord::from(Step {
            station: 0,
            length: 0,
        });
        let mut list = Short::empty(blank);
        for step in steps {
            list.push(StepRecord::from(*step));
        }
        Vehicle { steps: list }
    }
}

// The first fault of a booking's steps, if any. The loop is the recursion of `step_fault`, one step a turn, and may name its
// number in the fault.
pub(crate) fn step_fault(steps: &[Step]) -> Result<(), BoardFault>
    requires { length steps.now ≤ 8 }
    ensures { result ≡ unless (step_fault 0 steps.now) tt }
{
    for (k, step) in steps.iter().enumerate() {
        if step.station > LAST_STATION {
            return Err(BoardFault::StationUnknown(k as u32));
        }
        if !(1..=LONGEST_STEP).contains(&step.length) {
            return Err(BoardFault::LengthOutside(k as u32));
        }
    }
    Ok(())
}
