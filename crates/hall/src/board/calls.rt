// The calls of the board.
ghost use Rattle.std.specs.Prelude.{◌≡◌, slice_get};
ghost use Rattle.std.specs.Option.{option_map};
ghost use Rattle.hall.specs.Log.{taken, empty_log, vehicle_at, next_step};
ghost use Rattle.hall.specs.Rules.{enter, begin, finish, pass, begin_answer, finish_answer};
ghost use Rattle.hall.specs.Hall.{hall_log, fleet_of, Called};
ghost use Rattle.hall.specs.View.{steps_of};
ghost use Rattle.hall.specs.Job.{config_of, Begins, Finishes, Passes, Exactly};
ghost use Rattle.hall.specs.Series.{KeptFromArguments, RunsAsComposed};

use super::{Board, MOST_VEHICLES};
use crate::fault::BoardFault;
use crate::step::Step;
use crate::vehicle::{MOST_STEPS, Vehicle, step_fault};

// The most minutes that pass in one call, and the last minute of a board.
const LONGEST_PASS: u32 = 1440;

const LAST_MINUTE: u32 = 1_000_000;

impl Board {
    // An empty board at minute 0.
    pub fn new() -> Board
        ensures empty { hall_log result ≡ empty_log }
        ensures series { KeptFromArguments result }
        ensures runs { RunsAsComposed result }
    {
        Board {
            vehicles: [Vehicle::booked(&[]); MOST_VEHICLES],
            count: 0,
            minute: 0,
        }
    }

    // The vehicles in the hall, in the order of their numbers.
    pub fn vehicles(&self) -> &[Vehicle]
        ensures value { result.now ≡ fleet_of self.now }
    {
        &self.vehicles[..self.count]
    }

    // The vehicle of a number, if it is in the hall.
    fn vehicle(&self, vehicle: u32) -> Option<&Vehicle>
        ensures { slice_get (hall_log self.now).vehicles vehicle ≡ option_map (λ v. steps_of v.now) result }
    {
        self.vehicles().get(vehicle as usize)
    }

    // The minute, which is now.
    pub fn minute(&self) -> u32
        ensures value { result ≡ (hall_log self.now).minute }
    {
        self.minute
    }

    // How many steps of the vehicle are begun; 0 where there is no such vehicle, of which none is, so it is no `Option`.
    pub fn begun(&self, vehicle: u32) -> usize
        ensures value { result ≡ next_step (vehicle_at (hall_log self.now) vehicle) }
    {
        self.vehicle(vehicle).map_or(0, Vehicle::begun)
    }

    // Adds a vehicle with these steps, and answers its number.
    pub fn enter(&mut self, steps: &[Step]) -> Result<u32, BoardFault>
        ensures called { Called self.old (enter steps.now) result self.new }
    {
        if self.count >= MOST_VEHICLES {
            return Err(BoardFault::BoardFull);
        }
        // two tests, since with `contains` on the length the check finds no answer here
        if steps.is_empty() || steps.len() > MOST_STEPS {
            return Err(BoardFault::StepCount);
        }
        step_fault(steps)?;
        let number = self.count;
        self.vehicles[number] = Vehicle::booked(steps);
        self.count += 1;
        Ok(number as u32)
    }

    // Whether a step runs on the station.
    fn taken(&self, station: u32) -> bool
        ensures { result ≡ taken station (hall_log self.now).vehicles }
    {
        self.vehicles().iter().any(|v| v.occupies(station))
    }

    // The number of the step that begin starts, or why it does not.
    fn may_begin(&self, vehicle: u32) -> Result<usize, BoardFault>
        ensures { result ≡ begin_answer (hall_log self.now) vehicle }
    {
        let v = self.vehicle(vehicle).ok_or(BoardFault::VehicleUnknown)?;
        if v.running().is_some() {
            return Err(BoardFault::StepRuns);
        }
        let next = v.next().ok_or(BoardFault::NoStepLeft)?;
        if self.taken(v.steps.as_slice()[next].station) {
            return Err(BoardFault::StationTaken);
        }
        Ok(next)
    }

    // Starts the vehicle's next step now, and answers the step's number.
    pub fn begin(&mut self, vehicle: u32) -> Result<u32, BoardFault>
        ensures called { Called self.old (begin vehicle) result self.new }
        ensures step { Exactly (Begins (hall_log self.old) vehicle) result (config_of (hall_log self.new)) }
    {
        let next = self.may_begin(vehicle)?;
        self.vehicles[vehicle as usize].start(next, self.minute);
        Ok(next as u32)
    }

    // The number of the step that finish ends, or why it does not.
    fn may_finish(&self, vehicle: u32) -> Result<usize, BoardFault>
        ensures { result ≡ finish_answer (hall_log self.now) vehicle }
    {
        let v = self.vehicle(vehicle).ok_or(BoardFault::VehicleUnknown)?;
        let running = v.running().ok_or(BoardFault::NoStepRuns)?;
        let record = v.steps.as_slice()[running];
        let begin = record.progress.begin();
        let least = record.least_time();
        if self.minute - begin < least {
            return Err(BoardFault::TooEarly);
        }
        Ok(running)
    }

    // Ends the vehicle's running step now, and answers the step's number. It goes as `begin`, by another rule and another write:
    // a function of both would take either as a closure.
    pub fn finish(&mut self, vehicle: u32) -> Result<u32, BoardFault>
        ensures called { Called self.old (finish vehicle) result self.new }
        ensures step { Exactly (Finishes (hall_log self.old) vehicle) result (config_of (hall_log self.new)) }
    {
        let running = self.may_finish(vehicle)?;
        self.vehicles[vehicle as usize].end(running, self.minute);
        Ok(running as u32)
    }

    // Moves the minute, and answers the new one.
    pub fn pass(&mut self, minutes: u32) -> Result<u32, BoardFault>
        ensures called { Called self.old (pass minutes) result self.new }
        ensures step { Exactly (Passes (hall_log self.old) minutes) result (config_of (hall_log self.new)) }
    {
        if !(1..=LONGEST_PASS).contains(&minutes) {
            return Err(BoardFault::MinutesOutside);
        }
        let minute = self.minute + minutes;
        if minute > LAST_MINUTE {
            return Err(BoardFault::BeyondLastMinute);
        }
        self.minute = minute;
        Ok(minute)
    }
}
