// The root position of a board.
ghost use Rattle.std.specs.Prelude.{◌≡◌, ◌<◌, ◌≤◌, length};
ghost use Rattle.hall.specs.Log.{begin_of, next_step};
ghost use Rattle.hall.specs.Hall.{hall_log, fleet_of};
ghost use Rattle.hall.specs.View.{steps_of};
ghost use Rattle.plans.specs.Plan.{end_by};
ghost use Rattle.plans.specs.Position.{runs_until};
ghost use Rattle.walker.specs.Roots.{stood, Past};
ghost use Rattle.walker.specs.View.{RootOf};

use crate::position::{MOST_STATIONS, Position, Standing};
use goals::MOST_VEHICLES;
use hall::board::Board;
use hall::step::{Progress, StepRecord};
use hall::vehicle::Vehicle;

// A begun step's end: recorded, or the later of now and begin plus length. It is asked of begun steps alone; of others it is
// 0, as in `end_by`.
fn end_of(step: StepRecord, minute: u32) -> u32
    requires begin { begin_of step.progress ≤ 1000000 }
    requires length { step.length ≤ 1440 }
    ensures value { result ≡ end_by minute step.length step.progress }
{
    match step.progress {
        Progress::Waiting => 0,
        Progress::Running { begin } => minute.max(begin + step.length),
        Progress::Done { end, .. } => end,
    }
}

// The minute up to which a step takes its station; 0 if it does not run, since a station that nothing takes is free from
// minute 0.
fn runs_until(step: StepRecord, minute: u32) -> u32
    requires begin { begin_of step.progress ≤ 1000000 }
    requires length { step.length ≤ 1440 }
    ensures value { result ≡ runs_until minute step.length step.progress }
{
    match step.progress {
        Progress::Running { .. } => end_of(step, minute),
        _ => 0,
    }
}

// Adds vehicle `v` to the position.
#[tactic(auto, using(crate::proofs::Ready::begun_fits))]
fn stand(position: &mut Position, vehicle: &Vehicle, v: usize, minute: u32)
    requires past { Past minute vehicle.now }
    requires known { v < MOST_VEHICLES }
    ensures value { position.new ≡ stood minute vehicle.now v (next_step (steps_of vehicle.now)) position.old }
{
    let begun = vehicle.begun();
    if begun == 0 {
        position.vehicles[v].begun = 0;
        return;
    }
    let step = vehicle.steps.as_slice()[begun - 1];
    let station = step.station as usize;
    let free = end_of(step, minute);
    let begun = begun as u32;
    position.vehicles[v] = Standing { begun, free };
    position.stations[station] = position.stations[station].max(runs_until(step, minute));
}

// Every vehicle in its place, and the clock at now.
pub fn root_of(board: &Board) -> Position
    ensures root { RootOf (hall_log board.now) result }
{
    let minute = board.minute();
    let fleet = board.vehicles();
    let mut position = Position {
        vehicles: [Standing { begun: 0, free: 0 }; MOST_VEHICLES],
        stations: [0; MOST_STATIONS],
        clock: minute,
    };
    for (v, vehicle) in fleet.iter().enumerate() {
        stand(&mut position, vehicle, v, minute);
    }
    position
}
