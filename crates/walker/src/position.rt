// Positions of the walk.
ghost use Rattle.std.specs.Prelude.{◌≡◌, ◌<◌, ◌≤◌, map, length};
ghost use Rattle.std.specs.List.{range_with_len};
ghost use Rattle.goals.specs.Finishes.{scored};
ghost use Rattle.hall.specs.View.{steps_of};
ghost use Rattle.plans.specs.Meanings.{hours_of};
ghost use Rattle.walker.specs.Moves.{FleetOk, RecordOk, Sane, BegunWithin, CanMove, begin_in, advanced, row_in, steps_left};
ghost use Rattle.walker.specs.Bounds.{total_length, finish_by, finish_in};

use crate::setting::Setting;
use goals::{Goal, MOST_VEHICLES, score_of};
use hall::step::StepRecord;
use hall::vehicle::Vehicle;
use hours::limits::LAST_STATION;
use hours::{Hours, least_begin};
use plans::row::Row;
use short::Short;

// The most stations that a hall has.
pub const MOST_STATIONS: usize = LAST_STATION as usize + 1;

// Where a vehicle stands: how many of its steps are begun, and the minute from which it is free.
#[derive(Clone, Copy)]
pub struct Standing {
    pub begun: u32,
    pub free: u32,
}

// Where each vehicle stands, for each station the minute from which it is free, and the clock.
#[derive(Clone, Copy)]
pub struct Position {
    pub vehicles: [Standing; MOST_VEHICLES],
    pub stations: [u32; MOST_STATIONS],
    pub clock: u32,
}

// A vehicle's next step and its begin. That the move can be made (`CanMove`) is a fact of the move, the position and the
// vehicles together, so it is asked where the three meet.
#[derive(Clone, Copy)]
pub struct Move {
    pub vehicle: usize,
    pub begin: u32,
}

// The lengths of the steps together.
fn total_length(steps: &[StepRecord]) -> u32
    requires { total_length steps.now ≤ 11520 }
    ensures sum { result ≡ total_length steps.now }
    ensures small { result ≤ 11520 }
{
    steps.iter().map(|step| step.length).sum()
}

impl Position {
    // The begin of the vehicle's next step, if it has one and the hours permit it.
    pub fn next_begin<H: Hours, G>(&self, by: &Setting<H, G>, v: usize) -> Option<u32>
        requires { v < length by.now.fleet.now }
        ensures value { result
            ≡ begin_in (hours_of (H.Hours.permits by.now.hours.now)).earliest by.now.fleet.now self.now v }
    {
        let standing = self.vehicles[v];
        let step = by.fleet[v].steps.as_slice().get(standing.begun as usize)?;
        let free = self.stations[step.station as usize];
        let from = self.clock.max(standing.free).max(free);
        least_begin(by.hours, step.station, from, step.length)
    }

    // Begins the vehicle's next step.
    pub fn advance(&mut self, fleet: &[Vehicle], m: Move)
        requires { CanMove fleet.now self.old m.vehicle m.begin }
        ensures value { self.new ≡ advanced fleet.now self.old m.vehicle m.begin }
    {
        let k = self.vehicles[m.vehicle].begun;
        let step = fleet[m.vehicle].steps.as_slice()[k as usize];
        let end = m.begin + step.length;
        self.vehicles[m.vehicle] = Standing {
            begun: k + 1,
            free: end,
        };
        self.stations[step.station as usize] = end;
        self.clock = m.begin;
    }

    // The row of the vehicle's next step. A row has numbers of 32 bits, and the vehicle's is below 24.
    pub fn row(&self, fleet: &[Vehicle], m: Move) -> Row
        requires { CanMove fleet.now self.now m.vehicle m.begin }
        ensures value { result ≡ row_in fleet.now self.now m.vehicle m.begin }
    {
        let k = self.vehicles[m.vehicle].begun;
        let step = fleet[m.vehicle].steps.as_slice()[k as usize];
        Row {
            vehicle: m.vehicle as u32,
            step: k,
            station: step.station,
            begin: m.begin,
            end: m.begin + step.length,
        }
    }

    // The least minute at which the vehicle can finish.
    fn finish_of(&self, vehicle: &Vehicle, v: usize) -> u32
        requires known { v < MOST_VEHICLES }
        requires record { RecordOk vehicle.now }
        requires sane { Sane self.now }
        ensures value { result ≡ finish_by vehicle.now self.now v }
        ensures small { result ≤ 2020000 }
    {
        let standing = self.vehicles[v];
        let steps = vehicle.steps.as_slice();
        let begun = standing.begun as usize;
        if begun < steps.len() {
            self.clock.max(standing.free) + total_length(&steps[begun..])
        } else {
            standing.free
        }
    }

    // The goal's score of all least finishes.
    pub fn bound<H, G: Goal>(&self, by: &Setting<H, G>) -> G::Score
        requires { Sane self.now }
        ensures value { result
            ≡ scored (G.Goal.adding by.now.goal.now) (G.Goal.starting by.now.goal.now)
            (map (finish_in by.now.fleet.now self.now) (range_with_len 0 (length by.now.fleet.now))) }
    {
        let mut finishes: Short<u32, MOST_VEHICLES> = Short::empty(0);
        for (v, vehicle) in by.fleet.iter().enumerate() {
            finishes.push(self.finish_of(vehicle, v));
        }
        score_of(by.goal, finishes.as_slice())
    }

    // The steps that the vehicles have left. The loop is the recursion of `steps_left`, one vehicle a turn; a sum over pairs
    // of vehicle and standing leaves open that no difference is below 0. It is asked of a board's vehicles, before there is a
    // setting that keeps `fleet`.
    pub fn steps_left(&self, fleet: &[Vehicle]) -> usize
        requires fleet { FleetOk fleet.now }
        requires begun { BegunWithin fleet.now self.now }
        ensures value { result ≡ steps_left fleet.now self.now (length fleet.now) }
    {
        let mut sum: usize = 0;
        for (v, vehicle) in fleet.iter().enumerate() {
            sum += vehicle.steps.as_slice().len() - self.vehicles[v].begun as usize;
        }
        sum
    }
}
