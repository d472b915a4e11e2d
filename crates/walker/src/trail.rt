// The way from the root to the position that is visited next.
ghost use Rattle.std.specs.Prelude.{◌≡◌, ◌<◌, length};
ghost use Rattle.plans.specs.Meanings.{hours_of};
ghost use Rattle.walker.specs.Moves.{CanMove};
ghost use Rattle.walker.specs.Trail.{Found, TrailOk, Turned, Pushed, Opened, Popped, due_left, due_of, top_of};

use crate::position::{Move, Position};
use crate::setting::Setting;
use goals::MOST_VEHICLES;
use hall::vehicle::{MOST_STEPS, Vehicle};
use hours::Hours;
use plans::row::Row;
use short::Short;

// The most rows of a plan: one for each step of each vehicle.
pub const MOST_ROWS: usize = MOST_VEHICLES * MOST_STEPS;

// The most frames of a trail: the root's, and one for each row.
pub const MOST_FRAMES: usize = MOST_ROWS + 1;

// A position and the next vehicle to move from it.
#[derive(Clone, Copy)]
pub struct Frame {
    pub at: Position,
    pub next: usize,
}

// The frames lead from the root: the last of them is due, those before it are visited. The path has the row of each move.
// At the root `steps` are to begin, at most `MOST_ROWS`.
#[derive(Clone, Copy)]
pub struct Trail {
    pub frames: Short<Frame, MOST_FRAMES>,
    pub path: Short<Row, MOST_ROWS>,
    pub steps: usize,
}

impl Frame {
    // The first move of a vehicle from `next` on. That `find_map` over the range finds it, the check does not prove.
    fn next_move<H: Hours, G>(&self, by: &Setting<H, G>) -> Option<Move>
        ensures found { Found (hours_of (H.Hours.permits by.now.hours.now)).earliest by.now.fleet.now
            self.now result }
    {
        for v in self.next..by.fleet.len() {
            if let Some(begin) = self.at.next_begin(by, v) {
                return Some(Move { vehicle: v, begin });
            }
        }
        None
    }
}

// That a top frame is there is asked by each that needs one: the caller has just seen it, and an `Option` would hide that.
impl Trail {
    // The top frame.
    pub fn top(&self) -> &Frame
        requires { 0 < length self.now.frames.items }
        ensures value { result.now ≡ top_of self.now }
    {
        let frames = self.frames.as_slice();
        &frames[frames.len() - 1]
    }

    // Makes `next` the next vehicle to move from the top frame.
    fn turn_to(&mut self, next: usize)
        requires { 0 < length self.old.frames.items }
        ensures value { Turned next self.old self.new }
    {
        let at = self.top().at;
        let d = self.frames.as_slice().len() - 1;
        self.frames.set(d, Frame { at, next });
    }

    // Makes the move from the top frame.
    fn push(&mut self, fleet: &[Vehicle], m: Move)
        requires some { 0 < length self.old.frames.items }
        requires frames { length self.old.frames.items < MOST_FRAMES }
        requires path { length self.old.path.items < MOST_ROWS }
        requires can { CanMove fleet.now (top_of self.old).at m.vehicle m.begin }
        ensures value { Pushed fleet.now m self.old self.new }
    {
        let mut at = self.top().at;
        self.turn_to(m.vehicle + 1);
        self.path.push(at.row(fleet, m));
        at.advance(fleet, m);
        self.frames.push(Frame { at, next: 0 });
    }

    // Makes the children of the top frame due.
    pub fn open(&mut self)
        requires { 0 < length self.old.frames.items }
        ensures value { Opened self.old self.new }
    {
        self.turn_to(0);
    }

    // Lets the top frame go, with the row that led to it.
    pub fn pop(&mut self)
        ensures value { Popped self.old self.new }
    {
        self.frames.pop();
        self.path.pop();
    }

    // Goes back until the next due position is on top; without one the trail is empty.
    pub fn settle<H: Hours, G>(&mut self, by: &Setting<H, G>)
        requires { TrailOk by.now.fleet.now self.old }
        ensures ok { TrailOk by.now.fleet.now self.new }
        ensures steps { self.new.steps ≡ self.old.steps }
        ensures due { due_of (hours_of (H.Hours.permits by.now.hours.now)).earliest by.now.fleet.now self.new
            ≡ due_left (hours_of (H.Hours.permits by.now.hours.now)).earliest by.now.fleet.now self.old }
    {
        while let Some(top) = self.frames.as_slice().last() {
            if let Some(m) = top.next_move(by) {
                self.push(by.fleet, m);
                return;
            }
            self.pop();
        }
    }
}
