// Hours with a closure.
ghost use Rattle.std.specs.Prelude.{◌≡◌, not, ◌&&◌, Some, None, MatchResult};
ghost use Rattle.std.proofs.Common.{rules};
ghost use Rattle.hours.specs.Window.{overlaps};
ghost use Rattle.hours.specs.Faults.{closure_fault};

use crate::Hours;
use crate::fault::HoursFault;
use crate::window::Window;

// Permits what the hours below permit, unless the step overlaps the closed window. The hours below may have closures too.
#[derive(Clone, Copy)]
pub struct Closure<H> {
    below: H,
    closed: Window,
}

impl<H: Hours + Drop> Closure<H> {
    // The hours `below` with the station closed from minute `from` up to, but not with, minute `to`. The rules ask for three
    // numbers and not for a window, and refuse them here.
    pub fn new(below: H, station: u32, from: u32, to: u32) -> Result<Closure<H>, HoursFault>
        ensures made { MatchResult result
            (λ h. (closure_fault station from to ≡ None) × (h.below ≡ below)
            × (h.closed ≡ record { station = station; from = from; to = to }))
            (λ e. closure_fault station from to ≡ Some e) }
    {
        let closed = Window { station, from, to };
        if !closed.is_lawful() {
            return Err(HoursFault::ClosureOutside);
        }
        Ok(Closure { below, closed })
    }
}

impl<H: Hours> Hours for Closure<H> {
    ghost permits = { λ h s b n. H.Hours.permits h.below s b n && not (overlaps h.closed s b n) };

    ghost limits = { Prim.search rules };

    fn earliest(&self, station: u32, from: u32, length: u32) -> Option<u32> {
        let begin = self.below.earliest(station, from, length)?;
        if !self.closed.meets(station, begin, begin + length) {
            return Some(begin);
        }
        // every begin from there up to the window's end overlaps it too
        self.below.earliest(station, self.closed.to, length)
    }
}
