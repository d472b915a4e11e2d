// Windows of time on a station.
ghost use Rattle.std.specs.Prelude.{◌≡◌, true};
ghost use Rattle.hours.specs.Earliest.{Earliest};
ghost use Rattle.hours.specs.Minutes.{MinuteByMinute};
ghost use Rattle.hours.specs.Window.{fits, meets, lawful, begin_from};

use crate::limits::{LAST_MINUTE, LAST_STATION};

// The minutes of a station from `from` up to, but not with, `to`.
#[derive(Clone, Copy, Debug, PartialEq, Eq)]
pub struct Window {
    pub station: u32,
    pub from: u32,
    pub to: u32,
}

impl Window {
    // Whether the station and the minutes are within their limits. Then steps fit inside the window, and overlap it, by
    // their minutes.
    #[tactic(auto, using(crate::proofs::Minutes::minute_by_minute))]
    pub fn is_lawful(&self) -> bool
        ensures value { result ≡ lawful self.now }
        ensures minutes { result ≡ true → MinuteByMinute self.now }
    {
        self.station <= LAST_STATION && self.from < self.to && self.to <= LAST_MINUTE
    }

    // Whether a step on the station that takes the minutes from `begin` up to, but not with, `end` overlaps the window.
    pub(crate) fn meets(&self, station: u32, begin: u32, end: u32) -> bool
        ensures { result ≡ meets self.now station begin end }
    {
        station == self.station && begin < self.to && self.from < end
    }

    // The least begin at `from` or later of a step that fits inside the window, if there is one.
    pub(crate) fn begin_from(&self, station: u32, from: u32, length: u32) -> Option<u32>
        ensures value { result ≡ begin_from self.now station from length }
        ensures least { Earliest (λ b. fits self.now station b length) from result }
    {
        let begin = from.max(self.from);
        if station != self.station || length > self.to || begin > self.to - length {
            return None;
        }
        Some(begin)
    }
}
