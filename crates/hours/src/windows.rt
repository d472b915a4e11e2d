// Hours by windows.
ghost use Rattle.std.specs.Prelude.{◌≡◌, not, min, ◌&&◌, position, Some, None, MatchResult};
ghost use Rattle.std.specs.List.{filter_map, reduce};
ghost use Rattle.std.proofs.Common.{rules};
ghost use Rattle.hours.specs.Limits.{within};
ghost use Rattle.hours.specs.Window.{lawful, fits_one, begin_from};
ghost use Rattle.hours.specs.Faults.{windows_fault};

use crate::Hours;
use crate::fault::HoursFault;
use crate::open::Open;
use crate::window::Window;

// The most windows that there may be.
pub const MOST_WINDOWS: usize = 256;

// Permits a step that fits inside a single window of its station.
#[derive(Clone, Copy)]
pub struct Windows<'a> {
    records: &'a [Window],
}

// The index of the first window that is not lawful, if there is one.
fn first_unlawful(records: &[Window]) -> Option<usize>
    ensures { result ≡ position (λ w. not (lawful w)) records.now }
{
    records.iter().position(|window| !window.is_lawful())
}

impl<'a> Windows<'a> {
    // Hours by these windows, or the fault of the list.
    pub fn new(records: &'a [Window]) -> Result<Windows<'a>, HoursFault>
        ensures made { MatchResult result
            (λ h. (windows_fault records.now ≡ None) × (h.records.now ≡ records.now))
            (λ e. windows_fault records.now ≡ Some e) }
    {
        if records.len() > MOST_WINDOWS {
            return Err(HoursFault::WindowCount);
        }
        if let Some(index) = first_unlawful(records) {
            return Err(HoursFault::WindowOutside(index));
        }
        Ok(Windows { records })
    }

    // The least begin at `from` or later of a step that fits inside one of the windows, if there is one.
    fn begin_from(&self, station: u32, from: u32, length: u32) -> Option<u32>
        ensures { result ≡ reduce min (filter_map (λ w. begin_from w station from length) self.now.records.now) }
    {
        self.records
            .iter()
            .filter_map(|window| window.begin_from(station, from, length))
            .min()
    }
}

impl Hours for Windows<'_> {
    ghost permits = { λ h s b n. within s b n && fits_one h.records.now s b n };

    ghost limits = { Prim.search rules };

    fn earliest(&self, station: u32, from: u32, length: u32) -> Option<u32> {
        let begin = self.begin_from(station, from, length)?;
        Open.earliest(station, begin, length)
    }
}
