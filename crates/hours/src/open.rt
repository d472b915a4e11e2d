// Hours that are always open.
ghost use Rattle.std.proofs.Common.{rules};
ghost use Rattle.hours.specs.Limits.{within};

use crate::Hours;
use crate::limits::is_within;

// Permits all that the limits allow.
#[derive(Clone, Copy)]
pub struct Open;

impl Hours for Open {
    ghost permits = { λ _ s b n. within s b n };

    ghost limits = { Prim.search rules };

    fn earliest(&self, station: u32, from: u32, length: u32) -> Option<u32> {
        is_within(station, from, length).then_some(from)
    }
}
