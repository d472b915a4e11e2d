// Opening hours: which steps may begin on which station, and when.
#![tactic(auto)]

ghost use Rattle.std.specs.Prelude.{◌≡◌, ℕ, Bool, true};
ghost use Rattle.hours.specs.Limits.{Within};
ghost use Rattle.hours.specs.Earliest.{Earliest, earliest_of};

pub mod closure;
pub mod fault;
pub mod limits;
pub mod open;
pub mod window;
pub mod windows;

// Hours mean a set of permitted steps, each a station, a begin and a length. They permit nothing outside the limits.
pub trait Hours {
    ghost permits: { Self → ℕ → ℕ → ℕ → Bool };

    // The least begin at `from` or later that is permitted on the station for the length, if there is one. The rules ask it
    // with three numbers, and halls bring hours of their own, so they stay three and make no struct.
    fn earliest(&self, station: u32, from: u32, length: u32) -> Option<u32>
        ensures least { Earliest (λ b. permits self.now station b length) from result };

    ghost limits: { (h : Self) (s b n : ℕ) → permits h s b n ≡ true → Within s b n };
}

// The query's answer, which the permitted set alone fixes.
#[tactic(auto, using(crate::proofs::Unique::earliest_is))]
pub fn least_begin<H: Hours>(hours: &H, station: u32, from: u32, length: u32) -> Option<u32>
    ensures least { Earliest (λ b. H.Hours.permits hours.now station b length) from result }
    ensures value { result ≡ earliest_of (λ b. H.Hours.permits hours.now station b length) from }
{
    hours.earliest(station, from, length)
}
