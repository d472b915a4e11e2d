// The limits of every permitted step.
ghost use Rattle.std.specs.Prelude.{◌≡◌, true};
ghost use Rattle.hours.specs.Limits.{Within, within};

// Stations are numbered from 0 up to this one. Hours know nothing of a board, so this limit and the next stand here too.
pub const LAST_STATION: u32 = 15;

// The longest step, in minutes.
pub const LONGEST_STEP: u32 = 1440;

// No permitted step ends after this minute.
pub const LAST_MINUTE: u32 = 2_000_000;

// Whether a step keeps the limits.
pub fn is_within(station: u32, begin: u32, length: u32) -> bool
    ensures value { result ≡ within station begin length }
    ensures limits { (result ≡ true → Within station begin length) × (Within station begin length → result ≡ true) }
{
    station <= LAST_STATION && (1..=LONGEST_STEP).contains(&length) && begin <= LAST_MINUTE - length
}
