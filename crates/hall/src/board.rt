// The board of a hall.
ghost use Rattle.std.specs.Prelude.{◌≤◌};
ghost use Rattle.hall.specs.View.{log_of};
ghost use Rattle.hall.specs.Lasting.{Lasting};

use crate::vehicle::Vehicle;

pub mod calls;

// How many vehicles the table takes.
pub(crate) const MOST_VEHICLES: usize = 24;

// The first `count` records of the table are the vehicles in the hall, and `minute` is now. The table is a plain array of
// vehicle records, by the project's rules, and begin and finish lend one record of it in place. What every board keeps,
// whatever was called on it, is stated by the ghost fields: `lasting` in the words of the hall, `few` of the table, without
// which the check does not show that the slice of the first `count` records is in range.
#[derive(Clone, Copy)]
pub struct Board {
    vehicles: [Vehicle; MOST_VEHICLES],
    count: usize,
    minute: u32,
    ghost few: { count ≤ 24 },
    ghost lasting: { ∥ Lasting (log_of vehicles count minute) ∥₁ },
}
