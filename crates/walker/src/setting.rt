// What positions are moved and scored by.
ghost use Rattle.std.specs.Prelude.{◌≡◌};
ghost use Rattle.hall.specs.Hall.{fleet_of};
ghost use Rattle.walker.specs.Moves.{FleetOk};

use hall::board::Board;
use hall::vehicle::Vehicle;

// The hours, the goal and the vehicles of a hall.
#[derive(Drop)]
pub struct Setting<'a, H, G> {
    pub hours: &'a H,
    pub goal: &'a G,
    pub fleet: &'a [Vehicle],
    ghost ok: { FleetOk fleet.now },
}

impl<'a, H, G> Setting<'a, H, G> {
    // By these hours and this goal, with the vehicles of the board.
    pub fn of(hours: &'a H, goal: &'a G, board: &'a Board) -> Setting<'a, H, G>
        ensures hours { result.hours.now ≡ hours.now }
        ensures goal { result.goal.now ≡ goal.now }
        ensures fleet { result.fleet.now ≡ fleet_of board.now }
    {
        Setting {
            hours,
            goal,
            fleet: board.vehicles(),
        }
    }
}
