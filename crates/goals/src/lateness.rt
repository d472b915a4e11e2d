// The goal of keeping due minutes.
ghost use Rattle.std.specs.Prelude.{◌≡◌, not, position, Some, None, MatchResult};
ghost use Rattle.goals.specs.Scores.{with_lateness, no_later};
ghost use Rattle.goals.specs.Faults.{may_be_due, due_fault};
ghost use Rattle.goals.specs.ScoresLemmas.{lateness_monotone};
ghost use Rattle.std.proofs.Common.{rules};

use crate::fault::GoalFault;
use crate::{Goal, MOST_VEHICLES};

// The last minute that may be due. It is that of the hours too, which goals know nothing of.
pub const LAST_DUE: u32 = 2_000_000;

// The greatest of finish minus due minute over the vehicles, absent where there is none; less is better, and absent is no
// worse than every number.
#[derive(Clone, Copy)]
pub struct GreatestLateness {
    due: [u32; MOST_VEHICLES],
}

// The index of the first minute that may not be due, if there is one.
fn first_beyond(due: &[u32]) -> Option<usize>
    ensures { result ≡ position (λ d. not (may_be_due d)) due.now }
{
    due.iter().position(|minute| *minute > LAST_DUE)
}

impl GreatestLateness {
    // The goal with these due minutes, in the order of the vehicles' numbers, or the fault of the list.
    pub fn new(due: &[u32]) -> Result<GreatestLateness, GoalFault>
        ensures made { MatchResult result
            (λ g. (due_fault due.now ≡ None) × (g.due ≡ due.now))
            (λ e. due_fault due.now ≡ Some e) }
    {
        let table = <[u32; MOST_VEHICLES]>::try_from(due).map_err(|_| GoalFault::DueCount)?;
        if let Some(index) = first_beyond(due) {
            return Err(GoalFault::DueBeyond(index));
        }
        Ok(GreatestLateness { due: table })
    }
}

impl Goal for GreatestLateness {
    type Score = Option<i64>;

    ghost starting = { λ _. None };

    ghost adding = { λ g score vehicle finish. with_lateness g.due score vehicle finish };

    ghost no_worse = { λ _ a b. no_later a b };

    ghost total = { Prim.search rules };

    ghost transitive = { Prim.search rules };

    ghost monotone = { λ g. lateness_monotone g.due };

    fn start(&self) -> Option<i64> {
        None
    }

    fn add(&self, score: Option<i64>, vehicle: usize, finish: u32) -> Option<i64> {
        let lateness = i64::from(finish) - i64::from(self.due[vehicle]);
        score.max(Some(lateness))
    }

    fn no_worse(&self, a: Option<i64>, b: Option<i64>) -> bool {
        a <= b
    }
}
