// The goal of an early end of the day.
ghost use Rattle.std.specs.Prelude.{nat_le};
ghost use Rattle.goals.specs.Scores.{with_finish};
ghost use Rattle.std.proofs.Common.{rules};
ghost use Rattle.goals.specs.ScoresLemmas.{latest_monotone};

use crate::Goal;

// The greatest finish, 0 where there is none, as the rules fix; less is better.
#[derive(Clone, Copy)]
pub struct LatestFinish;

impl Goal for LatestFinish {
    type Score = u32;

    ghost starting = { λ _. 0 };

    ghost adding = { λ _ score vehicle finish. with_finish score vehicle finish };

    ghost no_worse = { λ _ a b. nat_le a b };

    ghost total = { Prim.search rules };

    ghost transitive = { Prim.search rules };

    ghost monotone = { λ _. latest_monotone };

    fn start(&self) -> u32 {
        0
    }

    fn add(&self, score: u32, _vehicle: usize, finish: u32) -> u32 {
        score.max(finish)
    }

    fn no_worse(&self, a: u32, b: u32) -> bool {
        a <= b
    }
}
