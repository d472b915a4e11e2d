// Hours and a goal of a hall's own, under the closures, scores and holders of the library.
ghost use Rattle.std.specs.Prelude.{◌≡◌, true, false, if◌then◌else◌, nat_eq, nat_le, refl};
ghost use Rattle.std.proofs.Common.{arith, rules};
ghost use Rattle.std.proofs.lemmas.Bool.Decides.{nat_tests};
ghost use Rattle.goals.specs.Scoring.{monotone_by_step};

use goals::{Goal, score_of};
use hours::Hours;
use hours::closure::Closure;
use std::test::Fail;
use walk::held::Held;

// Never open.
#[derive(Clone, Copy)]
pub struct Never;

impl Hours for Never {
    ghost permits = { λ _ _ _ _. false };

    ghost limits = { Prim.search rules };

    fn earliest(&self, _station: u32, _from: u32, _length: u32) -> Option<u32> {
        None
    }
}

// The finish of vehicle 0, which has to leave first; 0 where there is none.
#[derive(Clone, Copy)]
pub struct FirstVehicle;

impl Goal for FirstVehicle {
    type Score = u32;

    ghost starting = { λ _. 0 };

    ghost adding = { λ _ score vehicle finish. (if nat_eq vehicle 0 then finish else score) };

    ghost no_worse = { λ _ a b. nat_le a b };

    ghost total = { Prim.search rules };

    ghost transitive = { Prim.search rules };

    ghost monotone = { λ g. monotone_by_step (λ s v x. (if nat_eq v 0 then x else s)) (λ a b. nat_le a b ≡ true) (λ s t v x y few le small r. Prim.grind (arith, nat_tests)) 0 refl };

    fn start(&self) -> u32 {
        0
    }

    fn add(&self, score: u32, vehicle: usize, finish: u32) -> u32 {
        if vehicle == 0 { finish } else { score }
    }

    fn no_worse(&self, a: u32, b: u32) -> bool {
        a <= b
    }
}

#[test]
fn hours_of_a_hall(rt: HostRuntime) -> Result<(), Fail> {
    let hours = Closure::new(Never, 0, 1, 2)?;
    assert_eq!(rt; hours.earliest(0, 0, 1), None);
    Ok(())
}

#[test]
fn goal_of_a_hall(rt: HostRuntime) {
    assert_eq!(rt; score_of(&FirstVehicle, &[7, 10, 3]), 7);
    let mut held: Held<FirstVehicle> = Held::empty();
    held.offer(&FirstVehicle, 7);
    held.offer(&FirstVehicle, 8);
    assert_eq!(rt; held.score(), Some(7));
}
