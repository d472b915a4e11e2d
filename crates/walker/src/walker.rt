// The walk as far as it has come.
ghost use Rattle.std.specs.Prelude.{◌≡◌, ◌+◌, ◌^◌, ◌<◌, ◌≤◌, length};
ghost use Rattle.std.specs.Option.{ForSome};
ghost use Rattle.walk.specs.Held.{beats};
ghost use Rattle.plans.specs.Meanings.{hours_of, goal_of};
ghost use Rattle.walker.specs.Visits.{WalkerOk, held_in, score_held, stage_of, stage_left, visit_once, visits_of};
ghost use Rattle.walker.specs.Answers.{outcome_in, written_by};

use crate::setting::Setting;
use crate::trail::{MOST_ROWS, Trail};
use goals::Goal;
use hours::Hours;
use plans::answer::Outcome;
use plans::row::Row;
use short::Short;

// The rows of a plan, and its score.
#[derive(Clone, Copy)]
pub struct ScoredPlan<S> {
    pub score: S,
    pub rows: Short<Row, MOST_ROWS>,
}

// The trail to the next position, the best plan so far, and the visits made. What is kept of it (`WalkerOk`) is about the
// vehicles too, which it does not hold: the search, which holds both, is to keep it.
#[derive(Clone, Copy)]
pub struct Walker<S> {
    pub trail: Trail,
    pub best: Option<ScoredPlan<S>>,
    pub visits: u64,
}

impl<S: Copy> Walker<S> {
    // Whether a plan is held whose score is no worse than `bound`: as `Held::beats` of `walk`, but of a plan, which has its
    // rows beside its score.
    fn beats<G: Goal<Score = S>>(&self, goal: &G, bound: S) -> bool
        ensures value { result ≡ beats (G.Goal.no_worse goal.now) (score_held (held_in self.now)) bound }
    {
        self.best
            .as_ref()
            .is_some_and(|plan| goal.no_worse(plan.score, bound))
    }

    // Drops the top position, holds its rows as the best plan, or makes its children due.
    fn decide<H: Hours, G: Goal<Score = S>>(&mut self, by: &Setting<H, G>)
        requires ok { WalkerOk by.now.fleet.now self.old }
        requires some { 0 < length self.old.trail.frames.items }
        requires room { self.old.visits + 1 < 2 ^ 64 }
        ensures ok { WalkerOk by.now.fleet.now self.new }
        ensures steps { self.new.trail.steps ≡ self.old.trail.steps }
        ensures count { self.new.visits ≡ self.old.visits + 1 }
        ensures step { stage_left (hours_of (H.Hours.permits by.now.hours.now)) by.now.fleet.now self.new
            ≡ visit_once (hours_of (H.Hours.permits by.now.hours.now))
            (goal_of (G.Goal.starting by.now.goal.now) (G.Goal.adding by.now.goal.now) (G.Goal.no_worse by.now.goal.now))
            by.now.fleet.now (stage_of (hours_of (H.Hours.permits by.now.hours.now)) by.now.fleet.now self.old) }
    {
        let bound = self.trail.top().at.bound(by);
        self.visits += 1;
        if self.beats(by.goal, bound) {
            self.trail.pop();
            return;
        }
        if self.trail.path.as_slice().len() < self.trail.steps {
            self.trail.open();
            return;
        }
        self.best = Some(ScoredPlan {
            score: bound,
            rows: self.trail.path,
        });
        self.trail.pop();
    }

    // Visits the top position; afterwards the next due position is on top.
    fn visit<H: Hours, G: Goal<Score = S>>(&mut self, by: &Setting<H, G>)
        requires ok { WalkerOk by.now.fleet.now self.old }
        requires some { 0 < length self.old.trail.frames.items }
        requires room { self.old.visits + 1 < 2 ^ 64 }
        ensures ok { WalkerOk by.now.fleet.now self.new }
        ensures steps { self.new.trail.steps ≡ self.old.trail.steps }
        ensures count { self.new.visits ≡ self.old.visits + 1 }
        ensures step { stage_of (hours_of (H.Hours.permits by.now.hours.now)) by.now.fleet.now self.new
            ≡ visit_once (hours_of (H.Hours.permits by.now.hours.now))
            (goal_of (G.Goal.starting by.now.goal.now) (G.Goal.adding by.now.goal.now) (G.Goal.no_worse by.now.goal.now))
            by.now.fleet.now (stage_of (hours_of (H.Hours.permits by.now.hours.now)) by.now.fleet.now self.old) }
    {
        self.decide(by);
        self.trail.settle(by);
    }

    // At most `budget` visits more.
    pub fn go_on<H: Hours, G: Goal<Score = S>>(&mut self, by: &Setting<H, G>, budget: u64)
        requires ok { WalkerOk by.now.fleet.now self.old }
        requires room { self.old.visits + budget < 2 ^ 64 }
        ensures ok { WalkerOk by.now.fleet.now self.new }
        ensures steps { self.new.trail.steps ≡ self.old.trail.steps }
        ensures count { self.new.visits ≤ self.old.visits + budget }
        ensures walk { stage_of (hours_of (H.Hours.permits by.now.hours.now)) by.now.fleet.now self.new
            ≡ visits_of (hours_of (H.Hours.permits by.now.hours.now))
            (goal_of (G.Goal.starting by.now.goal.now) (G.Goal.adding by.now.goal.now) (G.Goal.no_worse by.now.goal.now))
            by.now.fleet.now budget (stage_of (hours_of (H.Hours.permits by.now.hours.now)) by.now.fleet.now self.old) }
    {
        for _ in 0..budget {
            if self.trail.frames.as_slice().is_empty() {
                return;
            }
            self.visit(by);
        }
    }

    // How the walk stands: ended where nothing is due, and with a plan where one is held.
    pub fn outcome(&self) -> Outcome<S>
        ensures value { result ≡ outcome_in self.now }
    {
        let ended = self.trail.frames.as_slice().is_empty();
        match &self.best {
            Some(plan) if ended => Outcome::Best(plan.score),
            Some(plan) => Outcome::UnfinishedWith(plan.score),
            None if ended => Outcome::NoPlan,
            None => Outcome::UnfinishedWithout,
        }
    }

    // Writes the rows of the plan held in front, where there is one, and leaves the others.
    pub fn write(&self, rows: &mut [Row])
        requires fits { ForSome self.now.best (λ p. length p.rows.items ≤ self.now.trail.steps) }
        requires room { self.now.trail.steps ≤ length rows.old }
        ensures written { rows.new ≡ written_by (held_in self.now) rows.old }
    {
        if let Some(plan) = &self.best {
            let held = plan.rows.as_slice();
            rows[..held.len()].copy_from_slice(held);
        }
    }
}
