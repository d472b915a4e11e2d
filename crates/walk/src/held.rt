// The best score that a search has met, by any goal.
ghost use Rattle.std.specs.Prelude.{◌≡◌, true, None};
ghost use Rattle.walk.specs.Held.{beats, offered, Still};

use goals::Goal;

// Nothing is held before the first score.
#[derive(Drop)]
pub struct Held<G: Goal> {
    score: Option<G::Score>,
}

impl<G: Goal> Held<G> {
    // Nothing is held.
    pub fn empty() -> Held<G>
        ensures nothing { result.score ≡ None }
    {
        Held { score: None }
    }

    // The score held, if any.
    pub fn score(&self) -> Option<G::Score>
        ensures value { result ≡ self.now.score }
    {
        self.score
    }

    // Whether a score is held that is no worse than `bound`.
    pub fn beats(&self, goal: &G, bound: G::Score) -> bool
        ensures value { result ≡ beats (G.Goal.no_worse goal.now) self.now.score bound }
    {
        self.score.is_some_and(|held| goal.no_worse(held, bound))
    }

    // Holds `score` from now on, unless what is held is no worse. What is held then beats `score`, and all that it beat before.
    pub fn offer(&mut self, goal: &G, score: G::Score)
        ensures value { self.new.score ≡ offered (G.Goal.no_worse goal.now) self.old.score score }
        ensures new { beats (G.Goal.no_worse goal.now) self.new.score score ≡ true }
        ensures old { Still (G.Goal.no_worse goal.now) self.old.score self.new.score }
    {
        if !self.beats(goal, score) {
            self.score = Some(score);
        }
    }
}
