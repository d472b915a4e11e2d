// What a search for a plan answers, and why it refuses.
ghost use Rattle.std.specs.Prelude.{◌≡◌};
ghost use Rattle.plans.specs.Outcomes.{number_of, score_in, refusal_of};

// How the search stands: ended with a best plan or without any plan, or not ended, with a plan so far or without one. Each
// of the four has a number of its own, so it is an enum of four cases and no flag with an `Option` beside it.
#[derive(Clone, Copy, Debug, PartialEq, Eq)]
pub enum Outcome<S> {
    Best(S),
    NoPlan,
    UnfinishedWith(S),
    UnfinishedWithout,
}

impl<S: Copy> Outcome<S> {
    // The outcome's number, 1 to 4. The rules number the outcomes, and beside a case that holds a score no case can have a
    // discriminant.
    pub fn number(&self) -> u32
        ensures number { result ≡ number_of self.now }
    {
        match self {
            Outcome::Best(_) => 1,
            Outcome::NoPlan => 2,
            Outcome::UnfinishedWith(_) => 3,
            Outcome::UnfinishedWithout => 4,
        }
    }

    // The score of the plan held, where one is.
    pub fn score(&self) -> Option<S>
        ensures held { result ≡ score_in self.now }
    {
        match self {
            Outcome::Best(score) | Outcome::UnfinishedWith(score) => Some(*score),
            Outcome::NoPlan | Outcome::UnfinishedWithout => None,
        }
    }
}

#[derive(Clone, Copy, Debug, PartialEq, Eq)]
pub struct Answer<S> {
    pub outcome: Outcome<S>,
    pub visits: u64,
}

// Why a search is not gone on with, or its plan not written: each case has the refusal's number.
#[derive(Clone, Copy, Debug, PartialEq, Eq)]
pub enum PlanFault {
    BudgetTooLarge = 30,
    RowsTooShort = 31,
}

impl PlanFault {
    // The refusal's number.
    pub fn refusal(&self) -> u32
        ensures number { result ≡ refusal_of self.now }
    {
        *self as u32
    }
}
