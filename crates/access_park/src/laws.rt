//! Laws on pending accesses, each the contract of a function that does nothing. A caller gets the law by a call.
ghost use Rattle.std.specs.Prelude.{ℕ, Option};
ghost use Rattle.access_park.specs.declared.access.Access.{Access};
ghost use Rattle.access_park.specs.Laws.{AnswersOne, CountsWaiting};

/// A response changes one access at most.
pub fn answers_one()
    ensures { (pending : ℕ → Option Access) → AnswersOne pending }
{}

/// How many callers wait after each change.
pub fn counts_waiting()
    ensures { (pending : ℕ → Option Access) → CountsWaiting pending }
{}
