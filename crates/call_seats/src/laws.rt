//! Laws, each the contract of a function that does nothing. A caller gets the law by a call.
ghost use Rattle.std.specs.Prelude.{ℕ, List};
ghost use Rattle.call_seats.specs.declared.views.View.{View};
ghost use Rattle.call_seats.specs.Rule.{Kept, IsOrderly};

/// What the table keeps, said of its word and of the views alone.
pub fn rule_holds()
    ensures { (words : List ℕ) (views : List View) → Kept words views → IsOrderly words views }
{}
