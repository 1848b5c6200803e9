//! Laws over all lists, each the contract of a function that does nothing. A caller gets the law by a call.
ghost use Rattle.std.specs.Prelude.{ℕ, List};
ghost use Rattle.hsm_types.specs.declared.calls.Call.{Call};
ghost use Rattle.plain_model.specs.declared.entries.Entry.{Entry};
ghost use Rattle.call_lists.specs.Made.{CallsGrow};

/// One entry more adds its call to those of its caller, unless it was told to wait, and leaves those of each other caller.
pub fn calls_grow()
    ensures { (caller : ℕ) (history : List Entry) (entry : Entry) → CallsGrow caller history entry }
{}
