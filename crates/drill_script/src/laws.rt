//! A law of all drills, the contract of a function that does nothing. A caller gets the law by a call.
ghost use Rattle.std.specs.Prelude.{ℕ};
ghost use Rattle.script_text.specs.Scripts.{AreLawful};
ghost use Rattle.drill_script.specs.Drill.{drill_lines};

/// The lines of each drill are those of a script.
pub fn drill_is_lawful()
    ensures { (n : ℕ) → AreLawful (drill_lines n) }
{}
