//! Laws of all scripts, each the contract of a function that does nothing. A caller gets the law by a call.
ghost use Rattle.std.specs.Prelude.{ℕ, List};
ghost use Rattle.std.specs.List.{AllByRecursion};
ghost use Rattle.script_text.specs.declared.lines.Allowed.{Allowed};
ghost use Rattle.script_text.specs.declared.lines.Line.{Line};
ghost use Rattle.script_text.specs.Lines.{IsAllowed};
ghost use Rattle.script_text.specs.Scripts.{IsScriptOf, IsScript, AreLawful};
ghost use Rattle.script_text.specs.Laws.{IsOneScriptOf, IsOneScript, FirstBadIsOneOf, FirstBadIsOne, IsOfAllowed, IsReadAgainOf, IsReadAgain};

/// The same bytes are no two scripts, bytes that are a script have no bad line, and the first bad line is one.
pub fn one_script()
    ensures script { (bytes : List ℕ) (lines : List Line) → IsScript bytes lines → IsOneScript bytes lines }
    ensures bad { (bytes : List ℕ) → FirstBadIsOne bytes }
{}

/// The same of scripts of allowed lines, which are scripts whose lines are all allowed.
pub fn one_script_of()
    ensures script { (allowed : Allowed) (bytes : List ℕ) (lines : List Line) → IsScriptOf allowed bytes lines → IsOneScriptOf allowed bytes lines }
    ensures bad { (allowed : Allowed) (bytes : List ℕ) → FirstBadIsOneOf allowed bytes }
    ensures lines { (allowed : Allowed) (bytes : List ℕ) (lines : List Line) → IsOfAllowed allowed bytes lines }
{}

/// Lawful lines are what is read from their text.
pub fn printed_is_read()
    ensures { (lines : List Line) → AreLawful lines → IsReadAgain lines }
{}

/// The same where only some lines are allowed, and these are.
pub fn printed_is_read_of()
    ensures { (allowed : Allowed) (lines : List Line) → AreLawful lines → AllByRecursion (IsAllowed allowed) lines → IsReadAgainOf allowed lines }
{}
