//! Laws on the machine's runs, each the contract of a function that does nothing. A caller gets the law by a call.
ghost use Rattle.std.specs.Prelude.{ℕ, ◌≤◌};
ghost use Rattle.hsm_types.specs.declared.daemons.Act.{Act};
ghost use Rattle.hsm_types.specs.declared.daemons.Heard.{Heard};
ghost use Rattle.hsm_types.specs.declared.keys.Sid.{Sid};
ghost use Rattle.daemon_session.specs.Seats.{IsSeated, Refuses};
ghost use Rattle.recall_daemon.specs.Bounds.{acts_left, Goes, IsAtWork, IsSound, Nears, TellsOfFew};
ghost use Rattle.recall_daemon.specs.Machine.{started, Machine, StepsOn};

/// It is sound at its start.
pub fn starts_sound()
    ensures { (most : ℕ) → IsSound most started }
{}

/// It stays sound, whatever it hears.
pub fn stays_sound()
    ensures { (most : ℕ) (old : Machine) (told : Heard) (act : Act) (new : Machine) → IsSound most old → TellsOfFew most told → StepsOn old told act new → IsSound most new }
{}

/// Where it has a session, it is at work.
pub fn works_where_seated()
    ensures { (most : ℕ) (m : Machine) (sid : Sid) → IsSound most m → IsSeated m.known.seat sid → IsAtWork most m }
{}

/// Each act on an event leaves fewer to come.
pub fn each_act_nears()
    ensures { (most : ℕ) (old : Machine) (told : Heard) (act : Act) (new : Machine) → IsAtWork most old → TellsOfFew most told → (Refuses old.asked told → ⊥) → StepsOn old told act new → Nears most old told act new }
{}

/// No more acts come behind each other than are left.
pub fn goes_no_further()
    ensures { (most n : ℕ) (m : Machine) → IsAtWork most m → Goes most n m → n ≤ acts_left most m }
{}
