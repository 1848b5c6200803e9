//! Laws on the machine, each the contract of a function that does nothing. A caller gets the law by a call.
ghost use Rattle.std.specs.Prelude.{◌≡◌, ◌<◌};
ghost use Rattle.hsm_types.specs.declared.daemons.Act.{Act};
ghost use Rattle.hsm_types.specs.declared.daemons.Act.TheVariants.{Dm};
ghost use Rattle.hsm_types.specs.declared.daemons.Heard.{Heard};
ghost use Rattle.hsm_types.specs.declared.dm.DmCall.TheVariants.{GetTable};
ghost use Rattle.hsm_types.specs.declared.keys.Sid.{Sid};
ghost use Rattle.hsm_policy.specs.declared.picking.Picked.{Picked};
ghost use Rattle.migrate_daemon.specs.Bounds.{IsPassing, SaysSomething, acts_left, most_acts};
ghost use Rattle.migrate_daemon.specs.Machine.{StepsOn, IsOfPass, IsTable, Machine};

/// A pass begins with an act on a segment, and from there on has fewer acts than its picks and volumes allow.
pub fn pass_begins()
    ensures { (old new : Machine) (sid : Sid) (told : Heard) (act : Act) → 0 < old.limits.volumes → old.asked ≡ Dm sid GetTable → IsTable told → StepsOn old told act new → IsOfPass act → ((p : Picked) × IsPassing new p) × (acts_left new < most_acts new.limits.volumes new.pass.picks) }
{}

/// With each answer that says something a pass comes nearer to its end, as long as it goes on.
pub fn pass_comes_nearer()
    ensures { (old new : Machine) (p : Picked) (told : Heard) (act : Act) → IsPassing old p → StepsOn old told act new → IsOfPass act → ((q : Picked) × IsPassing new q) × (SaysSomething old p told → acts_left new < acts_left old) }
{}
