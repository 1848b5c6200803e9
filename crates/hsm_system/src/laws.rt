//! Laws over all systems, each the contract of a function that does nothing. A caller gets the law by a call.
ghost use Rattle.std.specs.Prelude.{◌++◌, [], List};
ghost use Rattle.deeds.specs.Deeds.{Deed};
ghost use Rattle.hsm_system.specs.Goes.{Goes, Holds};
ghost use Rattle.hsm_system.specs.Systems.{System};

use disk_model::Disk;

/// Deeds that lead from one system to another, and those that lead on from there, lead from the first to the last. No deed leads nowhere else.
pub fn goes_on<D: Disk>()
    ensures itself { (s : System D) → Goes [] s s }
    ensures then { (deeds more : List Deed) (a b c : System D) → Goes deeds a b → Goes more b c → Goes (deeds ++ more) a c }
{}

/// What holds of a system behind deeds holds behind those that are done next.
pub fn holds_on<D: Disk>()
    ensures { (deeds more : List Deed) (old new : System D) → Holds deeds old → Goes more old new → Holds (deeds ++ more) new }
{}
