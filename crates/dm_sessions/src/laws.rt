//! Laws on tables of sessions, each the contract of a function that does nothing. A caller gets the law by a call.
ghost use Rattle.std.specs.Prelude.{◌<◌};
ghost use Rattle.hsm_types.specs.Sessions.{SessionTable, Ascend};
ghost use Rattle.hsm_types.specs.declared.keys.Token.{Token};
ghost use Rattle.dm_sessions.specs.Laws.{StandsOnce};

/// At how many places a token stands after each call.
pub fn stands_once()
    ensures { (t : SessionTable) (u : Token) → Ascend 0 t.given t.live → 0 < u.0 → StandsOnce t u }
{}
