//! Which event is next.
ghost use Rattle.std.specs.Prelude.{MatchOption};
ghost use Rattle.recall_daemon.specs.Known.{ArePutOff, IsFirst};

use daemon_session::{Event, Kept};

/// Of the events that are not put off the one with the lowest token.
pub(crate) fn first_event(kept: &[Kept]) -> Option<Event>
    ensures { MatchOption result (ArePutOff kept.now) (λ e. IsFirst kept.now e) }
{
    let mut first: Option<Event> = None;
    for one in kept {
        if one.marked {
            continue;
        }
        match first {
            Some(event) if event.token.0 <= one.event.token.0 => {}
            _ => first = Some(one.event),
        }
    }
    first
}
