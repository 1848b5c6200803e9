//! The events that a daemon keeps, as a list.
ghost use Rattle.std.specs.Prelude.{◌≡◌, ◌++◌, IfOk, OnOk, OnErr};
ghost use Rattle.event_msgs.specs.Views.{seen};
ghost use Rattle.daemon_session.specs.Tellings.{events_in};
ghost use Rattle.daemon_session.specs.Keeping.{own_shown};
ghost use Rattle.daemon_session.specs.Seats.{forgot, marked_at, all_marked};

use crate::events::{Event, Kept};
use dm_handles::reads_back;
use event_msgs::{View, messages};
use hsm_types::{Daemon, HANDLE_BYTES, Handle, Token};
use std::alloc::{AllocError, Global};

/// Forgets the events of that token.
pub(crate) fn forget(kept: &mut Vec<Kept>, token: Token)
    ensures { kept.new.items ≡ forgot token kept.old.items }
{
    kept.retain(|one| one.event.token != token);
}

/// Marks the events of that token.
pub(crate) fn mark(kept: &mut [Kept], token: Token)
    ensures { kept.new ≡ marked_at token kept.old }
{
    for one in kept.iter_mut() {
        if one.event.token == token {
            one.marked = true;
        }
    }
}

/// Marks all events, or none.
pub(crate) fn mark_all(kept: &mut [Kept], marked: bool)
    ensures { kept.new ≡ all_marked marked kept.old }
{
    for one in kept.iter_mut() {
        one.marked = marked;
    }
}

fn own_event(daemon: Daemon, view: &View<'_>) -> Option<Kept>
    ensures { result ≡ own_shown daemon (seen view.now) }
{
    if !daemon.kinds().takes(view.kind) || view.handle.len() != HANDLE_BYTES {
        return None;
    }
    reads_back();
    Some(Kept {
        event: Event {
            token: view.token,
            kind: view.kind,
            handle: Handle::from_slice(view.handle),
            offset: view.offset,
            length: view.length,
        },
        marked: false,
    })
}

/// The events that a buffer of messages tells the daemon.
fn events_in(alloc: Global, daemon: Daemon, buffer: &[u8]) -> Result<Vec<Kept>, AllocError>
    ensures { IfOk result (λ v. v.items ≡ events_in daemon buffer.now) }
{
    reads_back();
    messages(buffer)
        .filter_map(|view| own_event(daemon, &view))
        .collect(alloc)
}

/// Keeps them behind the others. An error changes nothing.
pub(crate) fn keep(
    alloc: Global,
    kept: &mut Vec<Kept>,
    daemon: Daemon,
    buffer: &[u8],
) -> Result<(), AllocError>
    ensures ok { OnOk result (kept.new.items ≡ kept.old.items ++ events_in daemon buffer.now) }
    ensures err { OnErr result (kept.new.items ≡ kept.old.items) }
{
    let told = events_in(alloc, daemon, buffer)?;
    kept.extend_from_slice(&told)
}
