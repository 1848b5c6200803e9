//! The lines of daemons, and daemons as a word of a line.
ghost use Rattle.std.specs.Prelude.{◌≡◌, ◌∷◌, []};
ghost use Rattle.event_text.specs.Render.{spaced};
ghost use Rattle.script_text.specs.Lines.{daemon_word, line_text};
ghost use Rattle.script_text.specs.Reading.{Reads, Lacks, IsDaemon, IsNoEvent};

use crate::lines::Line;
use hsm_types::Daemon;

/// The line that a verb and the text behind it are, which starts, kills or steps a daemon.
pub fn daemon_line(verb: &[u8], rest: &[u8]) -> Option<Line>
    requires { Lacks 32 verb.now }
    ensures { Reads line_text IsNoEvent (spaced (verb.now ∷ rest.now ∷ [])) result }
{
    let Some(daemon) = daemon_of(rest) else {
        return None;
    };
    if verb == b"start".as_slice() {
        return Some(Line::Start(daemon));
    }
    if verb == b"kill".as_slice() {
        return Some(Line::Kill(daemon));
    }
    if verb == b"step".as_slice() {
        return Some(Line::Step(daemon));
    }
    None
}

/// The daemon that a word names.
fn daemon_of(word: &[u8]) -> Option<Daemon>
    ensures { Reads daemon_word IsDaemon word.now result }
{
    if word == b"recall".as_slice() {
        return Some(Daemon::Recall);
    }
    if word == b"migrate".as_slice() {
        return Some(Daemon::Migrate);
    }
    None
}

/// The word that names a daemon.
pub fn name_of(daemon: Daemon) -> &'static [u8]
    ensures { result.now ≡ daemon_word daemon }
{
    match daemon {
        Daemon::Recall => b"recall",
        Daemon::Migrate => b"migrate",
    }
}
