//! From bytes to lines.
ghost use Rattle.std.specs.Prelude.{◌≡◌, ◌≤◌, ◌+◌, ◌*◌, ◌<◌, ◌∷◌, ◌↔◌, length, sum_by, MatchResult, IfOk, OnOk, IsTrue};
ghost use Rattle.script_text.specs.Lines.{IsCall, IsAllowed, access_length};
ghost use Rattle.script_text.specs.Scripts.{texts_of, IsScriptOf, IsScript, IsFirstBadOf, Tells};
ghost use Rattle.script_text.specs.Reading.{GoesOnAs};

use crate::events::line;
use crate::lines::{Allowed, Line, Script};
use crate::words::{are_within, cut_line};
use call_forms::{call_access, dm_access};
use plain_model::{Action, Actor};
use std::alloc::{AllocError, Global};
use thiserror::Error;

/// The bytes of the longest line, without its newline.
const LINE_BYTES: usize = 4096;

/// The lines of the longest script.
const SCRIPT_LINES: usize = 100000;

/// The bytes of the longest script: its lines, with a newline each.
pub const LONGEST_SCRIPT: usize = SCRIPT_LINES * (LINE_BYTES + 1);

/// The most bytes that the accesses of a script may have together.
const SCRIPT_ACCESS_BYTES: u64 = 536870912;

/// Why bytes are no script.
#[derive(Clone, Copy, Debug, PartialEq, Eq, Error)]
pub enum ParseRefusal {
    /// The first line, from 1, that is none, isn't allowed or passes a limit.
    #[error("script refused at line {line}")]
    BadLine { line: u64 },
    #[error("no memory")]
    Memory,
}

/// Reads a script.
pub fn parse(alloc: Global, bytes: &[u8]) -> Result<Script, ParseRefusal>
    ensures exact { MatchResult result (λ script. IsScript bytes.now script) (λ why. Tells Allowed.All bytes.now why) }
    ensures short { OnOk result (length bytes.now ≤ LONGEST_SCRIPT) }
{
    parse_allowed(alloc, bytes, Allowed::All)
}

/// Reads a script of allowed lines. A line that isn't allowed is told as a text is that is no line. No command asks for less than all lines yet: one whose
/// callers run side by side will.
pub fn parse_allowed(alloc: Global, bytes: &[u8], allowed: Allowed) -> Result<Script, ParseRefusal>
    ensures exact { MatchResult result (λ script. IsScriptOf allowed bytes.now script) (λ why. Tells allowed bytes.now why) }
    ensures short { OnOk result (length bytes.now ≤ LONGEST_SCRIPT) }
{
    match lines(alloc, bytes, allowed) {
        Ok(Ok(lines)) => Ok(Script::new(lines)),
        Ok(Err(line)) => Err(ParseRefusal::BadLine { line }),
        Err(_) => Err(ParseRefusal::Memory),
    }
}

/// The lines, or the number of the first bad one.
fn lines(
    alloc: Global,
    bytes: &[u8],
    allowed: Allowed,
) -> Result<Result<Vec<Line>, u64>, AllocError>
    ensures exact { IfOk result (λ read. MatchResult read (λ lines. IsScriptOf allowed bytes.now lines.items) (λ n. IsFirstBadOf allowed bytes.now n)) }
    ensures short { IfOk result (λ read. OnOk read (length bytes.now ≤ LONGEST_SCRIPT)) }
{
    let mut lines = Vec::new(alloc);
    let mut total = 0;
    let mut rest = bytes;
    while !rest.is_empty() {
        let (text, more) = first_text(rest);
        let Some(line) = next_line(alloc, lines.as_slice(), total, text, allowed)? else {
            return Ok(Err(lines.len() as u64 + 1));
        };
        total += access_bytes(&line);
        lines.push(line)?;
        rest = more;
    }
    Ok(Ok(lines))
}

/// The text of the first line, and the bytes behind its newline.
fn first_text(bytes: &[u8]) -> (&[u8], &[u8])
    requires { 0 < length bytes.now }
    ensures texts { texts_of bytes.now ≡ result.0.now ∷ texts_of result.1.now }
    ensures less { length result.1.now < length bytes.now }
    ensures whole { length bytes.now ≤ length result.0.now + 1 + length result.1.now }
{
    match cut_line(bytes) {
        Some((text, more)) => (text, more),
        None => (bytes, &bytes[bytes.len()..]),
    }
}

/// The allowed line that goes on, after lines whose accesses have `total` bytes together.
fn next_line(
    alloc: Global,
    before: &[Line],
    total: u64,
    text: &[u8],
    allowed: Allowed,
) -> Result<Option<Line>, AllocError>
    requires { total ≡ sum_by access_length before.now }
    ensures { IfOk result (λ read. GoesOnAs allowed before.now text.now read) }
{
    if text.len() > LINE_BYTES || before.len() >= SCRIPT_LINES {
        return Ok(None);
    }
    let Some(line) = line(alloc, text)? else {
        return Ok(None);
    };
    if !is_allowed(allowed, &line) {
        return Ok(None);
    }
    if !are_within(total, access_bytes(&line), SCRIPT_ACCESS_BYTES) {
        return Ok(None);
    }
    Ok(Some(line))
}

/// Whether a command takes the line.
fn is_allowed(allowed: Allowed, line: &Line) -> bool
    ensures { IsTrue result ↔ IsAllowed allowed line.now }
{
    match allowed {
        Allowed::All => true,
        Allowed::Calls => is_call(line),
    }
}

/// Whether the line is a call that a caller issues.
fn is_call(line: &Line) -> bool
    ensures { IsTrue result ↔ IsCall line.now }
{
    let Line::Event { actor, action, .. } = line else {
        return false;
    };
    matches!(actor, Actor::Caller(_)) && matches!(action, Action::Issue(_))
}

/// The bytes that a line brings or may fetch.
fn access_bytes(line: &Line) -> u64
    ensures { result ≡ access_length line.now }
{
    let Line::Event { action, .. } = line else {
        return 0;
    };
    match action {
        Action::Issue(call) => call_access(call),
        Action::Dm(call) => dm_access(call),
        Action::Resume | Action::Commit => 0,
    }
}
