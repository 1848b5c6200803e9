//! What is told of a drill's run.
ghost use Rattle.std.specs.Prelude.{◌≡◌, IfOk};
ghost use Rattle.std.specs.String.{string_bytes};
ghost use Rattle.drill_script.specs.Summary.{digest_of, summary_line};

use event_text::render;
use hsm_types::Bytes;
use plain_model::Entry;
use sha2::{Digest, Sha256};
use std::alloc::{AllocError, Global};

/// The line that tells of the drill of n how many entries its history has, the digest of its text, how many blocks are used at the end, and how many
/// segments are offline. It takes the memory of that text.
pub fn summary_text(
    alloc: Global,
    n: u64,
    history: &[Entry],
    used: u64,
    offline: u64,
) -> Result<Bytes, AllocError>
    ensures { IfOk result (λ text. text ≡ summary_line n history.now used offline) }
{
    let entries = history.len();
    let sha = digest_of(alloc, history)?;
    let text = format!(in alloc;
        "drill {n} entries={entries} sha={sha} used={used} offline={offline}\n"
    )?;
    Ok(Bytes::from(text.into_bytes()))
}

/// The digest of a history's text, in hex digits.
fn digest_of(alloc: Global, history: &[Entry]) -> Result<String, AllocError>
    ensures { IfOk result (λ sha. string_bytes sha ≡ digest_of history.now) }
{
    let transcript = render(alloc, history)?;
    hex::encode(alloc, &Sha256::digest(transcript.as_slice()))
}
