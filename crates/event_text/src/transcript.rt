//! The text of a history.
ghost use Rattle.std.specs.Prelude.{◌≡◌, ◌++◌, IfOk, OnOk};
ghost use Rattle.event_text.specs.Render.{spaced, data_text, sum_text, answer_words, entry_text, text_of};

use crate::actions::{Spelling, push_event};
use crate::answers::push_answer;
use crate::pieces::{HEX_BYTES, push, push_hex, push_number};
use hsm_types::{Bytes, Verified};
use plain_model::Entry;
use sha2::{Digest, Sha256};
use std::alloc::{AllocError, Global};

/// The transcript text of a history: a line for each event.
pub fn render(alloc: Global, history: &[Entry]) -> Result<Bytes, AllocError>
    ensures { IfOk result (λ text. text ≡ text_of history.now) }
{
    let mut out = Vec::new(alloc);
    for entry in history {
        push_entry(alloc, &mut out, entry)?;
    }
    Ok(Bytes::from(out))
}

fn push_entry(alloc: Global, out: &mut Vec<u8>, entry: &Entry) -> Result<(), AllocError>
    ensures { OnOk result (out.new.items ≡ out.old.items ++ entry_text entry.now) }
{
    push_event(alloc, out, &entry.actor, &entry.action, &Digested)?;
    push(out, b" = ")?;
    push_answer(alloc, out, &entry.answer)?;
    push(out, b"\n")
}

/// Data as transcripts have them: `-`, hex digits, or a number and a digest.
pub struct Digested;

impl Spelling for Digested {
    ghost word = { λ _ bytes. data_text bytes };

    fn push_data(&self, alloc: Global, out: &mut Vec<u8>, bytes: &[u8]) -> Result<(), AllocError> {
        push_data(alloc, out, bytes)
    }

    fn push_verified(
        &self,
        alloc: Global,
        out: &mut Vec<u8>,
        bytes: &Verified,
    ) -> Result<(), AllocError> {
        let slice = bytes.as_slice();
        if slice.len() <= HEX_BYTES {
            return push_data(alloc, out, slice);
        }
        push_digest(
            alloc,
            out,
            slice.len() as u64,
            &bytes.fingerprint().digest.0,
        )
    }
}

pub(crate) fn push_data(alloc: Global, out: &mut Vec<u8>, bytes: &[u8]) -> Result<(), AllocError>
    ensures { OnOk result (out.new.items ≡ out.old.items ++ data_text bytes.now) }
{
    if bytes.is_empty() {
        return push(out, b"-");
    }
    if bytes.len() <= HEX_BYTES {
        return push_hex(alloc, out, bytes);
    }
    push_digest(alloc, out, bytes.len() as u64, &Sha256::digest(bytes))
}

fn push_digest(
    alloc: Global,
    out: &mut Vec<u8>,
    len: u64,
    digest: &[u8; 32],
) -> Result<(), AllocError>
    ensures { OnOk result (out.new.items ≡ out.old.items ++ sum_text len digest.now) }
{
    push(out, b"n=")?;
    push_number(alloc, out, len)?;
    push(out, b" sha=")?;
    push_hex(alloc, out, digest)
}
