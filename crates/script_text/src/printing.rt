//! From lines to bytes.
ghost use Rattle.std.specs.Prelude.{◌≡◌, ◌∷◌, ◌++◌, [], IfOk, OnOk, codes};
ghost use Rattle.std.specs.Fmt.{decimal};
ghost use Rattle.hex.specs.Hex.{encode_lower};
ghost use Rattle.script_text.specs.Lines.{coloned, daemon_word, data_word, line_text};
ghost use Rattle.script_text.specs.Scripts.{script_text, IsScript};

use crate::daemons::name_of;
use crate::lines::{Line, Script};
use event_text::{Spelling, push_event};
use hsm_types::{Bytes, Daemon, Verified};
use std::alloc::{AllocError, Global};

/// The text of a script: that of each line, with a newline behind it.
pub fn print(alloc: Global, script: &Script) -> Result<Bytes, AllocError>
    ensures text { IfOk result (λ text. text ≡ script_text script.now) }
    ensures script { IfOk result (λ text. IsScript text script.now) }
{
    let text = text_of(alloc, script.as_slice())?;
    Ok(Bytes::from(text))
}

fn text_of(alloc: Global, lines: &[Line]) -> Result<Vec<u8>, AllocError>
    ensures { IfOk result (λ text. text.items ≡ script_text lines.now) }
{
    let mut out = Vec::new(alloc);
    for line in lines {
        push_line(alloc, &mut out, line)?;
    }
    Ok(out)
}

fn push_line(alloc: Global, out: &mut Vec<u8>, line: &Line) -> Result<(), AllocError>
    ensures { OnOk result (out.new.items ≡ out.old.items ++ line_text line.now ++ 10 ∷ []) }
{
    match line {
        Line::Event {
            actor,
            action,
            seed,
        } => push_event(alloc, out, actor, action, &Given { seed: *seed })?,
        Line::Start(daemon) => push_verb(out, b"start ", *daemon)?,
        Line::Kill(daemon) => push_verb(out, b"kill ", *daemon)?,
        Line::Step(daemon) => push_verb(out, b"step ", *daemon)?,
        Line::Settle => push(out, b"settle")?,
    }
    push(out, b"\n")
}

/// The verb of a line of a daemon with the space behind it, and the daemon.
fn push_verb(out: &mut Vec<u8>, verb: &[u8], daemon: Daemon) -> Result<(), AllocError>
    ensures { OnOk result (out.new.items ≡ out.old.items ++ verb.now ++ daemon_word daemon) }
{
    push(out, verb)?;
    push(out, name_of(daemon))
}

/// Data as scripts have them: as hex digits, or, where they were given by a seed, by it.
#[derive(Drop)]
struct Given {
    seed: Option<u8>,
}

impl Spelling for Given {
    ghost word = { λ given bytes. data_word given.seed bytes };

    fn push_data(&self, alloc: Global, out: &mut Vec<u8>, bytes: &[u8]) -> Result<(), AllocError> {
        match self.seed {
            Some(seed) => push_pattern(alloc, out, bytes.len() as u64, seed),
            None => push_hex(alloc, out, bytes),
        }
    }

    fn push_verified(
        &self,
        alloc: Global,
        out: &mut Vec<u8>,
        bytes: &Verified,
    ) -> Result<(), AllocError> {
        self.push_data(alloc, out, bytes.as_slice())
    }
}

fn push_pattern(alloc: Global, out: &mut Vec<u8>, len: u64, seed: u8) -> Result<(), AllocError>
    ensures { OnOk result (out.new.items ≡ out.old.items ++ coloned (codes "p" ∷ decimal len ∷ decimal seed ∷ [])) }
{
    let text = format!(in alloc; "p:{len}:{seed}")?;
    push(out, text.as_bytes())
}

fn push_hex(alloc: Global, out: &mut Vec<u8>, bytes: &[u8]) -> Result<(), AllocError>
    ensures { OnOk result (out.new.items ≡ out.old.items ++ coloned (codes "x" ∷ encode_lower bytes.now ∷ [])) }
{
    push(out, b"x:")?;
    let digits = hex::encode(alloc, bytes)?;
    push(out, digits.as_bytes())
}

fn push(out: &mut Vec<u8>, bytes: &[u8]) -> Result<(), AllocError>
    ensures { OnOk result (out.new.items ≡ out.old.items ++ bytes.now) }
{
    out.extend_from_slice(bytes)?;
    Ok(())
}
