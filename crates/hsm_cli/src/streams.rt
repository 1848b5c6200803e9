//! Whole inputs and outputs over sources and sinks.
ghost use Rattle.std.specs.Prelude.{◌≡◌, ◌<◌, ◌≤◌, ◌++◌, ◌⊎◌, take, length, ℕ, [], IfOk, IfSome, OnOk, OnErr, IsErrOf, IfErr};
ghost use Rattle.std.specs.Io.KnownBytes.{Consumes, Appends, IsAtEnd};
ghost use Rattle.disk_model.specs.Calls.{Rose};
ghost use Rattle.hsm_cli.specs.Sources.{script_bytes, ReadsMore, GivesMore, GivesFirst};
ghost use Rattle.hsm_cli.specs.Texts.{TakesText};
ghost use Rattle.hsm_cli.specs.RunObjects.{FailsOnce, sink_told};
ghost use Rattle.hsm_cli.specs.Endings.{cause_in, WritingEnds};

use crate::causes::Cause;
use hosts::{Failed, Sink, Source};
use script_text::LONGEST_SCRIPT;
use std::alloc::Global;

/// One byte more than any script has.
const MOST_READ: usize = LONGEST_SCRIPT + 1;

/// How much is asked of a source at a time.
const PIECE_BYTES: usize = 16384;

/// Reads a source to its end, or as far as a script may go. It is refused `ReadFault` or `NoMemory`, and has no fault but the one that it tells.
pub fn read_all<I: Source>(alloc: Global, source: &mut I) -> Result<Vec<u8>, Cause>
    ensures bytes { IfOk result (λ bytes. IfSome (I.left source.old) (λ all. bytes.items ≡ script_bytes all)) }
    ensures ended { IfOk result (λ bytes. length bytes.items ≤ LONGEST_SCRIPT → IsAtEnd (I.left source.new)) }
    ensures taken { IfOk result (λ bytes. Consumes (I.left source.old) (I.left source.new) bytes.items) }
    ensures part { GivesFirst (I.left source.old) (I.left source.new) }
    ensures causes { IfErr result (λ why. (why ≡ Cause.ReadFault) ⊎ (why ≡ Cause.NoMemory)) }
    ensures fault { IsErrOf result Cause.ReadFault → Rose (I.fault_count source.old) (I.fault_count source.new) }
    ensures quiet { (IsErrOf result Cause.ReadFault → ⊥) → I.fault_count source.new ≡ I.fault_count source.old }
    ensures once { FailsOnce (I.fault_count source.old) (I.fault_count source.new) }
{
    let mut bytes = Vec::new(alloc);
    while bytes.len() < MOST_READ {
        let count = read_some(source, &mut bytes)?;
        if count == 0 {
            return Ok(bytes);
        }
    }
    Ok(bytes)
}

/// Reads one piece more, and says how long it is.
fn read_some<I: Source>(source: &mut I, bytes: &mut Vec<u8>) -> Result<usize, Cause>
    requires { length bytes.old.items < MOST_READ }
    ensures more { IfOk result (λ n. ReadsMore (I.left source.old) (I.left source.new) bytes.old.items bytes.new.items n) }
    ensures taken { OnErr result (GivesMore (I.left source.old) (I.left source.new) bytes.old.items) }
    ensures causes { IfErr result (λ why. (why ≡ Cause.ReadFault) ⊎ (why ≡ Cause.NoMemory)) }
    ensures fault { IsErrOf result Cause.ReadFault → Rose (I.fault_count source.old) (I.fault_count source.new) }
    ensures quiet { (IsErrOf result Cause.ReadFault → ⊥) → I.fault_count source.new ≡ I.fault_count source.old }
    ensures once { FailsOnce (I.fault_count source.old) (I.fault_count source.new) }
{
    let mut piece = [0u8; PIECE_BYTES];
    let room = PIECE_BYTES.min(MOST_READ - bytes.len());
    match source.read(&mut piece[..room]) {
        Ok(count) => {
            push(bytes, &piece[..count])?;
            Ok(count)
        }
        Err(Failed) => Err(Cause::ReadFault),
    }
}

fn push(bytes: &mut Vec<u8>, more: &[u8]) -> Result<(), Cause>
    ensures ok { OnOk result (bytes.new.items ≡ bytes.old.items ++ more.now) }
    ensures err { IfErr result (λ why. why ≡ Cause.NoMemory) }
{
    match bytes.extend_from_slice(more) {
        Ok(()) => Ok(()),
        Err(_) => Err(Cause::NoMemory),
    }
}

/// Writes all the bytes. At an `Err` the sink took the first ones, and else it had no fault.
pub fn write_all<O: Sink>(sink: &mut O, bytes: &[u8]) -> Result<(), Failed>
    ensures first { (n : ℕ) × Appends (O.taken sink.old) (O.taken sink.new) (take n bytes.now) }
    ensures all { OnOk result (Appends (O.taken sink.old) (O.taken sink.new) bytes.now) }
    ensures fault { OnErr result (Rose (O.fault_count sink.old) (O.fault_count sink.new)) }
    ensures quiet { OnOk result (O.fault_count sink.new ≡ O.fault_count sink.old) }
    ensures once { FailsOnce (O.fault_count sink.old) (O.fault_count sink.new) }
    ensures idle { bytes.now ≡ [] → sink.new ≡ sink.old }
{
    let mut done = 0;
    while done < bytes.len() {
        let count = sink.write(&bytes[done..])?;
        if count == 0 {
            return Err(Failed);
        }
        done += count;
    }
    Ok(())
}

/// Writes a text. It is refused `WriteFault`, and then the sink took the first bytes.
pub(crate) fn write_text<O: Sink>(sink: &mut O, text: &[u8]) -> Result<(), Cause>
    ensures took { TakesText (λ bytes. bytes ≡ text.now) (sink_told O.taken O.fault_count sink.old sink.new) (cause_in result) }
    ensures ends { IfErr result (WritingEnds (sink_told O.taken O.fault_count sink.old sink.new)) }
    ensures once { FailsOnce (O.fault_count sink.old) (O.fault_count sink.new) }
{
    match write_all(sink, text) {
        Ok(()) => Ok(()),
        Err(Failed) => Err(Cause::WriteFault),
    }
}
