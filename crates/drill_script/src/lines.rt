//! The lines of a drill.
ghost use Rattle.std.specs.Prelude.{◌≡◌, ◌≤◌, IfOk};
ghost use Rattle.drill_script.specs.Drill.{file_name, line_of, create_line, write_line, read_line, truncate_line, turn_line};

use crate::draws::Turn;
use hsm_types::{Call, CallerId, Word};
use plain_model::{Action, Actor};
use script_text::{Line, PATTERN_BYTES, pattern_bytes};
use std::alloc::{AllocError, Global};

/// The bytes of a write.
const WRITE_BYTES: u64 = 32768;

/// The bytes of a read.
const READ_BYTES: u64 = 4096;

/// The line that creates a file.
pub fn create_line(alloc: Global, file: u64) -> Result<Line, AllocError>
    ensures { IfOk result (λ line. line ≡ create_line file) }
{
    let name = file_name(alloc, file)?;
    Ok(line_of(Call::Create { name }, None))
}

/// The first line of a turn.
#[tactic(auto, unfolding(crate::specs::Drill::turn_line))]
pub fn turn_line(alloc: Global, turn: Turn) -> Result<Line, AllocError>
    ensures { IfOk result (λ line. line ≡ turn_line turn) }
{
    match turn.action {
        0..=4 => write_line(alloc, WRITE_BYTES, turn),
        5..=8 => read_line(alloc, turn),
        _ => truncate_line(alloc, turn),
    }
}

#[tactic(auto, unfolding(crate::specs::Drill::write_line))]
fn write_line(alloc: Global, len: u64, turn: Turn) -> Result<Line, AllocError>
    requires { len ≤ PATTERN_BYTES }
    ensures { IfOk result (λ line. line ≡ write_line len turn) }
{
    let call = Call::Write {
        name: file_name(alloc, turn.file)?,
        offset: turn.offset,
        body: pattern_bytes(alloc, len, turn.seed)?,
    };
    Ok(line_of(call, Some(turn.seed)))
}

fn read_line(alloc: Global, turn: Turn) -> Result<Line, AllocError>
    ensures { IfOk result (λ line. line ≡ read_line turn) }
{
    let call = Call::Read {
        name: file_name(alloc, turn.file)?,
        offset: turn.offset,
        len: READ_BYTES,
    };
    Ok(line_of(call, None))
}

fn truncate_line(alloc: Global, turn: Turn) -> Result<Line, AllocError>
    ensures { IfOk result (λ line. line ≡ truncate_line turn) }
{
    let call = Call::Truncate {
        name: file_name(alloc, turn.file)?,
        size: turn.offset,
    };
    Ok(line_of(call, None))
}

fn file_name(alloc: Global, file: u64) -> Result<Word, AllocError>
    ensures { IfOk result (λ name. name ≡ file_name file) }
{
    let name = format!(in alloc; "f{file}")?;
    Ok(Word::from(name.into_bytes()))
}

/// A call of the first caller, and the seed of its data if they are given by one.
fn line_of(call: Call, seed: Option<u8>) -> Line
    ensures { result ≡ line_of call seed }
{
    Line::Event {
        actor: Actor::Caller(first_caller()),
        action: Action::Issue(call),
        seed,
    }
}

fn first_caller() -> CallerId
    ensures { result ≡ 1 }
{
    CallerId::new(1).unwrap()
}
