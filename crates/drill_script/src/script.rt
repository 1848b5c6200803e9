//! The script of a drill.
ghost use Rattle.std.specs.Prelude.{◌≡◌, ◌++◌, IfOk, OnOk};
ghost use Rattle.drill_script.specs.Drill.{create_lines, turn_lines, drill_lines};

use crate::draws::{Draws, FILES};
use crate::lines::{create_line, turn_line};
use hsm_types::Daemon;
use script_text::{Line, Script};
use std::alloc::{AllocError, Global};

/// How many turns there are.
const TURNS: u64 = 600;

/// The script that the drill of a number is. It has at most twenty million bytes of data.
pub fn drill_script(alloc: Global, n: u64) -> Result<Script, AllocError>
    ensures { IfOk result (λ script. script ≡ drill_lines n) }
{
    let mut lines = Vec::new(alloc);
    lines.push(Line::Start(Daemon::Recall))?;
    lines.push(Line::Start(Daemon::Migrate))?;
    push_creates(alloc, &mut lines, FILES)?;
    push_turns(alloc, &mut lines, TURNS, Draws::new(n))?;
    Ok(Script::new(lines))
}

/// Creates the first files.
fn push_creates(alloc: Global, lines: &mut Vec<Line>, count: u64) -> Result<(), AllocError>
    ensures { OnOk result (lines.new.items ≡ lines.old.items ++ create_lines count) }
{
    for file in 0..count {
        lines.push(create_line(alloc, file)?)?;
    }
    Ok(())
}

/// Takes that many turns.
fn push_turns(
    alloc: Global,
    lines: &mut Vec<Line>,
    count: u64,
    draws: Draws,
) -> Result<(), AllocError>
    ensures { OnOk result (lines.new.items ≡ lines.old.items ++ turn_lines count draws.x) }
{
    let mut draws = draws;
    for _ in 0..count {
        let turn = draws.turn();
        lines.push(turn_line(alloc, turn)?)?;
        lines.push(Line::Settle)?;
    }
    Ok(())
}
