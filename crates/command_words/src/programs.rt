//! The programs as `clap` reads them: each is a subcommand with positional words alone.
ghost use Rattle.std.specs.Prelude.{◌≡◌, IfOk};
ghost use Rattle.clap.specs.Words.{app_of, new_rule, Shape, with_subcommand};
ghost use Rattle.command_words.specs.Programs.{IsProgram, IsWord, all_programs, drill_program, format_program, no_programs};
ghost use Rattle.command_words.specs.Programs.{replay_program, required_word, show_program, with_runs, with_stores};

use clap::{Arg, Command};
use std::alloc::{AllocError, Global};

/// All programs.
pub fn all_programs<'a>(alloc: Global) -> Result<Command<'a>, AllocError>
    ensures { IfOk result (λ c. app_of c ≡ all_programs) }
{
    let programs = with_stores(alloc, no_programs(alloc))?;
    with_runs(alloc, programs)
}

/// Adds the programs that make a store and show one.
fn with_stores<'a>(alloc: Global, programs: Command<'a>) -> Result<Command<'a>, AllocError>
    ensures { IfOk result (λ c. app_of c ≡ with_stores (app_of programs.entry)) }
{
    let programs = with_program(programs, format_program(alloc))?;
    with_program(programs, show_program(alloc))
}

/// Adds the programs that run a script.
fn with_runs<'a>(alloc: Global, programs: Command<'a>) -> Result<Command<'a>, AllocError>
    ensures { IfOk result (λ c. app_of c ≡ with_runs (app_of programs.entry)) }
{
    let programs = with_program(programs, replay_program(alloc))?;
    with_program(programs, drill_program(alloc))
}

/// No programs yet. No name of a binary stands before the words, and there are no calls for help.
fn no_programs<'a>(alloc: Global) -> Command<'a>
    ensures { app_of result ≡ no_programs }
{
    Command::new(alloc, "hsm")
        .no_binary_name(true)
        .disable_help_flag(true)
        .disable_help_subcommand(true)
        .subcommand_required(true)
}

/// Adds a program, if memory sufficed for it.
fn with_program<'a>(
    programs: Command<'a>,
    program: Result<Command<'a>, AllocError>,
) -> Result<Command<'a>, AllocError>
    ensures { (shape : Shape) → IfOk program.entry (IsProgram shape)
        → IfOk result (λ c. app_of c ≡ with_subcommand (app_of programs.entry) shape) }
{
    match program {
        Ok(program) => programs.subcommand(program),
        Err(error) => Err(error),
    }
}

fn format_program<'a>(alloc: Global) -> Result<Command<'a>, AllocError>
    ensures { IfOk result (IsProgram format_program) }
{
    let program = Command::new(alloc, "format").arg(required_word(alloc, "path"))?;
    program.arg(required_word(alloc, "size"))
}

fn replay_program<'a>(alloc: Global) -> Result<Command<'a>, AllocError>
    ensures { IfOk result (IsProgram replay_program) }
{
    let program = Command::new(alloc, "replay").arg(word(alloc, "path"))?;
    program.arg(word(alloc, "dir"))
}

fn show_program<'a>(alloc: Global) -> Result<Command<'a>, AllocError>
    ensures { IfOk result (IsProgram show_program) }
{
    let program = Command::new(alloc, "show").arg(required_word(alloc, "path"))?;
    program.arg(word(alloc, "dir"))
}

fn drill_program<'a>(alloc: Global) -> Result<Command<'a>, AllocError>
    ensures { IfOk result (IsProgram drill_program) }
{
    Command::new(alloc, "drill").arg(required_word(alloc, "number"))
}

fn required_word<'a>(alloc: Global, id: &'a str) -> Arg<'a>
    ensures { IsWord (required_word id.entry.now) result }
{
    Arg::new(alloc, id).required(true)
}

fn word<'a>(alloc: Global, id: &'a str) -> Arg<'a>
    ensures { IsWord (new_rule id.entry.now) result }
{
    Arg::new(alloc, id)
}
