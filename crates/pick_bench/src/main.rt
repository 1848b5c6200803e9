//! `pick_bench FILES SEGMENTS REPEATS` makes a table of so many files of so many segments, picks from it so many times, and prints how many segments were
//! picked. It is there to be measured.
#![tactic(auto)]

mod tables;

use hsm_policy::pick;
use hsm_types::Table;
use std::alloc::{AllocError, Global};
use std::process::ExitCode;
use std::rt::Env;
use std::{env, io};

/// What a run does.
#[derive(Clone, Copy)]
struct Run {
    files: u64,
    segments: u64,
    repeats: u64,
}

/// The run that the words ask for, if they are three numbers.
fn asked(rt: &(impl Env + AllocGlobal)) -> io::Result<Option<Run>> {
    let mut numbers = Vec::new(rt.alloc());
    for word in env::args(rt)?.skip(1) {
        let Ok(number) = word.as_str().parse::<u64>() else {
            return Ok(None);
        };
        numbers.push(number)?;
    }
    match numbers.as_slice() {
        [files, segments, repeats] => Ok(Some(Run {
            files: *files,
            segments: *segments,
            repeats: *repeats,
        })),
        _ => Ok(None),
    }
}

/// How many segments a pick takes that is to free every block, made so many times. 0 where none is made.
fn picked(alloc: Global, table: &Table, repeats: u64) -> Result<usize, AllocError> {
    let mut count = 0;
    for _ in 0..repeats {
        count = pick(alloc, table, 0)?.as_slice().len();
    }
    Ok(count)
}

fn main(rt: HostRuntime) -> io::Result<ExitCode> {
    let Some(run) = asked(&rt)? else {
        eprintln!(rt; "pick_bench FILES SEGMENTS REPEATS")?;
        return Ok(ExitCode::from(2));
    };
    let table = tables::table(rt.alloc(), run.files, run.segments)?;
    let count = picked(rt.alloc(), &table, run.repeats)?;
    println!(rt; "{count} picked")?;
    Ok(ExitCode::from(0))
}
