//! `pass_bench FORM CALLERS THREADS CALLS` lets so many callers make so many calls in all of a small store in memory: each creates a file of its own, and
//! then writes and reads 16 bytes of it in turn. `passes` has them share the store, each with a pass, `lock` puts the store behind a plain lock, and both
//! spread the callers over the threads; `alone` has one thread and no lock. It prints how many calls were done. It is there to be measured.
#![tactic(auto)]

mod forms;
mod sharing;
mod turns;

use forms::{Form, Run, done};
use std::alloc::{AllocError, Global};
use std::process::ExitCode;
use std::rt::Env;
use std::{env, io};

/// The words of the command line, without the program's name.
fn words(rt: &(impl Env + AllocGlobal)) -> io::Result<Vec<String>> {
    let mut words = Vec::new(rt.alloc());
    for word in env::args(rt)?.skip(1) {
        words.push(word)?;
    }
    Ok(words)
}

fn form_of(word: &str) -> Option<Form> {
    match word {
        "passes" => Some(Form::Passes),
        "lock" => Some(Form::Lock),
        "alone" => Some(Form::Alone),
        _ => None,
    }
}

/// The run that the words ask for.
fn asked(words: &[String]) -> Option<Run> {
    match words {
        [form, callers, threads, calls] => Run::new(
            form_of(form.as_str())?,
            callers.as_str().parse::<u32>().ok()?,
            threads.as_str().parse::<u32>().ok()?,
            calls.as_str().parse::<u32>().ok()?,
        ),
        _ => None,
    }
}

fn main(rt: HostRuntime) -> io::Result<ExitCode> {
    let words = words(&rt)?;
    let Some(run) = asked(&words) else {
        eprintln!(rt;
            "pass_bench passes|lock|alone CALLERS THREADS CALLS, where THREADS divides the other two"
        )?;
        return Ok(ExitCode::from(2));
    };
    let count = done(&rt, rt.alloc(), run)?;
    println!(rt; "{count} done")?;
    Ok(ExitCode::from(0))
}
