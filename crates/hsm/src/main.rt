//! `hsm format PATH small` makes a store in a file. `hsm replay PATH DIR` runs a script from standard input on it, and writes what
//! happened to standard output; `hsm replay` does so on a new store in memory. `hsm show PATH DIR` tells what the store and its volumes have, and
//! `hsm drill N` runs the script that it draws from a number.
#![tactic(auto)]

ghost use Rattle.std.specs.Prelude.{◌≡◌};
ghost use Rattle.std.specs.Process.{exit_status};
ghost use Rattle.hsm_cli.specs.Statuses.{status_of};

use hosts::{FileHost, Reading, Writing};
use hsm_cli::{Cause, hsm_main};
use std::process::ExitCode;
use std::rt::Env;
use std::{env, io};

/// The words of the command line, without the program's name. A word that is no text is none of a command's.
fn words(rt: &(impl Env + AllocGlobal)) -> Result<Vec<String>, Cause> {
    match read_words(rt) {
        Ok(words) => Ok(words),
        Err(why) => match why.kind() {
            io::ErrorKind::OutOfMemory => Err(Cause::NoMemory),
            _ => Err(Cause::WordsRefused),
        },
    }
}

fn read_words(rt: &(impl Env + AllocGlobal)) -> io::Result<Vec<String>> {
    let mut words = Vec::new(rt.alloc());
    for word in env::args(rt)?.skip(1) {
        words.push(word)?;
    }
    Ok(words)
}

/// Says on standard error what went wrong, and ends with its status.
fn ended(rt: &impl Eprint, cause: Option<Cause>) -> ExitCode
    ensures { exit_status result ≡ status_of cause }
{
    if let Some(cause) = cause {
        let _ = eprintln!(rt; "{cause}");
    }
    ExitCode::from(Cause::status(cause))
}

fn main(rt: HostRuntime) -> ExitCode {
    let words = match words(&rt) {
        Ok(words) => words,
        Err(cause) => return ended(&rt, Some(cause)),
    };
    let mut host = FileHost::new(rt.alloc(), &rt);
    let mut source = Reading::new(rt.reader());
    let mut sink = Writing::new(io::writer(&rt));
    let outcome = hsm_main(
        rt.alloc(),
        words.as_slice(),
        &mut host,
        &mut source,
        &mut sink,
    );
    ended(&rt, outcome.cause)
}
