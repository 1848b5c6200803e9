//! `cache_bench there N` loads a segment that is in a cache N times, and `cache_bench others N` segments that aren't; both print how many calls of the
//! disk these take. `cache_bench parts N` makes the SHA-256 of a segment N times over the parts that a cache lends, and `cache_bench slice N` of one
//! slice; both print the first byte of the last one. It is there to be measured.
#![tactic(auto)]

mod segments;

use segments::{Cause, calls_of_cached, calls_of_others, digest_of_parts, digest_of_slice};
use std::alloc::Global;
use std::process::ExitCode;
use std::rt::Env;
use std::{env, io};

/// What is measured.
#[derive(Clone, Copy)]
enum Work {
    There,
    Others,
    Parts,
    Slice,
}

/// The words of the command line, without the program's name.
fn words(rt: &(impl Env + AllocGlobal)) -> io::Result<Vec<String>> {
    let mut words = Vec::new(rt.alloc());
    for word in env::args(rt)?.skip(1) {
        words.push(word)?;
    }
    Ok(words)
}

fn work_of(word: &str) -> Option<Work> {
    match word {
        "there" => Some(Work::There),
        "others" => Some(Work::Others),
        "parts" => Some(Work::Parts),
        "slice" => Some(Work::Slice),
        _ => None,
    }
}

/// What is to be done, and how often.
fn asked(words: &[String]) -> Option<(Work, u32)> {
    match words {
        [what, times] => Some((work_of(what.as_str())?, times.as_str().parse::<u32>().ok()?)),
        _ => None,
    }
}

/// The number that the work comes to.
fn done(alloc: Global, work: Work, times: u32) -> Result<usize, Cause> {
    match work {
        Work::There => calls_of_cached(alloc, times),
        Work::Others => calls_of_others(alloc, times),
        Work::Parts => Ok(usize::from(digest_of_parts(alloc, times)?.0[0])),
        Work::Slice => Ok(usize::from(digest_of_slice(alloc, times)?.0[0])),
    }
}

fn main(rt: HostRuntime) -> io::Result<ExitCode> {
    let words = words(&rt)?;
    let Some((work, times)) = asked(&words) else {
        eprintln!(rt; "cache_bench there|others|parts|slice N")?;
        return Ok(ExitCode::from(2));
    };
    match done(rt.alloc(), work, times) {
        Ok(number) => {
            println!(rt; "{number}")?;
            Ok(ExitCode::from(0))
        }
        Err(cause) => {
            eprintln!(rt; "cache_bench: {cause}")?;
            Ok(ExitCode::from(1))
        }
    }
}
