//! `journal_bench FILE N` takes the file for a journal, and commits N batches of one record to it, behind those that it has. It ends with status 0 where
//! all were committed; else it says on standard error what went wrong, and ends with status 1.
#![tactic(auto)]

mod commits;

use commits::{Cause, commit_all};
use hosts::FileDisk;
use std::fs::{File, OpenOptions};
use std::process::ExitCode;
use std::rt::{Env, Files};
use std::{env, io};

/// The words of the command line, without the program's name.
fn words(rt: &(impl Env + AllocGlobal)) -> io::Result<Vec<String>> {
    let mut words = Vec::new(rt.alloc());
    for word in env::args(rt)?.skip(1) {
        words.push(word)?;
    }
    Ok(words)
}

/// The file and the number of batches that the words name.
fn named(words: &[String]) -> Option<(&str, u64)> {
    match words {
        [path, batches] => Some((path.as_str(), batches.parse::<u64>().ok()?)),
        _ => None,
    }
}

/// The file at that path as a disk.
fn disk_at(files: &impl Files<File = File>, path: &str) -> io::Result<FileDisk<File>> {
    let file = OpenOptions::new().read(true).write(true).open(files, path)?;
    FileDisk::open(file)
}

fn run(rt: &(impl Env + Files<File = File> + AllocGlobal)) -> Result<(), Cause> {
    let Ok(words) = words(rt) else {
        return Err(Cause::Words);
    };
    let (path, batches) = named(&words).ok_or(Cause::Words)?;
    let Ok(mut disk) = disk_at(rt, path) else {
        return Err(Cause::NoFile);
    };
    commit_all(rt.alloc(), &mut disk, batches)
}

fn main(rt: HostRuntime) -> ExitCode {
    match run(&rt) {
        Ok(()) => ExitCode::SUCCESS,
        Err(cause) => {
            let _ = eprintln!(rt; "journal_bench: {cause}");
            ExitCode::FAILURE
        }
    }
}
