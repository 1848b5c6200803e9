//! `shelf_bench DIR N` copies N segments to volumes in the folder DIR, as a store does, and then fetches each of them. It ends with status 0 where all came
//! back; else it says on standard error what went wrong, and ends with status 1. New volumes have room for 8,176 segments.
#![tactic(auto)]

mod copies;

use copies::{CAPACITY, Cause, DRIVES, VOLUMES, copy_and_fetch};
use folder_drive::FolderDrive;
use std::alloc::{AllocError, Global};
use std::fs::File;
use std::process::ExitCode;
use std::rt::{Env, Files};
use std::{env, io};

/// The words of the command line, without the program's name.
fn words(rt: &(impl Env + AllocGlobal)) -> io::Result<Vec<String>> {
    let mut words = Vec::new(rt.alloc());
    for word in env::args(rt)?.skip(1) {
        words.push(word)?;
    }
    Ok(words)
}

/// The folder and the number of segments that the words name.
fn named(words: &[String]) -> Option<(&str, u32)> {
    match words {
        [folder, segments] => Some((folder.as_str(), segments.parse::<u32>().ok()?)),
        _ => None,
    }
}

/// The drives that share the folder.
fn drives<'a, R: Files<File = File>>(
    alloc: Global,
    files: &'a R,
    folder: &str,
) -> Result<Vec<FolderDrive<&'a R>>, AllocError> {
    let mut drives = Vec::new(alloc);
    for number in 0..DRIVES {
        drives.push(FolderDrive::new(alloc, files, folder, number, DRIVES, VOLUMES, CAPACITY)?)?;
    }
    Ok(drives)
}

fn run(rt: &(impl Env + Files<File = File> + AllocGlobal)) -> Result<(), Cause> {
    let Ok(words) = words(rt) else {
        return Err(Cause::Words);
    };
    let (folder, segments) = named(&words).ok_or(Cause::Words)?;
    let mut drives = drives(rt.alloc(), rt, folder)?;
    copy_and_fetch(rt.alloc(), &mut drives, segments)
}

fn main(rt: HostRuntime) -> ExitCode {
    match run(&rt) {
        Ok(()) => ExitCode::SUCCESS,
        Err(cause) => {
            let _ = eprintln!(rt; "shelf_bench: {cause}");
            ExitCode::FAILURE
        }
    }
}
