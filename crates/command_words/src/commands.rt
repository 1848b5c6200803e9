//! What the words of the command line ask for.
ghost use Rattle.std.specs.Prelude.{◌≡◌, ◌≢◌, IfErr, IfOk, map, true};
ghost use Rattle.std.specs.List.{list_all};
ghost use Rattle.std.specs.Option.{option_map};
ghost use Rattle.std.specs.String.{string_bytes};
ghost use Rattle.clap.specs.Words.{first_value, found_of, kind_of, subcommand_rows_of};
ghost use Rattle.command_words.specs.Commands.{form_in, form_of, geometry_number, is_name, size_named};
ghost use Rattle.command_words.specs.Programs.{drill_read, format_read, program_read, read_form, replay_read, show_read};

use crate::numbers::number_named;
use crate::programs::all_programs;
use clap::error::ErrorKind;
use clap::{ArgMatches, Error};
use std::alloc::{AllocError, Global};

/// The size of a store.
#[derive(Clone, Copy, PartialEq, Eq)]
pub enum StoreSize {
    /// 64 files and 1,024 blocks.
    Small,
    /// 4,096 files and 65,536 blocks.
    Large,
}

impl StoreSize {
    /// The number of its geometry on a disk.
    pub fn geometry(self) -> u32
        ensures { result ≡ geometry_number self }
    {
        match self {
            StoreSize::Small => 0,
            StoreSize::Large => 1,
        }
    }

    fn named(word: &str) -> Option<StoreSize>
        ensures { result ≡ size_named word.now }
    {
        match word {
            "small" => Some(StoreSize::Small),
            "large" => Some(StoreSize::Large),
            _ => None,
        }
    }
}

/// What the program is asked to do.
#[derive(Clone, Copy, PartialEq, Eq)]
pub enum Command<'a> {
    /// Make an empty store on the disk of that name.
    Format { path: &'a str, size: StoreSize },

    /// Run the script from the source on a new small store in memory.
    Replay,

    /// Run the script from the source on the store of the disk of that name with the volumes of that folder, and then commit.
    ReplayStore { path: &'a str, dir: &'a str },

    /// Show the store of the disk of that name.
    Show { path: &'a str },

    /// Show the store of the disk of that name, and the classes of its objects over the volumes of that folder.
    ShowVolumes { path: &'a str, dir: &'a str },

    /// Run the script that is made of that number on a new small store in memory.
    Drill { number: u64 },
}

impl<'a> Command<'a> {
    /// The command that the words are, if they are one. It fails only where memory is wanting.
    pub fn of(alloc: Global, words: &'a [String]) -> Result<Option<Command<'a>>, AllocError>
        ensures { IfOk result (λ command. option_map form_in command ≡ form_of (map string_bytes words.now)) }
    {
        if !are_names(words) {
            return Ok(None);
        }
        match parse(alloc, words) {
            Ok(matches) => Ok(Command::read(&matches)),
            Err(refusal) => refused(refusal),
        }
    }

    fn read(matches: &ArgMatches<'a>) -> Option<Command<'a>>
        ensures { option_map form_in result ≡ read_form (subcommand_rows_of matches.now) }
    {
        let (program, words) = matches.subcommand()?;
        Command::of_program(program, words)
    }

    fn of_program(program: &str, words: &ArgMatches<'a>) -> Option<Command<'a>>
        ensures { option_map form_in result ≡ program_read program.now (first_value (found_of words.now)) }
    {
        match program {
            "format" => Command::format(words),
            "replay" => Command::replay(words),
            "show" => Command::show(words),
            "drill" => Command::drill(words),
            _ => None,
        }
    }

    fn format(words: &ArgMatches<'a>) -> Option<Command<'a>>
        ensures { option_map form_in result ≡ format_read (first_value (found_of words.now)) }
    {
        let path = words.get_str("path")?;
        let size = StoreSize::named(words.get_str("size")?)?;
        Some(Command::Format { path, size })
    }

    /// A path without a folder is refused.
    fn replay(words: &ArgMatches<'a>) -> Option<Command<'a>>
        ensures { option_map form_in result ≡ replay_read (first_value (found_of words.now)) }
    {
        let Some(path) = words.get_str("path") else {
            return Some(Command::Replay);
        };
        let dir = words.get_str("dir")?;
        Some(Command::ReplayStore { path, dir })
    }

    fn show(words: &ArgMatches<'a>) -> Option<Command<'a>>
        ensures { option_map form_in result ≡ show_read (first_value (found_of words.now)) }
    {
        let path = words.get_str("path")?;
        match words.get_str("dir") {
            Some(dir) => Some(Command::ShowVolumes { path, dir }),
            None => Some(Command::Show { path }),
        }
    }

    fn drill(words: &ArgMatches<'a>) -> Option<Command<'a>>
        ensures { option_map form_in result ≡ drill_read (first_value (found_of words.now)) }
    {
        let number = number_named(words.get_str("number")?)?;
        Some(Command::Drill { number })
    }
}

/// The matches that names have.
fn parse<'a>(alloc: Global, words: &'a [String]) -> Result<ArgMatches<'a>, Error>
    requires { list_all is_name (map string_bytes words.now) ≡ true }
    ensures ok { IfOk result (λ matches. read_form (subcommand_rows_of matches) ≡ form_of (map string_bytes words.entry.now)) }
    ensures err { IfErr result (λ refusal. kind_of refusal ≢ ErrorKind.OutOfMemory → form_of (map string_bytes words.entry.now) ≡ None) }
{
    all_programs(alloc)?.try_get_matches_from(words)
}

/// No command, unless it was for want of memory.
fn refused<'a>(refusal: Error) -> Result<Option<Command<'a>>, AllocError>
    ensures { IfOk result (λ command. (command ≡ None) × (kind_of refusal ≢ ErrorKind.OutOfMemory)) }
{
    match refusal.kind() {
        ErrorKind::OutOfMemory => Err(AllocError),
        _ => Ok(None),
    }
}

/// Whether none of the words is empty or an option.
fn are_names(words: &[String]) -> bool
    ensures { result ≡ list_all is_name (map string_bytes words.now) }
{
    words.iter().all(|word| is_name(word.as_str()))
}

/// Whether a word can name a file: it isn't empty, and no option.
fn is_name(word: &str) -> bool
    ensures { result ≡ is_name word.now }
{
    match word.as_bytes() {
        [] => false,
        [first, ..] => *first != b'-',
    }
}
