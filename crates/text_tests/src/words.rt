//! The words of the command line. Where memory is ample each list of words is a command, or none.
use command_words::{Command, StoreSize};
use std::alloc::{AllocError, Global};
use std::test::Fail;

/// Words that are commands.
static COMMANDS: [(&[&str], Command<'static>); 8] = [
    (
        &["format", "s", "small"],
        Command::Format {
            path: "s",
            size: StoreSize::Small,
        },
    ),
    (
        &["format", "s", "large"],
        Command::Format {
            path: "s",
            size: StoreSize::Large,
        },
    ),
    (&["replay"], Command::Replay),
    (
        &["replay", "s", "d"],
        Command::ReplayStore {
            path: "s",
            dir: "d",
        },
    ),
    (&["show", "drill"], Command::Show { path: "drill" }),
    (
        &["show", "s", "d"],
        Command::ShowVolumes {
            path: "s",
            dir: "d",
        },
    ),
    (&["drill", "0"], Command::Drill { number: 0 }),
    (
        &["drill", "18446744073709551615"],
        Command::Drill { number: u64::MAX },
    ),
];

/// Words that are none.
static REFUSED: [&[&str]; 22] = [
    &[],
    &["help"],
    &["--help"],
    &["-h"],
    &["--version"],
    &["help", "show"],
    &["format"],
    &["format", "s"],
    &["format", "s", "middle"],
    &["format", "s", "small", "more"],
    &["replay", "s"],
    &["replay", "", "d"],
    &["replay", "s", "-d"],
    &["replay", "s", "d", "more"],
    &["show"],
    &["show", "s", "d", "more"],
    &["show", "--", "s"],
    &["drill"],
    &["drill", "07"],
    &["drill", "+7"],
    &["drill", "18446744073709551616"],
    &["drill", "7", "7"],
];

fn strings(alloc: Global, words: &[&str]) -> Result<Vec<String>, AllocError> {
    let mut strings = Vec::new(alloc);
    for word in words {
        strings.push(word.to_string(alloc)?)?;
    }
    Ok(strings)
}

#[test]
fn are_commands(rt: HostRuntime) -> Result<(), Fail> {
    for (words, want) in &COMMANDS {
        let words = strings(rt.alloc(), words)?;
        let command = Command::of(rt.alloc(), words.as_slice())?;
        assert!(rt; command == Some(*want));
    }
    Ok(())
}

#[test]
fn are_refused(rt: HostRuntime) -> Result<(), Fail> {
    for words in &REFUSED {
        let words = strings(rt.alloc(), words)?;
        let command = Command::of(rt.alloc(), words.as_slice())?;
        assert!(rt; command.is_none());
    }
    Ok(())
}
