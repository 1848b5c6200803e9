//! Drills: the texts of their scripts, and the line that tells of a run. The digests are those of a program in another language.
use drill_script::{drill_script, summary_text};
use hsm_types::{Call, CallerId, Reply};
use plain_model::{Action, Actor, Answer, Entry};
use script_text::{Line, print};
use sha2::{Digest, Sha256};
use std::alloc::{AllocError, Global};
use std::test::Fail;

/// Numbers of drills, each with the digest of its script's text.
static SCRIPTS: [(u64, &str); 2] = [
    (
        0,
        "e6264b77d3412349bb0148ba928d824d3e621826d6a27ebb6a299c63fc02e608",
    ),
    (
        u64::MAX,
        "0b3e2324a2fc4531e9b39cb63e2895369bdf5c475df572a587e21f49384922a1",
    ),
];

/// The digest of the text of a drill's script.
fn digest_of(alloc: Global, n: u64) -> Result<String, AllocError> {
    let script = drill_script(alloc, n)?;
    let text = print(alloc, &script)?;
    hex::encode(alloc, &Sha256::digest(text.as_slice()))
}

#[test]
fn have_scripts(rt: HostRuntime) -> Result<(), Fail> {
    for (n, want) in &SCRIPTS {
        let digest = digest_of(rt.alloc(), *n)?;
        assert_eq!(rt; digest.as_str(), *want, "drill {n}");
    }
    Ok(())
}

/// Whether a line is a read.
fn is_read(line: &Line) -> bool {
    let Line::Event { action, .. } = line else {
        return false;
    };
    match action {
        Action::Issue(Call::Read { .. }) => true,
        _ => false,
    }
}

#[test]
fn begin_with_a_read(rt: HostRuntime) -> Result<(), Fail> {
    let script = drill_script(rt.alloc(), 0)?;
    let first = script.as_slice().get(42);
    assert!(rt; first.is_some_and(is_read));
    Ok(())
}

/// The event of a sync that is done.
fn sync(caller: CallerId) -> Entry {
    Entry {
        actor: Actor::Caller(caller),
        action: Action::Issue(Call::Sync),
        answer: Answer::Call(Reply::Done),
    }
}

#[test]
fn are_told_in_one_line(rt: HostRuntime) -> Result<(), Fail> {
    let none = summary_text(rt.alloc(), 7, &[], 608, 22)?;
    assert_eq!(rt;
        none.as_slice(),
        b"drill 7 entries=0 sha=e3b0c44298fc1c149afbf4c8996fb92427ae41e4649b934ca495991b7852b855 used=608 offline=22\n".as_slice()
    );
    let caller = CallerId::new(1).ok_or("no caller 1")?;
    let one = summary_text(rt.alloc(), u64::MAX, &[sync(caller)], 0, 1)?;
    assert_eq!(rt;
        one.as_slice(),
        b"drill 18446744073709551615 entries=1 sha=6fe12b476482c9de81b303bca8aac81449814a7258928bc3bab42656f5d895d6 used=0 offline=1\n".as_slice()
    );
    Ok(())
}
