//! A store in memory, calls on it, and what callers and sessions did with it.
ghost use Rattle.std.specs.Prelude.{◌≡◌, ◌∷◌, [], IfOk, IfSome};

use call_seats::{Pass, Passes};
use commit_slots::Layout;
use disk_model::SureDisk;
use hsm_core::Hsm;
use hsm_types::{Bytes, Call, Word};
use plain_model::{Action, Actor, Entry};
use std::alloc::{AllocError, Global};

/// A small store, formatted and opened.
pub(crate) fn new_store(alloc: Global) -> Result<Hsm<SureDisk>, AllocError>
    ensures { IfOk result (λ hsm. hsm.history ≡ []) }
{
    let whole = Layout::of_geometry(0).whole;
    let mut disk = SureDisk::new(vec![in alloc; 0; whole as usize]?);
    if Hsm::format(&mut disk, 0, 1).is_err() {
        return Err(AllocError);
    }
    match Hsm::open(alloc, disk) {
        Ok(hsm) => Ok(hsm),
        Err(_) => Err(AllocError),
    }
}

/// The passes of a list of two.
pub(crate) fn two_of(passes: Passes) -> Option<(Pass, Pass)>
    ensures { IfSome result (λ two. passes ≡ two.0 ∷ two.1 ∷ []) }
{
    let mut passes = passes.into_vec();
    let second = passes.pop()?;
    let first = passes.pop()?;
    if passes.is_empty() {
        Some((first, second))
    } else {
        None
    }
}

/// The creation of the file with that letter as its name.
pub(crate) fn create(alloc: Global, letter: u8) -> Result<Call, AllocError> {
    Ok(Call::Create {
        name: Word::from(vec![in alloc; letter; 1]?),
    })
}

/// A write of so many bytes over the start of that file.
pub(crate) fn write(alloc: Global, letter: u8, len: usize) -> Result<Call, AllocError> {
    Ok(Call::Write {
        name: Word::from(vec![in alloc; letter; 1]?),
        offset: 0,
        body: Bytes::from(vec![in alloc; letter; len]?),
    })
}

/// A read of so many bytes from the start of that file.
pub(crate) fn read(alloc: Global, letter: u8, len: u64) -> Result<Call, AllocError> {
    Ok(Call::Read {
        name: Word::from(vec![in alloc; letter; 1]?),
        offset: 0,
        len,
    })
}

/// How many calls two callers have issued, and how many sessions have made.
#[derive(Clone, Copy, PartialEq, Eq)]
pub(crate) struct Counts {
    pub(crate) first: usize,
    pub(crate) second: usize,
    pub(crate) told: usize,
}

/// Closes the store, and counts its entries.
pub(crate) fn counts_of(hsm: Hsm<SureDisk>) -> Counts {
    let history = hsm.history();
    Counts {
        first: issued(history, 1),
        second: issued(history, 2),
        told: told(history),
    }
}

/// How many calls the caller with that number has issued.
fn issued(history: &[Entry], number: u8) -> usize {
    history
        .iter()
        .filter(
            |e| matches!(&e.actor, Actor::Caller(c) if c.number() == number)
                && matches!(e.action, Action::Issue(_)),
        )
        .count()
}

/// How many calls sessions have made.
fn told(history: &[Entry]) -> usize {
    history
        .iter()
        .filter(|e| matches!(e.actor, Actor::Session(_)))
        .count()
}
