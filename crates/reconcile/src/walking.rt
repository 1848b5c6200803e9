//! The classes of entries, one by one.
ghost use Rattle.std.specs.Prelude.{◌≡◌, ◌+◌, ◌<◌, ◌^◌, ℕ, length, IfOk, IfErr};
ghost use Rattle.std.specs.List.Sorted.{IsNonDecreasingBy};
ghost use Rattle.hsm_types.specs.Stubs.{entry_place};
ghost use Rattle.media_model.specs.Objects.{Objects};
ghost use Rattle.reconcile.specs.Classes.{class_counts, AreRead, AreTold, AreQuiet, TellsFailed, ClassesRefused};
ghost use Rattle.reconcile.specs.Steps.{place, counted, Finds};

use crate::entries::place;
use crate::looking::look;
use crate::refusals::ReconcileRefusal;
use hsm_types::{Fingerprint, StubEntry};
use media_model::Drive;
use std::alloc::Global;
use store_summary::ClassCounts;

/// The fingerprint of an object's payload, where the object is there.
#[derive(Clone, Copy)]
pub(crate) struct Seen {
    /// Where the object stands among those of all volumes.
    place: u64,
    print: Option<Fingerprint>,
}

/// A walk along entries: the counts so far, without dead objects, and what was seen of the object that the last entry names.
#[derive(Clone, Copy)]
pub(crate) struct Walk {
    counts: ClassCounts,
    last: Option<Seen>,
}

impl Walk {
    fn start() -> Walk
        ensures { result ≡ record { counts = record { live = 0; dead = 0; held = 0; missing = 0; altered = 0 }; last = None } }
    {
        Walk {
            counts: ClassCounts {
                live: 0,
                dead: 0,
                held: 0,
                missing: 0,
                altered: 0,
            },
            last: None,
        }
    }

    /// The fingerprint of the payload of the entry's object. The object is read if the last entry doesn't name it, too.
    fn find<M: Drive>(
        &mut self,
        alloc: Global,
        drives: &mut [M],
        volumes: u32,
        entry: &StubEntry,
    ) -> Result<Option<Fingerprint>, ReconcileRefusal>
        requires drives { 0 < length drives.old }
        requires live { self.old.counts.live + 1 < 2 ^ 64 }
        ensures finds { IfOk result (Finds M.Drive volumes drives.old entry.now self.old self.new) }
        ensures short { (entry_place entry.now).object < 2 ^ 32 }
        ensures refused { IfErr result (ClassesRefused M.Drive volumes drives.old drives.new) }
        ensures reads { AreRead M.Drive drives.old drives.new }
        ensures quiet { (TellsFailed result → ⊥) → AreQuiet M.Drive drives.old drives.new }
    {
        let place = place(entry);
        if let Some(last) = self.last
            && last.place == place
        {
            return Ok(last.print);
        }
        let print = look(alloc, drives, volumes, entry)?;
        self.counts.live += u64::from(print.is_some());
        self.last = Some(Seen { place, print });
        Ok(print)
    }

    /// Counts an entry with that fingerprint, for whose object that was found.
    fn count(&mut self, want: Fingerprint, found: Option<Fingerprint>)
        requires { self.old.counts.held + self.old.counts.missing + self.old.counts.altered + 1 < 2 ^ 64 }
        ensures { self.new ≡ record self.old { counts = counted want found self.old.counts } }
    {
        match found {
            None => self.counts.missing += 1,
            Some(print) if print == want => self.counts.held += 1,
            Some(_) => self.counts.altered += 1,
        }
    }
}

/// The counts of the entries, which stand in the order of their objects, and of the objects that they name.
pub(crate) fn class_entries<M: Drive>(
    alloc: Global,
    entries: &[StubEntry],
    drives: &mut [M],
    volumes: u32,
) -> Result<ClassCounts, ReconcileRefusal>
    requires drives { 0 < length drives.old }
    requires ascending { IsNonDecreasingBy place entries.now }
    ensures counts { IfOk result (λ counts. (told : ℕ → Objects) → AreTold M.Drive volumes drives.old told → counts ≡ record (class_counts volumes told entries.now) { dead = 0 }) }
    ensures entries { IfOk result (λ counts. counts.held + counts.missing + counts.altered ≡ length entries.now) }
    ensures refused { IfErr result (ClassesRefused M.Drive volumes drives.old drives.new) }
    ensures reads { AreRead M.Drive drives.old drives.new }
    ensures quiet { (TellsFailed result → ⊥) → AreQuiet M.Drive drives.old drives.new }
{
    let mut walk = Walk::start();
    for entry in entries {
        let found = walk.find(alloc, drives, volumes, entry)?;
        walk.count(entry.print(), found);
    }
    Ok(walk.counts)
}
