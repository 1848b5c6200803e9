//! The stub entries of one file, by segment.
ghost use Rattle.std.specs.Prelude.{◌≡◌, ◌+◌, ◌^◌, ◌<◌, ◌≤◌, [], None, Some, IfErr, OnOk, OnErr, MatchOption, MatchResult, length, if◌then◌else◌};
ghost use Rattle.std.specs.List.Sorted.{IsStrictlySortedBy};
ghost use Rattle.std.specs.Map.{keys_of};
ghost use Rattle.std.specs.Ordering.{nat_cmp};
ghost use Rattle.hsm_types.specs.Stubs.{is_sealed, moved, offline_at, punched, punching_refusal, restored};
ghost use Rattle.hsm_types.specs.Stubs.{restoring_refusal, sealed, sealing_refusal, stub_at, stubs_below, without_stub};
ghost use Rattle.hsm_types.specs.declared.dm.DmRefusal.TheVariants.{Memory};
ghost use Rattle.stub_map.specs.States.{HereBetween, IsFirstOffline, IsNext, NoneFrom, state_of};

use hsm_types::{DmRefusal, Stub, StubEntry};
use std::alloc::Global;
use std::collections::BTreeMap;
use std::collections::btree_map::Iter;
use std::marker::Model;

/// What is held of a segment.
#[derive(Clone, Copy, PartialEq, Eq)]
pub enum State {
    /// Its bytes alone.
    Resident,
    /// Its bytes, and an entry.
    Sealed(StubEntry),
    /// An entry, and no bytes.
    Offline(StubEntry),
}

/// The stub entries of a file, by segment. A call costs a look-up, unless it says otherwise.
#[derive(Drop)]
pub struct StubMap {
    by_segment: BTreeMap<u32, Stub>,
}

impl Model for StubMap {
    ghost use Rattle.hsm_types.specs.Stubs.{Stubs};
    ghost use Rattle.stub_map.specs.States.{AreCounted};

    ghost Value = { Stubs };

    ghost view = { λ m. m.by_segment.entries };

    ghost invariant = { λ m. AreCounted m.by_segment.entries };
}

impl StubMap {
    /// No entry. It takes no memory.
    pub fn new(alloc: Global) -> StubMap
        ensures { result ≡ [] }
    {
        StubMap {
            by_segment: BTreeMap::new(alloc),
        }
    }

    /// What is held of the segment.
    pub fn state(&self, segment: u32) -> State
        ensures { result ≡ state_of (stub_at segment self.now) }
    {
        match self.stub(segment) {
            None => State::Resident,
            Some(stub) if stub.offline => State::Offline(stub.entry),
            Some(stub) => State::Sealed(stub.entry),
        }
    }

    /// The entry of the segment, and whether its bytes are away.
    fn stub(&self, segment: u32) -> Option<Stub>
        ensures { result ≡ stub_at segment self.now }
    {
        self.by_segment.get(&segment).copied()
    }

    /// Seals the segment with that entry, in the place of an older one. All other files have `others` entries, and all files `limit` at most.
    pub fn seal(
        &mut self,
        segment: u32,
        entry: StubEntry,
        others: u32,
        limit: u32,
    ) -> Result<(), DmRefusal>
        requires { others ≤ limit }
        ensures ok { OnOk result (sealing_refusal segment others limit self.old ≡ None) }
        ensures after { OnOk result (self.new ≡ sealed segment entry self.old) }
        ensures refused { IfErr result (λ why. MatchOption (sealing_refusal segment others limit self.old) (why ≡ Memory) (λ cause. why ≡ cause)) }
        ensures err { OnErr result (self.new ≡ self.old) }
    {
        self.judge_seal(segment, others, limit)?;
        let stub = Stub {
            entry,
            offline: false,
        };
        let _old = self
            .by_segment
            .insert(segment, stub)
            .map_err(|_| DmRefusal::Memory)?;
        Ok(())
    }

    /// What refuses to seal the segment. Where nothing does, an entry more can be counted.
    fn judge_seal(&self, segment: u32, others: u32, limit: u32) -> Result<(), DmRefusal>
        requires { others ≤ limit }
        ensures room { OnOk result (stub_at segment self.now ≡ None → length self.now + 1 < 2 ^ 32) }
        ensures judged { MatchResult result (λ _. sealing_refusal segment others limit self.now ≡ None) (λ why. sealing_refusal segment others limit self.now ≡ Some why) }
    {
        match self.stub(segment) {
            Some(stub) if stub.offline => Err(DmRefusal::Offline { segment }),
            None if self.len() >= limit - others => Err(DmRefusal::TooMany {
                count: limit as u64,
            }),
            _ => Ok(()),
        }
    }

    /// Takes the entry of a sealed segment away, and changes no other segment. It takes no memory.
    pub fn unseal(&mut self, segment: u32)
        ensures { self.new ≡ (if is_sealed (stub_at segment self.old) then without_stub segment self.old else self.old) }
    {
        if let State::Sealed(_) = self.state(segment) {
            self.remove(segment);
        }
    }

    /// The segment has no entry then.
    fn remove(&mut self, segment: u32)
        ensures { self.new ≡ without_stub segment self.old }
    {
        let _stub = self.by_segment.remove(&segment);
    }

    /// Lets the entry of a sealed segment stand in the place of its bytes. It takes no memory.
    pub fn punch(&mut self, segment: u32) -> Result<(), DmRefusal>
        ensures ok { OnOk result (punching_refusal segment self.old ≡ None) }
        ensures after { OnOk result (self.new ≡ punched segment (segment + 1) self.old) }
        ensures refused { IfErr result (λ why. punching_refusal segment self.old ≡ Some why) }
        ensures err { OnErr result (self.new ≡ self.old) }
    {
        match self.state(segment) {
            State::Offline(_) => Err(DmRefusal::Offline { segment }),
            State::Resident => Err(DmRefusal::NotSealed { segment }),
            State::Sealed(_) => {
                self.set_offline(segment, true);
                Ok(())
            }
        }
    }

    /// Lets the bytes of a segment that is offline stand beside its entry again. It takes no memory.
    pub fn restore(&mut self, segment: u32) -> Result<(), DmRefusal>
        ensures ok { OnOk result (restoring_refusal segment self.old ≡ None) }
        ensures after { OnOk result (self.new ≡ restored segment self.old) }
        ensures refused { IfErr result (λ why. restoring_refusal segment self.old ≡ Some why) }
        ensures err { OnErr result (self.new ≡ self.old) }
    {
        let State::Offline(_) = self.state(segment) else {
            return Err(DmRefusal::NotOffline { segment });
        };
        self.set_offline(segment, false);
        Ok(())
    }

    /// The bytes of the segment are away then, or here, if it has an entry.
    fn set_offline(&mut self, segment: u32, offline: bool)
        ensures { self.new ≡ moved offline segment (segment + 1) self.old }
    {
        if let Some(stub) = self.by_segment.get_mut(&segment) {
            stub.offline = offline;
        }
    }

    /// Takes all entries from that segment on away, at the cost of two look-ups for each. It takes no memory.
    pub fn cut(&mut self, from: u32)
        ensures { self.new ≡ stubs_below from self.old }
    {
        while let Some(segment) = self.next(from) {
            self.remove(segment);
        }
    }

    /// The first segment from there on that has an entry.
    pub fn next(&self, from: u32) -> Option<u32>
        ensures { MatchOption result (NoneFrom from self.now) (IsNext from self.now) }
    {
        let Some((segment, _)) = self.by_segment.range(from..).next() else {
            return None;
        };
        Some(*segment)
    }

    /// Whether the bytes of the segment are away.
    pub fn is_offline(&self, segment: u32) -> bool
        ensures { result ≡ offline_at self.now segment }
    {
        matches!(self.state(segment), State::Offline(_))
    }

    /// The first segment from the first number on and below the second whose bytes are away. It costs the entries between.
    pub fn first_offline(&self, from: u32, to: u32) -> Option<u32>
        ensures { MatchOption result (HereBetween from to self.now) (IsFirstOffline from to self.now) }
    {
        let mut start = from;
        while let Some(segment) = self.next(start) {
            if segment >= to {
                return None;
            }
            if self.is_offline(segment) {
                return Some(segment);
            }
            start = segment + 1;
        }
        None
    }

    /// How many segments have an entry.
    pub fn len(&self) -> u32
        ensures count { result ≡ length self.now }
        ensures ascend { IsStrictlySortedBy nat_cmp (keys_of self.now) }
    {
        self.by_segment.len() as u32
    }

    /// The entries in the order of segments.
    pub fn iter(&self) -> Iter<'_, u32, Stub>
        ensures rest { result ≡ self.now }
        ensures ascend { IsStrictlySortedBy nat_cmp (keys_of self.now) }
    {
        self.by_segment.iter()
    }
}
