//! A drive in memory, of which chosen calls fail and chosen objects are damaged.
ghost use Rattle.std.specs.Prelude.{◌≡◌, ◌↔◌, ◌<◌, ◌≤◌, ◌^◌, ℕ, [], length, take, reverse, find, nat_eq, true, IsTrue, IsErrOf, Err, if◌then◌else◌};
ghost use Rattle.std.specs.Prelude.{None, Some, is_some, IfOk, OnOk, OnErr, MatchResult, MatchOption};
ghost use Rattle.std.specs.List.{list_any};
ghost use Rattle.std.specs.Option.{option_map_or};
ghost use Rattle.disk_model.specs.Calls.{raised};
ghost use Rattle.media_model.specs.Memory.{no_objects, volume_in, has_volume, objects_in};
ghost use Rattle.media_model.specs.Sharing.{shares_only};
ghost use Rattle.media_model.specs.Faults.{failing_now, failed_call, is_of, damaged, kept_in, FailsAppend, AppendsNow};
ghost use Rattle.media_model.specs.declared.drive.DriveRefusal.TheVariants.{Failed, Memory};

use crate::volume::ObjectBytes;
use crate::{Drive, DriveRefusal, SureDrive};
use std::alloc::{AllocError, Global};
use std::marker::Model;

/// A call that is to fail.
#[derive(Clone, Copy, PartialEq, Eq)]
pub struct FailingCall {
    /// Which call of the drive it is, from 0. Its calls are `append`, `size`, `read`, `sync` and `objects`.
    pub number: u64,
    /// How many of its bytes an append puts as an object all the same, at most all. With `None` it puts no object, and another call puts none at any rate.
    pub kept: Option<u32>,
}

/// The bytes that an object has in place of those that were appended.
#[derive(Drop)]
pub struct Damage {
    volume: u32,
    object: u32,
    bytes: ObjectBytes,
}

/// A drive in memory, of which chosen calls fail and chosen objects are damaged. A failing call fails whatever it asks for. An append for whose object
/// there is no memory doesn't count as a call.
#[derive(Drop)]
pub struct MemDrive {
    alloc: Global,
    drive: SureDrive,
    calls: u64,
    failing: Vec<FailingCall>,
    damages: Vec<Damage>,
    faults: u64,
}

impl Model for MemDrive {
    ghost use Rattle.media_model.specs.Faults.{Faulty};

    ghost Value = { Faulty };

    ghost view = { λ d. record { held = d.drive; calls = d.calls; failing = d.failing.items; damage = d.damages.items; faults = d.faults } };
}

impl MemDrive {
    /// A drive with these volumes, without objects. The objects of each may have so many bytes together. These calls will fail.
    pub fn new(
        alloc: Global,
        volumes: &[u32],
        capacity: u64,
        failing: &[FailingCall],
    ) -> Result<MemDrive, AllocError>
        ensures made { IfOk result (λ d. d ≡ record { held = d.held; calls = 0; failing = failing.now; damage = []; faults = 0 }) }
        ensures capacity { IfOk result (λ d. d.held.capacity ≡ capacity) }
        ensures volumes { IfOk result (λ d. (v : ℕ) → volume_in v d.held ≡ (if list_any (nat_eq v) volumes.now then Some no_objects else None)) }
    {
        Ok(MemDrive {
            alloc,
            drive: SureDrive::new(alloc, volumes, capacity)?,
            calls: 0,
            failing: failing.to_vec(alloc)?,
            damages: Vec::new(alloc),
            faults: 0,
        })
    }

    /// From now on the object has these bytes. One that isn't there yet has them once its append succeeds.
    pub fn damage(&mut self, volume: u32, object: u32, bytes: &[u8]) -> Result<(), AllocError>
        requires { length bytes.now < 2 ^ 32 }
        ensures ok { OnOk result (self.new ≡ damaged volume object bytes.now self.old) }
        ensures err { OnErr result (self.new ≡ self.old) }
    {
        let held = ObjectBytes::copy(self.alloc, bytes)?;
        let bytes = ObjectBytes::copy(self.alloc, bytes)?;
        self.damages.push(Damage {
            volume,
            object,
            bytes,
        })?;
        self.drive.replace(volume, object, held);
        Ok(())
    }

    /// Counts faults from 0 again.
    pub fn reset_faults(&mut self)
        ensures { self.new ≡ record self.old { faults = 0 } }
    {
        self.faults = 0;
    }

    /// How many calls were made.
    pub fn calls(&self) -> u64
        ensures { result ≡ self.now.calls }
    {
        self.calls
    }

    /// How many bytes the objects of each volume may have together.
    pub fn capacity(&self) -> u64
        ensures { result ≡ self.now.held.capacity }
    {
        self.drive.capacity()
    }

    /// Whether the drive has the volume.
    pub fn has(&self, volume: u32) -> bool
        ensures { result ≡ has_volume volume self.now.held }
    {
        self.objects_of(volume).is_some()
    }

    /// The objects of the volume, in the order of their numbers.
    pub fn objects_of(&self, volume: u32) -> Option<&[ObjectBytes]>
        ensures { MatchOption result (objects_in volume self.now.held ≡ None) (λ o. objects_in volume self.now.held ≡ Some o.now) }
    {
        self.drive.objects_of(volume)
    }

    // Whether each of its volumes is one that the drive of that number shares.
    pub(crate) fn shares_only(&self, number: usize, drives: usize, volumes: u32) -> bool
        requires { 0 < drives }
        ensures { result ≡ shares_only number drives volumes self.now }
    {
        self.drive.shares_only(number, drives, volumes)
    }

    fn failing_now(&self) -> Option<FailingCall>
        ensures { result ≡ failing_now self.now }
    {
        failing_at(&self.failing, self.calls)
    }

    fn count_failure(&mut self)
        ensures after { self.new ≡ failed_call self.old }
        ensures rises { self.old.faults ≤ raised self.old.faults }
    {
        self.calls = self.calls.saturating_add(1);
        self.faults = self.faults.saturating_add(1);
    }

    /// Puts what a failing append puts of an object.
    fn put_beginning(
        &mut self,
        volume: u32,
        bytes: &[u8],
        kept: Option<u32>,
    ) -> Result<(), AllocError>
        requires { length bytes.now < 2 ^ 32 }
        ensures ok { OnOk result (self.new ≡ record self.old { held = kept_in volume bytes.now kept self.old.held }) }
        ensures err { OnErr result (self.new ≡ self.old) }
        ensures lacks { OnErr result ((is_some kept ≡ true) × (has_volume volume self.old.held ≡ true)) }
    {
        match kept {
            Some(most) => self.drive.put(volume, front(bytes, most)),
            None => Ok(()),
        }
    }

    fn fail_append(
        &mut self,
        volume: u32,
        bytes: &[u8],
        kept: Option<u32>,
    ) -> Result<u32, DriveRefusal>
        requires { length bytes.now < 2 ^ 32 }
        ensures after { FailsAppend result volume bytes.now kept self.old self.new }
        ensures rises { IsErrOf result Failed → self.old.faults ≤ raised self.old.faults }
    {
        self.put_beginning(volume, bytes, kept)?;
        self.count_failure();
        Err(DriveRefusal::Failed)
    }

    fn append_now(&mut self, volume: u32, bytes: &[u8]) -> Result<u32, DriveRefusal>
        requires { length bytes.now < 2 ^ 32 }
        ensures { AppendsNow result volume bytes.now self.old self.new }
    {
        let number = self.drive.next(volume);
        let stored = stored(&self.damages, volume, number, bytes);
        let outcome = self.drive.append_as(volume, bytes.len() as u64, stored);
        if !lacks_memory(&outcome) {
            self.calls = self.calls.saturating_add(1);
        }
        outcome
    }
}

impl Drive for MemDrive {
    ghost use Rattle.std.specs.Prelude.{◌≡◌, ◌+◌, ◌<◌, ◌≤◌, ℕ, [], length, true, false, Ok, Err, get_or, take, OnOk, IfOk, IsErr, IsErrOf};
    ghost use Rattle.std.proofs.lemmas.Bool.{false≢true};
    ghost use Rattle.media_model.specs.Objects.{Objects, longest_object, size_of, read_from, AddsOne, MayAdd, Follows, Alike, HasCause, IsAsked, KeepsVolumes};
    ghost use Rattle.media_model.specs.Memory.{volume_in, has_volume, lasting_in, AreObjects, of_volume, of_object, change_volume, synced, gives_has};
    ghost use Rattle.media_model.specs.Memory.{content_in, gives_content};
    ghost use Rattle.media_model.specs.Faults.{failing_now, answered, after_call, AppendsAs};
    ghost use Rattle.media_model.specs.declared.drive.DriveRefusal.TheVariants.{Failed, Full, NoObject};

    ghost has = { λ d v. has_volume v d.held };

    ghost gives = { λ d v o. AreObjects d.held v o };

    ghost content = { λ d v. content_in v d.held };

    ghost lasting = { λ d v. lasting_in v d.held };

    ghost capacity_of = { λ d. d.held.capacity };

    ghost fault_count = { λ d. d.faults };

    ghost sure = { false };

    ghost given_there = { λ d v o given. gives_has d.held v o given };

    ghost one_content = { λ d v o given. gives_content d.held v o given };

    ghost sure_counts = { λ is d. absurd (false≢true is) };

    ghost sure_tells = { λ is d v there. absurd (false≢true is) };

    fn faults(&self) -> u64
        ensures { result ≡ self.now.faults }
    {
        self.faults
    }

    fn append(&mut self, volume: u32, bytes: &[u8]) -> Result<u32, DriveRefusal>
        requires { length bytes.now ≤ longest_object }
        ensures number { IfOk result (λ n. (o : Objects) → AreObjects self.old.held volume o → n ≡ length o) }
        ensures one_more { OnOk result (Follows AddsOne (AreObjects self.old.held volume) (AreObjects self.new.held volume)) }
        ensures fits { OnOk result ((o : Objects) → AreObjects self.old.held volume o → size_of o + length bytes.now ≤ self.old.held.capacity) }
        ensures failed { IsErrOf result Failed → Follows (MayAdd bytes.now) (AreObjects self.old.held volume) (AreObjects self.new.held volume) }
        ensures unchanged { IsErr result → (IsErrOf result Failed → ⊥) → Alike (AreObjects self.old.held volume) (AreObjects self.new.held volume) }
        ensures full { (used len capacity : ℕ) → result ≡ Err (Full used len capacity) → (len ≡ length bytes.now) × (capacity ≡ self.old.held.capacity) × (capacity < used + len) × ((o : Objects) → AreObjects self.old.held volume o → used ≡ size_of o) }
        ensures appends { IsErrOf result NoObject → ⊥ }
        ensures others { (v : ℕ) → (v ≡ volume → ⊥) → Alike (AreObjects self.old.held v) (AreObjects self.new.held v) }
        ensures volumes { KeepsVolumes (λ v. has_volume v self.old.held) (λ v. has_volume v self.new.held) self.old.held.capacity self.new.held.capacity (λ v. lasting_in v self.old.held) (λ v. lasting_in v self.new.held) }
        ensures cause { HasCause result (has_volume volume self.old.held) self.old.faults self.new.faults }
        ensures whole { AppendsAs (failing_now self.old) result volume bytes.now self.old self.new }
    {
        match self.failing_now() {
            Some(call) => self.fail_append(volume, bytes, call.kept),
            None => self.append_now(volume, bytes),
        }
    }

    fn size(&mut self, volume: u32, object: u32) -> Result<u32, DriveRefusal>
        ensures size { IfOk result (λ n. (o : Objects) → AreObjects self.old.held volume o → (object < length o) × (n ≡ length (get_or o object []))) }
        ensures missing { IsErrOf result NoObject → (o : Objects) → AreObjects self.old.held volume o → length o ≤ object }
        ensures asked { IsAsked result }
        ensures same { (v : ℕ) → Alike (AreObjects self.old.held v) (AreObjects self.new.held v) }
        ensures volumes { KeepsVolumes (λ v. has_volume v self.old.held) (λ v. has_volume v self.new.held) self.old.held.capacity self.new.held.capacity (λ v. lasting_in v self.old.held) (λ v. lasting_in v self.new.held) }
        ensures cause { HasCause result (has_volume volume self.old.held) self.old.faults self.new.faults }
        ensures answer { result ≡ answered self.old (of_object length object (volume_in volume self.old.held)) }
        ensures after { self.new ≡ after_call self.old self.old.held }
    {
        admit(&self.failing, &mut self.calls, &mut self.faults)?;
        self.drive.size(volume, object)
    }

    fn read(
        &mut self,
        volume: u32,
        object: u32,
        at: u32,
        buf: &mut [u8],
    ) -> Result<u32, DriveRefusal>
        ensures bytes { IfOk result (λ n. (o : Objects) → AreObjects self.old.held volume o → (object < length o) × (take n buf.new ≡ read_from at (length buf.old) (get_or o object [])) × (n ≡ length (read_from at (length buf.old) (get_or o object [])))) }
        ensures count { IfOk result (λ n. n ≤ length buf.old) }
        ensures missing { IsErrOf result NoObject → (o : Objects) → AreObjects self.old.held volume o → length o ≤ object }
        ensures asked { IsAsked result }
        ensures same { (v : ℕ) → Alike (AreObjects self.old.held v) (AreObjects self.new.held v) }
        ensures volumes { KeepsVolumes (λ v. has_volume v self.old.held) (λ v. has_volume v self.new.held) self.old.held.capacity self.new.held.capacity (λ v. lasting_in v self.old.held) (λ v. lasting_in v self.new.held) }
        ensures cause { HasCause result (has_volume volume self.old.held) self.old.faults self.new.faults }
        ensures answer { result ≡ answered self.old (of_object (λ bytes. length (read_from at (length buf.old) bytes)) object (volume_in volume self.old.held)) }
        ensures after { self.new ≡ after_call self.old self.old.held }
        ensures refused { IsErr result → buf.new ≡ buf.old }
    {
        admit(&self.failing, &mut self.calls, &mut self.faults)?;
        self.drive.read(volume, object, at, buf)
    }

    fn sync(&mut self, volume: u32) -> Result<(), DriveRefusal>
        ensures lasts { OnOk result ((o : Objects) → AreObjects self.new.held volume o → length o ≤ lasting_in volume self.new.held) }
        ensures asked { IsAsked result }
        ensures volume { IsErrOf result NoObject → ⊥ }
        ensures same { (v : ℕ) → Alike (AreObjects self.old.held v) (AreObjects self.new.held v) }
        ensures volumes { KeepsVolumes (λ v. has_volume v self.old.held) (λ v. has_volume v self.new.held) self.old.held.capacity self.new.held.capacity (λ v. lasting_in v self.old.held) (λ v. lasting_in v self.new.held) }
        ensures cause { HasCause result (has_volume volume self.old.held) self.old.faults self.new.faults }
        ensures answer { result ≡ answered self.old (of_volume (λ x. Ok tt) (volume_in volume self.old.held)) }
        ensures after { self.new ≡ after_call self.old (change_volume volume synced self.old.held) }
    {
        admit(&self.failing, &mut self.calls, &mut self.faults)?;
        self.drive.sync(volume)
    }

    fn objects(&mut self, volume: u32) -> Result<u32, DriveRefusal>
        ensures count { IfOk result (λ n. (o : Objects) → AreObjects self.old.held volume o → n ≡ length o) }
        ensures asked { IsAsked result }
        ensures volume { IsErrOf result NoObject → ⊥ }
        ensures same { (v : ℕ) → Alike (AreObjects self.old.held v) (AreObjects self.new.held v) }
        ensures volumes { KeepsVolumes (λ v. has_volume v self.old.held) (λ v. has_volume v self.new.held) self.old.held.capacity self.new.held.capacity (λ v. lasting_in v self.old.held) (λ v. lasting_in v self.new.held) }
        ensures cause { HasCause result (has_volume volume self.old.held) self.old.faults self.new.faults }
        ensures answer { result ≡ answered self.old (of_volume (λ x. Ok (length x.objects)) (volume_in volume self.old.held)) }
        ensures after { self.new ≡ after_call self.old self.old.held }
    {
        admit(&self.failing, &mut self.calls, &mut self.faults)?;
        self.drive.objects(volume)
    }
}

// The call with that number, if it is to fail.
fn failing_at(failing: &[FailingCall], number: u64) -> Option<FailingCall>
    ensures { result ≡ find (λ call. nat_eq call.number number) failing.now }
{
    failing.iter().find(|call| call.number == number).copied()
}

// Counts a call, which fails if it is to.
fn admit(failing: &[FailingCall], calls: &mut u64, faults: &mut u64) -> Result<(), DriveRefusal>
    ensures answer { MatchResult result (λ done. find (λ call. nat_eq call.number calls.old) failing.now ≡ None) (λ why. (why ≡ Failed) × (is_some (find (λ call. nat_eq call.number calls.old) failing.now) ≡ true)) }
    ensures calls { calls.new ≡ raised calls.old }
    ensures ok { OnOk result (faults.new ≡ faults.old) }
    ensures err { OnErr result (faults.new ≡ raised faults.old) }
    ensures rises { OnErr result (faults.old ≤ raised faults.old) }
{
    let fails = failing_at(failing, *calls).is_some();
    *calls = calls.saturating_add(1);
    if fails {
        *faults = faults.saturating_add(1);
        return Err(DriveRefusal::Failed);
    }
    Ok(())
}

// The first bytes, at most so many.
fn front(bytes: &[u8], most: u32) -> &[u8]
    ensures { result.now ≡ take most bytes.now }
{
    &bytes[..bytes.len().min(most as usize)]
}

// Whether there was no memory.
fn lacks_memory(outcome: &Result<u32, DriveRefusal>) -> bool
    ensures { IsTrue result ↔ (outcome.now ≡ Err Memory) }
{
    matches!(outcome, Err(DriveRefusal::Memory))
}

// What is stored as that object, where these bytes are appended.
fn stored<'a>(damages: &'a [Damage], volume: u32, object: u32, bytes: &'a [u8]) -> &'a [u8]
    requires { length bytes.now < 2 ^ 32 }
    ensures stored { result.now ≡ option_map_or (λ x. x.bytes) (find (is_of volume object) (reverse damages.now)) bytes.now }
    ensures short { length result.now < 2 ^ 32 }
{
    match damages.iter().rev().find(|damage| damage.volume == volume && damage.object == object) {
        Some(damage) => damage.bytes.as_slice(),
        None => bytes,
    }
}
