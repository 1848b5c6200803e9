//! A drive in memory that never fails.
ghost use Rattle.std.specs.Prelude.{◌≡◌, ◌+◌, ◌<◌, ◌≤◌, ◌^◌, ℕ, [], length, nat_eq, if◌then◌else◌, true, Ok, Err, Some, None, IfOk, IfSome};
ghost use Rattle.std.specs.Prelude.{OnOk, OnErr, MatchResult, MatchOption, slice_set, take};
ghost use Rattle.std.specs.List.{list_any, list_all};
ghost use Rattle.std.specs.Map.{lookup, keys_of};
ghost use Rattle.std.specs.Option.{option_map_or};
ghost use Rattle.media_model.specs.Objects.{read_from};
ghost use Rattle.media_model.specs.Memory.{no_objects, volume_in, has_volume, objects_in, of_volume, of_object, number_in, with_object, synced};
ghost use Rattle.media_model.specs.Memory.{change_entry, change_volume, Appends};
ghost use Rattle.media_model.specs.Sharing.{is_shared};
ghost use Rattle.media_model.specs.declared.drive.DriveRefusal.TheVariants.{NoVolume};

use crate::volume::{ObjectBytes, Volume};
use crate::{Drive, DriveRefusal};
use indexmap::IndexMap;
use std::alloc::{AllocError, Global};
use std::marker::Model;

/// A drive in memory that never fails and damages nothing. Contracts see what it holds.
#[derive(Drop)]
pub struct SureDrive {
    alloc: Global,
    capacity: u64,
    volumes: IndexMap<u32, Volume>,
}

impl Model for SureDrive {
    ghost use Rattle.media_model.specs.Memory.{Held};

    ghost Value = { Held };

    ghost view = { λ d. record { volumes = d.volumes.entries; capacity = d.capacity } };
}

impl SureDrive {
    /// A drive with these volumes, without objects. The objects of each may have so many bytes together.
    pub fn new(alloc: Global, volumes: &[u32], capacity: u64) -> Result<SureDrive, AllocError>
        ensures capacity { IfOk result (λ d. d.capacity ≡ capacity) }
        ensures volumes { IfOk result (λ d. (v : ℕ) → volume_in v d ≡ (if list_any (nat_eq v) volumes.now then Some no_objects else None)) }
    {
        let mut table = IndexMap::new(alloc);
        for number in volumes {
            table.insert(*number, Volume::new(alloc))?;
        }
        Ok(SureDrive {
            alloc,
            capacity,
            volumes: table,
        })
    }

    pub(crate) fn capacity(&self) -> u64
        ensures { result ≡ self.now.capacity }
    {
        self.capacity
    }

    // Whether each of its volumes is one that the drive of that number shares.
    pub(crate) fn shares_only(&self, number: usize, drives: usize, volumes: u32) -> bool
        requires { 0 < drives }
        ensures { result ≡ list_all (is_shared number drives volumes) (keys_of self.now.volumes) }
    {
        self.volumes.keys().all(|volume| *volume < volumes && *volume as usize % drives == number)
    }

    /// The objects of the volume, in the order of their numbers.
    pub fn objects_of(&self, volume: u32) -> Option<&[ObjectBytes]>
        ensures { MatchOption result (objects_in volume self.now ≡ None) (λ o. objects_in volume self.now ≡ Some o.now) }
    {
        Some(self.volumes.get(&volume)?.objects())
    }

    pub(crate) fn volume(&self, volume: u32) -> Result<&Volume, DriveRefusal>
        ensures { MatchResult result (λ x. volume_in volume self.now ≡ Some x.now) (λ why. (why ≡ NoVolume) × (volume_in volume self.now ≡ None)) }
    {
        self.volumes.get(&volume).ok_or(DriveRefusal::NoVolume)
    }

    pub(crate) fn object(&self, volume: u32, object: u32) -> Result<&ObjectBytes, DriveRefusal>
        ensures { MatchResult result (λ o. of_object (λ bytes. bytes) object (volume_in volume self.now) ≡ Ok o.now) (λ why. of_object (λ bytes. bytes) object (volume_in volume self.now) ≡ Err why) }
    {
        self.volume(volume)?
            .object(object)
            .ok_or(DriveRefusal::NoObject)
    }

    /// The number of the next object of the volume; 0 where the volume isn't there.
    pub(crate) fn next(&self, volume: u32) -> u32
        ensures { result ≡ option_map_or (λ x. length x.objects) (volume_in volume self.now) 0 }
    {
        match self.volumes.get(&volume) {
            Some(volume) => volume.objects().len() as u32,
            None => 0,
        }
    }

    /// The number that an object of so many bytes would have.
    fn number(&self, volume: u32, len: u64) -> Result<u32, DriveRefusal>
        ensures { result ≡ of_volume (number_in len self.now.capacity) (volume_in volume self.now) }
    {
        let volume = self.volume(volume)?;
        let used = volume.used();
        let capacity = self.capacity;
        if used > capacity || len > capacity - used {
            return Err(DriveRefusal::Full {
                used,
                len,
                capacity,
            });
        }
        Ok(volume.objects().len() as u32)
    }

    /// An append of an object of so many bytes, which is stored as these.
    pub(crate) fn append_as(
        &mut self,
        volume: u32,
        len: u64,
        stored: &[u8],
    ) -> Result<u32, DriveRefusal>
        requires { length stored.now < 2 ^ 32 }
        ensures { Appends result volume len stored.now self.old self.new }
    {
        let number = self.number(volume, len)?;
        self.put(volume, stored)?;
        Ok(number)
    }

    /// An object more, however full the volume is. Where the volume isn't there, nothing happens.
    pub(crate) fn put(&mut self, volume: u32, bytes: &[u8]) -> Result<(), AllocError>
        requires { length bytes.now < 2 ^ 32 }
        ensures ok { OnOk result (self.new ≡ change_volume volume (with_object bytes.now) self.old) }
        ensures err { OnErr result (self.new ≡ self.old) }
        ensures there { OnErr result (has_volume volume self.old ≡ true) }
    {
        if !self.volumes.contains_key(&volume) {
            return Ok(());
        }
        let object = ObjectBytes::copy(self.alloc, bytes)?;
        push(&mut self.volumes, volume, object)
    }

    /// Other bytes in the place of an object's, if it is there.
    pub(crate) fn replace(&mut self, volume: u32, object: u32, bytes: ObjectBytes)
        requires { length bytes < 2 ^ 32 }
        ensures { self.new ≡ change_volume volume (λ x. record x { objects = slice_set x.objects object bytes }) self.old }
    {
        replace(&mut self.volumes, volume, object, bytes);
    }

    /// Makes the objects of the volume last, if it is there.
    fn make_last(&mut self, volume: u32)
        ensures after { self.new ≡ change_volume volume synced self.old }
        ensures within { IfSome (volume_in volume self.old) (λ x. x.lasting ≤ length x.objects) }
    {
        sync(&mut self.volumes, volume);
    }
}

impl Drive for SureDrive {
    ghost use Rattle.std.specs.Prelude.{◌≡◌, ◌+◌, ◌<◌, ◌≤◌, ℕ, [], length, true, Ok, Err, get_or, take, OnOk, IfOk, IsErr, IsErrOf, refl};
    ghost use Rattle.media_model.specs.Objects.{Objects, longest_object, size_of, read_from, Adds, AddsOne, Follows, Alike, HasCause};
    ghost use Rattle.media_model.specs.Objects.{IsAsked, KeepsVolumes};
    ghost use Rattle.media_model.specs.Memory.{volume_in, has_volume, lasting_in, AreObjects, of_volume, of_object, change_volume, synced, Appends};
    ghost use Rattle.media_model.specs.Memory.{gives_has, has_gives};
    ghost use Rattle.media_model.specs.Memory.{content_in, gives_content};
    ghost use Rattle.media_model.specs.declared.drive.DriveRefusal.TheVariants.{Failed, Full, NoObject};

    ghost has = { λ d v. has_volume v d };

    ghost gives = { λ d v o. AreObjects d v o };

    ghost content = { λ d v. content_in v d };

    ghost lasting = { λ d v. lasting_in v d };

    ghost capacity_of = { λ d. d.capacity };

    ghost fault_count = { λ d. 0 };

    ghost sure = { true };

    ghost given_there = { λ d v o given. gives_has d v o given };

    ghost one_content = { λ d v o given. gives_content d v o given };

    ghost sure_counts = { λ is d. refl };

    ghost sure_tells = { λ is d v there. has_gives d v there };

    fn faults(&self) -> u64
        ensures { result ≡ 0 }
    {
        0
    }

    fn append(&mut self, volume: u32, bytes: &[u8]) -> Result<u32, DriveRefusal>
        requires { length bytes.now ≤ longest_object }
        ensures number { IfOk result (λ n. (o : Objects) → AreObjects self.old volume o → n ≡ length o) }
        ensures one_more { OnOk result (Follows AddsOne (AreObjects self.old volume) (AreObjects self.new volume)) }
        ensures exact { OnOk result (Follows (Adds bytes.now) (AreObjects self.old volume) (AreObjects self.new volume)) }
        ensures fits { OnOk result ((o : Objects) → AreObjects self.old volume o → size_of o + length bytes.now ≤ self.old.capacity) }
        ensures failed { IsErrOf result Failed → ⊥ }
        ensures unchanged { IsErr result → (IsErrOf result Failed → ⊥) → Alike (AreObjects self.old volume) (AreObjects self.new volume) }
        ensures full { (used len capacity : ℕ) → result ≡ Err (Full used len capacity) → (len ≡ length bytes.now) × (capacity ≡ self.old.capacity) × (capacity < used + len) × ((o : Objects) → AreObjects self.old volume o → used ≡ size_of o) }
        ensures appends { IsErrOf result NoObject → ⊥ }
        ensures others { (v : ℕ) → (v ≡ volume → ⊥) → Alike (AreObjects self.old v) (AreObjects self.new v) }
        ensures volumes { KeepsVolumes (λ v. has_volume v self.old) (λ v. has_volume v self.new) self.old.capacity self.new.capacity (λ v. lasting_in v self.old) (λ v. lasting_in v self.new) }
        ensures cause { HasCause result (has_volume volume self.old) 0 0 }
        ensures whole { Appends result volume (length bytes.now) bytes.now self.old self.new }
    {
        self.append_as(volume, bytes.len() as u64, bytes)
    }

    fn size(&mut self, volume: u32, object: u32) -> Result<u32, DriveRefusal>
        ensures size { IfOk result (λ n. (o : Objects) → AreObjects self.old volume o → (object < length o) × (n ≡ length (get_or o object []))) }
        ensures missing { IsErrOf result NoObject → (o : Objects) → AreObjects self.old volume o → length o ≤ object }
        ensures asked { IsAsked result }
        ensures same { (v : ℕ) → Alike (AreObjects self.old v) (AreObjects self.new v) }
        ensures volumes { KeepsVolumes (λ v. has_volume v self.old) (λ v. has_volume v self.new) self.old.capacity self.new.capacity (λ v. lasting_in v self.old) (λ v. lasting_in v self.new) }
        ensures cause { HasCause result (has_volume volume self.old) 0 0 }
        ensures answer { result ≡ of_object length object (volume_in volume self.old) }
        ensures held { self.new ≡ self.old }
    {
        let bytes = self.object(volume, object)?;
        Ok(bytes.as_slice().len() as u32)
    }

    fn read(
        &mut self,
        volume: u32,
        object: u32,
        at: u32,
        buf: &mut [u8],
    ) -> Result<u32, DriveRefusal>
        ensures bytes { IfOk result (λ n. (o : Objects) → AreObjects self.old volume o → (object < length o) × (take n buf.new ≡ read_from at (length buf.old) (get_or o object [])) × (n ≡ length (read_from at (length buf.old) (get_or o object [])))) }
        ensures count { IfOk result (λ n. n ≤ length buf.old) }
        ensures missing { IsErrOf result NoObject → (o : Objects) → AreObjects self.old volume o → length o ≤ object }
        ensures asked { IsAsked result }
        ensures same { (v : ℕ) → Alike (AreObjects self.old v) (AreObjects self.new v) }
        ensures volumes { KeepsVolumes (λ v. has_volume v self.old) (λ v. has_volume v self.new) self.old.capacity self.new.capacity (λ v. lasting_in v self.old) (λ v. lasting_in v self.new) }
        ensures cause { HasCause result (has_volume volume self.old) 0 0 }
        ensures answer { result ≡ of_object (λ bytes. length (read_from at (length buf.old) bytes)) object (volume_in volume self.old) }
        ensures held { self.new ≡ self.old }
        ensures refused { IsErr result → buf.new ≡ buf.old }
    {
        let bytes = self.object(volume, object)?;
        Ok(read_at(bytes.as_slice(), at as usize, buf) as u32)
    }

    fn sync(&mut self, volume: u32) -> Result<(), DriveRefusal>
        ensures lasts { OnOk result ((o : Objects) → AreObjects self.new volume o → length o ≤ lasting_in volume self.new) }
        ensures asked { IsAsked result }
        ensures volume { IsErrOf result NoObject → ⊥ }
        ensures same { (v : ℕ) → Alike (AreObjects self.old v) (AreObjects self.new v) }
        ensures volumes { KeepsVolumes (λ v. has_volume v self.old) (λ v. has_volume v self.new) self.old.capacity self.new.capacity (λ v. lasting_in v self.old) (λ v. lasting_in v self.new) }
        ensures cause { HasCause result (has_volume volume self.old) 0 0 }
        ensures answer { result ≡ of_volume (λ x. Ok tt) (volume_in volume self.old) }
        ensures held { self.new ≡ change_volume volume synced self.old }
    {
        self.volume(volume)?;
        self.make_last(volume);
        Ok(())
    }

    fn objects(&mut self, volume: u32) -> Result<u32, DriveRefusal>
        ensures count { IfOk result (λ n. (o : Objects) → AreObjects self.old volume o → n ≡ length o) }
        ensures asked { IsAsked result }
        ensures volume { IsErrOf result NoObject → ⊥ }
        ensures same { (v : ℕ) → Alike (AreObjects self.old v) (AreObjects self.new v) }
        ensures volumes { KeepsVolumes (λ v. has_volume v self.old) (λ v. has_volume v self.new) self.old.capacity self.new.capacity (λ v. lasting_in v self.old) (λ v. lasting_in v self.new) }
        ensures cause { HasCause result (has_volume volume self.old) 0 0 }
        ensures answer { result ≡ of_volume (λ x. Ok (length x.objects)) (volume_in volume self.old) }
        ensures held { self.new ≡ self.old }
    {
        Ok(self.volume(volume)?.objects().len() as u32)
    }
}

// Puts the bytes from that place on into the buffer, as far as they fit, and tells how many.
fn read_at(bytes: &[u8], at: usize, buf: &mut [u8]) -> usize
    ensures count { result ≡ length (read_from at (length buf.old) bytes.now) }
    ensures there { take result buf.new ≡ read_from at (length buf.old) bytes.now }
{
    let rest = &bytes[at.min(bytes.len())..];
    let count = rest.len().min(buf.len());
    buf[..count].copy_from_slice(&rest[..count]);
    count
}

fn push(
    volumes: &mut IndexMap<u32, Volume>,
    volume: u32,
    object: ObjectBytes,
) -> Result<(), AllocError>
    requires { length object < 2 ^ 32 }
    ensures ok { OnOk result (volumes.new.entries ≡ change_entry volume (with_object object) volumes.old.entries) }
    ensures err { OnErr result (volumes.new.entries ≡ volumes.old.entries) }
{
    match volumes.get_mut(&volume) {
        Some(found) => found.push(object),
        None => Ok(()),
    }
}

fn replace(volumes: &mut IndexMap<u32, Volume>, volume: u32, object: u32, bytes: ObjectBytes)
    requires { length bytes < 2 ^ 32 }
    ensures { volumes.new.entries ≡ change_entry volume (λ x. record x { objects = slice_set x.objects object bytes }) volumes.old.entries }
{
    if let Some(found) = volumes.get_mut(&volume) {
        found.replace(object, bytes);
    }
}

fn sync(volumes: &mut IndexMap<u32, Volume>, volume: u32)
    ensures after { volumes.new.entries ≡ change_entry volume synced volumes.old.entries }
    ensures within { IfSome (lookup (nat_eq volume) volumes.old.entries) (λ x. x.lasting ≤ length x.objects) }
{
    if let Some(found) = volumes.get_mut(&volume) {
        found.sync();
    }
}
