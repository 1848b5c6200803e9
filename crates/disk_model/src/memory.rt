//! A disk in memory, which fails at chosen calls, keeps a record of all, and tells what a crash may leave.
ghost use Rattle.std.specs.Prelude.{◌≡◌, ◌↔◌, [], All, Any, Contains, IsTrue, IfOk, count_by};
ghost use Rattle.disk_model.specs.Medium.{medium_of, IsGiven, MayLeave};
ghost use Rattle.disk_model.specs.Images.{Within};
ghost use Rattle.disk_model.specs.Crashes.{crashed, is_write};

use crate::bytes::overwrite;
use crate::choices::choices_of;
use crate::crashes::{Kept, count_writes, image_of, images_of, push_both, redo};
use crate::record::{Action, Call, WrittenBytes, note, raise};
use crate::{Disk, Failed};
use std::alloc::{AllocError, Global};
use std::marker::Model;

/// A disk in memory. The calls of `read`, `write` and `sync` are numbered from 0 in the order of the record, and those
/// whose numbers are in its list fail. A call for whose record there is no memory fails too, before it reaches the medium:
/// its fault is counted, it is counted as missed, and it has no number.
#[derive(Drop)]
pub struct MemDisk {
    alloc: Global,
    first: Vec<u8>,
    bytes: Vec<u8>,
    calls: Vec<Call>,
    // how many of the calls were made up to the last sync
    synced_calls: usize,
    failing: Vec<u64>,
    faults: u64,
    missed: u64,
}

impl Model for MemDisk {
    ghost use Rattle.disk_model.specs.Medium.{Recorded, IsSound};

    ghost Value = { Recorded };

    ghost view = { λ d. record { first = d.first.items; calls = d.calls.items; failing = d.failing.items; faults = d.faults; missed = d.missed } };

    ghost invariant = { λ d. IsSound d.first.items d.bytes.items d.calls.items d.synced_calls };
}

impl MemDisk {
    /// A disk that holds this image, all of it on the medium. The calls with these numbers will fail.
    pub fn new(alloc: Global, image: &[u8], failing: &[u64]) -> Result<MemDisk, AllocError>
        ensures made { IfOk result (λ d. d ≡ record { first = image.now; calls = []; failing = failing.now; faults = 0; missed = 0 }) }
        ensures settled { IfOk result (λ d. Within (IsGiven d) (MayLeave d)) }
    {
        Ok(MemDisk {
            alloc,
            first: image.to_vec(alloc)?,
            bytes: image.to_vec(alloc)?,
            calls: Vec::new(alloc),
            synced_calls: 0,
            failing: failing.to_vec(alloc)?,
            faults: 0,
            missed: 0,
        })
    }

    /// The calls that reached the medium or were to fail, the oldest first.
    pub fn calls(&self) -> &[Call]
        ensures { result.now ≡ self.now.calls }
    {
        &self.calls
    }

    /// How many calls failed for want of memory for their record.
    pub fn missed(&self) -> u64
        ensures { result ≡ self.now.missed }
    {
        self.missed
    }

    /// What a read gives.
    pub fn bytes(&self) -> &[u8]
        ensures { result.now ≡ (medium_of self.now).now }
    {
        &self.bytes
    }

    /// What the last sync that succeeded left, or what the disk began with.
    pub fn synced_image(&self) -> Result<Vec<u8>, AllocError>
        ensures { IfOk result (λ image. image.items ≡ (medium_of self.now).synced) }
    {
        let mut image = self.first.to_vec(self.alloc)?;
        redo(&mut image, &self.calls[..self.synced_calls]);
        Ok(image)
    }

    /// How many writes were called for since the last sync that succeeded, those that failed too.
    pub fn unsynced_writes(&self) -> usize
        ensures { result ≡ count_by is_write (medium_of self.now).pending }
    {
        count_writes(&self.calls[self.synced_calls..])
    }

    /// The image that a crash leaves where it has kept so much of each of these writes, in the order of the calls, and
    /// nothing of those past the list's end. For tests of one image: no crate calls it yet.
    pub fn crash_image(&self, kept: &[Kept]) -> Result<Vec<u8>, AllocError>
        ensures kept { IfOk result (λ image. image.items ≡ crashed (medium_of self.now).pending kept.now (medium_of self.now).synced) }
        ensures left { IfOk result (λ image. MayLeave self.now image.items) }
    {
        let content = self.synced_image()?;
        let calls = &self.calls[self.synced_calls..];
        let image = image_of(self.alloc, &content, calls, kept)?;
        Ok(image)
    }

    /// Images that a crash may leave. Of up to four unsynced writes each subset is kept; of more, each alone, and each with
    /// all before it. Then for each write its front half behind all before it, and its back half alone. The last two are
    /// what the last sync left, and what a read gives.
    pub fn crash_images(&self) -> Result<Vec<Vec<u8>>, AllocError>
        ensures left { IfOk result (λ images. All (λ image. MayLeave self.now image.items) images.items) }
        ensures none_kept { IfOk result (λ images. Any (λ image. image.items ≡ (medium_of self.now).synced) images.items) }
        ensures all_given { IfOk result (λ images. Any (λ image. image.items ≡ (medium_of self.now).now) images.items) }
    {
        let content = self.synced_image()?;
        let mut images = self.chosen_images(&content)?;
        let bytes = self.bytes.to_vec(self.alloc)?;
        push_both(&mut images, content, bytes)?;
        Ok(images)
    }

    // The images that come of the choices of parts, over what the last sync left.
    fn chosen_images(&self, content: &[u8]) -> Result<Vec<Vec<u8>>, AllocError>
        requires { content.now ≡ (medium_of self.now).synced }
        ensures { IfOk result (λ images. All (λ image. MayLeave self.now image.items) images.items) }
    {
        let calls = &self.calls[self.synced_calls..];
        let choices = choices_of(self.alloc, count_writes(calls))?;
        let images = images_of(self.alloc, content, calls, &choices)?;
        Ok(images)
    }

    /// Counts faults from 0 again.
    pub fn reset_faults(&mut self)
        ensures { self.new ≡ record self.old { faults = 0 } }
    {
        self.faults = 0;
    }

    /// Takes what a read gives for what lies on the medium, and begins a new record, with no fault and no missed call.
    pub fn settle(&mut self)
        ensures anew { self.new ≡ record { first = (medium_of self.old).now; calls = []; failing = self.old.failing; faults = 0; missed = 0 } }
        ensures settled { Within (IsGiven self.new) (MayLeave self.new) }
    {
        self.first.copy_from_slice(&self.bytes);
        self.calls.clear();
        self.synced_calls = 0;
        self.faults = 0;
        self.missed = 0;
    }
}

impl Disk for MemDisk {
    ghost use Rattle.std.specs.Prelude.{◌≡◌, ◌+◌, ◌≤◌, ℕ, List, length, OnOk};
    ghost use Rattle.std.proofs.Common.{ap};
    ghost use Rattle.disk_model.specs.Images.{part, IsFreed, IsWritten, Follows, Within, Alike};
    ghost use Rattle.disk_model.specs.Calls.{Elapses, HasCause};
    ghost use Rattle.disk_model.specs.Medium.{medium_of, IsGiven, MayLeave, LeftSince, left_now, now_left, Records};
    ghost use Rattle.disk_model.specs.declared.record.Action.TheVariants.{Read, Write, Sync};

    ghost gives = { IsGiven };

    ghost content = { λ d. (medium_of d).now };

    ghost may_leave = { MayLeave };

    ghost moment = { λ d. length d.calls };

    ghost left_since = { λ d t c. LeftSince d.first d.calls t c };

    ghost length_of = { λ d. length (medium_of d).now };

    ghost fault_count = { λ d. d.faults };

    ghost counts_now = { λ d t c le left. left_now d.first d.calls t c le left };

    ghost only_now = { λ d c left. now_left d.first d.calls c left };

    ghost one_content = { λ d c given. given };

    ghost given_length = { λ d c given. ap length given };

    ghost left_length = { λ d c left. left.size };

    fn len(&self) -> u64 {
        self.bytes.len() as u64
    }

    fn faults(&self) -> u64 {
        self.faults
    }

    fn read(&mut self, at: u64, buf: &mut [u8]) -> Result<(), Failed>
        requires { at + length buf.old ≤ length (medium_of self.old).now }
        ensures bytes { OnOk result ((c : List ℕ) → IsGiven self.old c → buf.new ≡ part c at (length buf.old)) }
        ensures given { Alike (IsGiven self.old) (IsGiven self.new) }
        ensures crash { Within (MayLeave self.old) (MayLeave self.new) }
        ensures time { Elapses (length self.old.calls) (length self.new.calls) (LeftSince self.old.first self.old.calls) (LeftSince self.new.first self.new.calls) (MayLeave self.new) }
        ensures length { length (medium_of self.new).now ≡ length (medium_of self.old).now }
        ensures cause { HasCause result self.old.faults self.new.faults }
        ensures recorded { Records result (Read at (length buf.old)) self.old self.new }
    {
        let fails = is_listed(&self.failing, self.calls.len());
        let action = Action::Read {
            at,
            len: buf.len() as u64,
        };
        note(
            &mut self.calls,
            &mut self.faults,
            &mut self.missed,
            action,
            fails,
        )?;
        let from = at as usize;
        buf.copy_from_slice(&self.bytes[from..from + buf.len()]);
        Ok(())
    }

    fn write(&mut self, at: u64, bytes: &[u8]) -> Result<(), Failed>
        requires { at + length bytes.now ≤ length (medium_of self.old).now }
        ensures written { OnOk result (Follows (IsWritten at bytes.now) (IsGiven self.old) (IsGiven self.new)) }
        ensures given { Follows (IsFreed at (length bytes.now)) (IsGiven self.old) (IsGiven self.new) }
        ensures crash { Follows (IsFreed at (length bytes.now)) (MayLeave self.old) (MayLeave self.new) }
        ensures time { Elapses (length self.old.calls) (length self.new.calls) (LeftSince self.old.first self.old.calls) (LeftSince self.new.first self.new.calls) (MayLeave self.new) }
        ensures length { length (medium_of self.new).now ≡ length (medium_of self.old).now }
        ensures cause { HasCause result self.old.faults self.new.faults }
        ensures recorded { Records result (Write at bytes.now) self.old self.new }
    {
        let fails = is_listed(&self.failing, self.calls.len());
        let Ok(copy) = WrittenBytes::copy(self.alloc, bytes) else {
            raise(&mut self.faults);
            raise(&mut self.missed);
            return Err(Failed);
        };
        note(
            &mut self.calls,
            &mut self.faults,
            &mut self.missed,
            Action::Write { at, bytes: copy },
            fails,
        )?;
        overwrite(&mut self.bytes, at as usize, bytes);
        Ok(())
    }

    fn sync(&mut self) -> Result<(), Failed>
        ensures durable { OnOk result (Within (IsGiven self.new) (MayLeave self.new)) }
        ensures given { Alike (IsGiven self.old) (IsGiven self.new) }
        ensures crash { Within (MayLeave self.old) (MayLeave self.new) }
        ensures time { Elapses (length self.old.calls) (length self.new.calls) (LeftSince self.old.first self.old.calls) (LeftSince self.new.first self.new.calls) (MayLeave self.new) }
        ensures length { length (medium_of self.new).now ≡ length (medium_of self.old).now }
        ensures cause { HasCause result self.old.faults self.new.faults }
        ensures recorded { Records result Sync self.old self.new }
    {
        let fails = is_listed(&self.failing, self.calls.len());
        note(
            &mut self.calls,
            &mut self.faults,
            &mut self.missed,
            Action::Sync,
            fails,
        )?;
        self.synced_calls = self.calls.len();
        Ok(())
    }
}

// Whether the call with this number is to fail.
fn is_listed(failing: &[u64], number: usize) -> bool
    ensures { IsTrue result ↔ Contains failing.now number }
{
    failing.contains(&(number as u64))
}
