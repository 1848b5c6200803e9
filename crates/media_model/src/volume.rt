//! A volume in memory.
ghost use Rattle.std.specs.Prelude.{◌≡◌, ◌+◌, ◌<◌, ◌≤◌, ◌^◌, length, IfOk, IfSome, OnOk, OnErr, MatchOption, slice_get, slice_set, Some, None};
ghost use Rattle.media_model.specs.Objects.{size_of};
ghost use Rattle.media_model.specs.Memory.{no_objects, with_object, synced};

use std::alloc::{AllocError, Global};
use std::marker::Model;

/// The bytes of an object. Contracts see them as a list.
#[derive(Drop)]
pub struct ObjectBytes {
    bytes: Vec<u8>,
}

impl Model for ObjectBytes {
    ghost use Rattle.std.specs.Prelude.{ℕ, List, length, ◌<◌, ◌^◌};

    ghost Value = { List ℕ };

    ghost view = { λ o. o.bytes.items };

    ghost invariant = { λ o. length o.bytes.items < 2 ^ 32 };
}

impl ObjectBytes {
    pub(crate) fn copy(alloc: Global, bytes: &[u8]) -> Result<ObjectBytes, AllocError>
        requires { length bytes.now < 2 ^ 32 }
        ensures { IfOk result (λ o. o ≡ bytes.now) }
    {
        Ok(ObjectBytes {
            bytes: bytes.to_vec(alloc)?,
        })
    }

    pub fn as_slice(&self) -> &[u8]
        ensures bytes { result.now ≡ self.now }
        ensures short { length result.now < 2 ^ 32 }
    {
        &self.bytes
    }
}

/// The objects of a volume, and how many of them, from the first on, a sync has made last.
#[derive(Drop)]
pub(crate) struct Volume {
    objects: Vec<ObjectBytes>,
    /// How many bytes they have together.
    used: u64,
    lasting: usize,
}

impl Model for Volume {
    ghost use Rattle.media_model.specs.Memory.{Volume, IsVolume};

    ghost Value = { Volume };

    ghost view = { λ v. record { objects = v.objects.items; lasting = v.lasting } };

    ghost invariant = { λ v. IsVolume v.objects.items v.used v.lasting };
}

impl Volume {
    pub(crate) fn new(alloc: Global) -> Volume
        ensures { result ≡ no_objects }
    {
        Volume {
            objects: Vec::new(alloc),
            used: 0,
            lasting: 0,
        }
    }

    pub(crate) fn objects(&self) -> &[ObjectBytes]
        ensures objects { result.now ≡ self.now.objects }
        ensures few { length result.now < 2 ^ 32 }
    {
        &self.objects
    }

    pub(crate) fn object(&self, object: u32) -> Option<&ObjectBytes>
        ensures { MatchOption result (slice_get self.now.objects object ≡ None) (λ o. slice_get self.now.objects object ≡ Some o.now) }
    {
        self.objects.get(object as usize)
    }

    /// How many bytes its objects have together.
    pub(crate) fn used(&self) -> u64
        ensures { result ≡ size_of self.now.objects }
    {
        self.used
    }

    /// An object more. A volume has fewer than `u32::MAX` of them, so that each has a number; where no number is left, that is told as want of memory.
    pub(crate) fn push(&mut self, object: ObjectBytes) -> Result<(), AllocError>
        requires { length object < 2 ^ 32 }
        ensures ok { OnOk result (self.new ≡ with_object object self.old) }
        ensures err { OnErr result (self.new ≡ self.old) }
    {
        if self.objects.len() >= u32::MAX as usize {
            return Err(AllocError);
        }
        let len = object.as_slice().len() as u64;
        self.objects.push(object)?;
        self.used += len;
        Ok(())
    }

    /// Other bytes in the place of an object's, if it is there.
    pub(crate) fn replace(&mut self, object: u32, bytes: ObjectBytes)
        requires { length bytes < 2 ^ 32 }
        ensures { self.new ≡ record self.old { objects = slice_set self.old.objects object bytes } }
    {
        let len = bytes.as_slice().len() as u64;
        if let Some(place) = self.objects.get_mut(object as usize) {
            self.used -= place.as_slice().len() as u64;
            self.used += len;
            *place = bytes;
        }
    }

    pub(crate) fn sync(&mut self)
        ensures after { self.new ≡ synced self.old }
        ensures within { self.old.lasting ≤ length self.old.objects }
    {
        self.lasting = self.objects.len();
    }
}
