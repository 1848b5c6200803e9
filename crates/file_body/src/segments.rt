//! A segment of a body.
ghost use Rattle.std.specs.Prelude.{◌≡◌, ◌+◌, ◌≤◌, ◌++◌, ◌↔◌, true, false, length, take, drop, replicate, IfOk, OnOk, OnErr, IfSome, IsSome, IsOk};
ghost use Rattle.file_body.specs.HeldBodies.{AreZeros};

use hsm_types::SEGMENT_BYTES;
use std::alloc::{AllocError, Global};
use std::marker::Model;

/// The bytes of a full segment.
pub const FULL: usize = SEGMENT_BYTES as usize;

/// What is read of a segment that is away, or behind the end of a body.
pub(crate) static ZEROS: [u8; FULL] = [0; FULL];

/// A segment of a body, at most [`FULL`] bytes, which are here or away. Contracts see the bytes, with zeros in the place of those that are away.
#[derive(Drop)]
pub struct Segment {
    content: Content,
}

#[derive(Drop)]
enum Content {
    /// Its bytes.
    Here(Vec<u8>),
    /// How many bytes it has on another medium.
    Away(usize),
}

impl Model for Segment {
    ghost use Rattle.file_body.specs.HeldBodies.{HeldSegment};

    ghost Value = { HeldSegment };

    ghost use Rattle.file_body.specs.Contents.{held, FitsZeros};

    ghost view = { λ s. held s.content };

    ghost invariant = { λ s. FitsZeros s.content };
}

impl Segment {
    /// So many zeros, which are here.
    pub fn zeros(alloc: Global, count: usize) -> Result<Segment, AllocError>
        ensures { IfOk result (λ s. s ≡ record { bytes = replicate count 0; away = false }) }
    {
        Ok(Segment {
            content: Content::Here(vec![in alloc; 0; count]?),
        })
    }

    /// So many bytes that are away. It takes no memory.
    pub fn away(count: usize) -> Segment
        requires { count ≤ FULL }
        ensures { result ≡ record { bytes = replicate count 0; away = true } }
    {
        Segment {
            content: Content::Away(count),
        }
    }

    pub fn len(&self) -> usize
        ensures { result ≡ length self.now.bytes }
    {
        match &self.content {
            Content::Here(bytes) => bytes.len(),
            Content::Away(count) => *count,
        }
    }

    /// The bytes, or as many zeros where they are away.
    pub fn as_slice(&self) -> &[u8]
        ensures { result.now ≡ self.now.bytes }
    {
        match &self.content {
            Content::Here(bytes) => bytes.as_slice(),
            Content::Away(count) => &ZEROS[..*count],
        }
    }

    /// The bytes, if they are here.
    pub fn here(&self) -> Option<&[u8]>
        ensures bytes { IfSome result (λ bytes. bytes.now ≡ self.now.bytes) }
        ensures here { IsSome result ↔ (self.now.away ≡ false) }
    {
        match &self.content {
            Content::Here(bytes) => Some(bytes.as_slice()),
            Content::Away(_) => None,
        }
    }

    /// Zeros in the place of the bytes, if they are away.
    pub fn stand_in(&self, alloc: Global) -> Result<Option<Segment>, AllocError>
        ensures zeros { IfOk result (λ zeros. IfSome zeros (λ s. s ≡ record { bytes = self.now.bytes; away = false })) }
        ensures away { IfOk result (λ zeros. IsSome zeros ↔ (self.now.away ≡ true)) }
        ensures were { self.now.away ≡ true → AreZeros self.now.bytes }
        ensures here { self.now.away ≡ false → IsOk result }
    {
        match &self.content {
            Content::Here(_) => Ok(None),
            Content::Away(count) => Ok(Some(Segment::zeros(alloc, *count)?)),
        }
    }

    /// The bytes go away, and their memory is free.
    pub fn leave(&mut self)
        requires { length self.old.bytes ≤ FULL }
        ensures { self.new ≡ record { bytes = replicate (length self.old.bytes) 0; away = true } }
    {
        self.content = Content::Away(self.len());
    }

    /// Adds so many zeros. It takes no memory where the segment is away.
    pub fn lengthen(&mut self, count: usize) -> Result<(), AllocError>
        requires { length self.old.bytes + count ≤ FULL }
        ensures ok { OnOk result (self.new ≡ record self.old { bytes = self.old.bytes ++ replicate count 0 }) }
        ensures err { OnErr result (self.new ≡ self.old) }
    {
        let end = self.len() + count;
        match &mut self.content {
            Content::Here(bytes) => bytes.resize(end, 0)?,
            Content::Away(zeros) => *zeros = end,
        }
        Ok(())
    }

    /// Keeps so many bytes. It takes no memory.
    pub fn cut(&mut self, count: usize)
        ensures { self.new ≡ record self.old { bytes = take count self.old.bytes } }
    {
        match &mut self.content {
            Content::Here(bytes) => bytes.truncate(count),
            Content::Away(zeros) => *zeros = count.min(*zeros),
        }
    }

    /// Writes the bytes over those at that place.
    pub fn overwrite(&mut self, place: usize, bytes: &[u8])
        requires within { place + length bytes.now ≤ length self.old.bytes }
        requires here { self.old.away ≡ false }
        ensures { self.new ≡ record self.old { bytes = take place self.old.bytes ++ bytes.now ++ drop (place + length bytes.now) self.old.bytes } }
    {
        match &mut self.content {
            Content::Here(all) => paste(all.as_mut_slice(), place, bytes),
            Content::Away(_) => unreachable!(),
        }
    }
}

fn paste(all: &mut [u8], place: usize, bytes: &[u8])
    requires { place + length bytes.now ≤ length all.old }
    ensures { all.new ≡ take place all.old ++ bytes.now ++ drop (place + length bytes.now) all.old }
{
    all[place..place + bytes.len()].copy_from_slice(bytes);
}
