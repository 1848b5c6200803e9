//! The bytes of one file.
ghost use Rattle.std.specs.Prelude.{◌≡◌, ℕ, ◌+◌, ◌-◌, ◌*◌, ◌/◌, ◌%◌, ◌^◌, ◌≤◌, ◌<◌, ◌++◌, ◌&&◌, ◌||◌, ◌↔◌, true, false, nat_lt, nat_le, min, length};
ghost use Rattle.std.specs.Prelude.{take, drop, replicate, IfOk, IfSome, IsSome, OnOk, OnErr, IsOk};
ghost use Rattle.hsm_types.specs.Limits.{segment_bytes};
ghost use Rattle.plain_model.specs.Plain.{read_at, segment as segment_of, written, resized};
ghost use Rattle.file_body.specs.BodyBlocks.{block_of};
ghost use Rattle.file_body.specs.HeldBodies.{no_body, is_away, AreHere, AreZeros, KeepsHere, SameAway, Misses};

use crate::segment_lists;
use crate::segments::Segment;
use hsm_types::{BLOCK_BYTES, Bytes, FILE_BYTES};
use std::alloc::{AllocError, Global};
use std::marker::Model;

/// The bytes of one file, at most [`FILE_BYTES`] of them, in segments of
/// [`SEGMENT_BYTES`](hsm_types::SEGMENT_BYTES). A segment is here, or its bytes are away, on another medium, and it takes no memory.
/// Contracts see the bytes, with zeros in the place of those that are away, and which segments are away.
#[derive(Drop)]
pub struct Body {
    segments: Vec<Segment>,
}

impl Model for Body {
    ghost use Rattle.std.specs.Prelude.{◌≤◌, length};
    ghost use Rattle.std.specs.List.{concat};
    ghost use Rattle.hsm_types.specs.Limits.{file_bytes, segment_bytes};
    ghost use Rattle.file_body.specs.Segments.{IsCut};
    ghost use Rattle.file_body.specs.HeldBodies.{HeldBody, pieces, aways};

    ghost Value = { HeldBody };

    ghost view = { λ b. record { bytes = concat (pieces b.segments.items); away = aways b.segments.items } };

    ghost invariant = { λ b. IsCut segment_bytes (pieces b.segments.items) × (length (concat (pieces b.segments.items)) ≤ file_bytes) };
}

impl Body {
    /// No bytes. It takes no memory.
    pub fn new(alloc: Global) -> Body
        ensures { result ≡ no_body }
    {
        Body {
            segments: Vec::new(alloc),
        }
    }

    /// How many bytes there are. It costs the same for each body.
    pub fn len(&self) -> u64
        ensures len { result ≡ length self.now.bytes }
        ensures limit { result ≤ FILE_BYTES }
        ensures away { (j : ℕ) → is_away self.now j ≡ true → segment_bytes * j < result }
    {
        segment_lists::len(self.segments.as_slice()) as u64
    }

    /// At most so many bytes, from the offset on. It costs these bytes and the segments that they meet.
    pub fn read(&self, alloc: Global, offset: u64, len: u64) -> Result<Bytes, AllocError>
        ensures { IfOk result (λ bytes. bytes ≡ read_at offset len self.now.bytes) }
    {
        let size = segment_lists::len(self.segments.as_slice()) as u64;
        let start = offset.min(size);
        let count = len.min(size - start);
        let bytes = segment_lists::read(
            alloc,
            self.segments.as_slice(),
            start as usize,
            count as usize,
        )?;
        Ok(Bytes::from(bytes))
    }

    /// The bytes of a segment that is here, without a copy.
    pub fn segment(&self, segment: u32) -> Option<&[u8]>
        ensures bytes { IfSome result (λ bytes. bytes.now ≡ read_at (segment_bytes * segment) segment_bytes self.now.bytes) }
        ensures here { IsSome result ↔ ((segment_bytes * segment < length self.now.bytes) × (is_away self.now segment ≡ false)) }
    {
        segment_lists::here(self.segments.as_slice(), segment as usize)
    }

    /// Fills the buffer with a block of the body, and zeros past the body's end. It takes no memory and costs the block.
    pub fn fill_block(&self, block: u32, buffer: &mut [u8])
        requires { length buffer.old ≡ BLOCK_BYTES }
        ensures { buffer.new ≡ block_of self.now.bytes block }
    {
        segment_lists::fill_block(self.segments.as_slice(), block as usize, buffer);
    }

    /// Fills the buffer with a block of the body as it will be once the bytes are written at the offset, and zeros past its end then. It takes no
    /// memory and costs the block.
    pub fn fill_written_block(&self, block: u32, offset: u64, bytes: &[u8], buffer: &mut [u8])
        requires len { length buffer.old ≡ BLOCK_BYTES }
        requires end { offset + length bytes.now ≤ FILE_BYTES }
        ensures { buffer.new ≡ block_of (written offset bytes.now self.now.bytes) block }
    {
        self.fill_block(block, buffer);
        overlay(buffer, u64::from(block) * BLOCK_BYTES, offset, bytes);
    }

    /// Writes the bytes at the offset, in place. Zeros fill what lies between the old end and the offset. What is away of the segments that the bytes
    /// meet comes as zeros first.
    pub fn write(&mut self, alloc: Global, offset: u64, bytes: &[u8]) -> Result<(), AllocError>
        requires { offset + length bytes.now ≤ FILE_BYTES }
        ensures ok { OnOk result (self.new.bytes ≡ written offset bytes.now self.old.bytes) }
        ensures keeps { OnOk result (KeepsHere self.old self.new) }
        ensures here { OnOk result (AreHere offset (offset + length bytes.now) self.new) }
        ensures others { OnOk result ((j : ℕ) → Misses offset (offset + length bytes.now) j → is_away self.new j ≡ is_away self.old j) }
        ensures same { AreHere offset (offset + length bytes.now) self.old → SameAway self.old self.new }
        ensures err { OnErr result (self.new ≡ self.old) }
        ensures in_place { offset + length bytes.now ≤ length self.old.bytes → AreHere offset (offset + length bytes.now) self.old → IsOk result }
    {
        let start = offset as usize;
        self.ready(alloc, start, start + bytes.len())?;
        segment_lists::overwrite(self.segments.as_mut_slice(), start, bytes);
        Ok(())
    }

    /// Cuts the bytes to that size, or lengthens them by zeros. A cut frees the segments past the new end.
    pub fn resize(&mut self, alloc: Global, size: u64) -> Result<(), AllocError>
        requires { size ≤ FILE_BYTES }
        ensures ok { OnOk result (self.new.bytes ≡ resized size self.old.bytes) }
        ensures away { OnOk result ((j : ℕ) → is_away self.new j ≡ (is_away self.old j && nat_lt (segment_bytes * j) size)) }
        ensures err { OnErr result (self.new ≡ self.old) }
        ensures cut { size ≤ length self.old.bytes → IsOk result }
    {
        let end = size as usize;
        self.grow(alloc, end)?;
        segment_lists::cut(&mut self.segments, end);
        Ok(())
    }

    /// Adds a segment of so many bytes that is away, behind segments that are full. It takes no memory for these bytes.
    pub fn lengthen_away(&mut self, count: u64) -> Result<(), AllocError>
        requires full { length self.old.bytes % segment_bytes ≡ 0 }
        requires some { 1 ≤ count }
        requires most { count ≤ segment_bytes }
        requires end { length self.old.bytes + count ≤ FILE_BYTES }
        ensures ok { OnOk result (self.new.bytes ≡ self.old.bytes ++ replicate count 0) }
        ensures away { OnOk result (is_away self.new (length self.old.bytes / segment_bytes) ≡ true) }
        ensures others { (j : ℕ) → (j ≡ length self.old.bytes / segment_bytes → ⊥) → is_away self.new j ≡ is_away self.old j }
        ensures err { OnErr result (self.new ≡ self.old) }
    {
        segment_lists::lengthen_away(&mut self.segments, count as usize)
    }

    /// Takes memory for a segment, so that it is here. Zeros stand where it was away.
    pub fn bring(&mut self, alloc: Global, segment: u32) -> Result<(), AllocError>
        ensures ok { OnOk result ((self.new.bytes ≡ self.old.bytes) × (is_away self.new segment ≡ false)) }
        ensures keeps { OnOk result (KeepsHere self.old self.new) }
        ensures others { (j : ℕ) → (j ≡ segment → ⊥) → is_away self.new j ≡ is_away self.old j }
        ensures zeros { OnOk result (is_away self.old segment ≡ true → AreZeros (segment_of segment self.old.bytes)) }
        ensures err { OnErr result (self.new ≡ self.old) }
        ensures here { is_away self.old segment ≡ false → IsOk result × (self.new ≡ self.old) }
    {
        let from = segment as usize;
        segment_lists::bring(alloc, self.segments.as_mut_slice(), from, from + 1)
    }

    /// The segments from the first up to the second go away, as far as there are any, and their memory is free. It takes none, and costs the segments.
    pub fn leave(&mut self, from: u32, to: u32)
        requires order { from ≤ to }
        requires within { segment_bytes * from ≤ length self.old.bytes }
        ensures bytes { self.new.bytes ≡ written (segment_bytes * from) (replicate (min (segment_bytes * to) (length self.old.bytes) - segment_bytes * from) 0) self.old.bytes }
        ensures away { (j : ℕ) → is_away self.new j ≡ (is_away self.old j || (nat_le from j && nat_lt j to && nat_lt (segment_bytes * j) (length self.old.bytes))) }
    {
        segment_lists::leave(self.segments.as_mut_slice(), from as usize, to as usize);
    }

    /// Lengthens the bytes to that end by zeros, where they are fewer, and takes memory for the segments from the start up to the end.
    fn ready(&mut self, alloc: Global, start: usize, end: usize) -> Result<(), AllocError>
        requires order { start ≤ end }
        requires end { end ≤ FILE_BYTES }
        ensures ok { OnOk result (self.new.bytes ≡ self.old.bytes ++ replicate (end - length self.old.bytes) 0) }
        ensures keeps { OnOk result (KeepsHere self.old self.new) }
        ensures here { OnOk result (AreHere start end self.new) }
        ensures others { OnOk result ((j : ℕ) → Misses start end j → is_away self.new j ≡ is_away self.old j) }
        ensures same { AreHere start end self.old → SameAway self.old self.new }
        ensures err { OnErr result (self.new ≡ self.old) }
        ensures in_place { end ≤ length self.old.bytes → AreHere start end self.old → IsOk result }
    {
        let old = segment_lists::len(self.segments.as_slice());
        self.grow(alloc, end)?;
        let brought = segment_lists::bring_range(alloc, self.segments.as_mut_slice(), start, end);
        if brought.is_err() {
            segment_lists::cut(&mut self.segments, old);
        }
        brought
    }

    /// Lengthens the bytes to that size by zeros, where they are fewer.
    fn grow(&mut self, alloc: Global, size: usize) -> Result<(), AllocError>
        requires { size ≤ FILE_BYTES }
        ensures ok { OnOk result (self.new.bytes ≡ self.old.bytes ++ replicate (size - length self.old.bytes) 0) }
        ensures away { (j : ℕ) → is_away self.new j ≡ is_away self.old j }
        ensures err { OnErr result (self.new ≡ self.old) }
        ensures enough { size ≤ length self.old.bytes → IsOk result × (self.new ≡ self.old) }
    {
        let old = segment_lists::len(self.segments.as_slice());
        if old < size {
            segment_lists::lengthen(alloc, &mut self.segments, size - old)?;
        }
        Ok(())
    }
}

/// Puts the bytes, which begin at the offset, over those of the buffer, which begin at `start`, as far as they meet.
fn overlay(buffer: &mut [u8], start: u64, offset: u64, bytes: &[u8])
    requires low { start + length buffer.old < 2 ^ 63 }
    requires end { offset + length bytes.now < 2 ^ 63 }
    ensures { buffer.new ≡ take (offset - start) buffer.old ++ take (length buffer.old - (offset - start)) (drop (start - offset) bytes.now) ++ drop (offset + length bytes.now - start) buffer.old }
{
    let from = offset.max(start);
    let to = (offset + bytes.len() as u64).min(start + buffer.len() as u64);
    if from < to {
        let met = &bytes[(from - offset) as usize..(to - offset) as usize];
        buffer[(from - start) as usize..(to - start) as usize].copy_from_slice(met);
    }
}
