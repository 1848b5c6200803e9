//! Changes of the bytes of a file.
ghost use Rattle.std.specs.Prelude.{◌≡◌, ◌≤◌, ◌<◌, ◌+◌, ◌*◌, ◌&&◌, ℕ, nat_le, nat_lt, length, OnOk, OnErr};
ghost use Rattle.hsm_types.specs.Limits.{file_bytes, block_bytes};
ghost use Rattle.plain_model.specs.Plain.{rebody};
ghost use Rattle.plain_model.specs.Blocks.{touched, size_after};
ghost use Rattle.file_body.specs.HeldBodies.{HeldBody, is_away};
ghost use Rattle.file_store.specs.Bodies.{block_of, IsAlike};
ghost use Rattle.file_store.specs.Rewrites.{effect_of, spares, IsRewrite, IsWithin, HasEntry, BringsAway, HasRoom, HasRange, IsHead, unseals};

use file_body::{Body, TouchedBlocks, touched_by_restore, touched_by_truncate, touched_by_write};
use hsm_types::{SEGMENT_BYTES, Stub};
use journal_records::Record;
use std::alloc::{AllocError, Global};
use stub_map::{State, StubMap};

/// What becomes of the bytes of a file.
#[derive(Clone, Copy)]
pub(crate) enum Rewrite<'a> {
    /// These bytes stand at the offset.
    Write { offset: u64, bytes: &'a [u8] },
    /// There are so many of them.
    Resize { size: u64 },
    /// Those of a segment that was offline are here again.
    Restore { segment: u32, bytes: &'a [u8] },
}

impl Rewrite<'_> {
    /// The blocks that it touches of a file of that size.
    pub(crate) fn touched(self, size: u64) -> TouchedBlocks
        requires { IsRewrite self }
        ensures { result ≡ touched (effect_of self.entry) size }
    {
        match self {
            Rewrite::Write { offset, bytes } => touched_by_write(size, offset, bytes.len() as u64),
            Rewrite::Resize { size: new } => touched_by_truncate(size, new),
            Rewrite::Restore { segment, bytes } => touched_by_restore(segment, bytes.len() as u64),
        }
    }

    /// The size of a file of that size after it.
    pub(crate) fn size_after(self, size: u64) -> u64
        requires { IsRewrite self }
        ensures size { result ≡ size_after (effect_of self.entry) size }
        ensures limit { size ≤ file_bytes → result ≤ file_bytes }
    {
        match self {
            Rewrite::Write { offset, bytes } => size.max(offset + bytes.len() as u64),
            Rewrite::Resize { size: new } => new,
            Rewrite::Restore { .. } => size,
        }
    }

    /// The segments of a file of that size whose entries it drops, from the first up to the second, as far as they begin below the new size.
    pub(crate) fn unsealed(self, size: u64) -> (u32, u32)
        requires lawful { IsRewrite self }
        requires size { size ≤ file_bytes }
        ensures { (j : ℕ) → unseals self.entry size j ≡ (nat_le result.0 j && nat_lt j result.1) }
    {
        match self {
            Rewrite::Write { offset, bytes } => segments(
                offset.min(size),
                offset + bytes.len() as u64,
            ),
            Rewrite::Resize { size: new } if new != size => segments(new.min(size), new),
            _ => (0, 0),
        }
    }

    /// The first record of it, of a file of that size with these entries.
    pub(crate) fn head(self, ino: u64, size: u64, stubs: &StubMap) -> Record
        requires lawful { IsRewrite self }
        requires entry { HasEntry self stubs.now }
        ensures { IsHead ino self.entry size stubs.now result }
    {
        let Rewrite::Restore { segment, .. } = self else {
            return Record::Size {
                ino,
                size: self.size_after(size),
            };
        };
        let (State::Offline(entry) | State::Sealed(entry)) = stubs.state(segment) else {
            unreachable!()
        };
        let stub = Some(Stub {
            entry,
            offline: false,
        });
        Record::Stub { ino, segment, stub }
    }

    /// Fills a block as the change will leave it.
    pub(crate) fn fill_block(self, body: &Body, block: u32, buffer: &mut [u8])
        requires lawful { IsRewrite self }
        requires grows { length body.now.bytes ≤ size_after (effect_of self) (length body.now.bytes) }
        requires len { length buffer.old ≡ block_bytes }
        ensures { buffer.new ≡ block_of (rebody (effect_of self.entry) body.now.bytes) block }
    {
        match self {
            Rewrite::Write { offset, bytes } => body.fill_written_block(
                block, offset, bytes, buffer,
            ),
            Rewrite::Resize { .. } => body.fill_block(block, buffer),
            Rewrite::Restore { segment, bytes } => body.fill_written_block(
                block,
                start_of(segment),
                bytes,
                buffer,
            ),
        }
    }

    /// Takes the memory for it: zeros up to the new size, or in the place of the segment that comes back.
    pub(crate) fn make_room(self, alloc: Global, body: &mut Body) -> Result<(), AllocError>
        requires lawful { IsRewrite self }
        ensures room { OnOk result (HasRoom self.entry body.old body.new) }
        ensures err { OnErr result (body.new ≡ body.old) }
    {
        let size = body.len();
        match self {
            Rewrite::Restore { segment, .. } => body.bring(alloc, segment),
            change => body.resize(alloc, size.max(change.size_after(size))),
        }
    }

    /// Gives the memory back that `make_room` took, of a body that had that size. It takes none.
    pub(crate) fn undo(self, alloc: Global, body: &mut Body, size: u64)
        requires lawful { IsRewrite self }
        requires file { size ≤ file_bytes }
        requires size { size ≤ length body.old.bytes }
        requires within { IsWithin self size }
        ensures { (old : HeldBody) → HasRoom self.entry old body.old → length old.bytes ≡ size → BringsAway self.entry old → IsAlike old body.new }
    {
        match self {
            Rewrite::Restore { segment, .. } => body.leave(segment, segment + 1),
            _ => body.resize(alloc, size).unwrap(),
        }
    }

    /// Makes it of a body that has room for it.
    pub(crate) fn apply(self, alloc: Global, body: &mut Body)
        requires lawful { IsRewrite self }
        requires in_place { size_after (effect_of self) (length body.old.bytes) ≤ length body.old.bytes }
        requires within { IsWithin self (length body.old.bytes) }
        requires here { HasRange self body.old }
        ensures bytes { body.new.bytes ≡ rebody (effect_of self.entry) body.old.bytes }
        ensures away { (j : ℕ) → is_away body.new j ≡ (is_away body.old j && spares self.entry j) }
    {
        match self {
            Rewrite::Write { offset, bytes } => body.write(alloc, offset, bytes).unwrap(),
            Rewrite::Resize { size } => body.resize(alloc, size).unwrap(),
            Rewrite::Restore { segment, bytes } => body
                .write(alloc, start_of(segment), bytes)
                .unwrap(),
        }
    }
}

/// Where a segment begins.
fn start_of(segment: u32) -> u64
    ensures { result ≡ SEGMENT_BYTES * segment }
{
    u64::from(segment) * SEGMENT_BYTES
}

/// The segments that have bytes of that range, from the first up to the second.
fn segments(from: u64, to: u64) -> (u32, u32)
    requires from { from ≤ file_bytes }
    requires to { to ≤ file_bytes }
    ensures { (j : ℕ) → (nat_le result.0 j && nat_lt j result.1) ≡ (nat_lt from (SEGMENT_BYTES * j + SEGMENT_BYTES) && nat_lt (SEGMENT_BYTES * j) to) }
{
    let last = (to + (SEGMENT_BYTES - 1)) / SEGMENT_BYTES;
    ((from / SEGMENT_BYTES) as u32, last as u32)
}
