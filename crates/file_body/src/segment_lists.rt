//! The bytes of segments, one after the other. All but the last segment are full, and none is empty.
ghost use Rattle.std.specs.Prelude.{◌≡◌, ℕ, ◌+◌, ◌-◌, ◌*◌, ◌/◌, ◌%◌, ◌^◌, ◌<◌, ◌≤◌, ◌++◌, ◌&&◌, ◌||◌, ◌↔◌, true, false, nat_lt, nat_le, min, length};
ghost use Rattle.std.specs.Prelude.{take, drop, replicate, slice_set, slice_index_or, IfOk, IfSome, IsSome, IsOk, OnOk, OnErr, [], vec_len};
ghost use Rattle.std.specs.List.{concat};
ghost use Rattle.plain_model.specs.Plain.{written};
ghost use Rattle.file_body.specs.BodyBlocks.{block_of};
ghost use Rattle.file_body.specs.Segments.{IsCut};
ghost use Rattle.file_body.specs.HeldBodies.{pieces, aways, stands_away, AreZeros, Misses};

use crate::segments::{FULL, Segment, ZEROS};
use hsm_types::BLOCK_BYTES;
use std::alloc::{AllocError, Global};

/// The bytes of a block.
const BLOCK: usize = BLOCK_BYTES as usize;

/// How many bytes there are.
pub fn len(segments: &[Segment]) -> usize
    requires cut { IsCut FULL (pieces segments.now) }
    requires short { length (concat (pieces segments.now)) < 2 ^ 63 }
    ensures { result ≡ length (concat (pieces segments.now)) }
{
    let count = segments.len();
    if count == 0 {
        return 0;
    }
    (count - 1) * FULL + segments[count - 1].len()
}

/// So many bytes from the offset on. It begins at the segment of the offset.
pub fn read(
    alloc: Global,
    segments: &[Segment],
    offset: usize,
    count: usize,
) -> Result<Vec<u8>, AllocError>
    requires cut { IsCut FULL (pieces segments.now) }
    requires within { offset + count ≤ length (concat (pieces segments.now)) }
    requires short { length (concat (pieces segments.now)) < 2 ^ 63 }
    ensures { IfOk result (λ bytes. bytes.items ≡ take count (drop offset (concat (pieces segments.now)))) }
{
    let mut bytes = Vec::with_capacity(alloc, count)?;
    while bytes.len() < count {
        let place = offset + bytes.len();
        let piece = piece_at(segments, place, count - bytes.len());
        bytes.extend_from_slice(piece)?;
    }
    Ok(bytes)
}

/// Bytes at that place, as many as stand in one segment, up to a count.
fn piece_at(segments: &[Segment], place: usize, count: usize) -> &[u8]
    requires cut { IsCut FULL (pieces segments.now) }
    requires within { place + count ≤ length (concat (pieces segments.now)) }
    requires some { 0 < count }
    ensures some { 0 < length result.now }
    ensures within { length result.now ≤ count }
    ensures bytes { result.now ≡ take (length result.now) (drop place (concat (pieces segments.now))) }
    ensures whole { place % FULL + count ≤ FULL → length result.now ≡ count }
{
    let at = place % FULL;
    let size = count.min(FULL - at);
    let segment = &segments[place / FULL];
    &segment.as_slice()[at..at + size]
}

/// Fills the buffer with the bytes of a block, and zeros past the last byte. It costs the block.
pub fn fill_block(segments: &[Segment], block: usize, buffer: &mut [u8])
    requires cut { IsCut FULL (pieces segments.now) }
    requires short { length (concat (pieces segments.now)) < 2 ^ 63 }
    requires low { block < 2 ^ 32 }
    requires block { length buffer.old ≡ BLOCK_BYTES }
    ensures { buffer.new ≡ block_of (concat (pieces segments.now)) block }
{
    let place = block * BLOCK;
    let count = len(segments).saturating_sub(place).min(BLOCK);
    if count == 0 {
        put_front(buffer, &[]);
        return;
    }
    put_front(buffer, piece_at(segments, place, count));
}

/// Fills the buffer of a block with the bytes, and zeros behind them.
fn put_front(buffer: &mut [u8], bytes: &[u8])
    requires block { length buffer.old ≡ BLOCK_BYTES }
    requires fits { length bytes.now ≤ BLOCK_BYTES }
    ensures { buffer.new ≡ bytes.now ++ replicate (BLOCK_BYTES - length bytes.now) 0 }
{
    let (front, rest) = buffer.split_at_mut(bytes.len());
    let count = rest.len();
    front.copy_from_slice(bytes);
    rest.copy_from_slice(&ZEROS[..count]);
}

/// Writes the bytes over those at the offset, which are here.
pub fn overwrite(segments: &mut [Segment], offset: usize, bytes: &[u8])
    requires cut { IsCut FULL (pieces segments.old) }
    requires within { offset + length bytes.now ≤ length (concat (pieces segments.old)) }
    requires here { (i : ℕ) → offset ≤ i → i < offset + length bytes.now → stands_away segments.old (i / FULL) ≡ false }
    requires short { length (concat (pieces segments.old)) < 2 ^ 63 }
    ensures bytes { concat (pieces segments.new) ≡ take offset (concat (pieces segments.old)) ++ bytes.now ++ drop (offset + length bytes.now) (concat (pieces segments.old)) }
    ensures cut { IsCut FULL (pieces segments.new) }
    ensures away { aways segments.new ≡ aways segments.old }
{
    let mut done = 0;
    while done < bytes.len() {
        done += overwrite_piece(segments, offset + done, &bytes[done..]);
    }
}

/// Writes as many of the bytes as stand in one segment over those at that place. It answers how many.
fn overwrite_piece(segments: &mut [Segment], place: usize, bytes: &[u8]) -> usize
    requires cut { IsCut FULL (pieces segments.old) }
    requires within { place + length bytes.now ≤ length (concat (pieces segments.old)) }
    requires some { 0 < length bytes.now }
    requires here { stands_away segments.old (place / FULL) ≡ false }
    ensures some { 0 < result }
    ensures within { result ≤ length bytes.now }
    ensures bytes { concat (pieces segments.new) ≡ take place (concat (pieces segments.old)) ++ take result bytes.now ++ drop (place + result) (concat (pieces segments.old)) }
    ensures cut { IsCut FULL (pieces segments.new) }
    ensures away { aways segments.new ≡ aways segments.old }
{
    let at = place % FULL;
    let size = bytes.len().min(FULL - at);
    let segment = &mut segments[place / FULL];
    segment.overwrite(at, &bytes[..size]);
    size
}

/// The bytes of the segment at that place, if it is here.
pub fn here(segments: &[Segment], at: usize) -> Option<&[u8]>
    requires { IsCut FULL (pieces segments.now) }
    ensures bytes { IfSome result (λ bytes. bytes.now ≡ take FULL (drop (FULL * at) (concat (pieces segments.now)))) }
    ensures here { IsSome result ↔ ((FULL * at < length (concat (pieces segments.now))) × (stands_away segments.now at ≡ false)) }
{
    if at < segments.len() {
        segments[at].here()
    } else {
        None
    }
}

/// Takes memory for the segments that the bytes from the start up to the end meet, so that they are here.
pub fn bring_range(
    alloc: Global,
    segments: &mut [Segment],
    start: usize,
    end: usize,
) -> Result<(), AllocError>
    requires { start ≤ end }
    ensures pieces { pieces segments.new ≡ pieces segments.old }
    ensures here { OnOk result ((i : ℕ) → start ≤ i → i < end → stands_away segments.new (i / FULL) ≡ false) }
    ensures keeps { (j : ℕ) → stands_away segments.new j ≡ true → stands_away segments.old j ≡ true }
    ensures others { (j : ℕ) → Misses start end j → stands_away segments.new j ≡ stands_away segments.old j }
    ensures err { OnErr result (segments.new ≡ segments.old) }
    ensures enough { ((i : ℕ) → start ≤ i → i < end → stands_away segments.old (i / FULL) ≡ false) → IsOk result × (segments.new ≡ segments.old) }
{
    if start == end {
        return Ok(());
    }
    bring(alloc, segments, start / FULL, (end - 1) / FULL + 1)
}

/// Takes memory for the segments from the first up to the second, as far as there are any, so that they are here, or for none of them.
pub fn bring(
    alloc: Global,
    segments: &mut [Segment],
    from: usize,
    to: usize,
) -> Result<(), AllocError>
    ensures pieces { pieces segments.new ≡ pieces segments.old }
    ensures here { OnOk result ((j : ℕ) → from ≤ j → j < to → stands_away segments.new j ≡ false) }
    ensures others { (j : ℕ) → (from ≤ j → j < to → ⊥) → stands_away segments.new j ≡ stands_away segments.old j }
    ensures zeros { OnOk result ((j : ℕ) → from ≤ j → j < to → stands_away segments.old j ≡ true → AreZeros (slice_index_or (pieces segments.old) j [])) }
    ensures err { OnErr result (segments.new ≡ segments.old) }
    ensures enough { ((j : ℕ) → from ≤ j → j < to → stands_away segments.old j ≡ false) → IsOk result × (segments.new ≡ segments.old) }
{
    if from >= to.min(segments.len()) {
        return Ok(());
    }
    // The memory of all is taken before any comes.
    let zeros = segments[from].stand_in(alloc)?;
    bring(alloc, segments, from + 1, to)?;
    if let Some(zeros) = zeros {
        segments[from] = zeros;
    }
    Ok(())
}

/// The segments from the first up to the second, as far as there are any, go away.
pub fn leave(segments: &mut [Segment], from: usize, to: usize)
    requires cut { IsCut FULL (pieces segments.old) }
    requires order { from ≤ to }
    requires within { FULL * from ≤ length (concat (pieces segments.old)) }
    ensures bytes { concat (pieces segments.new) ≡ written (FULL * from) (replicate (min (FULL * to) (length (concat (pieces segments.old))) - FULL * from) 0) (concat (pieces segments.old)) }
    ensures cut { IsCut FULL (pieces segments.new) }
    ensures away { (j : ℕ) → stands_away segments.new j ≡ (stands_away segments.old j || (nat_le from j && nat_lt j to && nat_lt (FULL * j) (length (concat (pieces segments.old))))) }
{
    let end = to.min(segments.len());
    let mut at = from;
    while at < end {
        let segment = &mut segments[at];
        segment.leave();
        at += 1;
    }
}

/// Keeps so many bytes. It takes no memory.
pub fn cut(segments: &mut Vec<Segment>, size: usize)
    requires cut { IsCut FULL (pieces segments.old.items) }
    requires within { size ≤ length (concat (pieces segments.old.items)) }
    requires short { length (concat (pieces segments.old.items)) < 2 ^ 63 }
    ensures bytes { concat (pieces segments.new.items) ≡ take size (concat (pieces segments.old.items)) }
    ensures cut { IsCut FULL (pieces segments.new.items) }
    ensures away { (j : ℕ) → stands_away segments.new.items j ≡ (stands_away segments.old.items j && nat_lt (FULL * j) size) }
{
    if size == 0 {
        segments.clear();
        return;
    }
    let last = (size - 1) / FULL;
    segments.truncate(last + 1);
    let segment = &mut segments[last];
    segment.cut(size - last * FULL);
}

/// Adds so many zeros.
pub fn lengthen(alloc: Global, segments: &mut Vec<Segment>, count: usize) -> Result<(), AllocError>
    requires cut { IsCut FULL (pieces segments.old.items) }
    requires short { length (concat (pieces segments.old.items)) + count < 2 ^ 63 }
    ensures ok { OnOk result (concat (pieces segments.new.items) ≡ concat (pieces segments.old.items) ++ replicate count 0) }
    ensures err { OnErr result (segments.new.items ≡ segments.old.items) }
    ensures cut { IsCut FULL (pieces segments.new.items) }
    ensures away { (j : ℕ) → stands_away segments.new.items j ≡ stands_away segments.old.items j }
{
    let fill = count.min(room(segments.as_slice()));
    let mut rest = zeros(alloc, count - fill)?;
    segments.reserve(rest.len())?;
    lengthen_last(segments.as_mut_slice(), fill)?;
    segments.append(&mut rest).unwrap();
    Ok(())
}

/// How many bytes the last segment lacks.
fn room(segments: &[Segment]) -> usize
    requires cut { IsCut FULL (pieces segments.now) }
    ensures none { length segments.now ≡ 0 → result ≡ 0 }
    ensures last { 0 < length segments.now → result + length (slice_index_or (pieces segments.now) (length segments.now - 1) []) ≡ FULL }
{
    let count = segments.len();
    if count == 0 {
        return 0;
    }
    FULL - segments[count - 1].len()
}

/// Adds so many zeros to the last segment, which has room for them.
fn lengthen_last(segments: &mut [Segment], count: usize) -> Result<(), AllocError>
    requires { 0 < length segments.old → length (slice_index_or (pieces segments.old) (length segments.old - 1) []) + count ≤ FULL }
    ensures ok { OnOk result (pieces segments.new ≡ slice_set (pieces segments.old) (length segments.old - 1) (slice_index_or (pieces segments.old) (length segments.old - 1) [] ++ replicate count 0)) }
    ensures away { aways segments.new ≡ aways segments.old }
    ensures err { OnErr result (segments.new ≡ segments.old) }
{
    let many = segments.len();
    if many == 0 {
        return Ok(());
    }
    let last = &mut segments[many - 1];
    last.lengthen(count)
}

/// Segments of so many zeros, which are here.
fn zeros(alloc: Global, count: usize) -> Result<Vec<Segment>, AllocError>
    ensures bytes { IfOk result (λ segments. concat (pieces segments.items) ≡ replicate count 0) }
    ensures cut { IfOk result (λ segments. IsCut FULL (pieces segments.items)) }
    ensures here { IfOk result (λ segments. (j : ℕ) → stands_away segments.items j ≡ false) }
{
    let mut segments = Vec::new(alloc);
    let mut left = count;
    while left > 0 {
        let size = left.min(FULL);
        segments.push(Segment::zeros(alloc, size)?)?;
        left -= size;
    }
    Ok(segments)
}

/// Adds a segment of so many bytes that is away, behind segments that are full. It takes no memory for these bytes.
pub fn lengthen_away(segments: &mut Vec<Segment>, count: usize) -> Result<(), AllocError>
    requires cut { IsCut FULL (pieces segments.old.items) }
    requires full { length (concat (pieces segments.old.items)) % FULL ≡ 0 }
    requires some { 1 ≤ count }
    requires most { count ≤ FULL }
    ensures ok { OnOk result (concat (pieces segments.new.items) ≡ concat (pieces segments.old.items) ++ replicate count 0) }
    ensures err { OnErr result (segments.new.items ≡ segments.old.items) }
    ensures cut { IsCut FULL (pieces segments.new.items) }
    ensures away { OnOk result (stands_away segments.new.items (length (concat (pieces segments.old.items)) / FULL) ≡ true) }
    ensures others { (j : ℕ) → (j ≡ length (concat (pieces segments.old.items)) / FULL → ⊥) → stands_away segments.new.items j ≡ stands_away segments.old.items j }
{
    segments.push(Segment::away(count))?;
    Ok(())
}
