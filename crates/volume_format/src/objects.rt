//! How an object is written and read.
ghost use Rattle.std.specs.Prelude.{◌≡◌, ◌≤◌, ◌+◌, length, drop, IfOk, IfErr, OnOk, Some, None};
ghost use Rattle.sha2.specs.Sha256.{sha256};
ghost use Rattle.volume_format.specs.Objects.{object_bytes, IsObject, begins_well, says_length, says_digest, bad_place};

use byteorder::{BigEndian, ByteOrder};
use hsm_types::{Bytes, Digest, Fingerprint, Handle, SEGMENT_BYTES, Verified};
use std::alloc::{AllocError, Global};
use thiserror::Error;

/// The bytes of an object before its payload.
pub const FRAME_BYTES: usize = 72;

/// The bytes of the longest payload: those of a whole segment.
const PAYLOAD_BYTES: usize = SEGMENT_BYTES as usize;

const MAGIC: [u8; 8] = *b"HSMOBJ01";

const HANDLE_PLACE: usize = 8;

const SEGMENT_PLACE: usize = 32;

const LENGTH_PLACE: usize = 36;

const DIGEST_PLACE: usize = 40;

/// What an object says. Its payload stays in the buffer.
#[derive(Clone, Copy)]
pub struct Object<'a> {
    /// Of the file. Any handle may stand there.
    pub handle: Handle,
    /// Which segment of the file, from 0.
    pub segment: u32,
    /// The payload's, which was compared.
    pub digest: Digest,
    pub payload: &'a [u8],
}

/// Bytes that are no object.
#[derive(Clone, Copy, Debug, PartialEq, Eq, Error)]
#[error("no object: what stands at {place} is wrong")]
pub struct BadObject {
    /// Where the first wrong field stands: 0 for the magic and for too few bytes, 36 for the length, 40 for the digest.
    pub place: u64,
}

/// The object of that segment of the file with that handle. It takes its memory in one piece, and reads the payload once, to copy it.
#[tactic(auto, unfolding(crate::specs::Objects::object_bytes))]
pub fn write_object(
    alloc: Global,
    handle: &Handle,
    segment: u32,
    bytes: &Verified,
) -> Result<Bytes, AllocError>
    requires some { 1 ≤ length bytes.now }
    requires most { length bytes.now ≤ SEGMENT_BYTES }
    ensures bytes { IfOk result (λ object. object ≡ object_bytes handle.now segment bytes.now) }
    ensures grammar { IfOk result (IsObject handle.now segment bytes.now) }
    ensures size { IfOk result (λ object. length object ≡ 72 + length bytes.now) }
{
    let payload = bytes.as_slice();
    let print = bytes.fingerprint();
    let mut object = Vec::with_capacity(alloc, FRAME_BYTES + payload.len())?;
    object.extend_from_slice(&MAGIC)?;
    object.extend_from_slice(&handle.to_bytes())?;
    object.extend_from_slice(&segment.to_be_bytes())?;
    object.extend_from_slice(&print.len.to_be_bytes())?;
    object.extend_from_slice(&print.digest.0)?;
    object.extend_from_slice(payload)?;
    Ok(Bytes::from(object))
}

fn begins_well(buf: &[u8]) -> bool
    ensures { result ≡ begins_well buf.now }
{
    buf.len() >= FRAME_BYTES && buf.starts_with(&MAGIC)
}

/// Whether the length that stands there is a payload's, and that of what follows the frame.
fn says_length(buf: &[u8]) -> bool
    requires { 72 ≤ length buf.now }
    ensures { result ≡ says_length buf.now }
{
    let len = BigEndian::read_u32(&buf[LENGTH_PLACE..]) as usize;
    if len < 1 || len > PAYLOAD_BYTES {
        return false;
    }
    len == buf[FRAME_BYTES..].len()
}

/// Whether that digest, which what follows the frame has, stands there.
fn says_digest(buf: &[u8], digest: Digest) -> bool
    requires frame { 72 ≤ length buf.now }
    requires digest { digest.0 ≡ sha256 (drop 72 buf.now) }
    ensures { result ≡ says_digest buf.now }
{
    &buf[DIGEST_PLACE..FRAME_BYTES] == digest.0.as_slice()
}

/// The object that the bytes are. It takes no memory, and reads the payload once. Only tests call it yet.
#[tactic(auto, unfolding(crate::specs::Objects::bad_place))]
pub fn read_object(buf: &[u8]) -> Result<Object<'_>, BadObject>
    ensures object { IfOk result (λ o. IsObject o.handle o.segment o.payload.now buf.now) }
    ensures digest { IfOk result (λ o. o.digest.0 ≡ sha256 o.payload.now) }
    ensures good { OnOk result (bad_place buf.now ≡ None) }
    ensures bad { IfErr result (λ e. bad_place buf.now ≡ Some e.place) }
{
    if !begins_well(buf) {
        return Err(BadObject { place: 0 });
    }
    if !says_length(buf) {
        return Err(BadObject {
            place: LENGTH_PLACE as u64,
        });
    }
    let payload = &buf[FRAME_BYTES..];
    let digest = Fingerprint::of(payload).digest;
    if !says_digest(buf, digest) {
        return Err(BadObject {
            place: DIGEST_PLACE as u64,
        });
    }
    Ok(Object {
        handle: Handle::from_slice(&buf[HANDLE_PLACE..SEGMENT_PLACE]),
        segment: BigEndian::read_u32(&buf[SEGMENT_PLACE..]),
        digest,
        payload,
    })
}
