//! How handles are made, read, compared and hashed.
ghost use Rattle.std.specs.Prelude.{◌≡◌, ◌≢◌, ◌↔◌, ◌⊎◌, IsErr, IfOk, length};
ghost use Rattle.std.specs.Ordering.{nat_cmp};
ghost use Rattle.std.specs.Cmp.Lexicographic.{slice_cmp};
ghost use Rattle.byteorder.specs.Endian.{big_number};
ghost use Rattle.hsm_types.specs.Handles.{handle_bytes};
ghost use Rattle.dm_handles.specs.Hashes.{fnv_1a};

use hsm_types::{FileKey, HANDLE_BYTES, Handle};
use std::cmp::Ordering;
use thiserror::Error;

/// Bytes that are no handle of the store.
#[derive(Clone, Copy, Debug, PartialEq, Eq, Error)]
#[error("the bytes are no handle of this store")]
pub struct BadHandle;

/// What an FNV-1a hash of 64 bits begins with.
const HASH_BASIS: u64 = 0xcbf2_9ce4_8422_2325;

/// What an FNV-1a hash of 64 bits is multiplied by at each byte.
const HASH_PRIME: u64 = 0x100_0000_01b3;

/// The handle of a file in the store with that file system id.
pub fn make(fsid: u64, key: FileKey) -> Handle
    ensures { result ≡ record { fsid = fsid; key = key } }
{
    Handle { fsid, key }
}

/// The file system id of the file's store.
pub fn fsid(h: &Handle) -> u64
    ensures { result ≡ h.now.fsid }
{
    h.fsid
}

/// The file's inode.
pub fn ino(h: &Handle) -> u64
    ensures { result ≡ h.now.key.ino }
{
    h.key.ino
}

/// The file's generation.
pub fn igen(h: &Handle) -> u64
    ensures { result ≡ h.now.key.igen }
{
    h.key.igen
}

/// Compares two handles by their bytes.
pub fn cmp(a: &Handle, b: &Handle) -> Ordering
    ensures bytes { result ≡ slice_cmp nat_cmp (handle_bytes a.now) (handle_bytes b.now) }
    ensures equal { (result ≡ Ordering.Equal) ↔ (a.now ≡ b.now) }
{
    a.to_bytes().cmp(&b.to_bytes())
}

/// The FNV-1a hash of the handle's bytes.
pub fn hash(h: &Handle) -> u64
    ensures { result ≡ fnv_1a (handle_bytes h.now) }
{
    h.to_bytes().iter().fold(HASH_BASIS, |hash, byte| {
        (hash ^ u64::from(*byte)).wrapping_mul(HASH_PRIME)
    })
}

/// Whether bytes are a handle of the store with that file system id, and which. That its file lives isn't asked. Only tests call it yet.
pub fn is_valid(fsid: u64, bytes: &[u8]) -> Result<Handle, BadHandle>
    ensures handle { IfOk result (λ h. (h.fsid ≡ fsid) × (handle_bytes h ≡ bytes.now)) }
    ensures bad { IsErr result ↔ ((length bytes.now ≢ 24) ⊎ (big_number 8 bytes.now ≢ fsid)) }
{
    if bytes.len() != HANDLE_BYTES {
        return Err(BadHandle);
    }
    let h = Handle::from_slice(bytes);
    if h.fsid != fsid {
        return Err(BadHandle);
    }
    Ok(h)
}
