//! A part of one block, and what is made of all parts.
ghost use Rattle.std.specs.Prelude.{◌≡◌, ◌+◌, ◌<◌, ◌≤◌, ◌++◌, ℕ, length, take, drop, OnErr, OnOk, vec_capacity};
ghost use Rattle.std.specs.List.{concat};
ghost use Rattle.sha2.specs.Sha256.{sha256};
ghost use Rattle.hsm_types.specs.Limits.{block_bytes};
ghost use Rattle.block_cache.specs.Lent.{part_bytes, cached_block, IsCached};
ghost use Rattle.block_cache.specs.Rests.{rest_of};

use crate::cache::BlockCache;
use crate::loading::BLOCK;
use crate::parts::{Part, Parts};
use hsm_types::Digest;
use sha2::{Digest as Hasher, Sha256};
use std::alloc::AllocError;

static ZEROS: [u8; BLOCK] = [0; BLOCK];

/// So many bytes of a block from that one on, or zeros where the block is a hole.
pub(crate) fn lend<'a>(cache: &'a BlockCache, place: Option<u32>, start: u32, len: u32) -> Part<'a>
    requires within { start + len ≤ block_bytes }
    requires there { IsCached cache.now place }
    ensures { part_bytes result ≡ take len (drop start (cached_block cache.now place)) }
{
    match place {
        Some(block) => {
            let bytes = cache.peek(block).unwrap();
            Part::Bytes(&bytes[start as usize..(start + len) as usize])
        }
        None => Part::Zeros(len),
    }
}

/// The SHA-256 of all parts together. No byte is copied, and no memory is taken.
pub fn digest(parts: Parts<'_>) -> Digest
    ensures { result ≡ record { 0 = sha256 (concat (rest_of parts.entry)) } }
{
    let mut hasher = Sha256::new();
    for part in parts {
        match part {
            Part::Bytes(bytes) => hasher.update(bytes),
            Part::Zeros(count) => hasher.update(&ZEROS[..count as usize]),
        }
    }
    Digest(hasher.finalize())
}

/// Puts all parts behind the other bytes. It is refused only where the vector has no room for them and there is no memory for more; the first parts may be
/// there then.
pub fn put_parts(bytes: &mut Vec<u8>, parts: Parts<'_>) -> Result<(), AllocError>
    ensures ok { OnOk result (bytes.new.items ≡ bytes.old.items ++ concat (rest_of parts.entry)) }
    ensures begun { OnErr result ((n : ℕ) × (bytes.new.items ≡ bytes.old.items ++ concat (take n (rest_of parts.entry)))) }
    ensures full { OnErr result (vec_capacity bytes.old < length bytes.old.items + length (concat (rest_of parts.entry))) }
{
    for part in parts {
        match part {
            Part::Bytes(piece) => bytes.extend_from_slice(piece)?,
            Part::Zeros(count) => bytes.extend_from_slice(&ZEROS[..count as usize])?,
        }
    }
    Ok(())
}
