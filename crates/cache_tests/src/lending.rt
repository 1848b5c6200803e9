//! Parts of runs of bytes, and their digests.

use crate::loading::{AT, Outcome, load, made_disk};
use block_cache::{BlockCache, Parts, are_there, digest, put_parts};
use hsm_types::Digest;
use sha2::Sha256;
use std::alloc::{AllocError, Global};

/// The parts of two blocks with a hole in between, from byte 100 of the first on, as bytes and as a digest.
fn joined(alloc: Global, cache: &BlockCache, count: u32) -> Result<(Vec<u8>, Digest), AllocError> {
    let mut bytes = Vec::new(alloc);
    let places = [Some(1), None, Some(2)];
    if !are_there(cache, &places) {
        return Ok((bytes, Digest([0; 32])));
    }
    let print = digest(Parts::new(cache, &places, 100, count));
    put_parts(&mut bytes, Parts::new(cache, &places, 100, count))?;
    Ok((bytes, print))
}

fn lent(alloc: Global, count: u32) -> Result<(Vec<u8>, Digest), AllocError> {
    let mut cache = BlockCache::new(alloc, AT)?;
    let mut disk = made_disk(alloc)?;
    let _ = load(&mut cache, &mut disk, &[1, 2]);
    joined(alloc, &cache, count)
}

/// Whether the bytes are so many ones, then so many zeros, then so many twos.
fn are_runs(bytes: &[u8], ones: usize, zeros: usize, twos: usize) -> bool {
    let mut left = (ones, zeros, twos);
    for byte in bytes {
        left = match *byte {
            1 => (left.0.wrapping_sub(1), left.1, left.2),
            0 if left.0 == 0 => (0, left.1.wrapping_sub(1), left.2),
            2 if left.1 == 0 => (left.0, 0, left.2.wrapping_sub(1)),
            _ => return false,
        };
    }
    left == (0, 0, 0)
}

/// Whether so many bytes that are lent are these, and their digest that of one slice.
fn lends(
    alloc: Global,
    count: u32,
    ones: usize,
    zeros: usize,
    twos: usize,
) -> Result<bool, AllocError> {
    let (bytes, print) = lent(alloc, count)?;
    let whole = Digest(<Sha256 as sha2::Digest>::digest(bytes.as_slice()));
    Ok(are_runs(bytes.as_slice(), ones, zeros, twos) && print == whole)
}

#[test]
fn parts_have_the_bytes_of_blocks_and_holes(rt: HostRuntime) -> Result<(), AllocError> {
    let alloc = rt.alloc();
    assert!(rt; lends(alloc, 0, 0, 0, 0)?);
    assert!(rt; lends(alloc, 9, 9, 0, 0)?);
    assert!(rt; lends(alloc, 4000, 3996, 4, 0)?);
    assert!(rt; lends(alloc, 9000, 3996, 4096, 908)?);
    assert!(rt; lends(alloc, 20_000, 3996, 4096, 4096)?);
    Ok(())
}

/// Whether blocks that aren't there are told as such.
fn asked(alloc: Global) -> Result<bool, AllocError> {
    let mut cache = BlockCache::new(alloc, AT)?;
    let mut disk = made_disk(alloc)?;
    let loaded = load(&mut cache, &mut disk, &[4]) == Outcome::Loaded;
    Ok(loaded && are_there(&cache, &[None, Some(4)]) && !are_there(&cache, &[Some(4), Some(5)]))
}

#[test]
fn a_caller_can_ask_what_is_there(rt: HostRuntime) -> Result<(), AllocError> {
    assert!(rt; asked(rt.alloc())?);
    Ok(())
}
