//! Objects of volumes: the bytes that are written, and what is read in bytes that nobody wrote.
ghost use Rattle.std.specs.Prelude.{◌<◌, ◌≤◌, length};
ghost use Rattle.hsm_types.specs.Limits.{segment_bytes};

use hsm_types::{Bytes, FileKey, Handle, Verified};
use std::alloc::{AllocError, Global};
use volume_format::{Object, read_object, write_object};

/// The segment 7 of the file 1.2.5, which has the bytes `abc`.
pub(crate) static ABC: [u8; 75] = [
    72, 83, 77, 79, 66, 74, 48, 49, 0, 0, 0, 0, 0, 0, 0, 1, 0, 0, 0, 0, 0, 0, 0, 2, 0, 0, 0, 0, 0,
    0, 0, 5, 0, 0, 0, 7, 0, 0, 0, 3, 186, 120, 22, 191, 143, 1, 207, 234, 65, 65, 64, 222, 93, 174,
    34, 35, 176, 3, 97, 163, 150, 23, 122, 156, 180, 16, 255, 97, 242, 0, 21, 173, 97, 98, 99,
];

const FILE: Handle = Handle {
    fsid: 1,
    key: FileKey { ino: 2, igen: 5 },
};

fn written(alloc: Global, payload: &[u8]) -> Result<Bytes, AllocError>
    requires some { 1 ≤ length payload.now }
    requires most { length payload.now ≤ segment_bytes }
{
    let bytes = Verified::of(Bytes::from(payload.to_vec(alloc)?));
    write_object(alloc, &FILE, 7, &bytes)
}

#[test]
fn are_written_as_the_format_says(rt: HostRuntime) -> Result<(), AllocError> {
    let object = written(rt.alloc(), b"abc")?;
    assert!(rt; object.as_slice() == ABC.as_slice());
    Ok(())
}

/// Whether the object is the segment 7 of the file 1.2.5, and has that payload.
fn says(object: &Object, payload: &[u8]) -> bool {
    object.handle == FILE && object.segment == 7 && object.payload == payload
}

/// Whether the bytes are read as that.
fn is_read(buf: &[u8], payload: &[u8]) -> bool {
    match read_object(buf) {
        Ok(object) => says(&object, payload),
        Err(_) => false,
    }
}

#[test]
fn are_read_as_they_were_written(rt: HostRuntime) -> Result<(), AllocError> {
    assert!(rt; is_read(&ABC, b"abc"), "abc");
    for len in [1, 2, 65_535, 65_536] {
        let payload = vec![in rt.alloc(); b'x'; len]?;
        let object = written(rt.alloc(), &payload)?;
        assert!(rt; is_read(object.as_slice(), &payload), "{len} bytes");
    }
    Ok(())
}

/// Where the bytes are wrong, if they are.
fn bad_place(buf: &[u8]) -> Option<u64> {
    match read_object(buf) {
        Ok(_) => None,
        Err(why) => Some(why.place),
    }
}

#[test]
fn are_bad_where_they_are_cut(rt: HostRuntime) {
    for len in 0..75 {
        let place = if len < 72 { 0 } else { 36 };
        assert!(rt; bad_place(&ABC[..len]) == Some(place), "{len} bytes");
    }
}

/// What is wrong where that byte is another. No handle and no segment is.
fn place_of(byte: usize) -> Option<u64> {
    match byte {
        0..8 => Some(0),
        8..36 => None,
        36..40 => Some(36),
        _ => Some(40),
    }
}

/// ABC with another byte there.
fn changed(place: usize, value: u8) -> [u8; 75]
    requires { place < 75 }
{
    let mut bytes = ABC;
    bytes[place] ^= value;
    bytes
}

#[test]
fn are_bad_where_a_byte_is_another(rt: HostRuntime) {
    for byte in 0..75 {
        for value in [1, 128, 255] {
            let bytes = changed(byte, value);
            assert!(rt; bad_place(&bytes) == place_of(byte), "{value} at {byte}");
        }
    }
}

/// An object of so many bytes `x` that says it has that many, and has the digest of some others.
fn of_length(alloc: Global, len: usize, told: u32) -> Result<Vec<u8>, AllocError> {
    let mut bytes = ABC[..36].to_vec(alloc)?;
    bytes.extend_from_slice(&told.to_be_bytes())?;
    bytes.extend_from_slice(&ABC[40..72])?;
    for _ in 0..len {
        bytes.push(b'x').map_err(|_| AllocError)?;
    }
    Ok(bytes)
}

/// How many bytes there are, how many are told, and where that is wrong.
static LENGTHS: [(usize, u32, u64); 7] = [
    (0, 0, 36),
    (1, 1, 40),
    (1, 2, 36),
    (2, 1, 36),
    (65_536, 65_536, 40),
    (65_537, 65_537, 36),
    (65_537, 1, 36),
];

#[test]
fn are_bad_where_their_length_is(rt: HostRuntime) -> Result<(), AllocError> {
    for (len, told, place) in LENGTHS {
        let bytes = of_length(rt.alloc(), len, told)?;
        assert!(rt;
            bad_place(&bytes) == Some(place),
            "{len} bytes told as {told}"
        );
    }
    Ok(())
}
