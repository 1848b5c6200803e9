//! Copies of segments on a drive in memory: what a volume has of them, what is fetched, and what is told of faults and of damage.
ghost use Rattle.std.specs.Prelude.{◌≤◌, IfOk, length};
ghost use Rattle.hsm_types.specs.Limits.{segment_bytes};
ghost use Rattle.media_model.specs.Objects.{longest_object};

use hsm_types::{
    Bytes, CopyRefusal, Fault, FetchRefusal, FileKey, Fingerprint, Handle, Place, StubEntry,
    Verified,
};
use media_model::{Drive, DriveRefusal, FailingCall, MemDrive};
use std::alloc::{AllocError, Global};
use volume_shelf::{copy, fetch};

pub(crate) const FILE: Handle = Handle {
    fsid: 1,
    key: FileKey { ino: 2, igen: 5 },
};

/// A drive with the volume 0, whose objects may have 100 bytes. Its call with that number fails.
fn drive(alloc: Global, failing: &[u64]) -> Result<MemDrive, AllocError> {
    let mut calls = Vec::new(alloc);
    for number in failing {
        calls.push(FailingCall {
            number: *number,
            kept: None,
        })?;
    }
    MemDrive::new(alloc, &[0], 100, &calls)
}

/// A copy of the bytes as segment 7 of the file.
fn copied(alloc: Global, drive: &mut MemDrive, bytes: &[u8]) -> Result<StubEntry, CopyRefusal>
    requires some { 1 ≤ length bytes.now }
    requires most { length bytes.now ≤ segment_bytes }
{
    let Ok(bytes) = bytes.to_vec(alloc) else {
        return Err(CopyRefusal::Memory);
    };
    copy(alloc, drive, 0, &FILE, 7, &Verified::of(Bytes::from(bytes)))
}

/// The entry of an object of the volume 0 with these bytes.
fn entry(object: u32, bytes: &[u8]) -> StubEntry
    requires { length bytes.now ≤ segment_bytes }
{
    StubEntry::new(Place { volume: 0, object }, Fingerprint::of(bytes))
}

pub(crate) fn fetches(outcome: &Result<Verified, FetchRefusal>, bytes: &[u8]) -> bool {
    match outcome {
        Ok(fetched) => fetched.as_slice() == bytes,
        Err(_) => false,
    }
}

pub(crate) fn tells(outcome: &Result<Verified, FetchRefusal>, fault: Fault) -> bool {
    match outcome {
        Err(FetchRefusal::Media(cause)) => cause.fault() == fault,
        _ => false,
    }
}

fn misses(outcome: &Result<Verified, FetchRefusal>, place: u32) -> bool {
    match outcome {
        Err(FetchRefusal::NoObject { volume, object }) => *volume == 0 && *object == place,
        _ => false,
    }
}

#[test]
fn are_objects_behind_each_other(rt: HostRuntime) -> Result<(), AllocError> {
    let mut drive = drive(rt.alloc(), &[])?;
    assert!(rt; copied(rt.alloc(), &mut drive, b"abc") == Ok(entry(0, b"abc")));
    assert!(rt; drive.size(0, 0) == Ok(75));
    let full = CopyRefusal::Full {
        used: 75,
        len: 75,
        capacity: 100,
    };
    assert!(rt;
        copied(rt.alloc(), &mut drive, b"abc") == Err(full),
        "no room"
    );
    assert!(rt; fetches(&fetch(rt.alloc(), &mut drive, &entry(0, b"abc")), b"abc"));
    assert!(rt; misses(&fetch(rt.alloc(), &mut drive, &entry(1, b"abc")), 1));
    Ok(())
}

#[test]
fn are_fetched_after_a_fault(rt: HostRuntime) -> Result<(), AllocError> {
    let mut drive = drive(rt.alloc(), &[4])?;
    assert!(rt; copied(rt.alloc(), &mut drive, b"abc").is_ok());
    let fault = Fault::Failed {
        volume: 0,
        object: 0,
        before: 0,
        after: 1,
    };
    assert!(rt; tells(&fetch(rt.alloc(), &mut drive, &entry(0, b"abc")), fault));
    assert!(rt; fetches(&fetch(rt.alloc(), &mut drive, &entry(0, b"abc")), b"abc"));
    Ok(())
}

#[test]
fn are_refused_where_any_call_fails(rt: HostRuntime) -> Result<(), AllocError> {
    for (number, objects) in [(0, 0), (1, 1), (2, 1), (3, 1)] {
        let mut drive = drive(rt.alloc(), &[number])?;
        let failed = CopyRefusal::Failed {
            before: 0,
            after: 1,
        };
        assert!(rt;
            copied(rt.alloc(), &mut drive, b"abc") == Err(failed),
            "call {number}"
        );
        assert!(rt; drive.objects(0) == Ok(objects), "call {number}");
    }
    Ok(())
}

/// An object with a frame of zeros and that payload.
fn framed(alloc: Global, payload: &[u8]) -> Result<Vec<u8>, AllocError>
    requires { length payload.now ≤ segment_bytes }
    ensures { IfOk result (λ v. length v.items ≤ longest_object) }
{
    let mut object = vec![in alloc; 0u8; 72]?;
    object.extend_from_slice(payload)?;
    Ok(object)
}

/// What a fetch of `foo` tells where that payload stands in its place.
fn damaged(payload: &[u8]) -> Fault
    requires { length payload.now ≤ segment_bytes }
{
    Fault::Damaged {
        volume: 0,
        object: 0,
        want: Fingerprint::of(b"foo"),
        got: Fingerprint::of(payload),
    }
}

#[test]
fn are_known_by_their_payload(rt: HostRuntime) -> Result<(), AllocError> {
    let long = vec![in rt.alloc(); b'x'; 10_000]?;
    for payload in [b"bar".as_slice(), b"fo", b"foo ", b"", long.as_slice()] {
        let mut drive = drive(rt.alloc(), &[])?;
        assert!(rt; copied(rt.alloc(), &mut drive, b"foo").is_ok());
        assert!(rt; payload.len() <= 65_536);
        drive.damage(0, 0, &framed(rt.alloc(), payload)?)?;
        let fetched = fetch(rt.alloc(), &mut drive, &entry(0, b"foo"));
        assert!(rt;
            tells(&fetched, damaged(payload)),
            "{} bytes",
            payload.len()
        );
    }
    Ok(())
}

#[test]
fn are_fetched_whatever_stands_in_the_frame(rt: HostRuntime) -> Result<(), AllocError> {
    let mut drive = drive(rt.alloc(), &[])?;
    assert!(rt; copied(rt.alloc(), &mut drive, b"foo").is_ok());
    drive.damage(0, 0, &framed(rt.alloc(), b"foo")?)?;
    assert!(rt; fetches(&fetch(rt.alloc(), &mut drive, &entry(0, b"foo")), b"foo"));
    Ok(())
}

#[test]
fn are_told_as_damaged_where_others_were_stored(rt: HostRuntime) -> Result<(), AllocError> {
    let mut drive = drive(rt.alloc(), &[])?;
    drive.damage(0, 0, &framed(rt.alloc(), b"bar")?)?;
    let damaged = CopyRefusal::Damaged {
        want: Fingerprint::of(b"foo"),
        got: Fingerprint::of(b"bar"),
    };
    assert!(rt; copied(rt.alloc(), &mut drive, b"foo") == Err(damaged));
    Ok(())
}

/// Calls of a drive by hand.
#[test]
fn drives_answer_in_order(rt: HostRuntime) -> Result<(), AllocError> {
    let prefix = FailingCall {
        number: 1,
        kept: Some(2),
    };
    let mut drive = MemDrive::new(rt.alloc(), &[3], 10, &[prefix])?;
    assert!(rt; drive.append(4, b"abc") == Err(DriveRefusal::NoVolume));
    assert!(rt; drive.append(3, b"abc") == Err(DriveRefusal::Failed));
    assert!(rt; drive.faults() == 1 && drive.calls() == 2);
    assert!(rt; drive.append(3, b"12345678") == Ok(1));
    let full = DriveRefusal::Full {
        used: 10,
        len: 1,
        capacity: 10,
    };
    assert!(rt; drive.append(3, b"x") == Err(full));
    assert!(rt; drive.size(3, 2) == Err(DriveRefusal::NoObject));
    let mut buf = *b"....";
    assert!(rt; drive.read(3, 0, 0, &mut buf) == Ok(2) && buf == *b"ab..");
    assert!(rt; drive.read(3, 1, 7, &mut buf) == Ok(1) && buf == *b"8b..");
    assert!(rt; drive.read(3, 1, 8, &mut buf) == Ok(0));
    assert!(rt; drive.sync(3) == Ok(()) && drive.objects(3) == Ok(2));
    Ok(())
}
