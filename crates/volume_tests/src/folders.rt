//! Copies on a drive in memory and in a folder of the system, of which the same is told; and what is told of a folder with bad content.
ghost use Rattle.std.specs.Prelude.{◌≡◌, ◌≤◌, IfOk, length};

use crate::objects::ABC;
use crate::shelf::{FILE, fetches, tells};
use folder_drive::FolderDrive;
use hsm_types::{Bytes, CopyRefusal, Fault, FetchRefusal, Fingerprint, Place, StubEntry, Verified};
use media_model::{Drive, DriveRefusal, MemDrive};
use std::alloc::{AllocError, Global};
use std::process::Abort;
use std::rt::Files;
use std::test::Fail;
use std::{env, fs, process};
use volume_shelf::{copy, fetch};

/// Room for two objects of three bytes of payload.
const CAPACITY: u64 = 160;

const FULL: CopyRefusal = CopyRefusal::Full {
    used: 150,
    len: 75,
    capacity: CAPACITY,
};

const FAILED: CopyRefusal = CopyRefusal::Failed {
    before: 0,
    after: 1,
};

/// What a fetch tells.
#[derive(Clone, Copy)]
enum Told {
    /// The bytes that were copied.
    Whole,
    Missing,
    /// That the payload has other bytes, at most three.
    Damaged(&'static [u8]),
    /// That the drive's first call failed.
    Failed,
}

/// What is asked of a drive, and what it tells.
#[derive(Clone, Copy)]
enum Step {
    /// How many objects the volume has.
    Objects(u32, Result<u32, DriveRefusal>),
    /// A copy of `abc` to the volume, and the number of its object.
    Copy(u32, Result<u32, CopyRefusal>),
    /// A fetch of that volume's object, which is to be `abc`.
    Fetch(u32, u32, Told),
}

/// The drive 1 of 2 with the volumes 1 and 3 of 4, without objects; the folder isn't there.
static NEW: [Step; 15] = [
    Step::Objects(1, Ok(0)),
    Step::Fetch(1, 0, Told::Missing),
    Step::Copy(1, Ok(0)),
    Step::Copy(1, Ok(1)),
    Step::Copy(1, Err(FULL)),
    Step::Objects(1, Ok(2)),
    Step::Fetch(1, 1, Told::Whole),
    Step::Fetch(1, 2, Told::Missing),
    Step::Copy(3, Ok(0)),
    Step::Fetch(3, 0, Told::Whole),
    Step::Objects(0, Err(DriveRefusal::NoVolume)),
    Step::Objects(5, Err(DriveRefusal::NoVolume)),
    Step::Copy(2, Err(CopyRefusal::NoVolume)),
    Step::Fetch(0, 0, Told::Missing),
    Step::Fetch(1, 0, Told::Whole),
];

/// Another drive of that number in the folder, later.
static LATER: [Step; 4] = [
    Step::Copy(1, Err(FULL)),
    Step::Copy(3, Ok(1)),
    Step::Objects(1, Ok(2)),
    Step::Objects(3, Ok(2)),
];

/// A folder that takes no file.
static CLOSED: [Step; 1] = [Step::Copy(1, Err(FAILED))];

/// A folder with a folder in the place of the volume's first object.
static INNER: [Step; 3] = [
    Step::Fetch(1, 0, Told::Failed),
    Step::Objects(1, Err(DriveRefusal::Failed)),
    Step::Objects(3, Ok(0)),
];

/// A folder with files that are no objects of the volume.
static OTHERS: [Step; 3] = [
    Step::Objects(1, Ok(0)),
    Step::Copy(1, Ok(0)),
    Step::Objects(1, Ok(1)),
];

/// A folder whose volume has lost the second of its three objects. Where the object of a copy is there, the volume is counted again.
static LOST: [Step; 7] = [
    Step::Objects(1, Ok(1)),
    Step::Fetch(1, 1, Told::Missing),
    Step::Fetch(1, 2, Told::Whole),
    Step::Copy(1, Ok(1)),
    Step::Fetch(1, 1, Told::Whole),
    Step::Copy(1, Err(FAILED)),
    Step::Copy(1, Ok(3)),
];

/// How many bytes are left of an object of 75, which one is changed, and what is told of it then. The payload begins at 72.
static DAMAGES: [(usize, Option<usize>, Told); 6] = [
    (74, None, Told::Damaged(b"ab")),
    (72, None, Told::Damaged(b"")),
    (10, None, Told::Damaged(b"")),
    (75, Some(74), Told::Damaged(b"abb")),
    (75, Some(40), Told::Whole),
    (75, None, Told::Whole),
];

fn copied<D: Drive>(alloc: Global, drive: &mut D, volume: u32) -> Result<StubEntry, CopyRefusal> {
    let Ok(bytes) = b"abc".to_vec(alloc) else {
        return Err(CopyRefusal::Memory);
    };
    copy(
        alloc,
        drive,
        volume,
        &FILE,
        7,
        &Verified::of(Bytes::from(bytes)),
    )
}

/// Whether a copy has that number in the volume, and names `abc`; or is refused so.
fn copies<D: Drive>(
    alloc: Global,
    drive: &mut D,
    volume: u32,
    told: Result<u32, CopyRefusal>,
) -> bool {
    match told {
        Ok(object) => copied(alloc, drive, volume) == Ok(entry(volume, object)),
        Err(why) => copied(alloc, drive, volume) == Err(why),
    }
}

fn entry(volume: u32, object: u32) -> StubEntry {
    StubEntry::new(Place { volume, object }, Fingerprint::of(b"abc"))
}

/// Whether a fetch tells that.
fn is_told<D: Drive>(alloc: Global, drive: &mut D, volume: u32, object: u32, told: Told) -> bool {
    let outcome = fetch(alloc, drive, &entry(volume, object));
    match told {
        Told::Whole => fetches(&outcome, b"abc"),
        Told::Missing => is_missing(&outcome, volume, object),
        Told::Damaged(payload) => {
            payload.len() <= 3 && tells(&outcome, damaged(volume, object, payload))
        }
        Told::Failed => tells(
            &outcome,
            Fault::Failed {
                volume,
                object,
                before: 0,
                after: 1,
            },
        ),
    }
}

fn is_missing(outcome: &Result<Verified, FetchRefusal>, volume: u32, object: u32) -> bool {
    match outcome {
        Err(why) => *why == FetchRefusal::NoObject { volume, object },
        Ok(_) => false,
    }
}

fn damaged(volume: u32, object: u32, payload: &[u8]) -> Fault
    requires { length payload.now ≤ 3 }
{
    Fault::Damaged {
        volume,
        object,
        want: Fingerprint::of(b"abc"),
        got: Fingerprint::of(payload),
    }
}

fn is_answered<D: Drive>(alloc: Global, drive: &mut D, step: Step) -> bool {
    match step {
        Step::Objects(volume, told) => drive.objects(volume) == told,
        Step::Copy(volume, told) => copies(alloc, drive, volume, told),
        Step::Fetch(volume, object, told) => is_told(alloc, drive, volume, object, told),
    }
}

/// Whether the drive answers so, and counts so many faults.
fn assert_answers<D: Drive>(
    rt: &(impl Abort + AllocGlobal),
    drive: &mut D,
    steps: &[Step],
    faults: u64,
) {
    for (place, step) in steps.iter().enumerate() {
        assert!(rt; is_answered(rt.alloc(), drive, *step), "row {place}");
    }
    assert!(rt; drive.faults() == faults);
}

/// What is left of the object of `abc`.
fn altered(alloc: Global, kept: usize, changed: Option<usize>) -> Result<Vec<u8>, AllocError>
    ensures { IfOk result (λ v. length v.items ≤ 75) }
{
    let mut bytes = ABC[..kept.min(75)].to_vec(alloc)?;
    if let Some(place) = changed {
        if let Some(byte) = bytes.get_mut(place) {
            *byte ^= 1;
        }
    }
    Ok(bytes)
}

fn assert_memory(rt: &(impl Abort + AllocGlobal), drive: &mut MemDrive) -> Result<(), AllocError> {
    assert_answers(rt, drive, &NEW, 0);
    for (kept, changed, told) in DAMAGES {
        drive.damage(3, 0, &altered(rt.alloc(), kept, changed)?)?;
        assert!(rt;
            is_told(rt.alloc(), drive, 3, 0, told),
            "{kept} bytes, changed {changed:?}"
        );
    }
    Ok(())
}

#[test]
fn a_drive_in_memory_tells_what_it_holds(rt: HostRuntime) -> Result<(), AllocError> {
    let mut drive = MemDrive::new(rt.alloc(), &[1, 3], CAPACITY, &[])?;
    assert_memory(&rt, &mut drive)
}

/// A path of this process alone, in the folder for what is temporary.
fn path_of(rt: &HostRuntime, name: &str) -> Result<String, Fail> {
    let folder = env::temp_dir(rt)?;
    let id = process::id(rt.process());
    Ok(format!(in rt.alloc(); "{}/hsm-{name}-{id}", folder.as_str())?)
}

/// The drive 1 of 2, which has the volumes 1 and 3.
fn drive_of<'a>(
    rt: &'a HostRuntime,
    folder: &str,
    capacity: u64,
) -> Result<FolderDrive<&'a HostRuntime>, AllocError> {
    FolderDrive::new(rt.alloc(), rt, folder, 1, 2, 4, capacity)
}

/// A drive that may be handed to another thread.
fn sent<D: Drive + Drop + Send>(drive: D) -> D
    ensures { result ≡ drive }
{
    drive
}

/// Whether a drive of a folder that isn't there answers as one in memory, and its file has just the bytes of the object.
fn assert_folder<D: Drive>(
    rt: &(impl Abort + AllocGlobal + Files),
    drive: &mut D,
    folder: &str,
) -> Result<(), Fail> {
    assert_answers(rt, drive, &NEW, 0);
    let file = format!(in rt.alloc(); "{folder}/3.0")?;
    let held = fs::read(rt, file.as_str())?;
    assert!(rt; held.as_slice() == ABC.as_slice());
    for (kept, changed, told) in DAMAGES {
        fs::write(rt, file.as_str(), altered(rt.alloc(), kept, changed)?)?;
        assert!(rt;
            is_told(rt.alloc(), drive, 3, 0, told),
            "{kept} bytes, changed {changed:?}"
        );
    }
    Ok(())
}

#[test]
fn a_folder_tells_what_it_holds(rt: HostRuntime) -> Result<(), Fail> {
    let path = path_of(&rt, "told")?;
    let folder = path.as_str();
    assert_folder(&rt, &mut sent(drive_of(&rt, folder, CAPACITY)?), folder)?;
    assert_answers(&rt, &mut drive_of(&rt, folder, CAPACITY)?, &LATER, 0);
    fs::remove_dir_all(&rt, folder)?;
    Ok(())
}

#[test]
fn a_folder_that_takes_no_file_is_a_fault(rt: HostRuntime) -> Result<(), Fail> {
    let plain = path_of(&rt, "plain")?;
    fs::write(&rt, plain.as_str(), "a file")?;
    let below = format!(in rt.alloc(); "{}/folder", plain.as_str())?;
    let missing = format!(in rt.alloc(); "{}-missing/folder", plain.as_str())?;
    for folder in [
        plain.as_str(),
        below.as_str(),
        missing.as_str(),
        "/proc/hsm",
    ] {
        assert_answers(&rt, &mut drive_of(&rt, folder, CAPACITY)?, &CLOSED, 1);
    }
    fs::remove_file(&rt, plain.as_str())?;
    Ok(())
}

#[test]
fn a_folder_in_the_place_of_an_object_is_a_fault(rt: HostRuntime) -> Result<(), Fail> {
    let path = path_of(&rt, "inner")?;
    let folder = path.as_str();
    fs::create_dir(&rt, folder)?;
    fs::create_dir(&rt, name_in(rt.alloc(), folder, "1.0")?)?;
    assert_answers(&rt, &mut drive_of(&rt, folder, CAPACITY)?, &INNER, 2);
    fs::remove_dir_all(&rt, folder)?;
    Ok(())
}

fn name_in(alloc: Global, folder: &str, name: &str) -> Result<String, AllocError> {
    format!(in alloc; "{folder}/{name}")
}

/// Names of files that are no objects, or none that is counted: zeros before a number, more or less behind the point, no numbers, and an object that others
/// would have to come before.
static NAMES: [&str; 7] = ["1.00", "01.0", "1.0x", "1.", "1", "notes", "1.2"];

/// Writes a file of each of these names, which holds its name.
fn write_names(rt: &HostRuntime, folder: &str) -> Result<(), Fail> {
    for name in NAMES {
        fs::write(rt, name_in(rt.alloc(), folder, name)?, name)?;
    }
    Ok(())
}

/// Whether each of these files still holds its name.
fn have_names(rt: &HostRuntime, folder: &str) -> Result<bool, Fail> {
    for name in NAMES {
        let held = fs::read_to_string(rt, name_in(rt.alloc(), folder, name)?)?;
        if held.as_str() != name {
            return Ok(false);
        }
    }
    Ok(true)
}

#[test]
fn files_with_other_names_are_left_alone(rt: HostRuntime) -> Result<(), Fail> {
    let path = path_of(&rt, "others")?;
    let folder = path.as_str();
    fs::create_dir(&rt, folder)?;
    write_names(&rt, folder)?;
    assert_answers(&rt, &mut drive_of(&rt, folder, CAPACITY)?, &OTHERS, 0);
    assert!(rt; have_names(&rt, folder)?);
    fs::remove_dir_all(&rt, folder)?;
    Ok(())
}

#[test]
fn a_lost_file_is_one_lost_object(rt: HostRuntime) -> Result<(), Fail> {
    let path = path_of(&rt, "lost")?;
    let folder = path.as_str();
    fs::create_dir(&rt, folder)?;
    for name in ["1.0", "1.2"] {
        fs::write(&rt, name_in(rt.alloc(), folder, name)?, ABC.as_slice())?;
    }
    assert_answers(&rt, &mut drive_of(&rt, folder, 1000)?, &LOST, 1);
    fs::remove_dir_all(&rt, folder)?;
    Ok(())
}
