//! Each image that a crash may leave, against lists by hand.

use crate::running::{Ran, Told, formatted, image_after, run_on_image, told_of};
use std::alloc::{AllocError, Global};
use std::process::Abort;
use std::test::Fail;

/// More calls of a disk than any run here makes.
const MOST_CALLS: u64 = 200;

/// What is run on a disk that stops, and what each image that a crash may leave has to tell.
struct Course {
    /// Makes the file, on an empty store.
    making: &'static str,
    /// The number of the snapshot that this leaves.
    base: u64,
    script: &'static str,
    /// What is asked of an image.
    questions: &'static str,
    /// After each number of entries that were done, the last one the commit: the transcript of the questions, and how many
    /// entries a crash leaves at least.
    rows: &'static [(&'static str, u64)],
}

/// Two writes over a file whose bytes lie in two blocks.
static REWRITES: Course = Course {
    making: "c1 create a\nc1 write a 4094 x:61626364\n",
    base: 2,
    script: "c1 write a 4094 x:65666768\nc1 sync\nc1 write a 4094 x:696a6b6c\nc1 sync\n",
    questions: "c1 read a 4094 9\n",
    rows: &REWRITTEN,
};

const REWRITTEN: [(&str, u64); 6] = [
    (FIRST, 0),
    (SECOND, 0),
    (SECOND, 1),
    (THIRD, 1),
    (THIRD, 3),
    (THIRD, 4),
];

const FIRST: &str = "c1 read a 4094 9 = 61626364\nstore commit = done\n";

const SECOND: &str = "c1 read a 4094 9 = 65666768\nstore commit = done\n";

const THIRD: &str = "c1 read a 4094 9 = 696a6b6c\nstore commit = done\n";

/// A punch of the sealed segment 0 of a file, between two writes over its segment 1. The second write comes before the
/// punch is durable, so it may not take the block that the punch frees. The store has the file system id of the name `s`.
static PUNCH: Course = Course {
    making: "c1 create a\nc1 write a 0 x:616263\nc1 write a 65536 x:61626364\ns0 session 0 me\ns1 setregion 0 304680751394550461.1.1 0:65536:7\ns1 seal 0 304680751394550461.1.1 0 0 0 65536 17fe03c5f83a1a6e08a786ab8f5382314b60281d39b4b3cb321bbd579dda98af\n",
    base: 6,
    script: "s0 session 0 me\nc1 write a 65536 x:65666768\nc1 sync\ns1 punch 0 304680751394550461.1.1 0 65536\nc1 write a 65536 x:696a6b6c\nc1 sync\n",
    questions: "s0 session 0 me\ns1 alloc 0 304680751394550461.1.1\ns1 fileattr 0 304680751394550461.1.1\ns1 readinvis 0 304680751394550461.1.1 0 3\nc1 read a 65536 4\n",
    rows: &PUNCHED,
};

const PUNCHED: [(&str, u64); 8] = [
    (SEALED, 0),
    (SEALED, 0),
    (WRITTEN, 0),
    (WRITTEN, 2),
    (OFFLINE, 2),
    (REWRITTEN_BESIDE, 2),
    (REWRITTEN_BESIDE, 5),
    (REWRITTEN_BESIDE, 6),
];

const SEALED: &str =
    "s0 session 0 me = session 1\ns1 alloc 0 304680751394550461.1.1 = alloc sr\ns1 fileattr 0 304680751394550461.1.1 = attr 65540 0 2\ns1 readinvis 0 304680751394550461.1.1 0 3 = 616263\nc1 read a 65536 4 = 61626364\nstore commit = done\n";

const WRITTEN: &str =
    "s0 session 0 me = session 1\ns1 alloc 0 304680751394550461.1.1 = alloc sr\ns1 fileattr 0 304680751394550461.1.1 = attr 65540 0 2\ns1 readinvis 0 304680751394550461.1.1 0 3 = 616263\nc1 read a 65536 4 = 65666768\nstore commit = done\n";

const OFFLINE: &str =
    "s0 session 0 me = session 1\ns1 alloc 0 304680751394550461.1.1 = alloc or\ns1 fileattr 0 304680751394550461.1.1 = attr 65540 0 1\ns1 readinvis 0 304680751394550461.1.1 0 3 = refused Offline 0\nc1 read a 65536 4 = 65666768\nstore commit = done\n";

const REWRITTEN_BESIDE: &str =
    "s0 session 0 me = session 1\ns1 alloc 0 304680751394550461.1.1 = alloc or\ns1 fileattr 0 304680751394550461.1.1 = attr 65540 0 1\ns1 readinvis 0 304680751394550461.1.1 0 3 = refused Offline 0\nc1 read a 65536 4 = 696a6b6c\nstore commit = done\n";

/// What a run has left: its status, how many of its entries were done, and the images that a crash may leave.
#[derive(Drop)]
struct Left {
    status: u8,
    done: u64,
    images: Vec<Vec<u8>>,
}

/// How many of the entries were done. The last one of a run that met a fault was not.
fn done(ran: &Ran) -> u64 {
    let entries = ran.ending.history.as_slice().len() as u64;
    if ran.ending.status == 0 {
        entries
    } else {
        entries.saturating_sub(1)
    }
}

/// The images that a crash may leave after that run.
fn images(alloc: Global, ran: &Ran) -> Result<Vec<Vec<u8>>, Fail> {
    let Some(disk) = &ran.ending.disk else {
        return Err("no disk came back".into());
    };
    if disk.inner().unsynced_writes() == 0 {
        let image = disk.inner().synced_image()?;
        return Ok(vec![in alloc; image]?);
    }
    Ok(disk.inner().crash_images()?)
}

fn left_by(alloc: Global, ran: &Ran) -> Result<Left, Fail> {
    Ok(Left {
        status: ran.ending.status,
        done: done(ran),
        images: images(alloc, ran)?,
    })
}

/// What a run has left, which is let go.
fn left_of(alloc: Global, ran: Ran) -> Result<Left, Fail> {
    left_by(alloc, &ran)
}

/// Runs the course's script on the store of that image, on a disk that passes so many calls on.
fn stopped(alloc: Global, course: &Course, image: &[u8], calls: u64) -> Result<Left, Fail> {
    left_of(
        alloc,
        run_on_image(alloc, image, Some(calls), course.script)?,
    )
}

/// What the image answers to the course's questions.
fn found(alloc: Global, course: &Course, image: &[u8]) -> Result<Told, AllocError> {
    told_of(alloc, run_on_image(alloc, image, None, course.questions)?)
}

/// The row after so many entries. Where there is none, it is one that no image meets.
fn row(course: &Course, entries: u64) -> (&'static str, u64) {
    let row = course.rows.get(entries as usize).copied();
    row.unwrap_or(("no such row", u64::MAX))
}

/// Whether that is what one of the first entries has left, after at least `least` and at most `done` of them.
fn is_left(course: &Course, found: &Told, least: u64, done: u64) -> bool {
    let entries = found.numbers.base.saturating_sub(course.base);
    let (text, _) = row(course, entries);
    least <= entries && entries <= done && found.text.as_slice() == text.as_bytes()
}

/// Each image is what the first entries have left.
fn assert_crash_safe(
    rt: &(impl Abort + AllocGlobal),
    course: &Course,
    left: &Left,
) -> Result<(), AllocError> {
    let (_, least) = row(course, left.done);
    for image in left.images.iter() {
        let found = found(rt.alloc(), course, image)?;
        assert!(rt; is_left(course, &found, least, left.done));
    }
    Ok(())
}

/// Runs the course's script on the store of that image, on a disk that passes so many calls on, and looks at what a crash
/// leaves. Says whether no call failed.
fn is_end_reached(
    rt: &(impl Abort + AllocGlobal),
    course: &Course,
    image: &[u8],
    calls: u64,
) -> Result<bool, Fail> {
    let left = stopped(rt.alloc(), course, image, calls)?;
    assert_crash_safe(rt, course, &left)?;
    Ok(left.status == 0)
}

/// The image that the course begins with.
fn made(alloc: Global, course: &Course) -> Result<Vec<u8>, Fail> {
    let empty = formatted(alloc)?;
    image_after(alloc, &empty, course.making)
}

/// Stops the course before each call of the disk, until none is left.
fn assert_each_stop_is_safe(rt: &(impl Abort + AllocGlobal), course: &Course) -> Result<(), Fail> {
    let image = made(rt.alloc(), course)?;
    for calls in 0..MOST_CALLS {
        if is_end_reached(rt, course, &image, calls)? {
            return Ok(());
        }
    }
    Err("no run ended well".into())
}

#[test]
fn a_crash_leaves_what_the_first_entries_left(rt: HostRuntime) -> Result<(), Fail> {
    assert_each_stop_is_safe(&rt, &REWRITES)
}

#[test]
fn a_crash_around_a_punch_leaves_what_the_first_entries_left(rt: HostRuntime) -> Result<(), Fail> {
    assert_each_stop_is_safe(&rt, &PUNCH)
}
