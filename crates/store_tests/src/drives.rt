//! The drives of a folder in a run: they are asked for once the store was opened, and come back as they were.

use crate::running::{Ran, formatted, host_of, run};
use hosts::{Host, MemHost};
use hsm_types::ListOf;
use media_model::{Drive, MemDrive, mem_drives};
use std::alloc::{AllocError, Global};
use std::process::Abort;
use std::test::Fail;

/// How many bytes a volume may have by the default settings.
pub(crate) const CAPACITY: u64 = 67_108_864;

/// What is told of a run with drives: its status, the entries of its history, and how many objects the volume 0 has where drives came back.
#[derive(Clone, Copy, Debug, PartialEq, Eq)]
struct Told {
    status: u8,
    entries: usize,
    has_disk: bool,
    drives: usize,
    objects: usize,
}

fn objects_in(drives: &[MemDrive]) -> usize {
    match drives {
        [] => 0,
        [first, ..] => match first.objects_of(0) {
            Some(objects) => objects.len(),
            None => 0,
        },
    }
}

fn told_by(ran: &Ran) -> Told {
    Told {
        status: ran.ending.status,
        entries: ran.ending.history.as_slice().len(),
        has_disk: ran.ending.disk.is_some(),
        drives: ran.ending.drives.as_slice().len(),
        objects: objects_in(ran.ending.drives.as_slice()),
    }
}

/// What is told of a run, which is let go.
fn told_of(ran: Ran) -> Told {
    told_by(&ran)
}

/// What is told of a script on the store `s` with the folder `d`.
fn replayed(alloc: Global, host: &mut MemHost, script: &str) -> Result<Told, AllocError> {
    Ok(told_of(run(alloc, host, &["replay", "s", "d"], script)?))
}

/// So many drives, of which the first one has an object on the volume 0.
fn drives_with_object(alloc: Global, count: u32, capacity: u64) -> Result<ListOf<MemDrive>, Fail> {
    let mut drives = mem_drives(alloc, count, 8, capacity)?;
    let Some(first) = drives.first_mut() else {
        return Err("no drive".into());
    };
    match first.append(0, b"abc") {
        Ok(_) => Ok(ListOf::from(drives)),
        Err(_) => Err("nothing was appended".into()),
    }
}

/// Puts the drives into the folder `d`.
pub(crate) fn put(host: &mut MemHost, drives: ListOf<MemDrive>) -> Result<(), Fail> {
    match host.put_drives("d", drives) {
        Ok(()) => Ok(()),
        Err((refusal, _)) => Err(refusal.into()),
    }
}

/// How drives are put in place before a run, its script, and what is told of it.
struct Case {
    put: Option<(u32, u64)>,
    script: &'static str,
    told: Told,
}

static CASES: [Case; 5] = [
    // A folder that isn't there has no objects.
    Case {
        put: None,
        script: "c1 create a\n",
        told: Told {
            status: 0,
            entries: 2,
            has_disk: true,
            drives: 2,
            objects: 0,
        },
    },
    // What a folder has is left as it was.
    Case {
        put: Some((2, CAPACITY)),
        script: "c1 create a\n",
        told: Told {
            status: 0,
            entries: 2,
            has_disk: true,
            drives: 2,
            objects: 1,
        },
    },
    // They come back from a refused script, too.
    Case {
        put: Some((2, CAPACITY)),
        script: "no line\n",
        told: Told {
            status: 1,
            entries: 0,
            has_disk: true,
            drives: 2,
            objects: 1,
        },
    },
    // Other drives than those that are asked for.
    Case {
        put: Some((1, CAPACITY)),
        script: "c1 create a\n",
        told: Told {
            status: 7,
            entries: 0,
            has_disk: true,
            drives: 0,
            objects: 0,
        },
    },
    Case {
        put: Some((2, 100)),
        script: "no line\n",
        told: Told {
            status: 7,
            entries: 0,
            has_disk: true,
            drives: 0,
            objects: 0,
        },
    },
];

fn told_in(alloc: Global, image: &[u8], case: &Case) -> Result<Told, Fail> {
    let mut host = host_of(alloc, image, None)?;
    if let Some((count, capacity)) = case.put {
        put(&mut host, drives_with_object(alloc, count, capacity)?)?;
    }
    Ok(replayed(alloc, &mut host, case.script)?)
}

#[test]
fn drives_come_back_as_they_were(rt: HostRuntime) -> Result<(), Fail> {
    let image = formatted(rt.alloc())?;
    for case in &CASES {
        assert_eq!(rt; told_in(rt.alloc(), &image, case)?, case.told);
    }
    Ok(())
}

/// How many faults a host has counted after it was asked for drives so many times, of which the first one fails; and how many drives came.
fn asked(alloc: Global, times: u32) -> Result<(u64, usize), AllocError> {
    let mut host = MemHost::new(alloc, vec![in alloc; 0]?);
    let mut came = 0;
    for _ in 0..times {
        came = match host.drives("d", 3, 4, 100) {
            Ok(drives) => drives.len(),
            Err(_) => 0,
        };
    }
    Ok((host.faults(), came))
}

#[test]
fn a_host_fails_at_a_listed_call_for_drives(rt: HostRuntime) -> Result<(), Fail> {
    assert_eq!(rt; asked(rt.alloc(), 1)?, (1, 0));
    assert_eq!(rt; asked(rt.alloc(), 2)?, (1, 3));
    Ok(())
}
