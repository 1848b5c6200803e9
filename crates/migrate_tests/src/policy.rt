//! What texts of settings give, and which segments are picked of small tables.

use hsm_policy::{Picked, Settings, SettingsRefusal, pick, read_settings};
use hsm_types::{
    Digest, FileKey, FileRow, FileRows, Fingerprint, Handle, Place, Segment, Segments, StubEntry,
    Table,
};
use std::alloc::{AllocError, Global};

/// Drives, volumes, capacity, high, low and workers.
type Numbers = [u64; 6];

/// Texts, and the settings that each gives.
static GOOD: [(&str, Numbers); 26] = [
    ("", [2, 8, 67_108_864, 80, 60, 2]),
    ("\n\n", [2, 8, 67_108_864, 80, 60, 2]),
    ("# a comment\n", [2, 8, 67_108_864, 80, 60, 2]),
    ("drives = 1", [1, 8, 67_108_864, 80, 60, 2]),
    ("drives = 8", [8, 8, 67_108_864, 80, 60, 2]),
    ("volumes = 1", [2, 1, 67_108_864, 80, 60, 2]),
    ("volumes = 256", [2, 256, 67_108_864, 80, 60, 2]),
    ("capacity = 1048576", [2, 8, 1_048_576, 80, 60, 2]),
    ("capacity = 1073741824", [2, 8, 1_073_741_824, 80, 60, 2]),
    ("high = 1\nlow = 0", [2, 8, 67_108_864, 1, 0, 2]),
    ("high = 95\nlow = 94", [2, 8, 67_108_864, 95, 94, 2]),
    ("high = 61", [2, 8, 67_108_864, 61, 60, 2]),
    ("low = 79", [2, 8, 67_108_864, 80, 79, 2]),
    ("workers = 1", [2, 8, 67_108_864, 80, 60, 1]),
    ("workers = 8", [2, 8, 67_108_864, 80, 60, 8]),
    ("drives = 0x4", [4, 8, 67_108_864, 80, 60, 2]),
    ("drives = 0o7", [7, 8, 67_108_864, 80, 60, 2]),
    ("drives = 0b11", [3, 8, 67_108_864, 80, 60, 2]),
    ("capacity = 1_048_576", [2, 8, 1_048_576, 80, 60, 2]),
    ("low = +5", [2, 8, 67_108_864, 80, 5, 2]),
    ("low = -0", [2, 8, 67_108_864, 80, 0, 2]),
    ("\"workers\" = 3", [2, 8, 67_108_864, 80, 60, 3]),
    ("'high' = 70", [2, 8, 67_108_864, 70, 60, 2]),
    ("\u{feff}low = 50", [2, 8, 67_108_864, 80, 50, 2]),
    (
        "drives=3 # three\r\nvolumes\t= 9\r\n",
        [3, 9, 67_108_864, 80, 60, 2],
    ),
    (
        "workers = 4\nlow = 10\nhigh = 20\ncapacity = 2000000\nvolumes = 3\ndrives = 5\n",
        [5, 3, 2_000_000, 20, 10, 4],
    ),
];

/// Numbers that are out of range, `low` that isn't below `high`, other keys, other values, and what is no document.
static BAD: [&str; 44] = [
    "drives = 0",
    "drives = 9",
    "volumes = 0",
    "volumes = 257",
    "capacity = 1048575",
    "capacity = 1073741825",
    "high = 0\nlow = 0",
    "high = 96",
    "high = 96\nlow = 95",
    "low = -1",
    "workers = 0",
    "workers = 9",
    "drives = 4294967298",
    "capacity = 9223372036854775807",
    "capacity = 9223372036854775808",
    "high = 50\nlow = 60",
    "high = 50\nlow = 50",
    "high = 60",
    "low = 80",
    "low = 81",
    "drive = 2",
    "Drives = 2",
    "\"\" = 2",
    "drives = 2\ndrives = 2",
    "drives = 2\n\"drives\" = 3",
    "drives = 2.0",
    "drives = \"2\"",
    "drives = true",
    "drives = 1979-05-27",
    "drives = [2]",
    "drives = {}",
    "drives.count = 2",
    "[drives]",
    "[settings]\ndrives = 2",
    "[[drives]]",
    "drives",
    "drives =",
    "drives 2",
    "drives = 02",
    "drives = 2_",
    "drives = 2 volumes = 3",
    "drives = 2\rvolumes = 3",
    "drives = 2\0",
    "{\"drives\": 2}",
];

fn numbers(settings: &Settings) -> Numbers {
    [
        u64::from(settings.drives()),
        u64::from(settings.volumes()),
        settings.capacity(),
        settings.high(),
        settings.low(),
        u64::from(settings.workers()),
    ]
}

/// Whether the text gives these settings.
fn gives(alloc: Global, text: &str, wanted: &Numbers) -> bool {
    match read_settings(alloc, text.as_bytes()) {
        Ok(settings) => numbers(&settings) == *wanted,
        Err(_) => false,
    }
}

fn is_bad(alloc: Global, text: &[u8]) -> bool {
    read_settings(alloc, text) == Err(SettingsRefusal::Bad)
}

#[test]
fn texts_give_their_settings(rt: HostRuntime) {
    for (text, wanted) in &GOOD {
        assert!(rt; gives(rt.alloc(), text, wanted));
    }
}

#[test]
fn other_texts_are_refused(rt: HostRuntime) {
    for text in &BAD {
        assert!(rt; is_bad(rt.alloc(), text.as_bytes()));
    }
}

#[test]
fn bytes_that_are_no_text_are_refused(rt: HostRuntime) {
    assert!(rt; is_bad(rt.alloc(), b"drives = 2 # \xff"));
    assert!(rt; is_bad(rt.alloc(), b"\xff\xfed\0"));
}

#[test]
fn settings_are_those_of_no_text(rt: HostRuntime) {
    let wanted = numbers(&Settings::default());
    assert!(rt; gives(rt.alloc(), "", &wanted));
}

// ---- picks

fn entry() -> StubEntry {
    let place = Place {
        volume: 0,
        object: 0,
    };
    let print = Fingerprint {
        len: 65536,
        digest: Digest([0; 32]),
    };
    StubEntry::new(place, print)
}

fn resident(blocks: u32) -> Segment {
    Segment::Resident { blocks }
}

fn sealed(blocks: u32) -> Segment {
    Segment::Sealed {
        blocks,
        entry: entry(),
    }
}

fn offline() -> Segment {
    Segment::Offline { entry: entry() }
}

fn handle(ino: u64, igen: u64) -> Handle {
    Handle {
        fsid: 1,
        key: FileKey { ino, igen },
    }
}

fn row(
    alloc: Global,
    stamp: u64,
    handle: Handle,
    segments: &[Segment],
) -> Result<FileRow, AllocError> {
    Ok(FileRow {
        handle,
        size: 0,
        stamp,
        segments: Segments::from(segments.to_vec(alloc)?),
    })
}

fn table(used: u64, rows: Vec<FileRow>) -> Table {
    Table {
        used,
        total: 1024,
        files: FileRows::from(rows),
    }
}

fn taken(handle: Handle, segment: u32, sealed: bool) -> Picked {
    Picked {
        handle,
        segment,
        sealed,
    }
}

/// Whether these are picked.
fn picks(alloc: Global, table: &Table, low: u64, wanted: &[Picked]) -> bool {
    match pick(alloc, table, low) {
        Ok(picks) => picks.as_slice() == wanted,
        Err(_) => false,
    }
}

/// How many segments are picked.
fn count(alloc: Global, table: &Table, low: u64) -> Option<usize> {
    match pick(alloc, table, low) {
        Ok(picks) => Some(picks.as_slice().len()),
        Err(_) => None,
    }
}

/// Limits, and how many segments of the table of three files go under each.
static LIMITS: [(u64, usize); 9] = [
    (0, 4),
    (2, 4),
    (3, 3),
    (18, 3),
    (19, 2),
    (34, 2),
    (35, 1),
    (36, 0),
    (1024, 0),
];

/// Three files, the last of which was accessed longest ago. 36 blocks are used.
fn three_files(alloc: Global) -> Result<Table, AllocError> {
    let rows = vec![in alloc;
        row(alloc, 9, handle(1, 1), &[resident(16), sealed(3)])?,
        row(alloc, 2, handle(2, 5), &[sealed(16)])?,
        row(
            alloc,
            0,
            handle(3, 4),
            &[offline(), resident(0), resident(1)]
        )?,
    ]?;
    Ok(table(36, rows))
}

#[test]
fn oldest_stamp_goes_first(rt: HostRuntime) -> Result<(), AllocError> {
    let table = three_files(rt.alloc())?;
    let all = [
        taken(handle(3, 4), 2, false),
        taken(handle(2, 5), 0, true),
        taken(handle(1, 1), 0, false),
        taken(handle(1, 1), 1, true),
    ];
    for (low, count) in &LIMITS {
        let wanted = all.get(..*count).unwrap_or(&[]);
        assert!(rt; picks(rt.alloc(), &table, *low, wanted));
    }
    Ok(())
}

/// Four files of one stamp, of which one is of another store.
fn one_stamp(alloc: Global) -> Result<Table, AllocError> {
    let other = Handle {
        fsid: 0,
        key: FileKey { ino: 9, igen: 9 },
    };
    let rows = vec![in alloc;
        row(alloc, 7, handle(2, 1), &[resident(1)])?,
        row(alloc, 7, handle(1, 3), &[resident(1), sealed(1)])?,
        row(alloc, 7, handle(1, 2), &[resident(1)])?,
        row(alloc, 7, other, &[resident(1)])?,
    ]?;
    Ok(table(5, rows))
}

#[test]
fn handle_and_segment_decide_where_stamps_are_the_same(rt: HostRuntime) -> Result<(), AllocError> {
    let table = one_stamp(rt.alloc())?;
    let other = Handle {
        fsid: 0,
        key: FileKey { ino: 9, igen: 9 },
    };
    let all = [
        taken(other, 0, false),
        taken(handle(1, 2), 0, false),
        taken(handle(1, 3), 0, false),
        taken(handle(1, 3), 1, true),
        taken(handle(2, 1), 0, false),
    ];
    assert!(rt; picks(rt.alloc(), &table, 0, &all));
    Ok(())
}

/// A table that has one file twice, which no store gives.
fn one_file_twice(alloc: Global) -> Result<Table, AllocError> {
    let rows = vec![in alloc;
        row(alloc, 7, handle(1, 1), &[resident(1), resident(1)])?,
        row(alloc, 7, handle(1, 1), &[sealed(1), sealed(1)])?,
    ]?;
    Ok(table(4, rows))
}

#[test]
fn what_has_one_place_is_taken_as_it_stands(rt: HostRuntime) -> Result<(), AllocError> {
    let table = one_file_twice(rt.alloc())?;
    let all = [
        taken(handle(1, 1), 0, false),
        taken(handle(1, 1), 0, true),
        taken(handle(1, 1), 1, false),
        taken(handle(1, 1), 1, true),
    ];
    assert!(rt; picks(rt.alloc(), &table, 0, &all));
    Ok(())
}

/// Files whose segments are offline, empty or none.
fn nothing_mapped(alloc: Global) -> Result<Table, AllocError> {
    let rows = vec![in alloc;
        row(alloc, 1, handle(1, 1), &[offline(), offline()])?,
        row(alloc, 2, handle(2, 2), &[])?,
        row(alloc, 3, handle(3, 3), &[resident(0), sealed(0)])?,
    ]?;
    Ok(table(9, rows))
}

#[test]
fn what_has_no_mapped_block_is_never_picked(rt: HostRuntime) -> Result<(), AllocError> {
    let table = nothing_mapped(rt.alloc())?;
    assert!(rt; picks(rt.alloc(), &table, 0, &[]));
    Ok(())
}

/// 64 full segments that fill a small store.
fn full_store(alloc: Global) -> Result<Table, AllocError> {
    let segments = vec![in alloc; resident(16); 64]?;
    let rows = vec![in alloc; row(alloc, 65, handle(1, 1), &segments)?]?;
    Ok(table(1024, rows))
}

/// 60 percent of a small store are 614 blocks, and 26 segments have to go.
#[test]
fn full_store_gives_26_segments(rt: HostRuntime) -> Result<(), AllocError> {
    let table = full_store(rt.alloc())?;
    assert!(rt; count(rt.alloc(), &table, 614) == Some(26));
    Ok(())
}
