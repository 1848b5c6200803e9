//! What is shown of a store.
use hsm_types::{
    Digest, FileKey, FileRow, FileRows, Fingerprint, Handle, Place, Segment, Segments, StubEntry,
    Table, Word,
};
use std::alloc::{AllocError, Global};
use store_summary::{ClassCounts, Summary, Words, show_text};

fn entry() -> StubEntry {
    let place = Place {
        volume: 3,
        object: 4,
    };
    let print = Fingerprint {
        len: 65_536,
        digest: Digest([5; 32]),
    };
    StubEntry::new(place, print)
}

fn segments() -> [Segment; 4] {
    [
        Segment::Resident { blocks: 16 },
        Segment::Offline { entry: entry() },
        Segment::Sealed {
            blocks: 16,
            entry: entry(),
        },
        Segment::Offline { entry: entry() },
    ]
}

/// A file: its name, its key, and how many of the segments it has, each of them whole.
struct File {
    name: &'static [u8],
    key: FileKey,
    count: usize,
}

/// One file, which has no bytes.
static ONE: [File; 1] = [File {
    name: b"a",
    key: FileKey { ino: 1, igen: 1 },
    count: 0,
}];

/// Files whose names are in another order than their inodes.
static THREE: [File; 3] = [
    File {
        name: b"b",
        key: FileKey { ino: 1, igen: 5 },
        count: 4,
    },
    File {
        name: b"ab",
        key: FileKey { ino: 2, igen: 7 },
        count: 1,
    },
    File {
        name: b"a",
        key: FileKey { ino: 3, igen: 6 },
        count: 3,
    },
];

static CLASSES: ClassCounts = ClassCounts {
    live: 1,
    dead: 2,
    held: 3,
    missing: 4,
    altered: 5,
};

fn row(alloc: Global, file: &File) -> Result<FileRow, AllocError> {
    let all = segments();
    let segments = all.get(..file.count).unwrap_or(&all);
    Ok(FileRow {
        handle: Handle {
            fsid: 9,
            key: file.key,
        },
        size: 65_536 * segments.len() as u64,
        stamp: 0,
        segments: Segments::from(segments.to_vec(alloc)?),
    })
}

fn rows(alloc: Global, files: &[File]) -> Result<FileRows, AllocError> {
    let mut rows = Vec::new(alloc);
    for file in files {
        rows.push(row(alloc, file)?)?;
    }
    Ok(FileRows::from(rows))
}

fn names(alloc: Global, files: &[File]) -> Result<Words, AllocError> {
    let mut names = Vec::new(alloc);
    for file in files {
        names.push(Word::from(file.name.to_vec(alloc)?))?;
    }
    Ok(Words::from(names))
}

/// What entry 12 left of a store with these files, of which so many blocks are mapped.
fn summary(alloc: Global, files: &[File], used: u64) -> Result<Summary, AllocError> {
    Ok(Summary {
        number: 12,
        table: Table {
            used,
            total: 1024,
            files: rows(alloc, files)?,
        },
        names: names(alloc, files)?,
    })
}

/// Whether that is shown by this text.
fn is_shown(
    alloc: Global,
    summary: &Summary,
    classes: Option<&ClassCounts>,
    text: &[u8],
) -> Result<bool, AllocError> {
    Ok(show_text(alloc, summary, classes)?.as_slice() == text)
}

fn is_one(alloc: Global, text: &[u8]) -> Result<bool, AllocError> {
    let summary = summary(alloc, &ONE, 0)?;
    is_shown(alloc, &summary, None, text)
}

fn are_three(alloc: Global, text: &[u8]) -> Result<bool, AllocError> {
    let summary = summary(alloc, &THREE, 80)?;
    is_shown(alloc, &summary, Some(&CLASSES), text)
}

#[test]
fn one_empty_file_is_shown_in_five_lines(rt: HostRuntime) -> Result<(), AllocError> {
    let text = b"number 12\nfiles 1\nblocks 0 1024\nsegments 0 0 0\na 0 1.1 0 0 0\n";
    assert!(rt; is_one(rt.alloc(), text)?);
    Ok(())
}

#[test]
fn files_are_shown_by_name_and_classes_last(rt: HostRuntime) -> Result<(), AllocError> {
    let text = b"number 12\nfiles 3\nblocks 80 1024\nsegments 3 2 3\n\
        a 196608 3.6 1 1 1\nab 65536 2.7 1 0 0\nb 262144 1.5 1 1 2\n\
        objects 1 2\nentries 3 4 5\n";
    assert!(rt; are_three(rt.alloc(), text)?);
    Ok(())
}
