//! Handles: how they are read, compared and hashed.
use dm_handles::{cmp, fsid, hash, igen, ino, is_valid, make};
use hsm_types::{FileKey, Handle};
use std::cmp::Ordering;

fn handle(store: u64, ino: u64, igen: u64) -> Handle {
    make(store, FileKey { ino, igen })
}

/// A store's id, an inode, a generation, and the hash of their handle as another program has it.
static HASHES: [(u64, u64, u64, u64); 4] = [
    (1, 1, 2, 0xc665_4f3c_27fe_df3f),
    (1, 2, 1, 0x0c26_5223_6a2e_021f),
    (0, 0, 0, 0x81d2_3fd7_003c_2305),
    (
        0x0102_0304_0506_0708,
        u64::MAX,
        1 << 32,
        0xd09c_b761_97bf_7d42,
    ),
];

/// Whether a handle gives its numbers back and has that hash.
fn is_hashed(store: u64, inode: u64, generation: u64, hashed: u64) -> bool {
    let h = handle(store, inode, generation);
    fsid(&h) == store && ino(&h) == inode && igen(&h) == generation && hash(&h) == hashed
}

#[test]
fn have_three_numbers_and_a_hash(rt: HostRuntime) {
    for (store, inode, generation, hashed) in HASHES {
        assert!(rt; is_hashed(store, inode, generation, hashed), "in {store}");
    }
}

/// The bytes of the handle 1.1.2, and one more.
static BYTES: [u8; 25] = [
    0, 0, 0, 0, 0, 0, 0, 1, 0, 0, 0, 0, 0, 0, 0, 1, 0, 0, 0, 0, 0, 0, 0, 2, 0,
];

/// A store's id, how many of these bytes there are, and whether they are a handle of that store.
static READS: [(u64, usize, bool); 5] = [
    (1, 24, true),
    (2, 24, false),
    (1, 23, false),
    (1, 25, false),
    (0, 0, false),
];

/// Whether so many bytes are read as the handle 1.1.2.
fn is_read(store: u64, len: usize) -> bool {
    match BYTES.get(..len) {
        Some(bytes) => is_valid(store, bytes) == Ok(handle(1, 1, 2)),
        None => false,
    }
}

#[test]
fn are_read_by_their_store(rt: HostRuntime) {
    for (store, len, want) in READS {
        assert!(rt; is_read(store, len) == want, "{len} bytes of {store}");
    }
}

/// Three numbers of a handle, and how 1.1.2 is beside it.
static ORDERS: [(u64, u64, u64, Ordering); 6] = [
    (1, 1, 2, Ordering::Equal),
    (1, 1, 256, Ordering::Less),
    (1, 2, 1, Ordering::Less),
    (256, 0, 0, Ordering::Less),
    (1, 1, 1, Ordering::Greater),
    (0, u64::MAX, 9, Ordering::Greater),
];

fn order(store: u64, inode: u64, generation: u64) -> Ordering {
    cmp(&handle(1, 1, 2), &handle(store, inode, generation))
}

#[test]
fn are_ordered_by_their_bytes(rt: HostRuntime) {
    for (store, inode, generation, want) in ORDERS {
        assert!(rt;
            order(store, inode, generation) == want,
            "{store}.{inode}.{generation}"
        );
    }
}
