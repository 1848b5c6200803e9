//! The files of a table, an entry for each, in the order of their inodes.
ghost use Rattle.std.specs.Prelude.{◌≡◌, ◌+◌, ◌^◌, ◌<◌, ◌≤◌, None, Some, false, IsSome, IfSome, MatchOption, length, insert, vec_len, vec_capacity};
ghost use Rattle.std.specs.Option.{option_map};
ghost use Rattle.hsm_types.specs.Keyed.{find_key, change_key, put_key, drop_key};
ghost use Rattle.hsm_types.specs.declared.keys.FileKey.{FileKey};
ghost use Rattle.hsm_types.specs.Listing.{free_inode};
ghost use Rattle.inode_table.specs.Listing.{listing, key_at, has_inode, Ascend};
ghost use Rattle.inode_table.specs.Places.{Cuts, StandsAt};

use hsm_types::{FileKey, Word};

/// A file, its size in bytes.
#[derive(Drop)]
pub struct FileEntry {
    pub key: FileKey,
    pub name: Word,
    pub size: u64,
}

/// Before which entry an inode stands. It costs a binary search.
pub fn place_for(entries: &[FileEntry], ino: u64) -> usize
    requires { Ascend 1 (listing entries.now) }
    ensures place { Cuts ino result entries.now }
    ensures within { result ≤ length entries.now }
{
    entries.partition_point(|entry| entry.key.ino < ino)
}

/// Where the file with that key stands. It costs a binary search.
pub fn place_of(entries: &[FileEntry], key: FileKey) -> Option<usize>
    requires { Ascend 1 (listing entries.now) }
    ensures place { MatchOption result (find_key (λ f. f.key) key entries.now ≡ None) (λ i. StandsAt key i entries.now) }
    ensures within { IfSome result (λ i. i < length entries.now) }
{
    let place = place_for(entries, key.ino);
    if place < entries.len() && entries[place].key == key {
        Some(place)
    } else {
        None
    }
}

/// The key of the file with that inode, if there is one. It costs a binary search.
pub fn key_at(entries: &[FileEntry], ino: u64) -> Option<FileKey>
    requires { Ascend 1 (listing entries.now) }
    ensures { result ≡ key_at ino (listing entries.now) }
{
    let place = place_for(entries, ino);
    if place < entries.len() && entries[place].key.ino == ino {
        Some(entries[place].key)
    } else {
        None
    }
}

/// The lowest inode that no file has. It costs a binary search: each file before the first gap has its place, from 1, for its inode.
pub fn lowest_free(entries: &[FileEntry]) -> u64
    requires order { Ascend 1 (listing entries.now) }
    requires few { length entries.now < 2 ^ 33 }
    ensures { result ≡ free_inode 1 (listing entries.now) }
{
    let mut low = 0;
    let mut high = entries.len();
    while low < high {
        let middle = low + (high - low) / 2;
        if entries[middle].key.ino == middle as u64 + 1 {
            low = middle + 1;
        } else {
            high = middle;
        }
    }
    low as u64 + 1
}

/// Puts an entry at its inode's place. It takes no memory.
pub fn put(entries: &mut Vec<FileEntry>, entry: FileEntry)
    requires order { Ascend 1 (listing entries.old.items) }
    requires free { has_inode entry.key.ino (listing entries.old.items) ≡ false }
    requires room { vec_len entries.old < vec_capacity entries.old }
    ensures { entries.new.items ≡ put_key (λ f. f.key) entry entries.old.items }
{
    let place = place_for(entries.as_slice(), entry.key.ino);
    entries.insert(place, entry).unwrap();
}

/// Takes the file with that key out, if there is one.
pub fn take_out(entries: &mut Vec<FileEntry>, key: FileKey) -> Option<FileEntry>
    requires { Ascend 1 (listing entries.old.items) }
    ensures taken { result ≡ find_key (λ f. f.key) key entries.old.items }
    ensures rest { entries.new.items ≡ drop_key (λ f. f.key) key entries.old.items }
{
    match place_of(entries.as_slice(), key) {
        Some(place) => Some(entries.remove(place)),
        None => None,
    }
}

/// The size of the file with that key, if there is one.
pub fn size(entries: &[FileEntry], key: FileKey) -> Option<u64>
    requires { Ascend 1 (listing entries.now) }
    ensures { result ≡ option_map (λ f. f.size) (find_key (λ f. f.key) key entries.now) }
{
    match place_of(entries, key) {
        Some(place) => Some(entries[place].size),
        None => None,
    }
}

/// Sets the size of the file with that key.
pub fn set_size(entries: &mut Vec<FileEntry>, key: FileKey, size: u64)
    requires order { Ascend 1 (listing entries.old.items) }
    requires live { IsSome (find_key (λ f. f.key) key entries.old.items) }
    ensures { entries.new.items ≡ change_key (λ f. f.key) key (λ f. record f { size = size }) entries.old.items }
{
    let place = place_of(entries.as_slice(), key).unwrap();
    entries[place].size = size;
}

/// Sets the size of the file with that inode. It costs a binary search.
pub fn set_size_at(entries: &mut Vec<FileEntry>, ino: u64, size: u64)
    requires order { Ascend 1 (listing entries.old.items) }
    requires live { IsSome (key_at ino (listing entries.old.items)) }
    ensures { (key : FileKey) → key_at ino (listing entries.old.items) ≡ Some key → entries.new.items ≡ change_key (λ f. f.key) key (λ f. record f { size = size }) entries.old.items }
{
    let place = place_for(entries.as_slice(), ino);
    entries[place].size = size;
}
