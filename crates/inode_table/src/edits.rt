//! Edits of the entries together with the map from names.
ghost use Rattle.std.specs.Prelude.{◌≡◌, ◌+◌, ◌^◌, ◌<◌, None, false, OnOk, OnErr};
ghost use Rattle.std.specs.Map.{lookup};
ghost use Rattle.std.specs.Option.{option_map};
ghost use Rattle.std.specs.Str.{bytes_eq};
ghost use Rattle.hsm_types.specs.Keyed.{find_key, put_key, drop_key};
ghost use Rattle.hsm_types.specs.Listing.{named};
ghost use Rattle.inode_table.specs.Listing.{listing, has_inode, Ascend, Differ};
ghost use Rattle.inode_table.specs.Table.{entry_of};
ghost use Rattle.inode_table.specs.Index.{Indexes};

use crate::entries::{self, FileEntry};
use hsm_types::{FileKey, Word};
use std::alloc::{AllocError, Global};
use std::collections::HashMap;

/// The key under a name. It costs one look-up.
pub fn find(keys: &HashMap<Vec<u8>, FileKey>, name: &Word) -> Option<FileKey>
    ensures { result ≡ lookup (λ k. bytes_eq name.now k.items) keys.now.entries }
{
    keys.get(name.as_slice()).copied()
}

/// Adds a file. At an `Err` the entries are the same.
pub fn add(
    alloc: Global,
    entries: &mut Vec<FileEntry>,
    keys: &mut HashMap<Vec<u8>, FileKey>,
    entry: FileEntry,
) -> Result<(), AllocError>
    requires order { Ascend 1 (listing entries.old.items) }
    requires inode { has_inode entry.key.ino (listing entries.old.items) ≡ false }
    requires name { named entry.name (listing entries.old.items) ≡ None }
    requires index { Indexes keys.old.entries (listing entries.old.items) }
    ensures ok { OnOk result (entries.new.items ≡ put_key (λ f. f.key) entry entries.old.items) }
    ensures err { OnErr result (entries.new.items ≡ entries.old.items) }
    ensures index { Indexes keys.new.entries (listing entries.new.items) }
{
    let name = Vec::from_slice(alloc, entry.name.as_slice())?;
    entries.reserve(1)?;
    keys.insert(name, entry.key)?;
    entries::put(entries, entry);
    Ok(())
}

/// Takes the file with that key out, if there is one, and gives its name.
pub fn take_out(
    entries: &mut Vec<FileEntry>,
    keys: &mut HashMap<Vec<u8>, FileKey>,
    key: FileKey,
) -> Option<Word>
    requires order { Ascend 1 (listing entries.old.items) }
    requires differ { Differ (listing entries.old.items) }
    requires index { Indexes keys.old.entries (listing entries.old.items) }
    ensures name { result ≡ option_map (λ f. f.name) (find_key (λ f. f.key) key entries.old.items) }
    ensures rest { entries.new.items ≡ drop_key (λ f. f.key) key entries.old.items }
    ensures index { Indexes keys.new.entries (listing entries.new.items) }
{
    let entry = entries::take_out(entries, key)?;
    let _key = keys.remove(entry.name.as_slice());
    Some(entry.name)
}
