//! Whether as many blocks are free as are needed. Finding out takes no memory.
ghost use Rattle.std.specs.Prelude.{◌≡◌, ◌+◌, ◌-◌, ◌≤◌, None};
ghost use Rattle.plain_model.specs.State.{used};
ghost use Rattle.plain_model.specs.Verdict.{short_of};
ghost use Rattle.file_store.specs.Stores.{superblock_of};

use disk_model::Disk;
use dm_service::NoRoom;
use file_store::FileStore;

/// The blocks that are needed and those that are free, where these are fewer.
pub(crate) fn short_of<D: Disk>(files: &FileStore<D>, need: u64) -> Option<NoRoom>
    ensures short { result ≡ short_of need ((superblock_of files.now).geometry.blocks - used files.now.held.files) }
    ensures room { result ≡ None → need + used files.now.held.files ≤ (superblock_of files.now).geometry.blocks }
    ensures mapped { used files.now.held.files ≤ (superblock_of files.now).geometry.blocks }
{
    let blocks = u64::from(files.superblock().geometry.blocks);
    let free = blocks.saturating_sub(files.meta().catalog().used());
    if free < need {
        Some(NoRoom { need, free })
    } else {
        None
    }
}
