//! Which refusal of the layer below closes the store.
ghost use Rattle.std.specs.Prelude.{◌≡◌};
ghost use Rattle.file_store.specs.Refusals.{is_disk};

use snapshot_text::MetaRefusal;

/// Whether the disk failed: the store is used no more.
pub(crate) fn is_disk(refusal: MetaRefusal) -> bool
    ensures { result ≡ is_disk refusal }
{
    refusal == MetaRefusal::Disk
}
