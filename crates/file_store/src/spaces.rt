//! The blocks that a catalog's files use of the disk.
ghost use Rattle.std.specs.Prelude.{◌≡◌, IfOk};
ghost use Rattle.meta_store.specs.Catalogs.{blocks_of};
ghost use Rattle.file_store.specs.Stores.{marks_of};

use block_space::BlockSpace;
use meta_store::Catalog;
use snapshot_text::geometry_of;
use std::alloc::{AllocError, Global};

/// The data blocks that a catalog's files use. It costs a walk over all places.
fn data_blocks(alloc: Global, catalog: &Catalog) -> Result<Vec<u32>, AllocError>
    ensures { IfOk result (λ v. v.items ≡ blocks_of catalog.now.files) }
{
    let mut blocks = Vec::new(alloc);
    for index in 0..catalog.names().len() {
        let (_, _, _, parts) = catalog.file(index).unwrap();
        parts.put_from(0, &mut blocks)?;
    }
    Ok(blocks)
}

/// The space in which just these blocks are used, by both maps. It costs a walk over all places and all blocks.
pub(crate) fn space_of(alloc: Global, catalog: &Catalog) -> Result<BlockSpace, AllocError>
    ensures { IfOk result (λ s. s ≡ record { current = marks_of catalog.now; durable = marks_of catalog.now }) }
{
    let total = geometry_of(catalog.geometry()).blocks;
    let used = data_blocks(alloc, catalog)?;
    BlockSpace::new(alloc, total, used.as_slice())
}
