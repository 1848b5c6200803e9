//! Blocks of bodies, written to the disk.
ghost use Rattle.std.specs.Prelude.{◌≡◌, ◌+◌, ◌*◌, ◌^◌, ◌<◌, ◌≤◌, length, OnOk};
ghost use Rattle.std.specs.List.{AllByRecursion};
ghost use Rattle.disk_model.specs.Calls.{HasCause};
ghost use Rattle.disk_model.specs.Images.{Follows};
ghost use Rattle.disk_model.specs.Moments.{Keeps};
ghost use Rattle.plain_model.specs.Distinct.{Distinct};
ghost use Rattle.plain_model.specs.Plain.{rebody};
ghost use Rattle.plain_model.specs.Blocks.{size_after};
ghost use Rattle.file_store.specs.Steps.{IsBesideBlocks, HasBlocks};
ghost use Rattle.file_store.specs.Rewrites.{effect_of, IsRewrite, mappings_of};

use crate::rewrites::Rewrite;
use disk_model::{Disk, Failed, write_at};
use file_body::{Body, TouchedBlocks};
use hsm_types::BLOCK_BYTES;

/// Writes the blocks of a body that a change touches, as they are after it, to these places among the data blocks, which begin at base. Nothing
/// is synced, and the body stays as it is.
pub(crate) fn put_blocks<D: Disk>(
    disk: &mut D,
    base: u64,
    body: &Body,
    change: Rewrite<'_>,
    blocks: &TouchedBlocks,
    places: &[u32],
) -> Result<(), Failed>
    requires change { IsRewrite change }
    requires grows { 0 < length blocks.now → length body.now.bytes ≤ size_after (effect_of change) (length body.now.bytes) }
    requires count { length places.now ≡ length blocks.now }
    requires low { base < 2 ^ 32 }
    requires fits { AllByRecursion (λ p. base + BLOCK_BYTES * p + BLOCK_BYTES ≤ D.length_of disk.old) places.now }
    requires apart { Distinct places.now }
    ensures any_moment { Keeps D.Disk disk.old disk.new (IsBesideBlocks base places.now) }
    ensures written { OnOk result (Follows (HasBlocks base (rebody (effect_of change.entry) body.now.bytes) (mappings_of blocks.now places.now)) (D.gives disk.old) (D.gives disk.new)) }
    ensures cause { HasCause result (D.fault_count disk.old) (D.fault_count disk.new) }
{
    let mut buffer = [0; BLOCK_BYTES as usize];
    for (i, place) in places.iter().enumerate() {
        change.fill_block(body, blocks.block(i as u64) as u32, &mut buffer);
        write_at(disk, base + BLOCK_BYTES * u64::from(*place), &buffer)?;
    }
    Ok(())
}
