//! The parts of a file that a snapshot spells.
ghost use Rattle.std.specs.Prelude.{◌≡◌, ◌≤◌, ◌<◌, ◌^◌, IfOk, OnOk};
ghost use Rattle.std.specs.Result.{IsErrOf};
ghost use Rattle.std.specs.List.{AllByRecursion};
ghost use Rattle.hsm_types.specs.Limits.{IsCountable};
ghost use Rattle.plain_model.specs.Blocks.{blocks_in};
ghost use Rattle.snapshot_text.specs.Files.{NumbersFit, IsLawfulKept};
ghost use Rattle.snapshot_text.specs.Snapshots.{raw_file};
ghost use Rattle.snapshot_text.specs.FileValidity.{parts_said, MayKeep};

use crate::file_parts::FileParts;
use crate::file_places::FilePlaces;
use crate::kept::{attributes_of, regions_of};
use crate::kept_stubs::stubs_of;
use crate::snapshot::{RawFile, ReadRefusal};
use hsm_types::{FILE_BYTES, Limits, Regions};
use std::alloc::Global;
use std::mem;

/// Takes the parts out of a file, if what sessions keep with it is lawful, where its attributes may count so many bytes and it may have so many
/// stub entries.
pub fn parts_of(
    alloc: Global,
    limits: Limits,
    file: &mut RawFile,
    room: u64,
    stub_room: u32,
) -> Result<FileParts, ReadRefusal>
    requires countable { IsCountable limits }
    requires size { file.old.size ≤ FILE_BYTES }
    requires blocks { AllByRecursion (λ e. e.block < blocks_in file.old.size) file.old.extents.items }
    requires room { room ≤ 2 ^ 32 }
    ensures made { IfOk result (λ p. p ≡ parts_said (raw_file file.old)) }
    ensures kept { OnOk result (MayKeep limits room stub_room (raw_file file.old)) }
    ensures lawful { OnOk result (IsLawfulKept limits (raw_file file.old).kept) }
    ensures numbers { OnOk result (AllByRecursion NumbersFit (raw_file file.old).kept.stubs) }
    ensures corrupt { IsErrOf result ReadRefusal.Corrupt → MayKeep limits room stub_room (raw_file file.old) → ⊥ }
    ensures key { file.new.key ≡ file.old.key }
    ensures name { file.new.name ≡ file.old.name }
    ensures sized { file.new.size ≡ file.old.size }
{
    let size = file.size;
    let places = FilePlaces::of(alloc, size, file.extents.as_slice())?;
    let spelled = mem::replace(&mut file.regions, Regions::from(Vec::new(alloc)));
    let regions = regions_of(alloc, limits, spelled)?;
    let entries = file.stubs.as_slice();
    let stubs = stubs_of(alloc, size, &regions, &places, entries, stub_room)?;
    let named = mem::replace(&mut file.attributes, Vec::new(alloc));
    let attributes = attributes_of(alloc, named, room)?;
    Ok(FileParts {
        places,
        regions,
        attributes,
        stubs,
    })
}
