//! Extents of a file in a snapshot, and flags of the disk's blocks that are in use.

ghost use Rattle.std.specs.Prelude.{◌≡◌, ◌<◌, length};
ghost use Rattle.std.specs.Bool.{OnTrue};
ghost use Rattle.std.specs.List.{AllByRecursion};
ghost use Rattle.plain_model.specs.Blocks.{with_mapped};
ghost use Rattle.snapshot_text.specs.FileValidity.{are_extents, are_free, places_of};

use crate::snapshot::Mapping;

/// Whether extents of a file of `count` blocks ascend, and lie on a disk of `blocks` blocks.
pub fn are_extents(extents: &[Mapping], count: u32, blocks: u32) -> bool
    ensures { result ≡ are_extents 0 count blocks extents.now }
{
    let mut low = 0;
    for extent in extents {
        if extent.block < low || count <= extent.block || blocks <= extent.place {
            return false;
        }
        low = extent.block + 1;
    }
    true
}

/// Flags the places of extents, each of which must be free. At `false` one was not, and nothing is said of the flags.
pub fn claim(flags: &mut [bool], extents: &[Mapping]) -> bool
    requires { AllByRecursion (λ e. e.place < length flags.old) extents.now }
    ensures free { result ≡ are_free (places_of extents.now) flags.old }
    ensures flags { OnTrue result (flags.new ≡ with_mapped (places_of extents.now) flags.old) }
{
    for extent in extents {
        let place = extent.place as usize;
        if flags[place] {
            return false;
        }
        flags[place] = true;
    }
    true
}
