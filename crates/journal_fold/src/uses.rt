//! What the files of a store use together.
ghost use Rattle.std.specs.Prelude.{◌≡◌, ◌<◌, ◌≤◌, ◌^◌, ◌∷◌, List, map, length, true, false};
ghost use Rattle.std.specs.Bool.{OnTrue};
ghost use Rattle.std.specs.List.{AllByRecursion};
ghost use Rattle.hsm_types.specs.Attributes.{bytes_of_attributes};
ghost use Rattle.hsm_types.specs.declared.stores.Geometry.{Geometry};
ghost use Rattle.journal_fold.specs.Counted.{with_free, FitTogether, IsCounted};
ghost use Rattle.journal_fold.specs.FoldedFiles.{mapping_of};
ghost use Rattle.plain_model.specs.Blocks.{with_mapped};
ghost use Rattle.snapshot_text.specs.FileValidity.{are_free, places_of};
ghost use Rattle.snapshot_text.specs.Snapshots.{SnapshotFile};

use crate::files::FoldedFile;
use hsm_types::Geometry;

/// A flag for each block of the disk that tells whether a file uses it, what the attributes of the files count, and how many stub entries they have.
#[derive(Drop)]
pub struct Uses {
    pub flags: Vec<bool>,
    pub attributes: u64,
    pub stubs: u64,
}

impl Uses {
    /// Counts a file more, if it fits beside the others. At `false` it doesn't, and nothing is said of what they use.
    pub(crate) fn claim(&mut self, geometry: Geometry, file: &FoldedFile) -> bool
        requires within { AllByRecursion (λ e. e.place < length self.old.flags.items) file.now.extents }
        requires few { bytes_of_attributes file.now.kept.attributes ≤ geometry.attributes }
        requires few_stubs { length file.now.kept.stubs ≤ geometry.stubs }
        requires attributes { self.old.attributes ≤ geometry.attributes }
        requires stubs { self.old.stubs ≤ geometry.stubs }
        ensures joined { result ≡ true → (fs : List SnapshotFile) → IsCounted geometry self.old fs → IsCounted geometry self.new (file.now ∷ fs) }
        ensures refused { result ≡ false → (fs : List SnapshotFile) → IsCounted geometry self.old fs → FitTogether geometry (file.now ∷ fs) → ⊥ }
    {
        if !claim(&mut self.flags, file.extents()) {
            return false;
        }
        self.attributes += file.attribute_bytes();
        self.stubs += file.stub_count();
        self.attributes <= u64::from(geometry.attributes) && self.stubs <= u64::from(geometry.stubs)
    }

    /// Counts a file less.
    pub(crate) fn release(&mut self, file: &FoldedFile)
        requires within { AllByRecursion (λ e. e.place < length self.old.flags.items) file.now.extents }
        requires attributes { bytes_of_attributes file.now.kept.attributes ≤ self.old.attributes }
        requires few { self.old.attributes < 2 ^ 32 }
        requires stubs { length file.now.kept.stubs ≤ self.old.stubs }
        ensures { (geometry : Geometry) (fs : List SnapshotFile) → IsCounted geometry self.old (file.now ∷ fs) → IsCounted geometry self.new fs }
    {
        release(&mut self.flags, file.extents());
        self.attributes -= file.attribute_bytes();
        self.stubs -= file.stub_count();
    }
}

/// Flags the places of extents, each of which must be free. At `false` one was not, and nothing is said of the flags.
fn claim(flags: &mut [bool], extents: &[(u64, u32)]) -> bool
    requires { AllByRecursion (λ e. e.place < length flags.old) (map mapping_of extents.now) }
    ensures free { result ≡ are_free (places_of (map mapping_of extents.now)) flags.old }
    ensures flags { OnTrue result (flags.new ≡ with_mapped (places_of (map mapping_of extents.now)) flags.old) }
{
    for extent in extents {
        let place = extent.1 as usize;
        if flags[place] {
            return false;
        }
        flags[place] = true;
    }
    true
}

/// Unflags the places of extents.
fn release(flags: &mut [bool], extents: &[(u64, u32)])
    requires { AllByRecursion (λ e. e.place < length flags.old) (map mapping_of extents.now) }
    ensures { flags.new ≡ with_free (places_of (map mapping_of extents.now)) flags.old }
{
    for extent in extents {
        flags[extent.1 as usize] = false;
    }
}
