//! Laws on snapshots and on what recovery finds on an image, each the contract of a function that does nothing. A caller gets the law by a call.
ghost use Rattle.std.specs.Prelude.{ℕ, List};
ghost use Rattle.meta_store.specs.Catalogs.{Catalog};
ghost use Rattle.meta_store.specs.Laws.{FindsOne, FitsItsArea, FormattedHasNoFiles};

/// Recovery finds one thing on an image.
pub fn one_image()
    ensures { (image : List ℕ) → FindsOne image }
{}

/// On an image that was just formatted recovery finds no files.
pub fn formatted_image()
    ensures { (geometry : ℕ) (fsid : ℕ) (image : List ℕ) → FormattedHasNoFiles geometry fsid image }
{}

/// The snapshot of every catalog fits its area, whatever its number.
pub fn snapshot_fits()
    ensures { (number : ℕ) (c : Catalog) → FitsItsArea number c }
{}
