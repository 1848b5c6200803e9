//! How much a store can hold.

ghost use Rattle.std.specs.Prelude.{◌≡◌};
ghost use Rattle.hsm_types.specs.Limits.{IsCountable};
ghost use Rattle.snapshot_text.specs.Files.{geometry_of};

use hsm_types::{Geometry, LARGE_GEOMETRY, SMALL_GEOMETRY};

/// How much a store of geometry 0 can hold, which is small, or of any other, which is large.
#[tactic(auto, unfolding(crate::specs::Files::geometry_of))]
pub fn geometry_of(geometry: u32) -> Geometry
    ensures geometry { result ≡ geometry_of geometry }
    ensures countable { IsCountable result.limits }
{
    if geometry == 0 {
        SMALL_GEOMETRY
    } else {
        LARGE_GEOMETRY
    }
}
