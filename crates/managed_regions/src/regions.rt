//! The list of a file's regions.
ghost use Rattle.std.specs.Prelude.{◌≡◌, [], None, Some, OnOk, OnErr, MatchResult};
ghost use Rattle.hsm_types.specs.Limits.{IsCountable};
ghost use Rattle.hsm_types.specs.Regions.{regions_refusal, touches, covers};

use crate::lawful::check_regions;
use crate::meeting::{contains, is_flagged, meets};
use hsm_types::{DmRefusal, Kind, Limits, Range, Regions};
use std::alloc::Global;
use std::marker::Model;

/// The managed regions of one file, in order. Nothing refuses them.
#[derive(Drop)]
pub struct ManagedRegions {
    regions: Regions,
}

impl Model for ManagedRegions {
    ghost use Rattle.std.specs.Prelude.{◌≡◌, List, None};
    ghost use Rattle.hsm_types.specs.declared.regions.Region.{Region};
    ghost use Rattle.hsm_types.specs.Limits.{widest_limits};
    ghost use Rattle.hsm_types.specs.Regions.{regions_refusal};

    ghost Value = { List Region };

    ghost view = { λ m. m.regions };

    ghost invariant = { λ m. regions_refusal widest_limits m.regions ≡ None };
}

impl ManagedRegions {
    /// No region. It takes no memory.
    pub fn new(alloc: Global) -> ManagedRegions
        ensures { result ≡ [] }
    {
        ManagedRegions {
            regions: Regions::from(Vec::new(alloc)),
        }
    }

    /// Replaces the whole list by one that the limits allow. It takes no memory.
    #[tactic(auto, using(hsm_types::proofs::Limiting::regions_countable))]
    pub fn set(&mut self, limits: Limits, regions: Regions) -> Result<(), DmRefusal>
        requires { IsCountable limits }
        ensures judged { MatchResult result (λ _. regions_refusal limits regions ≡ None) (λ why. regions_refusal limits regions ≡ Some why) }
        ensures ok { OnOk result (self.new ≡ regions) }
        ensures err { OnErr result (self.new ≡ self.old) }
    {
        check_regions(limits, regions.as_slice())?;
        self.regions = regions;
        Ok(())
    }

    /// The regions in their order.
    pub fn list(&self) -> &Regions
        ensures { result.now ≡ self.now }
    {
        &self.regions
    }

    /// Whether an access of that kind and reach touches a region with its flag.
    pub fn touches(&self, reach: Range, kind: Kind) -> bool
        ensures { result ≡ touches self.now reach kind }
    {
        let regions = self.regions.as_slice();
        regions.iter().any(|region| is_flagged(kind, *region) && meets(reach, *region))
    }

    /// Whether one region manages all accesses to the whole segment, also past the file's end.
    pub fn covers(&self, segment: u32) -> bool
        ensures { result ≡ covers self.now segment }
    {
        let regions = self.regions.as_slice();
        regions.iter().any(|region| contains(segment, *region))
    }
}
