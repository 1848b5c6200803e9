//! Which lists of regions a file may have.
ghost use Rattle.std.specs.Prelude.{◌≡◌, ◌≤◌, None, Some, length, MatchResult};
ghost use Rattle.hsm_types.specs.Regions.{first_bad, is_behind, is_region, regions_refusal};

use crate::meeting::end;
use hsm_types::{ALL_FLAGS, DmRefusal, Limits, Region};

/// What refuses the list, if anything does.
pub fn check_regions(limits: Limits, regions: &[Region]) -> Result<(), DmRefusal>
    ensures { MatchResult result (λ _. regions_refusal limits regions.now ≡ None) (λ why. regions_refusal limits regions.now ≡ Some why) }
{
    if regions.len() > limits.regions as usize {
        return Err(DmRefusal::TooMany {
            count: regions.len() as u64,
        });
    }
    match first_bad(limits, regions) {
        Some(index) => Err(DmRefusal::BadRegion { index }),
        None => Ok(()),
    }
}

/// The index of the first region that is bad, if one is.
fn first_bad(limits: Limits, regions: &[Region]) -> Option<u32>
    requires { length regions.now ≤ limits.regions }
    ensures { result ≡ first_bad limits 0 None regions.now }
{
    let mut before = None;
    let mut index = 0;
    for region in regions {
        if !is_lawful(limits, before, *region) {
            return Some(index);
        }
        before = Some(*region);
        index += 1;
    }
    None
}

/// Whether a region may stand there, behind the one before it.
fn is_lawful(limits: Limits, before: Option<Region>, region: Region) -> bool
    ensures { result ≡ is_region limits before region }
{
    region.flags <= ALL_FLAGS
        && end(region.offset, region.size) <= u128::from(limits.bytes)
        && starts_behind(before, region)
}

/// Whether a region starts where the one before it has ended.
fn starts_behind(before: Option<Region>, region: Region) -> bool
    ensures { result ≡ is_behind before region }
{
    match before {
        Some(before) => {
            before.size != 0 && end(before.offset, before.size) <= u128::from(region.offset)
        }
        None => true,
    }
}
