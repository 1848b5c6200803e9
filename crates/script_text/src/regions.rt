//! Regions, as a word of a line.
ghost use Rattle.std.specs.Prelude.{IfOk};
ghost use Rattle.event_text.specs.Render.{region_word, regions_word};
ghost use Rattle.script_text.specs.Lines.{IsRegion, IsRegions};
ghost use Rattle.script_text.specs.Reading.{Reads, AreSomeRegions};

use crate::words::{cut, first_part, number};
use hsm_types::{Region, Regions};
use std::alloc::{AllocError, Global};

/// The most regions of a line.
const LINE_REGIONS: u64 = 64;

/// The greatest flags.
const GREATEST_FLAGS: u64 = 255;

/// The regions that a word is.
pub fn regions_of(alloc: Global, word: &[u8]) -> Result<Option<Regions>, AllocError>
    ensures { IfOk result (λ read. Reads regions_word IsRegions word.now read) }
{
    if word == b"-".as_slice() {
        return Ok(Some(Regions::from(Vec::new(alloc))));
    }
    some_regions(alloc, word)
}

/// One region or more, with a comma between each two.
fn some_regions(alloc: Global, word: &[u8]) -> Result<Option<Regions>, AllocError>
    ensures { IfOk result (λ read. Reads regions_word AreSomeRegions word.now read) }
{
    let mut regions = Vec::new(alloc);
    let mut rest = word;
    for _ in 0..LINE_REGIONS {
        let (first, more) = first_part(rest);
        let Some(region) = region_of(first) else {
            return Ok(None);
        };
        regions.push(region)?;
        match more {
            Some(more) => rest = more,
            None => return Ok(Some(Regions::from(regions))),
        }
    }
    Ok(None)
}

/// The region that a word is.
fn region_of(word: &[u8]) -> Option<Region>
    ensures { Reads region_word IsRegion word.now result }
{
    let Some((offset, rest)) = cut(word, b':') else {
        return None;
    };
    let Some(offset) = number(offset) else {
        return None;
    };
    let Some((size, flags)) = cut(rest, b':') else {
        return None;
    };
    let Some(size) = number(size) else {
        return None;
    };
    let Some(flags) = number(flags) else {
        return None;
    };
    if flags > GREATEST_FLAGS {
        return None;
    }
    let flags = flags as u8;
    Some(Region {
        offset,
        size,
        flags,
    })
}
