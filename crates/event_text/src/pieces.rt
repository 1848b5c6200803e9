//! The pieces of a line's text.
ghost use Rattle.std.specs.Prelude.{◌≡◌, ◌≤◌, ◌∷◌, ◌++◌, [], codes, length, OnOk};
ghost use Rattle.std.specs.Fmt.{decimal};
ghost use Rattle.hex.specs.Hex.{encode_lower};
ghost use Rattle.event_text.specs.Render.{spaced, key_word, handle_word, name_word, region_word, regions_word, kinds_word, print_words, fault_words};
ghost use Rattle.event_text.specs.Render.{response_word, right_word};
ghost use Rattle.std.specs.List.{flat_map};

use hsm_types::{
    AttrName, Fault, FileKey, Fingerprint, Handle, Kinds, Region, Regions, Response, Right, Word,
};
use std::alloc::{AllocError, Global};

/// The most bytes of data that are written as hex.
pub(crate) const HEX_BYTES: usize = 32;

pub(crate) fn push(out: &mut Vec<u8>, bytes: &[u8]) -> Result<(), AllocError>
    ensures { OnOk result (out.new.items ≡ out.old.items ++ bytes.now) }
{
    out.extend_from_slice(bytes)?;
    Ok(())
}

pub(crate) fn push_number(_alloc: Global, out: &mut Vec<u8>, n: u64) -> Result<(), AllocError>
    ensures { OnOk result (out.new.items ≡ out.old.items ++ decimal n) }
{
    push(out, itoa::Buffer::new().format(n).as_bytes())
}

/// At most [`HEX_BYTES`] as hex digits.
pub(crate) fn push_hex(_alloc: Global, out: &mut Vec<u8>, bytes: &[u8]) -> Result<(), AllocError>
    requires { length bytes.now ≤ 32 }
    ensures { OnOk result (out.new.items ≡ out.old.items ++ encode_lower bytes.now) }
{
    let mut buffer = [0; 2 * HEX_BYTES];
    let digits = &mut buffer[..2 * bytes.len()];
    hex::encode_to_slice(bytes, digits).unwrap();
    push(out, digits)
}

/// A verb, with the space behind it, and a name.
pub(crate) fn push_named(out: &mut Vec<u8>, verb: &[u8], name: &Word) -> Result<(), AllocError>
    ensures { OnOk result (out.new.items ≡ out.old.items ++ verb.now ++ name.now) }
{
    push(out, verb)?;
    push(out, name.as_slice())
}

/// A word and a number.
pub(crate) fn push_numbered(
    alloc: Global,
    out: &mut Vec<u8>,
    word: &[u8],
    n: u64,
) -> Result<(), AllocError>
    ensures { OnOk result (out.new.items ≡ out.old.items ++ spaced (word.now ∷ decimal n ∷ [])) }
{
    push(out, word)?;
    push_field(alloc, out, n)
}

/// A space and a number.
pub(crate) fn push_field(alloc: Global, out: &mut Vec<u8>, n: u64) -> Result<(), AllocError>
    ensures { OnOk result (out.new.items ≡ out.old.items ++ 32 ∷ decimal n) }
{
    push(out, b" ")?;
    push_number(alloc, out, n)
}

/// The inode and the generation.
pub(crate) fn push_key(alloc: Global, out: &mut Vec<u8>, key: FileKey) -> Result<(), AllocError>
    ensures { OnOk result (out.new.items ≡ out.old.items ++ key_word key) }
{
    push_number(alloc, out, key.ino)?;
    push(out, b".")?;
    push_number(alloc, out, key.igen)
}

/// The file system id and the key.
pub(crate) fn push_handle(
    alloc: Global,
    out: &mut Vec<u8>,
    handle: Handle,
) -> Result<(), AllocError>
    ensures { OnOk result (out.new.items ≡ out.old.items ++ handle_word handle) }
{
    push_number(alloc, out, handle.fsid)?;
    push(out, b".")?;
    push_key(alloc, out, handle.key)
}

/// A name of an attribute, as hex digits.
pub(crate) fn push_name(alloc: Global, out: &mut Vec<u8>, name: AttrName) -> Result<(), AllocError>
    ensures { OnOk result (out.new.items ≡ out.old.items ++ name_word name) }
{
    push_hex(alloc, out, &name.0)
}

/// Regions with a comma between each two, `-` for none.
#[tactic(auto, using(crate::proofs::Listing::regions_joined))]
pub(crate) fn push_regions(
    alloc: Global,
    out: &mut Vec<u8>,
    regions: &Regions,
) -> Result<(), AllocError>
    ensures { OnOk result (out.new.items ≡ out.old.items ++ regions_word regions.now) }
{
    match regions.as_slice().split_first() {
        None => push(out, b"-"),
        Some((first, more)) => {
            push_region(alloc, out, *first)?;
            push_more_regions(alloc, out, more)
        }
    }
}

/// Each region with a comma in front.
fn push_more_regions(alloc: Global, out: &mut Vec<u8>, regions: &[Region]) -> Result<(), AllocError>
    ensures { OnOk result (out.new.items ≡ out.old.items ++ flat_map (λ r. 44 ∷ region_word r) regions.now) }
{
    for region in regions {
        push(out, b",")?;
        push_region(alloc, out, *region)?;
    }
    Ok(())
}

fn push_region(alloc: Global, out: &mut Vec<u8>, region: Region) -> Result<(), AllocError>
    ensures { OnOk result (out.new.items ≡ out.old.items ++ region_word region) }
{
    push_number(alloc, out, region.offset)?;
    push(out, b":")?;
    push_number(alloc, out, region.size)?;
    push(out, b":")?;
    push_number(alloc, out, u64::from(region.flags))
}

/// The kinds with a comma between each two, `-` for none.
pub(crate) fn push_kinds(out: &mut Vec<u8>, kinds: Kinds) -> Result<(), AllocError>
    ensures { OnOk result (out.new.items ≡ out.old.items ++ kinds_word kinds) }
{
    push(out, kinds_text(kinds))
}

fn kinds_text(kinds: Kinds) -> &'static [u8]
    ensures { result.now ≡ kinds_word kinds }
{
    match (kinds.read, kinds.write, kinds.truncate, kinds.no_space) {
        (false, false, false, false) => b"-",
        (false, false, false, true) => b"nospace",
        (false, false, true, false) => b"truncate",
        (false, false, true, true) => b"truncate,nospace",
        (false, true, false, false) => b"write",
        (false, true, false, true) => b"write,nospace",
        (false, true, true, false) => b"write,truncate",
        (false, true, true, true) => b"write,truncate,nospace",
        (true, false, false, false) => b"read",
        (true, false, false, true) => b"read,nospace",
        (true, false, true, false) => b"read,truncate",
        (true, false, true, true) => b"read,truncate,nospace",
        (true, true, false, false) => b"read,write",
        (true, true, false, true) => b"read,write,nospace",
        (true, true, true, false) => b"read,write,truncate",
        (true, true, true, true) => b"read,write,truncate,nospace",
    }
}

/// `continue`, `abort` and the error, or `media` and the fault.
pub(crate) fn push_response(
    alloc: Global,
    out: &mut Vec<u8>,
    response: Response,
) -> Result<(), AllocError>
    ensures { OnOk result (out.new.items ≡ out.old.items ++ response_word response) }
{
    match response {
        Response::Continue => push(out, b"continue"),
        Response::Abort(error) => {
            push(out, b"abort ")?;
            push_number(alloc, out, u64::from(error))
        }
        Response::Media(cause) => {
            push(out, b"media ")?;
            push_fault(alloc, out, cause.fault())
        }
    }
}

/// The fault of a medium, with both counts or both fingerprints.
pub(crate) fn push_fault(alloc: Global, out: &mut Vec<u8>, fault: Fault) -> Result<(), AllocError>
    ensures { OnOk result (out.new.items ≡ out.old.items ++ spaced (fault_words fault)) }
{
    match fault {
        Fault::Failed {
            volume,
            object,
            before,
            after,
        } => push_failed(alloc, out, volume, object, before, after),
        Fault::Damaged {
            volume,
            object,
            want,
            got,
        } => push_damaged(alloc, out, volume, object, want, got),
    }
}

fn push_failed(
    alloc: Global,
    out: &mut Vec<u8>,
    volume: u32,
    object: u32,
    before: u64,
    after: u64,
) -> Result<(), AllocError>
    ensures { OnOk result (out.new.items ≡ out.old.items ++ spaced (codes "failed" ∷ decimal volume ∷ decimal object ∷ decimal before ∷ decimal after ∷ [])) }
{
    push_place(alloc, out, b"failed", volume, object)?;
    push_field(alloc, out, before)?;
    push_field(alloc, out, after)
}

fn push_damaged(
    alloc: Global,
    out: &mut Vec<u8>,
    volume: u32,
    object: u32,
    want: Fingerprint,
    got: Fingerprint,
) -> Result<(), AllocError>
    ensures { OnOk result (out.new.items ≡ out.old.items ++ spaced (codes "damaged" ∷ decimal volume ∷ decimal object ∷ print_words want ++ print_words got)) }
{
    push_place(alloc, out, b"damaged", volume, object)?;
    push_print(alloc, out, want)?;
    push_print(alloc, out, got)
}

/// A word, a volume and an object.
fn push_place(
    alloc: Global,
    out: &mut Vec<u8>,
    word: &[u8],
    volume: u32,
    object: u32,
) -> Result<(), AllocError>
    ensures { OnOk result (out.new.items ≡ out.old.items ++ spaced (word.now ∷ decimal volume ∷ decimal object ∷ [])) }
{
    push_numbered(alloc, out, word, u64::from(volume))?;
    push_field(alloc, out, u64::from(object))
}

/// A fingerprint, with a space in front of its length and of its digest.
pub(crate) fn push_print(
    alloc: Global,
    out: &mut Vec<u8>,
    print: Fingerprint,
) -> Result<(), AllocError>
    ensures { OnOk result (out.new.items ≡ out.old.items ++ flat_map (λ word. 32 ∷ word) (print_words print)) }
{
    push_field(alloc, out, u64::from(print.len))?;
    push(out, b" ")?;
    push_hex(alloc, out, &print.digest.0)
}

pub(crate) fn right_text(right: Right) -> &'static [u8]
    ensures { result.now ≡ right_word right }
{
    match right {
        Right::Null => b"null",
        Right::Shared => b"shared",
        Right::Excl => b"excl",
    }
}
