//! The parts of a call, read by the kinds that its verb has.
ghost use Rattle.std.specs.Prelude.{◌≡◌, ◌<◌, ◌^◌, ◌∷◌, [], length, true, IfOk};
ghost use Rattle.std.specs.Option.{option_map, ForSome};
ghost use Rattle.call_forms.specs.declared.parts.PartKind.TheVariants as kinds;
ghost use Rattle.script_text.specs.Reading.{Reads, read_text, IsOfKind, parts_text, AreOfKinds, ReadsParts, is_signature};

use crate::attributes::attr_name;
use crate::bodies::{Body, body_of};
use crate::digests::digest_of;
use crate::handles::handle_of;
use crate::kinds::kinds_of;
use crate::regions::regions_of;
use crate::responses::response_of;
use crate::rights::right_of;
use crate::words::{count, cut, number, word};
use call_forms::{Part, PartKind, Parts};
use hsm_types::Verified;
use std::alloc::{AllocError, Global};

/// A part, and the seed if it is data that were given by one.
#[derive(Drop)]
pub struct ReadPart {
    pub part: Part,
    pub seed: Option<u8>,
}

/// The parts of a call, and the seed of its data if they were given by one.
#[derive(Drop)]
pub struct ReadParts {
    pub parts: Parts,
    pub seed: Option<u8>,
}

fn unseeded(part: Part) -> ReadPart
    ensures { result ≡ record { part = part; seed = None } }
{
    ReadPart { part, seed: None }
}

/// The part of that kind that a text is.
fn part_of(alloc: Global, kind: PartKind, text: &[u8]) -> Result<Option<ReadPart>, AllocError>
    requires { length text.now < 2 ^ 32 }
    ensures { IfOk result (λ read. Reads read_text (IsOfKind kind) text.now read) }
{
    match kind {
        PartKind::Number => Ok(number(text).map(Part::Number).map(unseeded)),
        PartKind::Count => Ok(count(text).map(Part::Count).map(unseeded)),
        PartKind::Fetch => Ok(number(text).map(Part::Fetch).map(unseeded)),
        PartKind::Word => Ok(word(alloc, text)?.map(Part::Word).map(unseeded)),
        PartKind::Handle => Ok(handle_of(text).map(Part::Handle).map(unseeded)),
        PartKind::Regions => Ok(regions_of(alloc, text)?.map(Part::Regions).map(unseeded)),
        PartKind::Name => Ok(attr_name(text).map(Part::Name).map(unseeded)),
        PartKind::Kinds => Ok(kinds_of(text).map(Part::Kinds).map(unseeded)),
        PartKind::Response => Ok(response_of(text).map(Part::Response).map(unseeded)),
        PartKind::Right => Ok(right_of(text).map(Part::Right).map(unseeded)),
        PartKind::Digest => Ok(digest_of(text).map(Part::Digest).map(unseeded)),
        PartKind::Data => data_of(alloc, text),
        PartKind::Verified => verified_of(alloc, text),
    }
}

/// The data that a text is, as a part.
fn data_of(alloc: Global, text: &[u8]) -> Result<Option<ReadPart>, AllocError>
    ensures { IfOk result (λ read. Reads read_text (IsOfKind kinds.Data) text.now read) }
{
    let Some(Body { bytes, seed }) = body_of(alloc, text)? else {
        return Ok(None);
    };
    let part = Part::Data(bytes);
    Ok(Some(ReadPart { part, seed }))
}

/// The data that a text is, as a part with their fingerprint.
fn verified_of(alloc: Global, text: &[u8]) -> Result<Option<ReadPart>, AllocError>
    requires { length text.now < 2 ^ 32 }
    ensures { IfOk result (λ read. Reads read_text (IsOfKind kinds.Verified) text.now read) }
{
    let Some(Body { bytes, seed }) = body_of(alloc, text)? else {
        return Ok(None);
    };
    let part = Part::Verified(Verified::of(bytes));
    Ok(Some(ReadPart { part, seed }))
}

/// The parts of those kinds that stand behind a verb.
pub fn parts_of(
    alloc: Global,
    kinds: &[PartKind],
    text: Option<&[u8]>,
) -> Result<Option<ReadParts>, AllocError>
    requires signature { is_signature kinds.now ≡ true }
    requires short { ForSome text (λ t. length t.now < 2 ^ 32) }
    ensures { IfOk result (λ read. ReadsParts kinds.now (option_map (λ t. t.now) text.entry) read) }
{
    match text {
        None => {
            if !kinds.is_empty() {
                return Ok(None);
            }
            Ok(Some(ReadParts {
                parts: Parts::new(alloc),
                seed: None,
            }))
        }
        Some(text) => {
            if kinds.is_empty() {
                return Ok(None);
            }
            some_parts(alloc, kinds, text)
        }
    }
}

/// One part or more.
#[tactic(auto, using(crate::proofs::Cutting::cut_shorter))]
fn some_parts(
    alloc: Global,
    kinds: &[PartKind],
    text: &[u8],
) -> Result<Option<ReadParts>, AllocError>
    requires some { 0 < length kinds.now }
    requires signature { is_signature kinds.now ≡ true }
    requires short { length text.now < 2 ^ 32 }
    ensures { IfOk result (λ read. Reads parts_text (AreOfKinds kinds.now) text.now read) }
{
    let kind = kinds[0];
    let more = &kinds[1..];
    if more.is_empty() {
        return last_part(alloc, kind, text);
    }
    let Some((word, rest)) = cut(text, b' ') else {
        return Ok(None);
    };
    let Some(first) = part_of(alloc, kind, word)? else {
        return Ok(None);
    };
    let Some(mut others) = some_parts(alloc, more, rest)? else {
        return Ok(None);
    };
    others.parts.push_front(first.part)?;
    Ok(Some(others))
}

/// The only part.
fn last_part(alloc: Global, kind: PartKind, text: &[u8]) -> Result<Option<ReadParts>, AllocError>
    requires { length text.now < 2 ^ 32 }
    ensures { IfOk result (λ read. Reads parts_text (AreOfKinds (kind ∷ [])) text.now read) }
{
    let Some(ReadPart { part, seed }) = part_of(alloc, kind, text)? else {
        return Ok(None);
    };
    let mut parts = Parts::new(alloc);
    parts.push_front(part)?;
    Ok(Some(ReadParts { parts, seed }))
}
