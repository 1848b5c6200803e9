//! Calls, each with the seed of its data.
ghost use Rattle.std.specs.Prelude.{◌≡◌, ◌<◌, ◌^◌, length, IfOk, IfSome};
ghost use Rattle.std.specs.Option.{option_map};
ghost use Rattle.script_text.specs.Reading.{Reads, Lacks, with_rest, request_text, IsRequest, dm_request_text, IsDmRequest};

use crate::parts::{ReadParts, parts_of};
use crate::words::cut;
use call_forms::{CallVerb, DmVerb, call_of, dm_call_of};
use hsm_types::{Call, DmCall};
use std::alloc::{AllocError, Global};

/// A caller's call, and the seed of its data if they were given by one.
#[derive(Drop)]
pub struct Request {
    pub call: Call,
    pub seed: Option<u8>,
}

/// A session's call, and the seed of its data if they were given by one.
#[derive(Drop)]
pub struct DmRequest {
    pub call: DmCall,
    pub seed: Option<u8>,
}

/// The caller's call that a text is.
pub fn request_of(alloc: Global, text: &[u8]) -> Result<Option<Request>, AllocError>
    requires { length text.now < 2 ^ 32 }
    ensures { IfOk result (λ read. Reads request_text IsRequest text.now read) }
{
    let (word, rest) = first_word(text);
    let Some(verb) = CallVerb::find(word) else {
        return Ok(None);
    };
    let Some(ReadParts { parts, seed }) = parts_of(alloc, verb.kinds(), rest)? else {
        return Ok(None);
    };
    let call = call_of(verb, parts);
    Ok(Some(Request { call, seed }))
}

/// The session's call that a text is.
pub fn dm_request_of(alloc: Global, text: &[u8]) -> Result<Option<DmRequest>, AllocError>
    requires { length text.now < 2 ^ 32 }
    ensures { IfOk result (λ read. Reads dm_request_text IsDmRequest text.now read) }
{
    let (word, rest) = first_word(text);
    let Some(verb) = DmVerb::find(word) else {
        return Ok(None);
    };
    let Some(ReadParts { parts, seed }) = parts_of(alloc, verb.kinds(), rest)? else {
        return Ok(None);
    };
    let call = dm_call_of(verb, parts);
    Ok(Some(DmRequest { call, seed }))
}

/// What stands before the first space, and what behind it, if there is one.
#[tactic(auto, using(crate::proofs::Cutting::cut_shorter))]
fn first_word(text: &[u8]) -> (&[u8], Option<&[u8]>)
    ensures whole { text.now ≡ with_rest result.0.now (option_map (λ rest. rest.now) result.1) }
    ensures first { Lacks 32 result.0.now }
    ensures shorter { IfSome result.1 (λ rest. length rest.now < length text.now) }
{
    match cut(text, b' ') {
        Some((word, rest)) => (word, Some(rest)),
        None => (text, None),
    }
}
