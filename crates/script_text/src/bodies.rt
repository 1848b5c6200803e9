//! Data, as a word of a line.
ghost use Rattle.std.specs.Prelude.{◌≡◌, ◌≤◌, ◌<◌, ◌%◌, ◌++◌, length, slice_index, true, IfOk, codes};
ghost use Rattle.std.specs.List.{list_all};
ghost use Rattle.hex.specs.Hex.{encode_lower, lower_digits, IsBytes};
ghost use Rattle.script_text.specs.Lines.{pattern};
ghost use Rattle.script_text.specs.Reading.{Reads, body_text, IsBody, pattern_text, IsPattern, is_lower_hex};

use crate::words::{cut, number};
use hsm_types::Bytes;
use std::alloc::{AllocError, Global};

/// The most bytes that a number and a seed may stand for.
pub const PATTERN_BYTES: u64 = 131072;

/// The greatest seed.
const GREATEST_SEED: u64 = 255;

/// Data, and the seed if they were given by one.
#[derive(Drop)]
pub struct Body {
    pub bytes: Bytes,
    pub seed: Option<u8>,
}

/// What stands for data: how many bytes there are, and the seed of their values.
#[derive(Clone, Copy)]
struct Pattern {
    len: u64,
    seed: u8,
}

/// The data that a word is.
pub fn body_of(alloc: Global, word: &[u8]) -> Result<Option<Body>, AllocError>
    ensures { IfOk result (λ read. Reads body_text IsBody word.now read) }
{
    let Some((kind, rest)) = cut(word, b':') else {
        return Ok(None);
    };
    if kind == b"x".as_slice() {
        return hex_body(alloc, rest);
    }
    if kind == b"p".as_slice() {
        return pattern_body(alloc, rest);
    }
    Ok(None)
}

fn hex_body(alloc: Global, digits: &[u8]) -> Result<Option<Body>, AllocError>
    ensures { IfOk result (λ read. Reads body_text IsBody (codes "x:" ++ digits.now) read) }
{
    let Some(bytes) = hex_bytes(alloc, digits)? else {
        return Ok(None);
    };
    Ok(Some(Body { bytes, seed: None }))
}

/// The bytes of hex digits.
fn hex_bytes(alloc: Global, digits: &[u8]) -> Result<Option<Bytes>, AllocError>
    ensures { IfOk result (λ read. Reads encode_lower IsBytes digits.now read) }
{
    if digits.len() % 2 != 0 {
        return Ok(None);
    }
    if !are_lower_hex(digits) {
        return Ok(None);
    }
    let bytes = bytes_of(alloc, digits)?;
    Ok(Some(Bytes::from(bytes)))
}

/// The bytes of pairs of hex digits.
fn bytes_of(alloc: Global, digits: &[u8]) -> Result<Vec<u8>, AllocError>
    requires even { length digits.now % 2 ≡ 0 }
    requires lower { list_all is_lower_hex digits.now ≡ true }
    ensures bytes { IfOk result (λ bytes. IsBytes bytes.items) }
    ensures digits { IfOk result (λ bytes. digits.now ≡ encode_lower bytes.items) }
{
    let count = digits.len() / 2;
    let mut bytes = Vec::with_capacity(alloc, count)?;
    for i in 0..count {
        bytes.push(16 * digit_value(digits[2 * i]) + digit_value(digits[2 * i + 1]))?;
    }
    Ok(bytes)
}

/// The value of a hex digit, without a branch, as that would mostly be foretold wrong.
#[tactic(auto, using(crate::proofs::HexText::value_small, crate::proofs::HexText::value_digit))]
fn digit_value(digit: u8) -> u8
    requires { is_lower_hex digit ≡ true }
    ensures small { result < 16 }
    ensures digit { slice_index lower_digits result ≡ digit }
{
    digit % 16 + 9 * (digit / 64)
}

/// Whether all bytes are hex digits, none of them in upper case.
pub fn are_lower_hex(digits: &[u8]) -> bool
    ensures { result ≡ list_all is_lower_hex digits.now }
{
    digits.iter().all(|b| { b'0' <= *b && *b <= b'9' || b'a' <= *b && *b <= b'f' })
}

fn pattern_body(alloc: Global, text: &[u8]) -> Result<Option<Body>, AllocError>
    ensures { IfOk result (λ read. Reads body_text IsBody (codes "p:" ++ text.now) read) }
{
    let Some(Pattern { len, seed }) = pattern_of(text) else {
        return Ok(None);
    };
    let bytes = pattern_bytes(alloc, len, seed)?;
    let seed = Some(seed);
    Ok(Some(Body { bytes, seed }))
}

/// The pattern that the text behind `p:` is.
fn pattern_of(text: &[u8]) -> Option<Pattern>
    ensures { Reads pattern_text IsPattern text.now result }
{
    let Some((len, seed)) = cut(text, b':') else {
        return None;
    };
    let Some(len) = number(len) else {
        return None;
    };
    let Some(seed) = number(seed) else {
        return None;
    };
    if len > PATTERN_BYTES {
        return None;
    }
    if seed > GREATEST_SEED {
        return None;
    }
    let seed = seed as u8;
    Some(Pattern { len, seed })
}

/// The bytes that their number and a seed stand for.
pub fn pattern_bytes(alloc: Global, len: u64, seed: u8) -> Result<Bytes, AllocError>
    requires { len ≤ PATTERN_BYTES }
    ensures { IfOk result (λ bytes. bytes ≡ pattern len seed) }
{
    let mut bytes = Vec::with_capacity(alloc, len as usize)?;
    for i in 0..len {
        bytes.push(((u64::from(seed) + 7 * i + i / 256) % 256) as u8)?;
    }
    Ok(Bytes::from(bytes))
}
