//! Digests, as a word of a line.
ghost use Rattle.script_text.specs.Lines.{IsDigest};
ghost use Rattle.script_text.specs.Reading.{Reads, digest_word};

use crate::bodies::are_lower_hex;
use hex::FromHex;
use hsm_types::Digest;

/// The digest that a word is.
pub fn digest_of(word: &[u8]) -> Option<Digest>
    ensures { Reads digest_word IsDigest word.now result }
{
    if !are_lower_hex(word) {
        return None;
    }
    match <[u8; 32] as FromHex>::from_hex(word) {
        Ok(bytes) => Some(Digest(bytes)),
        Err(_) => None,
    }
}
