//! Names of attributes, as a word of a line.
ghost use Rattle.event_text.specs.Render.{name_word};
ghost use Rattle.script_text.specs.Lines.{IsAttrName};
ghost use Rattle.script_text.specs.Reading.{Reads};

use crate::bodies::are_lower_hex;
use hex::FromHex;
use hsm_types::AttrName;

/// The name that a word is.
pub fn attr_name(word: &[u8]) -> Option<AttrName>
    ensures { Reads name_word IsAttrName word.now result }
{
    if !are_lower_hex(word) {
        return None;
    }
    match <[u8; 8] as FromHex>::from_hex(word) {
        Ok(bytes) => Some(AttrName(bytes)),
        Err(_) => None,
    }
}
