//! Rights, as a word of a line.
ghost use Rattle.event_text.specs.Render.{right_word};
ghost use Rattle.script_text.specs.Lines.{IsAskedRight};
ghost use Rattle.script_text.specs.Reading.{Reads};

use hsm_types::Right;

/// The right that a word asks for.
pub fn right_of(word: &[u8]) -> Option<Right>
    ensures { Reads right_word IsAskedRight word.now result }
{
    if word == b"shared".as_slice() {
        return Some(Right::Shared);
    }
    if word == b"excl".as_slice() {
        return Some(Right::Excl);
    }
    None
}
