//! Responses to events, as the end of a line.
ghost use Rattle.event_text.specs.Render.{response_word};
ghost use Rattle.script_text.specs.Lines.{IsResponse};
ghost use Rattle.script_text.specs.Reading.{Reads};

use crate::words::{count, cut};
use hsm_types::Response;

/// The response that a text is: one word, or two.
pub fn response_of(text: &[u8]) -> Option<Response>
    ensures { Reads response_word IsResponse text.now result }
{
    if text == b"continue".as_slice() {
        return Some(Response::Continue);
    }
    let Some((word, error)) = cut(text, b' ') else {
        return None;
    };
    if word != b"abort".as_slice() {
        return None;
    }
    match count(error) {
        Some(error) => Some(Response::Abort(error)),
        None => None,
    }
}
