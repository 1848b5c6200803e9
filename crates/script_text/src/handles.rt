//! Handles, as a word of a line.
ghost use Rattle.hsm_types.specs.Handles.{IsHandle};
ghost use Rattle.event_text.specs.Render.{key_word, handle_word};
ghost use Rattle.script_text.specs.Reading.{Reads, IsKey};

use crate::words::{cut, number};
use hsm_types::{FileKey, Handle};

/// The handle that a word is.
pub fn handle_of(word: &[u8]) -> Option<Handle>
    ensures { Reads handle_word IsHandle word.now result }
{
    let Some((fsid, key)) = cut(word, b'.') else {
        return None;
    };
    let Some(fsid) = number(fsid) else {
        return None;
    };
    let Some(key) = key_of(key) else {
        return None;
    };
    Some(Handle { fsid, key })
}

/// The key that a word is.
fn key_of(word: &[u8]) -> Option<FileKey>
    ensures { Reads key_word IsKey word.now result }
{
    let Some((ino, igen)) = cut(word, b'.') else {
        return None;
    };
    let Some(ino) = number(ino) else {
        return None;
    };
    let Some(igen) = number(igen) else {
        return None;
    };
    Some(FileKey { ino, igen })
}
