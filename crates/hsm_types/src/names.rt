//! Which words can be names of files.
ghost use Rattle.std.specs.Prelude.{◌≡◌};
ghost use Rattle.std.specs.List.{list_all};
ghost use Rattle.hsm_types.specs.Names.{is_name_byte, is_name};

use crate::limits::NAME_BYTES;

/// Whether a word can be the name of a file: 1 to [`NAME_BYTES`](crate::NAME_BYTES) visible ASCII bytes, none of them a slash.
pub fn can_name(word: &[u8]) -> bool
    ensures { result ≡ is_name word.now }
{
    let visible = are_name_bytes(word);
    !word.is_empty() && word.len() <= NAME_BYTES && visible
}

fn are_name_bytes(word: &[u8]) -> bool
    ensures { result ≡ list_all is_name_byte word.now }
{
    word.iter().all(|b| 0x21 <= *b && *b <= 0x7e && *b != b'/')
}
