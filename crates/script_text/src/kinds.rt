//! Kinds of events, as a word of a line.
ghost use Rattle.std.specs.Prelude.{◌≡◌};
ghost use Rattle.std.specs.Option.{option_map};
ghost use Rattle.event_text.specs.Render.{kinds_word};
ghost use Rattle.script_text.specs.Reading.{Reads, AreKinds, parts_behind, taken};

use crate::words::first_part;
use hsm_types::Kinds;

/// The kinds that a word is.
pub fn kinds_of(word: &[u8]) -> Option<Kinds>
    ensures { Reads kinds_word AreKinds word.now result }
{
    if word == b"-".as_slice() {
        return Some(Kinds::none());
    }
    let (read, rest) = take_kind(Some(word), b"read");
    let (write, rest) = take_kind(rest, b"write");
    let (truncate, rest) = take_kind(rest, b"truncate");
    let (no_space, rest) = take_kind(rest, b"nospace");
    match rest {
        Some(_) => None,
        None => Some(Kinds {
            read,
            write,
            truncate,
            no_space,
        }),
    }
}

/// Whether that kind stands before the first comma, and what is left then.
fn take_kind<'a>(word: Option<&'a [u8]>, kind: &[u8]) -> (bool, Option<&'a [u8]>)
    ensures { (result.0, parts_behind (option_map (λ rest. rest.now) result.1)) ≡ taken kind.now (parts_behind (option_map (λ w. w.now) word.entry)) }
{
    let Some(text) = word else {
        return (false, None);
    };
    let (first, more) = first_part(text);
    if first == kind {
        (true, more)
    } else {
        (false, Some(text))
    }
}
