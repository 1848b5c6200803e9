//! Numbers among the words.
ghost use Rattle.std.specs.Prelude.{◌≡◌, ◌≢◌, ◌<◌, ◌↔◌, IsTrue, length, slice_index};
ghost use Rattle.command_words.specs.Commands.{number_named};

/// The number of 64 bits that a word spells in decimal.
pub fn number_named(word: &str) -> Option<u64>
    ensures { result ≡ number_named word.now }
{
    if !is_plain(word.as_bytes()) {
        return None;
    }
    word.parse().ok()
}

/// Whether there is a byte, no sign, and no `0` in front of others.
fn is_plain(word: &[u8]) -> bool
    ensures { IsTrue result ↔ ((0 < length word.now) × (slice_index word.now 0 ≢ 43) × (slice_index word.now 0 ≡ 48 → length word.now ≡ 1)) }
{
    !word.is_empty() && word[0] != b'+' && (word[0] != b'0' || word.len() == 1)
}
