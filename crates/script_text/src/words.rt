//! The words of a line.
ghost use Rattle.std.specs.Prelude.{◌≡◌, ◌≢◌, ◌+◌, ◌-◌, ◌*◌, ◌^◌, ◌<◌, ◌≤◌, ◌∷◌, ℕ, length, slice_index, IsTrue, IfOk, ◌↔◌};
ghost use Rattle.std.specs.Option.{option_map, SomeIff};
ghost use Rattle.std.specs.Char.{digit_value};
ghost use Rattle.std.specs.Fmt.{decimal};
ghost use Rattle.std.specs.List.{list_all};
ghost use Rattle.std.specs.Str.Parse.{AllDigits, digits_value};
ghost use Rattle.hsm_types.specs.Callers.{IsCallerNumber};
ghost use Rattle.script_text.specs.Lines.{is_word, is_word_byte};
ghost use Rattle.script_text.specs.Reading.{Reads, Cuts, parts, parts_behind, IsNumber, IsCount, caller_word, sid_word, IsSid};

use hsm_types::{CallerId, Sid, Word};
use memchr::memchr;
use std::alloc::{AllocError, Global};

/// The greatest number of 32 bits.
const GREATEST_COUNT: u64 = 4294967295;

/// The place of the first such byte, or the length where there is none.
fn find(bytes: &[u8], byte: u8) -> usize
    ensures within { result ≤ length bytes.now }
    ensures before { (k : ℕ) → k < result → slice_index bytes.now k ≢ byte }
    ensures found { result < length bytes.now → slice_index bytes.now result ≡ byte }
{
    for (i, b) in bytes.iter().enumerate() {
        if *b == byte {
            return i;
        }
    }
    bytes.len()
}

/// What stands before the first such byte, and what behind it.
pub fn cut(bytes: &[u8], byte: u8) -> Option<(&[u8], &[u8])>
    ensures { Cuts byte bytes.now (option_map (λ p. (p.0.now, p.1.now)) result) }
{
    let at = find(bytes, byte);
    if at < bytes.len() {
        Some((&bytes[..at], &bytes[at + 1..]))
    } else {
        None
    }
}

/// What stands before the first newline, and what behind it.
pub fn cut_line(bytes: &[u8]) -> Option<(&[u8], &[u8])>
    ensures { Cuts 10 bytes.now (option_map (λ p. (p.0.now, p.1.now)) result) }
{
    let at = find_newline(bytes);
    if at < bytes.len() {
        Some((&bytes[..at], &bytes[at + 1..]))
    } else {
        None
    }
}

/// The place of the first newline, or the length where there is none. It looks at many bytes at once, which doesn't pay for words.
fn find_newline(bytes: &[u8]) -> usize
    ensures within { result ≤ length bytes.now }
    ensures before { (k : ℕ) → k < result → slice_index bytes.now k ≢ 10 }
    ensures found { result < length bytes.now → slice_index bytes.now result ≡ 10 }
{
    match memchr(b'\n', bytes) {
        Some(at) => at,
        None => bytes.len(),
    }
}

/// What stands before the first comma, and what behind it, if there is one.
pub fn first_part(word: &[u8]) -> (&[u8], Option<&[u8]>)
    ensures { parts word.now ≡ result.0.now ∷ parts_behind (option_map (λ more. more.now) result.1) }
{
    match cut(word, b',') {
        Some((first, more)) => (first, Some(more)),
        None => (word, None),
    }
}

/// The number that a word is in decimal.
pub fn number(word: &[u8]) -> Option<u64>
    ensures { Reads decimal IsNumber word.now result }
{
    if !is_plain(word) {
        return None;
    }
    value(word)
}

/// The number of 32 bits that a word is in decimal.
pub fn count(word: &[u8]) -> Option<u32>
    ensures { Reads decimal IsCount word.now result }
{
    let Some(n) = number(word) else {
        return None;
    };
    if n > GREATEST_COUNT {
        return None;
    }
    Some(n as u32)
}

/// Whether there is a byte, and no `0` in front of others.
fn is_plain(word: &[u8]) -> bool
    ensures { IsTrue result ↔ ((0 < length word.now) × (slice_index word.now 0 ≡ 48 → length word.now ≡ 1)) }
{
    !word.is_empty() && (word[0] != b'0' || word.len() == 1)
}

/// The value of digits.
fn value(digits: &[u8]) -> Option<u64>
    ensures { SomeIff result (AllDigits 10 digits.now × (digits_value 10 digits.now < 2 ^ 64)) (digits_value 10 digits.now) }
{
    let mut value = 0;
    for digit in digits {
        let Some(more) = with_digit(value, *digit) else {
            return None;
        };
        value = more;
    }
    Some(value)
}

/// The value with a digit more.
fn with_digit(value: u64, digit: u8) -> Option<u64>
    ensures { SomeIff result ((digit_value digit < 10) × (value * 10 + digit_value digit < 2 ^ 64)) (value * 10 + digit_value digit) }
{
    if !digit.is_ascii_digit() {
        return None;
    }
    value.checked_mul(10)?.checked_add(u64::from(digit - b'0'))
}

/// Whether two numbers are at most `most` together.
pub fn are_within(a: u64, b: u64, most: u64) -> bool
    ensures { IsTrue result ↔ (a + b ≤ most) }
{
    a <= most && b <= most - a
}

/// The caller that a word names.
pub fn caller(word: &[u8]) -> Option<CallerId>
    ensures { Reads caller_word IsCallerNumber word.now result }
{
    match word {
        [b'c', digits @ ..] => {
            let Some(n) = number(digits) else {
                return None;
            };
            let Some(caller) = CallerId::new(n) else {
                return None;
            };
            Some(caller)
        }
        _ => None,
    }
}

/// The session that a word names.
pub fn session(word: &[u8]) -> Option<Sid>
    ensures { Reads sid_word IsSid word.now result }
{
    match word {
        [b's', digits @ ..] => {
            let Some(n) = number(digits) else {
                return None;
            };
            Some(Sid(n))
        }
        _ => None,
    }
}

/// Whether a word is one or more visible ASCII bytes.
fn is_word(word: &[u8]) -> bool
    ensures { result ≡ is_word word.now }
{
    let visible = are_visible(word);
    !word.is_empty() && visible
}

fn are_visible(word: &[u8]) -> bool
    ensures { result ≡ list_all is_word_byte word.now }
{
    word.iter().all(|b| 0x21 <= *b && *b <= 0x7e)
}

/// The word that bytes are, in memory of its own.
pub fn word(alloc: Global, bytes: &[u8]) -> Result<Option<Word>, AllocError>
    ensures { IfOk result (λ read. Reads (λ word. word) (λ word. IsTrue (is_word word)) bytes.now read) }
{
    if !is_word(bytes) {
        return Ok(None);
    }
    let word = Word::from(Vec::from_slice(alloc, bytes)?);
    Ok(Some(word))
}
