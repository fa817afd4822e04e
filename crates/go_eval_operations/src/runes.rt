//! The runes of strings (Go specification, "For statements with range clause").

ghost use Rattle.std.specs.Prelude.{◌≡◌, ◌<◌, ◌≤◌, length};
ghost use Rattle.std.specs.Str.{continuation_len};
ghost use Rattle.go_meaning.specs.Texts.{first_bytes, rune_code, rune_width, runes_of};
ghost use Rattle.go_eval_operations.specs.Places.{rune_told};

use std::str;

/// How many bytes stand behind the first one in the UTF-8 of a rune.
fn continuation(first: u8) -> usize
    ensures { result ≡ continuation_len first }
{
    if first < 128 {
        0
    } else if first < 224 {
        1
    } else if first < 240 {
        2
    } else {
        3
    }
}

/// As many bytes as the first one announces, where there are so many.
fn first_bytes(bytes: &[u8]) -> &[u8]
    requires { 0 < length bytes.now }
    ensures bytes { result.now ≡ first_bytes bytes.now }
    ensures some { 0 < length result.now }
    ensures within { length result.now ≤ length bytes.now }
{
    let width = continuation(bytes[0]) + 1;
    if width < bytes.len() {
        &bytes[..width]
    } else {
        bytes
    }
}

/// The rune of UTF-8 that is one.
fn rune_of(bytes: &[u8]) -> Option<char>
    ensures { result ≡ rune_told bytes.now }
{
    match str::from_utf8(bytes) {
        Ok(text) => text.chars().next(),
        Err(_) => None,
    }
}

/// The code point of the first rune, and how many bytes it takes. One byte that isn't UTF-8 gives U+FFFD.
pub fn first_rune(bytes: &[u8]) -> (char, usize)
    requires { 0 < length bytes.now }
    ensures code { result.0 ≡ rune_code bytes.now }
    ensures width { result.1 ≡ rune_width bytes.now }
    ensures some { 0 < result.1 }
    ensures within { result.1 ≤ length bytes.now }
{
    let first = first_bytes(bytes);
    match rune_of(first) {
        Some(rune) => (rune, first.len()),
        None => ('\u{FFFD}', 1),
    }
}

/// How many runes a string has.
pub fn rune_count(bytes: &[u8]) -> usize
    ensures { result ≡ length (runes_of bytes.now) }
{
    let mut count = 0;
    let mut place = 0;
    while place < bytes.len() {
        let (_, width) = first_rune(&bytes[place..]);
        place += width;
        count += 1;
    }
    count
}
