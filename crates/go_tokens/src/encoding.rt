//! From bytes to characters.

ghost use Rattle.std.specs.Prelude.{◌≡◌, ◌⊎◌, ◌+◌, ◌<◌, ◌≤◌, ◌^◌, true, false, length, take, MatchOption, IfOk, IfErr};
ghost use Rattle.std.specs.Str.{IsUtf8, IsValidUpTo, chars};
ghost use Rattle.std.specs.Str.Lossy.{utf8_valid_len};
ghost use Rattle.go_base.specs.Gives.{Meets};
ghost use Rattle.go_tokens.specs.Encoding.{IsText, IsEncodingFault, are_allowed, encoding_fault};
ghost use Rattle.go_tokens.specs.Lexing.{width};
ghost use Rattle.go_tokens.specs.Progress.{IsRefused};
ghost use Rattle.go_tokens.specs.Files.{lex_refusal};

use crate::error::LexError;
use crate::lexer::{span, width};
use go_base::{Fault, FaultCode};
use std::alloc::{AllocError, Global};
use std::str;

/// The byte order mark.
const MARK: char = '\u{FEFF}';

/// The characters of a file, or the first place where its bytes are none or not allowed.
pub fn decode(alloc: Global, file: u32, bytes: &[u8]) -> Result<Vec<char>, LexError>
    requires { length bytes.now < 2 ^ 31 }
    ensures exact { Meets lex_refusal result (λ text. IsText text.items bytes.now) (IsEncodingFault file bytes.now) }
{
    let front = valid_front(bytes);
    let text = characters(alloc, front)?;
    let is_all = front.len() == bytes.len();
    match text_fault(file, &text, is_all) {
        Some(fault) => Err(LexError::Fault(fault)),
        None => Ok(text),
    }
}

/// The characters of a text.
pub fn characters(alloc: Global, text: &str) -> Result<Vec<char>, AllocError>
    ensures { IfOk result (λ characters. characters.items ≡ chars text.now) }
{
    text.chars().collect(alloc)
}

/// The fault of characters of a file: one that is not allowed, or that they are not all of it.
fn text_fault(file: u32, text: &[char], is_all: bool) -> Option<Fault>
    requires { width text.now < 2 ^ 31 }
    ensures { MatchOption result ((are_allowed text.now ≡ true) × (is_all ≡ true)) (λ fault. IsRefused file text.now fault ⊎ (are_allowed text.now ≡ true) × (is_all ≡ false) × (fault ≡ encoding_fault file (width text.now) 1)) }
{
    match first_refused(text) {
        Some(index) => {
            let length = width(&text[index..index + 1]);
            Some(encoding_fault(file, width(&text[..index]), length))
        }
        None if is_all => None,
        None => Some(encoding_fault(file, width(text), 1)),
    }
}

fn encoding_fault(file: u32, start: u32, length: u32) -> Fault
    requires { start + length < 2 ^ 32 }
    ensures { result ≡ encoding_fault file start length }
{
    Fault {
        code: FaultCode::Encoding,
        span: span(file, start, length),
    }
}

/// The longest front of the bytes that is UTF-8.
fn valid_front(bytes: &[u8]) -> &str
    ensures front { result.now ≡ take (utf8_valid_len bytes.now) bytes.now }
    ensures utf8 { IsUtf8 result.now }
    ensures longest { IsUtf8 bytes.now ⊎ IsValidUpTo bytes.now (utf8_valid_len bytes.now) }
{
    match str::from_utf8(bytes) {
        Ok(text) => text,
        Err(error) => str::from_utf8(&bytes[..error.valid_up_to()]).unwrap_or(""),
    }
}

/// The place of the first NUL, or byte order mark that is not the first character.
fn first_refused(text: &[char]) -> Option<usize>
    ensures { MatchOption result (are_allowed text.now ≡ true) (λ i. (i < length text.now) × (are_allowed (take i text.now) ≡ true) × (are_allowed (take (i + 1) text.now) ≡ false)) }
{
    for (i, c) in text.iter().enumerate() {
        if *c == '\0' || (*c == MARK && i > 0) {
            return Some(i);
        }
    }
    None
}
