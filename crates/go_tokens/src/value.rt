//! The values of literals, by the bytes of their tokens.

ghost use Rattle.std.specs.Prelude.{◌≡◌, ◌==◌, ◌+◌, ◌*◌, ◌<◌, ◌≤◌, ◌^◌, ◌++◌, [], true, false, length, take, IfOk, MatchOption, if◌then◌else◌};
ghost use Rattle.std.specs.Char.{digit_value, encode_utf8};
ghost use Rattle.std.specs.Str.{IsUtf8, chars};
ghost use Rattle.go_tokens.specs.Literals.{base_of, digits_of, digits_value, integer_value, inside, elements, is_one, rune_elements, first_value, rune_value, element_value, element_bytes, found_bytes, without_returns, begins_raw, string_value};
ghost use Rattle.go_tokens.specs.Values.{below, constant_value, with_digit};

use crate::encoding::characters;
use crate::literal::{Element, inside, is_element, letter_base, read_element};
use go_base::Memory;
use std::alloc::{AllocError, Global};
use std::str;

/// The value of an integer literal, where an untyped constant may have it: below 2^127 (Go
/// specification: Integer literals). All its characters are ASCII, so its bytes are its characters.
pub fn integer_value(text: &[u8]) -> Option<i128>
    ensures { result ≡ constant_value (integer_value text.now) }
{
    let value = digits_value(base_of(text), digits_of(text))?;
    i128::try_from(value).ok()
}

/// The base of a number by its prefix.
fn base_of(text: &[u8]) -> u32
    ensures value { result ≡ base_of text.now }
    ensures low { 2 ≤ result }
    ensures high { result ≤ 16 }
{
    match text {
        [b'0', letter, ..] => match letter_base(char::from(*letter)) {
            0 => 8,
            base => base,
        },
        _ => 10,
    }
}

/// The digits of a number behind its prefix.
fn digits_of(text: &[u8]) -> &[u8]
    ensures { result.now ≡ digits_of text.now }
{
    match text {
        [b'0', letter, digits @ ..] => if letter_base(char::from(*letter)) == 0 {
            &text[1..]
        } else {
            digits
        },
        _ => text,
    }
}

/// The number that digits mean, where it is below 2^128.
fn digits_value(base: u32, digits: &[u8]) -> Option<u128>
    requires { 2 ≤ base }
    ensures { result ≡ below (2 ^ 128) (digits_value base 0 digits.now) }
{
    let mut value = 0;
    for digit in digits {
        value = with_digit(base, value, *digit)?;
    }
    Some(value)
}

/// A number with one more digit behind it, where it is below 2^128; `_` is none.
fn with_digit(base: u32, value: u128, digit: u8) -> Option<u128>
    ensures { result ≡ below (2 ^ 128) (with_digit base value digit) }
{
    if digit == b'_' {
        return Some(value);
    }
    value
        .checked_mul(u128::from(base))?
        .checked_add(u128::from(digit_value(digit)))
}

/// The number of a digit or letter, and 36 of any other byte.
fn digit_value(digit: u8) -> u32
    ensures { result ≡ digit_value digit }
{
    char::from(digit).to_digit(36).unwrap_or(36)
}

/// How many characters the longest rune literal has.
const LONGEST_RUNE: usize = 12;

/// The number of a rune literal: a code point, or the byte of an octal or hexadecimal escape (Go
/// specification: Rune literals). It is 0 for a text with none or several of them between its first
/// character and its last, and for bytes that are not UTF-8.
pub fn rune_value(text: &[u8]) -> u32
    ensures one { IsUtf8 text.now → is_one (rune_elements (chars text.now)) ≡ true → result ≡ rune_value (chars text.now) }
    ensures other { IsUtf8 text.now → is_one (rune_elements (chars text.now)) ≡ false → result ≡ 0 }
    ensures no_text { (IsUtf8 text.now → ⊥) → result ≡ 0 }
{
    let mut buffer = ['\0'; LONGEST_RUNE + 1];
    let count = fill(&mut buffer, decoded(text));
    if count > LONGEST_RUNE {
        return 0;
    }
    element_value(inside(&buffer[..count]))
}

/// Writes the characters of a text to the front of the buffer, as many as it has room for, and says
/// how many these are.
fn fill(buffer: &mut [char], text: &str) -> usize
    ensures within { result ≤ length buffer.new }
    ensures filled { take result buffer.new ≡ take (length buffer.old) (chars text.now) }
{
    let mut count = 0;
    for c in text.chars() {
        if count == buffer.len() {
            return count;
        }
        buffer[count] = c;
        count += 1;
    }
    count
}

/// The value of the one character or escape of a rune, and 0 where there is none or more.
fn element_value(text: &[char]) -> u32
    ensures one { is_one (elements 39 0 text.now) ≡ true → result ≡ first_value (elements 39 0 text.now) }
    ensures other { is_one (elements 39 0 text.now) ≡ false → result ≡ 0 }
{
    if text.is_empty() || !is_element(text) {
        return 0;
    }
    match read_element('\'', text) {
        Some(first) => number_of(first.element),
        None => 0,
    }
}

fn number_of(element: Element) -> u32
    ensures { result ≡ element_value element }
{
    match element {
        Element::Character(c) => u32::from(c),
        Element::Byte(byte) => u32::from(byte),
    }
}

/// The bytes of a string literal: characters in UTF-8, the bytes of octal and hexadecimal escapes as
/// they are; in a raw string all but carriage returns (Go specification: String literals). None for
/// bytes that are not UTF-8.
///
/// # Errors
/// `Memory` where memory ran out.
pub fn string_value(alloc: Global, text: &[u8]) -> Result<Vec<u8>, Memory>
    ensures utf8 { IfOk result (λ value. IsUtf8 text.now → value.items ≡ string_value (chars text.now)) }
    ensures no_text { IfOk result (λ value. (IsUtf8 text.now → ⊥) → value.items ≡ []) }
{
    let text = characters(alloc, decoded(text))?;
    Ok(value_of(alloc, &text)?)
}

/// The bytes of a string literal of these characters.
fn value_of(alloc: Global, text: &[char]) -> Result<Vec<u8>, AllocError>
    ensures { IfOk result (λ value. value.items ≡ string_value text.now) }
{
    if begins_raw(text) {
        without_returns(alloc, inside(text))
    } else {
        elements_bytes(alloc, inside(text))
    }
}

fn begins_raw(text: &[char]) -> bool
    ensures { result ≡ begins_raw text.now }
{
    text.first().is_some_and(|c| *c == '`')
}

/// The bytes of characters, but for carriage returns.
fn without_returns(alloc: Global, text: &[char]) -> Result<Vec<u8>, AllocError>
    ensures { IfOk result (λ value. value.items ≡ without_returns text.now) }
{
    let mut bytes = Vec::new(alloc);
    for c in text {
        if *c != '\r' {
            push_character(&mut bytes, *c)?;
        }
    }
    Ok(bytes)
}

/// The bytes of characters and escapes; none where a backslash begins no escape.
fn elements_bytes(alloc: Global, text: &[char]) -> Result<Vec<u8>, AllocError>
    ensures { IfOk result (λ value. value.items ≡ found_bytes (elements 34 0 text.now)) }
{
    let mut bytes = Vec::new(alloc);
    let mut at = 0;
    while at < text.len() {
        match read_element('"', &text[at..]) {
            Some(first) => {
                push_element(&mut bytes, first.element)?;
                at += first.count;
            }
            None => return Ok(Vec::new(alloc)),
        }
    }
    Ok(bytes)
}

fn push_element(bytes: &mut Vec<u8>, element: Element) -> Result<(), AllocError>
    ensures { IfOk result (λ _. bytes.new.items ≡ bytes.old.items ++ element_bytes element) }
{
    match element {
        Element::Character(c) => push_character(bytes, c),
        Element::Byte(byte) => Ok(bytes.push(byte)?),
    }
}

fn push_character(bytes: &mut Vec<u8>, c: char) -> Result<(), AllocError>
    ensures { IfOk result (λ _. bytes.new.items ≡ bytes.old.items ++ encode_utf8 c) }
{
    let mut buffer = [0; 4];
    let encoded = c.encode_utf8(&mut buffer);
    bytes.extend_from_slice(encoded.as_bytes())
}

/// The text of UTF-8 bytes, and none for others.
fn decoded(bytes: &[u8]) -> &str
    ensures utf8 { IsUtf8 bytes.now → result.now ≡ bytes.now }
    ensures no_text { (IsUtf8 bytes.now → ⊥) → result.now ≡ [] }
{
    str::from_utf8(bytes).unwrap_or("")
}
