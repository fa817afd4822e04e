//! Literals: their forms and values.

ghost use Rattle.std.specs.Prelude.{◌≡◌, ◌<◌, ◌≤◌, ◌+◌, ◌^◌, ◌&&◌, length, is_some, Some, None, IfSome, MatchOption, if◌then◌else◌};
ghost use Rattle.go_tokens.specs.Literals.{is_digit_of, grouped, letter_base, base_of, digits_of, begins_with_digit, is_integer, digits_number, number, byte_escape, character_escape, is_code_point, letter_escape, escape, elements, inside, is_one, IsElementLength, IsFirstElement};

use crate::character::{is_b, is_digit, is_o, is_x};

/// A part of a rune or string literal.
#[derive(Clone, Copy, PartialEq, Eq, Debug)]
pub enum Element {
    Character(char),
    /// A byte by its number, from an octal or hexadecimal escape.
    Byte(u8),
}

/// What an escape means, and how many characters it has.
#[derive(Clone, Copy, PartialEq, Eq, Debug)]
pub struct Escape {
    pub element: Element,
    pub count: usize,
}

#[tactic(auto, unfolding(crate::specs::Literals::is_digit_of))]
fn is_digit_of(base: u32, c: char) -> bool
    requires low { 2 ≤ base }
    requires high { base ≤ 36 }
    ensures { result ≡ is_digit_of base c }
{
    c.is_digit(base)
}

/// Digits, with a single `_` before any of them.
fn is_grouped(base: u32, digits: &[char]) -> bool
    requires low { 2 ≤ base }
    requires high { base ≤ 36 }
    ensures { result ≡ grouped base digits.now }
{
    let mut rest = digits;
    while let [first, second, ..] = rest {
        if *first == '_' {
            if !is_digit_of(base, *second) {
                return false;
            }
            rest = &rest[2..];
        } else {
            if !is_digit_of(base, *first) {
                return false;
            }
            rest = &rest[1..];
        }
    }
    match rest {
        [last] => is_digit_of(base, *last),
        _ => true,
    }
}

/// The base that a letter behind a 0 gives, or 0.
#[tactic(auto, unfolding(crate::specs::Literals::letter_base))]
pub(crate) fn letter_base(c: char) -> u32
    ensures value { result ≡ letter_base c }
    ensures low { 0 < result → 2 ≤ result }
    ensures high { result ≤ 16 }
{
    if is_x(c) {
        16
    } else if is_b(c) {
        2
    } else if is_o(c) {
        8
    } else {
        0
    }
}

/// The base of a number by its prefix.
fn base_of(run: &[char]) -> u32
    ensures value { result ≡ base_of run.now }
    ensures low { 2 ≤ result }
    ensures high { result ≤ 16 }
{
    match run {
        ['0', letter, ..] => match letter_base(*letter) {
            0 => 8,
            base => base,
        },
        _ => 10,
    }
}

/// The digits of a number behind its prefix.
fn digits_of(run: &[char]) -> &[char]
    ensures { result.now ≡ digits_of run.now }
{
    match run {
        ['0', letter, digits @ ..] => if letter_base(*letter) == 0 {
            &run[1..]
        } else {
            digits
        },
        _ => run,
    }
}

/// Whether the run of a number is an integer literal.
pub fn is_integer(run: &[char]) -> bool
    ensures { result ≡ is_integer run.now }
{
    let digits = digits_of(run);
    begins_with_digit(run) && !digits.is_empty() && is_grouped(base_of(run), digits)
}

fn begins_with_digit(run: &[char]) -> bool
    ensures { result ≡ begins_with_digit run.now }
{
    run.first().is_some_and(|c| is_digit(*c))
}

/// What stands between the first character and the last.
pub fn inside(text: &[char]) -> &[char]
    ensures { result.now ≡ inside text.now }
{
    match text {
        [_, inside @ .., _] => inside,
        _ => &[],
    }
}

/// Whether a string is characters and escapes.
pub fn are_elements(text: &[char]) -> bool
    ensures { result ≡ is_some (elements 34 0 text.now) }
{
    let mut at = 0;
    while at < text.len() {
        match element_length('"', &text[at..]) {
            Some(length) => at += length,
            None => return false,
        }
    }
    true
}

/// Whether a rune has one character or one escape.
pub fn is_element(text: &[char]) -> bool
    ensures { result ≡ is_one (elements 39 0 text.now) }
{
    if text.is_empty() {
        return false;
    }
    match element_length('\'', text) {
        Some(length) => length == text.len(),
        None => false,
    }
}

/// How many characters the first character or escape of a text has.
fn element_length(quote: char, text: &[char]) -> Option<usize>
    requires { 0 < length text.now }
    ensures { MatchOption result (elements quote 0 text.now ≡ None) (IsElementLength quote text.now) }
{
    Some(read_element(quote, text)?.count)
}

/// The first character or escape of a text, and how many characters it has.
pub(crate) fn read_element(quote: char, text: &[char]) -> Option<Escape>
    requires { 0 < length text.now }
    ensures { MatchOption result (elements quote 0 text.now ≡ None) (IsFirstElement quote text.now) }
{
    if text[0] != '\\' {
        return Some(Escape {
            element: Element::Character(text[0]),
            count: 1,
        });
    }
    let escape = read_escape(quote, &text[1..])?;
    Some(Escape {
        element: escape.element,
        count: escape.count + 1,
    })
}

/// What stands behind a backslash.
fn read_escape(quote: char, text: &[char]) -> Option<Escape>
    ensures value { result ≡ escape quote text.now }
    ensures within { IfSome result (λ e. e.count ≤ length text.now) }
{
    let (first, behind) = text.split_first()?;
    if is_digit_of(8, *first) {
        byte_escape(3, number(8, 3, text))
    } else {
        match first {
            'x' => byte_escape(3, number(16, 2, behind)),
            'u' => character_escape(5, number(16, 4, behind)),
            'U' => character_escape(9, number(16, 8, behind)),
            _ => letter_escape(quote, *first).map(|c| Escape {
                element: Element::Character(c),
                count: 1,
            }),
        }
    }
}

fn byte_escape(count: usize, value: Option<u32>) -> Option<Escape>
    ensures { result ≡ byte_escape count value }
{
    let byte = u8::try_from(value?).ok()?;
    Some(Escape {
        element: Element::Byte(byte),
        count,
    })
}

fn character_escape(count: usize, value: Option<u32>) -> Option<Escape>
    ensures { result ≡ character_escape count value }
{
    let c = code_point(value?)?;
    Some(Escape {
        element: Element::Character(c),
        count,
    })
}

/// A code point that is neither a surrogate nor above 10FFFF.
fn code_point(value: u32) -> Option<char>
    ensures { result ≡ (if is_code_point value then Some value else None) }
{
    char::from_u32(value)
}

/// The character of a letter behind a backslash.
#[tactic(auto, unfolding(crate::specs::Literals::letter_escape))]
fn letter_escape(quote: char, letter: char) -> Option<char>
    ensures { result ≡ letter_escape quote letter }
{
    match letter {
        'a' => Some('\u{7}'),
        'b' => Some('\u{8}'),
        'f' => Some('\u{C}'),
        'n' => Some('\n'),
        'r' => Some('\r'),
        't' => Some('\t'),
        'v' => Some('\u{B}'),
        '\\' => Some('\\'),
        _ => (letter == quote).then_some(quote),
    }
}

/// The number of this many digits to a base.
fn number(base: u32, count: usize, text: &[char]) -> Option<u32>
    requires low { 2 ≤ base }
    requires high { base ≤ 36 }
    requires short { base ^ count ≤ 2 ^ 32 }
    ensures { result ≡ number base count text.now }
{
    digits_number(base, text.get(..count)?)
}

fn digits_number(base: u32, digits: &[char]) -> Option<u32>
    requires low { 2 ≤ base }
    requires high { base ≤ 36 }
    requires short { base ^ length digits.now ≤ 2 ^ 32 }
    ensures { result ≡ digits_number base 0 digits.now }
{
    let mut value = 0;
    for digit in digits {
        value = value * base + digit.to_digit(base)?;
    }
    Some(value)
}
