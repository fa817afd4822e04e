//! A file as the rules on names see it.

ghost use Rattle.std.specs.Prelude.{◌≡◌, slice_get, IfOk};
ghost use Rattle.go_tokens.specs.Spellings.{same_text};
ghost use Rattle.go_tree.specs.Units.{word, bytes_of, bytes_at, is_blank, is_fmt, start_in, end_in};
ghost use Rattle.go_tree.specs.Imports.{is_fmt_path};
ghost use Rattle.go_scopes_lookup.specs.Views.{place_of};

use go_base::{Memory, Span};
use go_tokens::tokens::Tokens;
use go_tokens::value::string_value;
use go_tree::event::Event;
use std::alloc::Global;

/// A file: its tokens, and what its tree has to do with names.
#[derive(Drop)]
pub struct Unit<'a> {
    pub tokens: &'a Tokens,
    pub events: Vec<Event>,
}

/// Whether two texts are the same.
pub fn same(a: &[u8], b: &[u8]) -> bool
    ensures { result ≡ same_text a.now b.now }
{
    a == b
}

/// The text of the token of this number.
pub fn word(tokens: &Tokens, number: u32) -> &[u8]
    ensures { result.now ≡ word tokens.now number }
{
    if number < tokens.count() {
        tokens.text(number)
    } else {
        &[]
    }
}

/// Whether it is the blank identifier (Go specification: Blank identifier).
pub fn is_blank(name: &[u8]) -> bool
    ensures { result ≡ is_blank name.now }
{
    same(name, b"_")
}

/// Whether it is the name of the package `fmt`.
pub fn is_fmt(name: &[u8]) -> bool
    ensures { result ≡ is_fmt name.now }
{
    same(name, b"fmt")
}

/// Whether the token is a string literal with the value `fmt`.
pub fn is_fmt_path(alloc: Global, tokens: &Tokens, number: u32) -> Result<bool, Memory>
    ensures { IfOk result (λ b. b ≡ is_fmt_path tokens.now number) }
{
    let text = word(tokens, number);
    if !text.is_ascii() {
        return Ok(false);
    }
    let value = string_value(alloc, text)?;
    Ok(is_fmt(&value))
}

/// Where the token of this number begins.
fn start_of(tokens: &Tokens, number: u32) -> u32
    ensures { result ≡ start_in (slice_get tokens.now.tokens number) }
{
    if number < tokens.count() {
        tokens.get(number).span.start
    } else {
        0
    }
}

/// Where the token of this number ends.
fn end_of(tokens: &Tokens, number: u32) -> u32
    ensures { result ≡ end_in (slice_get tokens.now.tokens number) }
{
    if number < tokens.count() {
        tokens.get(number).span.end
    } else {
        0
    }
}

/// The bytes of the tokens from `first` up to `last`, in the file of this number.
pub fn bytes_of(file: u32, tokens: &Tokens, first: u32, last: u32) -> Span
    ensures { place_of result ≡ bytes_of file tokens.now first last }
{
    let start = start_of(tokens, first);
    let end = end_of(tokens, last.saturating_sub(1));
    Span {
        file,
        start,
        end: start.max(end),
    }
}

/// The bytes of one token, in the file of this number.
pub fn bytes_at(file: u32, tokens: &Tokens, number: u32) -> Span
    ensures { place_of result ≡ bytes_at file tokens.now number }
{
    let start = start_of(tokens, number);
    let end = end_of(tokens, number);
    Span {
        file,
        start,
        end: start.max(end),
    }
}
