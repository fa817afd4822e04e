//! What stands at a place.

ghost use Rattle.std.specs.Prelude.{◌≡◌, ◌^◌, ◌<◌, ◌≤◌, [], ◌∷◌, Some, None, length, slice_get, suc, if◌then◌else◌};
ghost use Rattle.go_base.specs.Gives.{Meets};
ghost use Rattle.go_tokens.specs.Tokens.{kinds};
ghost use Rattle.go_grammar.specs.Grammar.{result_words};
ghost use Rattle.go_grammar.specs.Rules as rules;
ghost use Rattle.go_grammar.specs.Symbols.{repeated, optional_word};
ghost use Rattle.go_grammar.specs.Words.{is_word, is_among};
ghost use Rattle.go_grammar.specs.Reader as reader;
ghost use Rattle.go_parse.specs.Turns.{stops, passes};

use crate::error::Stop;
use go_grammar::items::{Next, Turn};
use go_grammar::kind::Category;
use go_grammar::lookahead::begins;
use go_grammar::production::Repetition;
use go_tokens::token::TokenKind;
use go_tokens::tokens::Tokens;

/// The kind of the token at a place.
pub fn kind_at(tokens: &Tokens, at: u32) -> Option<TokenKind>
    ensures { result ≡ slice_get (kinds tokens.now.tokens) at }
{
    if at < tokens.count() {
        Some(tokens.get(at).kind)
    } else {
        None
    }
}

/// Whether the token at a place is this one.
pub fn is_at(tokens: &Tokens, at: u32, word: TokenKind) -> bool
    ensures { result ≡ is_word (slice_get (kinds tokens.now.tokens) at) word }
{
    match kind_at(tokens, at) {
        Some(kind) => kind == word,
        None => false,
    }
}

/// The place behind a token that is to stand here.
pub fn expect(tokens: &Tokens, at: u32, word: TokenKind) -> Result<u32, Stop>
    requires { length tokens.now.tokens < 2 ^ 32 }
    ensures { Meets (λ e. Some e) result (λ next. reader.words (kinds tokens.now.tokens) at (word ∷ []) ≡ Some next) (λ e. (e ≡ Stop.Syntax) × (reader.words (kinds tokens.now.tokens) at (word ∷ []) ≡ None)) }
{
    if is_at(tokens, at, word) {
        Ok(at + 1)
    } else {
        Err(Stop::Syntax)
    }
}

/// Whether the token at a place may begin a result (Go specification: Function types).
pub fn begins_result(tokens: &Tokens, at: u32) -> bool
    ensures { result ≡ is_among (slice_get (kinds tokens.now.tokens) at) result_words }
{
    matches!(
        kind_at(tokens, at),
        Some(
            TokenKind::Identifier
                | TokenKind::LeftParenthesis
                | TokenKind::LeftBracket
                | TokenKind::Func
                | TokenKind::Struct
        )
    )
}

/// What stands where items may begin.
pub fn turn(repetition: Repetition, next: Option<TokenKind>) -> Turn
    ensures { result ≡ reader.turn (repeated repetition) next }
{
    match repetition {
        Repetition::Lines {
            alone,
            separator,
            close,
            ..
        } => {
            if next == Some(close) {
                Turn::Stop
            } else if alone && next == Some(separator) {
                Turn::Pass
            } else {
                Turn::Item
            }
        }
        Repetition::Open { item, separator } => {
            if next == Some(separator) {
                Turn::Pass
            } else {
                item_or_end(begins(item, next))
            }
        }
        Repetition::Each { item, .. } => item_or_end(begins(item, next)),
        Repetition::Again { separator, .. } => item_or_end(next == Some(separator)),
    }
}

/// An item, where one begins, or the end.
fn item_or_end(begins: bool) -> Turn
    ensures { result ≡ (if begins then Turn.Item else Turn.Stop) }
{
    if begins { Turn::Item } else { Turn::Stop }
}

/// The place where an item begins.
pub fn lead(tokens: &Tokens, repetition: Repetition, at: u32) -> u32
    requires { length tokens.now.tokens < 2 ^ 32 }
    ensures place { reader.turn (repeated repetition) (slice_get (kinds tokens.now.tokens) at) ≡ Turn.Item → result ≡ reader.lead (repeated repetition) at }
    ensures later { at ≤ result }
{
    match repetition {
        Repetition::Again { separator, .. } => behind(tokens, at, separator),
        _ => at,
    }
}

/// The place behind a word, if it stands here.
fn behind(tokens: &Tokens, at: u32, word: TokenKind) -> u32
    requires { length tokens.now.tokens < 2 ^ 32 }
    ensures { result ≡ (if is_word (slice_get (kinds tokens.now.tokens) at) word then suc at else at) }
{
    if is_at(tokens, at, word) { at + 1 } else { at }
}

/// Whether the items end.
pub fn is_stop(turn: Turn) -> bool
    ensures { result ≡ stops turn }
{
    matches!(turn, Turn::Stop)
}

/// Whether a separator stands alone.
pub fn is_pass(turn: Turn) -> bool
    ensures { result ≡ passes turn }
{
    matches!(turn, Turn::Pass)
}

/// What items are made of.
pub fn item(repetition: Repetition) -> Category
    ensures { result ≡ rules.item (repeated repetition) }
{
    match repetition {
        Repetition::Lines { item, .. }
        | Repetition::Open { item, .. }
        | Repetition::Each { item, .. }
        | Repetition::Again { item, .. } => item,
    }
}

/// The place behind a token that is to stand here, if one is to.
fn expect_optional(tokens: &Tokens, at: u32, word: Option<TokenKind>) -> Result<u32, Stop>
    requires { length tokens.now.tokens < 2 ^ 32 }
    ensures { Meets (λ e. Some e) result (λ next. reader.words (kinds tokens.now.tokens) at (optional_word word) ≡ Some next) (λ e. (e ≡ Stop.Syntax) × (reader.words (kinds tokens.now.tokens) at (optional_word word) ≡ None)) }
{
    match word {
        Some(word) => expect(tokens, at, word),
        None => Ok(at),
    }
}

/// The place behind the words that end items.
pub fn closed(tokens: &Tokens, repetition: Repetition, at: u32) -> Result<u32, Stop>
    requires { length tokens.now.tokens < 2 ^ 32 }
    ensures { Meets (λ e. Some e) result (λ next. reader.words (kinds tokens.now.tokens) at (reader.closing (repeated repetition)) ≡ Some next)
        (λ e. (e ≡ Stop.Syntax) × (reader.words (kinds tokens.now.tokens) at (reader.closing (repeated repetition)) ≡ None)) }
{
    match repetition {
        Repetition::Lines { close, .. } => expect(tokens, at, close),
        Repetition::Each { close, .. } => expect_optional(tokens, at, close),
        Repetition::Open { .. } | Repetition::Again { .. } => Ok(at),
    }
}

/// What stands behind an item.
pub fn following(tokens: &Tokens, repetition: Repetition, at: u32) -> Next
    requires { length tokens.now.tokens < 2 ^ 32 }
    ensures { result ≡ reader.next (kinds tokens.now.tokens) (repeated repetition) at }
{
    match repetition {
        Repetition::Lines {
            separator,
            close,
            ..
        } => {
            if is_at(tokens, at, separator) {
                Next::On(at + 1)
            } else if is_at(tokens, at, close) {
                Next::Done(at + 1)
            } else {
                Next::Wrong
            }
        }
        Repetition::Open { separator, .. } => {
            if is_at(tokens, at, separator) {
                Next::On(at + 1)
            } else if is_at(tokens, at, TokenKind::RightBrace) {
                Next::Done(at)
            } else {
                Next::Wrong
            }
        }
        Repetition::Each { separator, .. } => match expect_optional(tokens, at, separator) {
            Ok(next) => Next::On(next),
            Err(_) => Next::Wrong,
        },
        Repetition::Again { .. } => Next::On(at),
    }
}
