//! Which pieces are well formed, and what tokens they are.

ghost use Rattle.std.specs.Prelude.{◌≡◌, ◌==◌};
ghost use Rattle.std.specs.List.{list_any};
ghost use Rattle.go_tokens.specs.Characters.{is_exponent, is_power};
ghost use Rattle.go_tokens.specs.Pieces.{unless_lexical, if_outside, ends_in_i, is_other_number, number_defect, defect_by};
ghost use Rattle.go_tokens.specs.Lexing.{token_kind_as, is_break_as};

use crate::character::{is_exponent, is_power};
use crate::literal::{are_elements, inside, is_element, is_integer};
use crate::piece::PieceKind;
use crate::spelling::{is_outside, is_outside_operator, operator_kind, word_kind};
use crate::token::TokenKind;
use go_base::FaultCode;

/// What is wrong with a piece, where it is known whether it is ended.
pub fn defect(kind: PieceKind, is_ended: bool, text: &[char]) -> Option<FaultCode>
    ensures { result ≡ defect_by kind is_ended text.now }
{
    match kind {
        PieceKind::White | PieceKind::LineComment => None,
        PieceKind::BlockComment | PieceKind::RawText => unless_lexical(is_ended),
        PieceKind::Word => if_outside(is_outside(word_kind(text))),
        PieceKind::Number => number_defect(has_exponent(text), text),
        PieceKind::HexNumber => number_defect(has_power(text), text),
        PieceKind::Rune => unless_lexical(is_ended && is_element(inside(text))),
        PieceKind::Text => unless_lexical(is_ended && are_elements(inside(text))),
        PieceKind::Operator => if_outside(is_outside_operator(text)),
        PieceKind::Stray => Some(FaultCode::Lexical),
    }
}

fn unless_lexical(well_formed: bool) -> Option<FaultCode>
    ensures { result ≡ unless_lexical well_formed }
{
    (!well_formed).then_some(FaultCode::Lexical)
}

fn if_outside(outside: bool) -> Option<FaultCode>
    ensures { result ≡ if_outside outside }
{
    outside.then_some(FaultCode::Outside)
}

/// What is wrong with the run of a number, where it is known whether it has an exponent.
fn number_defect(has_exponent: bool, run: &[char]) -> Option<FaultCode>
    ensures { result ≡ number_defect has_exponent run.now }
{
    if is_integer(run) {
        None
    } else if has_exponent || ends_in_i(run) || has_point(run) {
        Some(FaultCode::Outside)
    } else {
        Some(FaultCode::Lexical)
    }
}

fn has_exponent(run: &[char]) -> bool
    ensures { result ≡ list_any is_exponent run.now }
{
    run.iter().any(|c| is_exponent(*c))
}

fn has_power(run: &[char]) -> bool
    ensures { result ≡ list_any is_power run.now }
{
    run.iter().any(|c| is_power(*c))
}

fn has_point(run: &[char]) -> bool
    ensures { result ≡ list_any (λ x. x == 46) run.now }
{
    run.iter().any(|c| *c == '.')
}

/// Whether the last character is the imaginary unit.
fn ends_in_i(run: &[char]) -> bool
    ensures { result ≡ ends_in_i run.now }
{
    run.last().is_some_and(|c| *c == 'i')
}

/// What token a piece is.
pub fn token_kind(kind: PieceKind, text: &[char]) -> TokenKind
    ensures { result ≡ token_kind_as kind text.now }
{
    match kind {
        PieceKind::Word => word_kind(text),
        PieceKind::Number | PieceKind::HexNumber => TokenKind::Integer,
        PieceKind::Rune => TokenKind::Rune,
        PieceKind::Text | PieceKind::RawText => TokenKind::Text,
        PieceKind::Operator => operator_kind(text),
        PieceKind::White | PieceKind::LineComment | PieceKind::BlockComment | PieceKind::Stray => {
            TokenKind::Semicolon
        }
    }
}

/// Whether white space or a comment acts like a newline.
pub fn is_break(kind: PieceKind, text: &[char]) -> bool
    ensures { result ≡ is_break_as kind text.now }
{
    match kind {
        PieceKind::LineComment => true,
        PieceKind::White
        | PieceKind::BlockComment
        | PieceKind::Word
        | PieceKind::Number
        | PieceKind::HexNumber
        | PieceKind::Rune => has_newline(text),
        PieceKind::Text | PieceKind::RawText | PieceKind::Operator | PieceKind::Stray => {
            has_newline(text)
        }
    }
}

fn has_newline(text: &[char]) -> bool
    ensures { result ≡ list_any (λ x. x == 10) text.now }
{
    text.iter().any(|c| *c == '\n')
}
