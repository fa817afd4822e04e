//! The piece that begins a text.

ghost use Rattle.std.specs.Prelude.{◌≡◌, ◌<◌, ◌∷◌, [], length, drop, Some};
ghost use Rattle.go_tokens.specs.Pieces.{begun, goes, begins, is_end, front, Reaches, IsOperatorLength};
ghost use Rattle.go_tokens.specs.Lexing.{IsFirst};

use crate::character::{
    is_digit, is_exponent, is_in_run, is_in_word, is_letter, is_power, is_sign, is_white, is_x,
};
use crate::piece::{Mode, PieceKind};
use crate::spelling::{is_operator, is_single};

#[tactic(auto, unfolding(crate::specs::Pieces::begun_by))]
fn begun(c: char, next: char) -> PieceKind
    ensures { result ≡ begun c next }
{
    if c == '/' && next == '/' {
        PieceKind::LineComment
    } else if c == '/' && next == '*' {
        PieceKind::BlockComment
    } else if c == '0' && is_x(next) {
        PieceKind::HexNumber
    } else if c == '\'' {
        PieceKind::Rune
    } else if c == '"' {
        PieceKind::Text
    } else if c == '`' {
        PieceKind::RawText
    } else if is_white(c) {
        PieceKind::White
    } else if is_letter(c) {
        PieceKind::Word
    } else if is_digit(c) || c == '.' && is_digit(next) {
        PieceKind::Number
    } else if is_single(c) {
        PieceKind::Operator
    } else {
        PieceKind::Stray
    }
}

/// Where a piece is behind its first character.
fn begins(kind: PieceKind) -> Mode
    ensures { result ≡ begins kind }
{
    match kind {
        PieceKind::LineComment => Mode::InLine,
        PieceKind::BlockComment => Mode::Opened,
        PieceKind::Word => Mode::InWord,
        PieceKind::Number => Mode::InRun(false),
        PieceKind::HexNumber => Mode::InHexRun(false),
        PieceKind::Rune => Mode::InRune,
        PieceKind::Text => Mode::InText,
        PieceKind::RawText => Mode::InRaw,
        PieceKind::White | PieceKind::Operator | PieceKind::Stray => Mode::Whole,
    }
}

/// Where a piece is one character on, where that character is part of it.
#[tactic(auto, unfolding(crate::specs::Pieces::goes))]
fn goes(mode: Mode, c: char) -> Option<Mode>
    ensures { result ≡ goes mode c }
{
    match mode {
        Mode::InLine => (c != '\n').then_some(Mode::InLine),
        Mode::Opened => Some(Mode::InBlock),
        Mode::InBlock if c == '*' => Some(Mode::AfterStar),
        Mode::InBlock => Some(Mode::InBlock),
        Mode::AfterStar if c == '/' => Some(Mode::Whole),
        Mode::AfterStar if c == '*' => Some(Mode::AfterStar),
        Mode::AfterStar => Some(Mode::InBlock),
        Mode::InWord => is_in_word(c).then_some(Mode::InWord),
        Mode::InRun(_) if is_in_run(c) => Some(Mode::InRun(is_exponent(c))),
        Mode::InRun(exponent) => (exponent && is_sign(c)).then_some(Mode::InRun(false)),
        Mode::InHexRun(_) if is_in_run(c) => Some(Mode::InHexRun(is_power(c))),
        Mode::InHexRun(exponent) => (exponent && is_sign(c)).then_some(Mode::InHexRun(false)),
        Mode::InRune if c == '\n' => None,
        Mode::InRune if c == '\'' => Some(Mode::Whole),
        Mode::InRune if c == '\\' => Some(Mode::AfterRuneSlash),
        Mode::InRune => Some(Mode::InRune),
        Mode::AfterRuneSlash => (c != '\n').then_some(Mode::InRune),
        Mode::InText if c == '\n' => None,
        Mode::InText if c == '"' => Some(Mode::Whole),
        Mode::InText if c == '\\' => Some(Mode::AfterSlash),
        Mode::InText => Some(Mode::InText),
        Mode::AfterSlash => (c != '\n').then_some(Mode::InText),
        Mode::InRaw if c == '`' => Some(Mode::Whole),
        Mode::InRaw => Some(Mode::InRaw),
        Mode::Whole => None,
    }
}

/// How far a piece goes on, and where it is then.
#[derive(Clone, Copy, Debug)]
pub struct Extent {
    pub length: usize,
    pub mode: Mode,
}

fn reach(begin: Mode, text: &[char]) -> Extent
    ensures { Reaches begin text.now result.length result.mode }
{
    let mut mode = begin;
    for (i, c) in text.iter().enumerate() {
        match goes(mode, *c) {
            Some(next) => mode = next,
            None => return Extent { length: i, mode },
        }
    }
    Extent {
        length: text.len(),
        mode,
    }
}

/// The first piece of a text.
#[derive(Clone, Copy, Debug)]
pub struct Piece {
    pub kind: PieceKind,
    pub length: usize,
    /// Whether it is a comment or a literal that is ended.
    pub is_ended: bool,
}

/// Whether a piece that is in this mode is at its end.
fn is_end(mode: Mode) -> bool
    ensures { result ≡ is_end (Some mode) }
{
    matches!(mode, Mode::Whole)
}

/// The first piece of a text that is not empty.
pub fn first_piece(text: &[char]) -> Piece
    requires { 0 < length text.now }
    ensures { IsFirst text.now result.kind result.length result.is_ended }
{
    match begun(text[0], second(text)) {
        PieceKind::Operator => Piece {
            kind: PieceKind::Operator,
            length: operator_length(text),
            is_ended: true,
        },
        kind => {
            let extent = reach(begins(kind), &text[1..]);
            Piece {
                kind,
                length: extent.length + 1,
                is_ended: is_end(extent.mode),
            }
        }
    }
}

/// The second character, or 0 where there is none.
fn second(text: &[char]) -> char
    ensures { result ≡ front (drop 1 text.now) }
{
    if text.len() > 1 { text[1] } else { '\0' }
}

/// The length of the longest operator that a text begins with, where its first character is one.
fn operator_length(text: &[char]) -> usize
    requires { 0 < length text.now }
    ensures { IsOperatorLength text.now result }
{
    if text.len() >= 3 && is_operator(&text[..3]) {
        3
    } else if text.len() >= 2 && is_operator(&text[..2]) {
        2
    } else {
        1
    }
}
