//! The lexer: one piece after the other.

ghost use Rattle.std.specs.Prelude.{◌≡◌, [], ◌+◌, ◌<◌, ◌≤◌, ◌^◌, None, OnOk};
ghost use Rattle.go_base.specs.Gives.{Meets};
ghost use Rattle.go_tokens.specs.Pieces.{kind as kind_of};
ghost use Rattle.go_tokens.specs.Lexing.{width, span, Lexes, IsTokenFault, covered};
ghost use Rattle.go_tokens.specs.Files.{lex_refusal};
ghost use Rattle.go_tokens.specs.Rows.{all_in_file};
ghost use Rattle.go_tokens.specs.Progress.{state, taken, line_ended};

use crate::error::LexError;
use crate::judge::{defect, is_break, token_kind};
use crate::piece::PieceKind;
use crate::scan::first_piece;
use crate::spelling::ends_statement;
use crate::token::{PlacedKind, TokenKind};
use go_base::{Fault, FaultCode, Span};
use std::alloc::{AllocError, Global};

/// The tokens and comments of a text, so far.
#[derive(Drop)]
pub struct Lexer {
    file: u32,
    pub tokens: Vec<PlacedKind>,
    pub comments: Vec<Span>,
    /// The end of the last token, where a semicolon follows it if its line ends.
    pending: Option<u32>,
}

#[tactic(auto, unfolding(crate::specs::Lexing::span))]
pub fn span(file: u32, start: u32, length: u32) -> Span
    requires { start + length < 2 ^ 32 }
    ensures { result ≡ span file start length }
{
    Span {
        file,
        start,
        end: start + length,
    }
}

impl Lexer {
    fn new(alloc: Global, file: u32) -> Lexer
        ensures state { state result ≡ record { tokens = []; comments = []; pending = None } }
        ensures file { result.file ≡ file }
    {
        Lexer {
            file,
            tokens: Vec::new(alloc),
            comments: Vec::new(alloc),
            pending: None,
        }
    }

    /// Takes the next piece of a text, which begins at a place.
    #[tactic(auto, using(crate::proofs::Rows::push_in_file))]
    fn take(&mut self, at: u32, kind: PieceKind, text: &[char]) -> Result<(), AllocError>
        requires kind { kind ≡ kind_of text.now }
        requires fits { at + width text.now < 2 ^ 32 }
        requires short { width text.now < 2 ^ 24 }
        ensures state { OnOk result (state self.new ≡ taken self.old.file at text.now (state self.old)) }
        ensures file { self.new.file ≡ self.old.file }
    {
        let length = width(text);
        match kind {
            PieceKind::White | PieceKind::LineComment | PieceKind::BlockComment => {
                if kind != PieceKind::White {
                    self.comments.push(span(self.file, at, length))?;
                }
                if is_break(kind, text) {
                    self.end_line()?;
                }
            }
            _ => {
                let token = token_kind(kind, text);
                self.tokens.push(PlacedKind::new(token, at, length))?;
                self.pending = ends_statement(token).then_some(at + length);
            }
        }
        Ok(())
    }

    /// Inserts the semicolon that is due where a line ends.
    #[tactic(auto, using(crate::proofs::Rows::push_in_file))]
    fn end_line(&mut self) -> Result<(), AllocError>
        ensures state { OnOk result (state self.new ≡ line_ended self.old.file (state self.old)) }
        ensures file { self.new.file ≡ self.old.file }
    {
        if let Some(end) = self.pending {
            self.tokens
                .push(PlacedKind::new(TokenKind::Semicolon, end, 0))?;
            self.pending = None;
        }
        Ok(())
    }
}

/// The tokens and comments of the characters of a file.
pub fn lex_text(alloc: Global, file: u32, text: &[char]) -> Result<Lexer, LexError>
    requires { width text.now < 2 ^ 24 }
    ensures exact { Meets lex_refusal result (λ lexer. Lexes file text.now (all_in_file file lexer.tokens.items) lexer.comments.items) (IsTokenFault file text.now) }
{
    let mut lexer = Lexer::new(alloc, file);
    let mut index = 0;
    let mut at = 0;
    while index < text.len() {
        let piece = first_piece(&text[index..]);
        let end = index + piece.length;
        let characters = &text[index..end];
        match defect(piece.kind, piece.is_ended, characters) {
            Some(code) => {
                return Err(LexError::Fault(Fault {
                    code,
                    span: span(file, at, covered(code, characters)),
                }));
            }
            None => lexer.take(at, piece.kind, characters)?,
        }
        at += width(characters);
        index = end;
    }
    lexer.end_line()?;
    lexer.tokens.shrink_to_fit();
    lexer.comments.shrink_to_fit();
    Ok(lexer)
}

/// How many bytes of a piece a fault covers.
fn covered(code: FaultCode, piece: &[char]) -> u32
    requires { width piece.now < 2 ^ 32 }
    ensures { result ≡ covered code piece.now }
{
    if code == FaultCode::Outside {
        width(piece)
    } else {
        1
    }
}

/// How many bytes characters have.
pub fn width(text: &[char]) -> u32
    requires { width text.now < 2 ^ 32 }
    ensures { result ≡ width text.now }
{
    let mut bytes = 0;
    for c in text {
        bytes += c.len_utf8() as u32;
    }
    bytes
}
