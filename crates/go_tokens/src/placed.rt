//! Tokens of a file that is known.

ghost use Rattle.std.specs.Prelude.{◌≡◌, ℕ, ◌+◌, ◌<◌, ◌^◌};
ghost use Rattle.go_tokens.specs.Lexing.{token};
ghost use Rattle.go_tokens.specs.Rows.{in_file, length_of};

use crate::lexer::span;
use crate::token::{PlacedKind, Token, TokenKind};

impl PlacedKind {
    /// A token of so many bytes from a place on.
    pub fn new(kind: TokenKind, start: u32, length: u32) -> PlacedKind
        requires fits { start + length < 2 ^ 32 }
        requires short { length < 2 ^ 24 }
        ensures { (file : ℕ) → in_file file result ≡ token file kind start length }
    {
        PlacedKind {
            start,
            kind,
            high: (length / 65536) as u8,
            low: (length % 65536) as u16,
        }
    }

    /// How many bytes it has.
    fn length(self) -> u32
        ensures { result ≡ length_of self }
    {
        self.high as u32 * 65536 + self.low as u32
    }

    /// The token, in the file with this number.
    pub fn in_file(self, file: u32) -> Token
        ensures { result ≡ in_file file self }
    {
        Token {
            kind: self.kind,
            span: span(file, self.start, self.length()),
        }
    }
}
