//! The tokens and comments of a file.

ghost use Rattle.std.specs.Prelude.{◌≡◌, ℕ, ◌<◌, ◌≤◌, ◌^◌, IfOk, List, length, slice_get, slice_range, Some, count_by};
ghost use Rattle.std.specs.Option.{option_map};
ghost use Rattle.go_tokens.specs.Rows.{all_in_file};
ghost use Rattle.go_tokens.specs.Tokens.{TokenList, IsTokenList, are_between, text_of};

use crate::token::{PlacedKind, Token};
use go_base::Span;
use std::alloc::{AllocError, Global};
use std::marker::Model;

/// The tokens and comments of a file, with its text.
#[derive(Drop)]
pub struct Tokens {
    file: u32,
    bytes: Vec<u8>,
    tokens: Vec<PlacedKind>,
    comments: Vec<Span>,
}

impl Model for Tokens {
    ghost use Rattle.std.specs.Prelude.{};
    ghost use Rattle.go_tokens.specs.Rows.{all_in_file};
    ghost use Rattle.go_tokens.specs.Tokens.{TokenList, IsTokenList};

    ghost Value = { TokenList };

    ghost view = { λ t. record { file = t.file; text = t.bytes.items; tokens = all_in_file t.file t.tokens.items; comments = t.comments.items } };

    ghost invariant = { λ t. IsTokenList (record { file = t.file; text = t.bytes.items; tokens = all_in_file t.file t.tokens.items; comments = t.comments.items }) };
}

impl Tokens {
    /// The tokens and comments of a file with these bytes.
    pub(crate) fn of(
        file: u32,
        bytes: Vec<u8>,
        tokens: Vec<PlacedKind>,
        comments: Vec<Span>,
    ) -> Tokens
        requires { IsTokenList (record { file = file; text = bytes.items; tokens = all_in_file file tokens.items; comments = comments.items }) }
        ensures { result ≡ record { file = file; text = bytes.items; tokens = all_in_file file tokens.items; comments = comments.items } }
    {
        Tokens {
            file,
            bytes,
            tokens,
            comments,
        }
    }

    /// A copy.
    ///
    /// # Errors
    ///
    /// Want of memory.
    pub fn copy(&self, alloc: Global) -> Result<Tokens, AllocError>
        ensures { IfOk result (λ copy. copy ≡ self.now) }
    {
        let mut bytes = Vec::new(alloc);
        bytes.extend_from_slice(&self.bytes)?;
        let mut tokens = Vec::new(alloc);
        tokens.extend_from_slice(&self.tokens)?;
        let mut comments = Vec::new(alloc);
        comments.extend_from_slice(&self.comments)?;
        Ok(Tokens::of(self.file, bytes, tokens, comments))
    }

    /// How many tokens there are.
    #[tactic(auto, using(crate::proofs::Rows::length_in_file))]
    pub fn count(&self) -> u32
        ensures count { result ≡ length self.now.tokens }
        ensures list { IsTokenList self.now }
    {
        self.tokens.len() as u32
    }

    /// The token of this number, from 0.
    #[tactic(auto, using(crate::proofs::Rows::length_in_file, crate::proofs::Rows::get_in_file))]
    pub fn get(&self, i: u32) -> Token
        requires { i < length self.now.tokens }
        ensures { slice_get self.now.tokens i ≡ Some result }
    {
        self.tokens[i as usize].in_file(self.file)
    }

    /// The bytes of a token; an inserted semicolon has none.
    pub fn text(&self, i: u32) -> &[u8]
        requires { i < length self.now.tokens }
        ensures { option_map (text_of self.now) (slice_get self.now.tokens i) ≡ Some result.now }
    {
        let span = self.get(i).span;
        part(&self.bytes, span.start, span.end)
    }

    /// The file's number.
    pub fn file(&self) -> u32
        ensures { result ≡ self.now.file }
    {
        self.file
    }

    /// How many bytes the file has.
    pub fn length(&self) -> u32
        ensures { result ≡ length self.now.text }
    {
        self.bytes.len() as u32
    }

    /// How many comments lie between two offsets.
    pub fn comments(&self, start: u32, end: u32) -> u32
        ensures { result ≡ count_by (are_between start end) self.now.comments }
    {
        self.comments
            .iter()
            .filter(|comment| start <= comment.start && comment.end <= end)
            .count() as u32
    }
}

/// The bytes between two offsets.
fn part(bytes: &[u8], start: u32, end: u32) -> &[u8]
    requires forward { start ≤ end }
    requires inside { end ≤ length bytes.now }
    ensures { result.now ≡ slice_range bytes.now start end }
{
    &bytes[start as usize..end as usize]
}
