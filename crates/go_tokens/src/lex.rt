//! The tokens of a file.

ghost use Rattle.std.specs.Prelude.{◌≡◌, ◌≤◌, ℕ, List, length};
ghost use Rattle.go_base.specs.Gives.{Meets};
ghost use Rattle.go_base.specs.declared.Span.{Span};
ghost use Rattle.go_base.specs.declared.Fault.{Fault};
ghost use Rattle.go_tokens.specs.declared.token.Token.{Token};
ghost use Rattle.go_tokens.specs.Tokens.{TokenList};
ghost use Rattle.go_tokens.specs.Files.{IsLexing, IsFault, lex_refusal};

use crate::encoding::decode;
use crate::error::LexError;
use crate::lexer::lex_text;
use crate::tokens::Tokens;
use std::alloc::Global;

/// The tokens and comments of a file, by its number and its bytes, of which there are at most 1,048,576.
///
/// # Errors
/// `Fault` where the encoding or a token of the file is at fault, `Memory` where memory ran out.
pub fn lex(alloc: Global, file: u32, bytes: &[u8]) -> Result<Tokens, LexError>
    requires { length bytes.now ≤ 1048576 }
    // What it answers is the lexing of the file, or its fault.
    ensures exact { Meets lex_refusal result (λ t. (t.file ≡ file) × (t.text ≡ bytes.now) × IsLexing file bytes.now t.tokens t.comments) (IsFault file bytes.now) }
    // Where there is a lexing, it answers that one, unless memory ran out.
    ensures lexing { (ts : List Token) (cs : List Span) → IsLexing file bytes.now ts cs → Meets lex_refusal result (λ t. t ≡ record { file = file; text = bytes.now; tokens = ts; comments = cs }) (λ _. ⊥) }
    // Where there is a fault, it answers that one, unless memory ran out.
    ensures fault { (f : Fault) → IsFault file bytes.now f → Meets lex_refusal result (λ _. ⊥) (λ g. g ≡ f) }
{
    let text = decode(alloc, file, bytes)?;
    let lexer = lex_text(alloc, file, &text)?;
    let bytes = Vec::from_slice(alloc, bytes)?;
    Ok(Tokens::of(file, bytes, lexer.tokens, lexer.comments))
}
