//! The table `lexing`: a name, a text in hexadecimal digits (`-` for none), and its tokens with their
//! spans, the values of its literals and the number of its comments, or its fault.

ghost use Rattle.std.specs.Prelude.{◌≤◌, length};

use case_tables::digits::bytes_of;
use case_tables::table::Table;
use go_base::Memory;
use go_tokens::error::LexError;
use go_tokens::lex::lex;
use go_tokens::token::TokenKind;
use go_tokens::tokens::Tokens;
use go_tokens::value::{integer_value, rune_value, string_value};
use std::alloc::Global;

/// The bytes of the longest text.
const LONGEST: usize = 1_048_576;

pub struct Lexing;

impl Table for Lexing {
    fn name(&self) -> &'static str {
        "lexing"
    }

    fn difference(&self, alloc: Global, fields: &[&str]) -> Result<Option<String>, Memory> {
        let [_, text, wanted] = fields else {
            return Ok(Some(String::from_str(alloc, "not three fields")?));
        };
        let bytes = bytes_of(alloc, text)?;
        if bytes.len() > LONGEST {
            return Ok(Some(String::from_str(alloc, "too long")?));
        }
        let got = answer(alloc, &bytes)?;
        let wanted = bounded(alloc, wanted)?;
        if got.as_str() == wanted.as_str() {
            Ok(None)
        } else {
            Ok(Some(got))
        }
    }
}

/// The tokens or the fault, as the table writes them.
fn answer(alloc: Global, bytes: &[u8]) -> Result<String, Memory>
    requires { length bytes.now ≤ 1048576 }
{
    match lex(alloc, 0, bytes) {
        Ok(tokens) => shown(alloc, &tokens),
        Err(LexError::Fault(fault)) => {
            let shown = format!(in alloc;
                "fault {} {}-{}",
                fault.code.number(),
                fault.span.start,
                fault.span.end
            )?;
            Ok(shown)
        }
        Err(LexError::Memory) => Err(Memory),
    }
}

fn shown(alloc: Global, tokens: &Tokens) -> Result<String, Memory> {
    let mut line = String::from_str(alloc, "tokens")?;
    if tokens.count() == 0 {
        line.push_str(" none")?;
    }
    for i in 0..tokens.count() {
        let token = tokens.get(i);
        let word = word(token.kind);
        let span = token.span;
        let value = value(alloc, token.kind, tokens.text(i))?;
        let shown = format!(in alloc; " {word}:{}-{}{value}", span.start, span.end)?;
        line.push_str(shown.as_str())?;
    }
    let comments = format!(in alloc; " comments {}", tokens.comments(0, tokens.length()))?;
    line.push_str(comments.as_str())?;
    Ok(line)
}

fn word(kind: TokenKind) -> &'static str {
    match kind {
        TokenKind::Identifier => "ident",
        TokenKind::Integer => "int",
        TokenKind::Rune => "rune",
        TokenKind::Text => "str",
        TokenKind::Break
        | TokenKind::Case
        | TokenKind::Const
        | TokenKind::Continue
        | TokenKind::Default
        | TokenKind::Else
        | TokenKind::Fallthrough
        | TokenKind::For
        | TokenKind::Func
        | TokenKind::If
        | TokenKind::Import
        | TokenKind::Package
        | TokenKind::Range
        | TokenKind::Return
        | TokenKind::Struct
        | TokenKind::Switch
        | TokenKind::Type
        | TokenKind::Var => "kw",
        _ => "op",
    }
}

/// The value of a literal behind `=`, as the table writes it: integers and runes in decimal, a string's
/// bytes in hexadecimal digits.
fn value(alloc: Global, kind: TokenKind, text: &[u8]) -> Result<String, Memory> {
    let shown = match kind {
        TokenKind::Integer => match integer_value(text) {
            Some(value) => format!(in alloc; "={value}")?,
            None => String::from_str(alloc, TOO_GREAT)?,
        },
        TokenKind::Rune => format!(in alloc; "={}", rune_value(text))?,
        TokenKind::Text => in_digits(alloc, &string_value(alloc, text)?)?,
        _ => String::new(alloc),
    };
    Ok(shown)
}

/// What stands for the value of an integer that is 2^127 or more.
const TOO_GREAT: &str = "=great";

fn in_digits(alloc: Global, bytes: &[u8]) -> Result<String, Memory> {
    let mut line = String::from_str(alloc, "=")?;
    for byte in bytes {
        let digits = format!(in alloc; "{byte:02x}")?;
        line.push_str(digits.as_str())?;
    }
    Ok(line)
}

/// What the table wants, where the value of an integer that is no `i128` is written as one.
fn bounded(alloc: Global, wanted: &str) -> Result<String, Memory> {
    let mut line = String::new(alloc);
    for (i, word) in wanted.split(' ').enumerate() {
        if i > 0 {
            line.push_str(" ")?;
        }
        match word.split_once('=') {
            Some((token, value)) if token.starts_with("int:") && value.parse::<i128>().is_err() => {
                line.push_str(token)?;
                line.push_str(TOO_GREAT)?;
            }
            _ => line.push_str(word)?,
        }
    }
    Ok(line)
}
