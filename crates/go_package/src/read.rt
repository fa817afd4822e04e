//! The files of a package, read one after the other.

ghost use Rattle.std.specs.Prelude.{◌≡◌, ℕ, ◌≤◌, length, map, slice_get, Some};
ghost use Rattle.go_base.specs.Gives.{Meets};
ghost use Rattle.go_base.specs.Package.{IsPackage};
ghost use Rattle.go_base.specs.declared.bytes.FileText.{FileText as Text};
ghost use Rattle.go_tokens.specs.Encoding.{IsEncodingFault};
ghost use Rattle.go_scopes.specs.Views.{failure_of};
ghost use Rattle.go_package_defs.specs.Checked.{AreRead};
ghost use Rattle.go_package_defs.specs.Refusals.{check_refusal};
ghost use Rattle.go_package.specs.Reading.{is_encoding, IsLexedOr, AreLexed, AreParsed, IsFileFault, IsUnlexed, IsUnparsed};

use go_base::{Fault, FaultCode, FileText};
use go_package_defs::CheckError;
use go_parse::{ParseError, parse};
use go_tokens::error::LexError;
use go_tokens::laws::{one_fault, one_lexing};
use go_tokens::lex::lex;
use go_tokens::tokens::Tokens;
use go_tree::file::File;
use std::alloc::Global;

fn is_encoding(code: FaultCode) -> bool
    ensures { result ≡ is_encoding code }
{
    matches!(code, FaultCode::Encoding)
}

/// The tokens of a file, or the fault of its tokens.
///
/// # Errors
///
/// The fault of its encoding; or want of memory.
fn tokens_of(
    alloc: Global,
    number: u32,
    text: &FileText,
) -> Result<Result<Tokens, Fault>, CheckError>
    requires { length text.now.bytes ≤ 1048576 }
    ensures { Meets check_refusal result (IsLexedOr number text.now) (IsEncodingFault number text.now.bytes) }
{
    one_fault();
    match lex(alloc, number, text.bytes.as_slice()) {
        Ok(tokens) => Ok(Ok(tokens)),
        Err(LexError::Memory) => Err(CheckError::Memory),
        Err(LexError::Fault(fault)) if is_encoding(fault.code) => { Err(CheckError::Fault(fault)) }
        Err(LexError::Fault(fault)) => Ok(Err(fault)),
    }
}

/// The tokens of all files.
///
/// # Errors
///
/// The first fault of an encoding; where there is none, the first one of tokens; or want of memory.
fn lex_files(alloc: Global, texts: &[FileText]) -> Result<Vec<Tokens>, CheckError>
    requires few { length texts.now ≤ 256 }
    requires small { (n : ℕ) (x : Text) → slice_get texts.now n ≡ Some x → length x.bytes ≤ 1048576 }
    ensures { Meets check_refusal result (λ v. AreLexed texts.now v.items) (λ f. IsUnlexed texts.now (failure_of f)) }
{
    one_fault();
    let mut files = Vec::new(alloc);
    let mut later = None;
    let mut number: u32 = 0;
    for text in texts {
        match tokens_of(alloc, number, text)? {
            Ok(tokens) => files.push(tokens)?,
            Err(fault) => later = later.or(Some(fault)),
        }
        number += 1;
    }
    match later {
        Some(fault) => Err(CheckError::Fault(fault)),
        None => Ok(files),
    }
}

/// The trees of all files.
///
/// # Errors
///
/// The fault of the first file that has no tree; or want of memory.
fn parse_files(alloc: Global, files: &[Tokens]) -> Result<Vec<File>, CheckError>
    ensures { Meets check_refusal result (λ v. AreParsed files.now v.items) (IsUnparsed files.now) }
{
    let mut trees = Vec::new(alloc);
    for tokens in files {
        match parse(alloc, tokens) {
            Ok(file) => trees.push(file)?,
            Err(ParseError::Fault(fault)) => return Err(CheckError::Fault(fault)),
            Err(ParseError::Memory) => return Err(CheckError::Memory),
        }
    }
    Ok(trees)
}

/// The files of a package with their tokens and trees. A file has its place among them, from 0, as its number.
///
/// # Errors
///
/// The fault that is reported of the package, where a file has one by itself: that of the first file with a fault of its encoding
/// (Go specification, "Source code representation"); where none has, of its tokens ("Lexical elements"); where none has, of the
/// first one without a tree. Or want of memory.
pub fn read_files(alloc: Global, texts: &[FileText]) -> Result<Vec<File>, CheckError>
    requires { IsPackage texts.now }
    ensures { Meets check_refusal result (λ v. AreRead 0 texts.now v.items) (λ f. IsFileFault texts.now (failure_of f)) }
{
    one_lexing();
    one_fault();
    let tokens = lex_files(alloc, texts)?;
    parse_files(alloc, &tokens)
}
