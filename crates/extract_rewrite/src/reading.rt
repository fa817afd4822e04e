//! The files of a new package, and how many statements they have.

ghost use Rattle.std.specs.Prelude.{◌≡◌, ◌≤◌, length, slice_get, IfOk};
ghost use Rattle.std.specs.Option.{option_map};
ghost use Rattle.go_base.specs.Package.{IsPackage};
ghost use Rattle.go_package_defs.specs.Checked.{AreRead};
ghost use Rattle.extract_rewrite.specs.Reading.{AreCounted, IsCounted, IsReadOrNone, IsReadThere, Judges, statement_count};
ghost use Rattle.go_tokens.specs.Spellings.{same_text};
ghost use Rattle.go_tree.specs.Branches.{statements};

use crate::size::sum;
use go_base::{FileText, Memory};
use go_parse::{ParseError, parse};
use go_scopes_events::walk::events;
use go_scopes_lookup::unit::same;
use go_tokens::error::LexError;
use go_tokens::lex::lex;
use go_tree::event::Event;
use go_tree::file::File;
use std::alloc::Global;

/// The most statements that a package has in all its statement lists.
const MOST_STATEMENTS: u64 = 65_536;

/// Whether each file of a package has tokens and a tree within the limit of levels, and they have no more statements than a package may
/// have. The package has these texts and had others, whose files are these; only those files are read that have other bytes now.
///
/// # Errors
///
/// Want of memory; also where there are more statements than numbers.
pub(crate) fn are_within_limits(
    alloc: Global,
    files: &[File],
    before: &[FileText],
    after: &[FileText],
) -> Result<bool, Memory>
    requires read { AreRead 0 before.now files.now }
    requires package { IsPackage after.now }
    ensures { IfOk result (λ b. Judges b after.now) }
{
    match all_statements(alloc, files, before, after)? {
        Some(count) => Ok(count <= MOST_STATEMENTS),
        None => Ok(false),
    }
}

/// How many statements the files have all together; none where one of them has no tree.
fn all_statements(
    alloc: Global,
    files: &[File],
    before: &[FileText],
    after: &[FileText],
) -> Result<Option<u64>, Memory>
    requires read { AreRead 0 before.now files.now }
    requires package { IsPackage after.now }
    ensures { IfOk result (AreCounted after.now) }
{
    let mut total: u64 = 0;
    for (number, text) in after.iter().enumerate() {
        let file = file_at(files, number);
        let old = text_at(before, number);
        match file_statements(alloc, number as u32, file, old, text)? {
            Some(count) => total = sum(total, count)?,
            None => return Ok(None),
        }
    }
    Ok(Some(total))
}

/// How many statements a file has; none where it has no tree. Its text was another one, of this file, if there was one.
fn file_statements(
    alloc: Global,
    number: u32,
    file: Option<&File>,
    before: Option<&FileText>,
    text: &FileText,
) -> Result<Option<u64>, Memory>
    requires read { IsReadThere number (option_map (λ x. x.now) before) (option_map (λ f. f.now) file) }
    requires small { length text.now.bytes ≤ 1048576 }
    ensures { IfOk result (IsCounted number text.now) }
{
    match (file, before) {
        (Some(file), Some(before)) if have_same_bytes(before, text) => {
            Ok(Some(statements_of(alloc, number, file)?))
        }
        _ => read_statements(alloc, number, text),
    }
}

/// Whether two texts have the same bytes.
fn have_same_bytes(text: &FileText, other: &FileText) -> bool
    ensures { result ≡ same_text text.now.bytes other.now.bytes }
{
    same(text.bytes.as_slice(), other.bytes.as_slice())
}

/// The file of this number, if there are so many.
fn file_at(files: &[File], number: usize) -> Option<&File>
    ensures { slice_get files.now number ≡ option_map (λ f. f.now) result }
{
    files.get(number)
}

/// The text of this number, if there are so many.
fn text_at(texts: &[FileText], number: usize) -> Option<&FileText>
    ensures { slice_get texts.now number ≡ option_map (λ x. x.now) result }
{
    texts.get(number)
}

/// The same of a file that is read anew.
fn read_statements(alloc: Global, number: u32, text: &FileText) -> Result<Option<u64>, Memory>
    requires { length text.now.bytes ≤ 1048576 }
    ensures { IfOk result (IsCounted number text.now) }
{
    match file_of(alloc, number, text)? {
        Some(file) => Ok(Some(statements_of(alloc, number, &file)?)),
        None => Ok(None),
    }
}

/// The file of a text, if it has tokens and a tree within the limit of levels.
fn file_of(alloc: Global, number: u32, text: &FileText) -> Result<Option<File>, Memory>
    requires { length text.now.bytes ≤ 1048576 }
    ensures { IfOk result (IsReadOrNone number text.now) }
{
    let tokens = match lex(alloc, number, text.bytes.as_slice()) {
        Ok(tokens) => tokens,
        Err(LexError::Fault(_)) => return Ok(None),
        Err(LexError::Memory) => return Err(Memory),
    };
    match parse(alloc, &tokens) {
        Ok(file) => Ok(Some(file)),
        Err(ParseError::Fault(_)) => Ok(None),
        Err(ParseError::Memory) => Err(Memory),
    }
}

/// How many statements a file has in its statement lists.
fn statements_of(alloc: Global, number: u32, file: &File) -> Result<u64, Memory>
    ensures { IfOk result (λ n. n ≡ statement_count number file.now) }
{
    let told = events(alloc, file.root())?;
    Ok(statements_among(number, file, &told))
}

/// How many of the events of a file are statements.
fn statements_among(number: u32, file: &File, told: &[Event]) -> u64
    ensures { result ≡ length (statements number file.now.tokens told.now) }
{
    let mut count: u64 = 0;
    for event in told {
        if let Event::Statement { .. } = event {
            count += 1;
        }
    }
    count
}
