//! Names for the parameters that stand in place of constants.

ghost use Rattle.std.specs.Prelude.{◌≡◌, ◌||◌, ◌++◌, ℕ, List, IfOk, IfSome, OnOk};
ghost use Rattle.std.specs.Borrow.{Bor};
ghost use Rattle.std.specs.HashSet as set;
ghost use Rattle.escape_check.specs.Names.{names_file};
ghost use Rattle.escape_check.specs.Places.{Sources, sources_in};
ghost use Rattle.escape_check.specs.Texts.{same_bytes};
ghost use Rattle.extract_texts.specs.Fresh as specs;
ghost use Rattle.extract_texts.specs.Shown.{AreIdentifiers};

use escape_check::used::{is_identifier, is_keyword, is_predeclared};
use go_base::{Bytes, Memory};
use go_scopes_lookup::unit::same;
use go_tree::file::File;
use go_typed::checked::Checked;
use std::alloc::{AllocError, Global};
use std::collections::HashSet;

/// The first so many of the names `p0`, `p1` and so on, leaving out each that is an identifier token of the package, the name of the
/// new function, a keyword or predeclared (Go specification: Identifiers, Keywords, Predeclared identifiers).
///
/// Each token of the package is looked at once.
///
/// # Errors
///
/// Want of memory.
pub fn fresh_names(
    alloc: Global,
    checked: &Checked,
    name: &[u8],
    count: usize,
) -> Result<Vec<Bytes>, Memory>
    ensures { IfOk result (λ v. v.items ≡ specs.fresh_names (sources_in checked.now) name.now count) }
{
    let identifiers = identifiers_of(alloc, checked.files())?;
    let Some(room) = room_for(checked.files(), count) else {
        return Err(Memory);
    };
    let mut names = Vec::new(alloc);
    for number in 0..room {
        if names.len() == count {
            return Ok(names);
        }
        push_unused(alloc, &identifiers, name, number, &mut names)?;
    }
    Ok(names)
}

/// How many names are looked at, if that is a number of 64 bits: as many as are wanted, and as can be used.
fn room_for(files: &[File], count: usize) -> Option<u64>
    ensures { IfSome result (λ n. n ≡ specs.room_for files.now count) }
{
    let mut tokens: u64 = 1;
    for file in files {
        match tokens.checked_add(u64::from(file.count())) {
            Some(sum) => tokens = sum,
            None => return None,
        }
    }
    tokens.checked_add(count as u64)
}

/// Puts the name of a number behind the others, unless it is used. The set has the identifier tokens of a package.
fn push_unused(
    alloc: Global,
    identifiers: &HashSet<&[u8]>,
    name: &[u8],
    number: u64,
    names: &mut Vec<Bytes>,
) -> Result<(), AllocError>
    ensures { (s : Sources) → AreIdentifiers identifiers.now s → OnOk result (names.new.items ≡ names.old.items ++ specs.unused_one (specs.is_used s name.now) number) }
{
    let candidate = numbered_name(alloc, number)?;
    if !is_used(identifiers, name, candidate.as_slice()) {
        names.push(candidate)?;
    }
    Ok(())
}

/// `p` and a number.
fn numbered_name(alloc: Global, number: u64) -> Result<Bytes, AllocError>
    ensures { IfOk result (λ text. text ≡ specs.numbered_name number) }
{
    let mut text = Vec::new(alloc);
    text.push(b'p')?;
    text.extend_from_slice(number.to_string(alloc)?.as_bytes())?;
    Ok(Bytes::of(text))
}

/// Whether a text is an identifier token of the package, the name of the new function, a keyword or a predeclared name. The set has the
/// identifier tokens.
fn is_used(identifiers: &HashSet<&[u8]>, name: &[u8], text: &[u8]) -> bool
    ensures { (s : Sources) → AreIdentifiers identifiers.now s → result ≡ specs.is_used s name.now text.now }
{
    identifiers.contains(&text) || same(text, name) || is_keyword(text) || is_predeclared(text)
}

/// The identifier tokens of the package.
fn identifiers_of<'a>(alloc: Global, files: &'a [File]) -> Result<HashSet<&'a [u8]>, AllocError>
    ensures { (s : Sources) → s.files ≡ files.entry.now → IfOk result (λ texts. AreIdentifiers texts s) }
{
    let mut identifiers = HashSet::new(alloc);
    for file in files {
        add_identifiers(file, &mut identifiers)?;
    }
    Ok(identifiers)
}

/// Adds the identifier tokens of a file.
fn add_identifiers<'a>(
    file: &'a File,
    identifiers: &mut HashSet<&'a [u8]>,
) -> Result<(), AllocError>
    ensures { (w : Bor (List ℕ)) → OnOk result (set.contains same_bytes identifiers.new w ≡ (set.contains same_bytes identifiers.old w || names_file w.now file.entry.now)) }
{
    let tokens = file.tokens();
    for number in 0..tokens.count() {
        let is_name = is_identifier(tokens.get(number).kind);
        if is_name {
            identifiers.insert(tokens.text(number))?;
        }
    }
    Ok(())
}
