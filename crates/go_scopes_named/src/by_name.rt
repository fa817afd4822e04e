//! What any name means at any place of a package.

ghost use Rattle.std.specs.Prelude.{◌≡◌, ◌∷◌, ◌++◌, ℕ, List, [], None, IfOk, OnOk, map};
ghost use Rattle.std.specs.Option.{option_map, option_copied};
ghost use Rattle.go_tree.specs.Meanings.{meaning_at};
ghost use Rattle.go_tree.specs.Objects.{object_at};
ghost use Rattle.go_tree.specs.Meanings as meanings;
ghost use Rattle.go_scopes_events.specs.Scopes.{locals_of, AreNested};
ghost use Rattle.go_scopes_named.specs.Changes.{AreAscending, AreChanges};
ghost use Rattle.go_scopes_named.specs.Named.{KnowsNamed, NestsIn, IsNamed, all_meanings, named_locals, local_meaning, reached_meaning};
ghost use Rattle.go_scopes_named.specs.Segments.{AreSegments, segments_of};
ghost use Rattle.go_scopes_lookup.specs.Views.{entry_view, meaning_view};

use crate::segments::{Segment, add, beginnings, or_none, said};
use go_base::Memory;
use go_scopes_lookup::meaning::{Entry, Meaning, meanings, object_by};
use go_scopes_lookup::sorted::{Sorted, by_block};
use go_scopes_lookup::unit::is_blank;
use go_tree::object::{Extent, Object};
use std::alloc::{AllocError, Global};
use std::collections::HashMap;

/// Where the local meaning of each name of each file changes.
type NamedLocals<'a> = HashMap<(u32, &'a [u8]), Vec<Segment<'a>>>;

/// The meanings of a package by their names.
#[derive(Drop)]
pub struct Named<'a> {
    sorted: Sorted<'a>,
    locals: NamedLocals<'a>,
}

/// Puts a local meaning behind those of its name in its file.
fn add_local<'a>(
    alloc: Global,
    locals: &mut NamedLocals<'a>,
    meaning: &Meaning<'a>,
) -> Result<(), AllocError>
    ensures { OnOk result ((ms : List meanings.Meaning) → NestsIn ms (meaning_view meaning.now) → KnowsNamed locals.old ms → KnowsNamed locals.new (ms ++ meaning_view meaning.now ∷ [])) }
{
    if let Extent::Between { file, scope } = meaning.entry.extent {
        let key = (file, meaning.entry.name);
        let mut own = or_none(alloc, locals.remove(&key));
        add(&mut own, scope, meaning)?;
        locals.insert(key, own)?;
    }
    Ok(())
}

/// The segments by file and name.
fn locals<'a>(alloc: Global, all: &[Meaning<'a>]) -> Result<NamedLocals<'a>, AllocError>
    requires { (n : ℕ) → AreNested (locals_of n (map meaning_view all.now)) }
    ensures { IfOk result (λ m. KnowsNamed m (map meaning_view all.now)) }
{
    let mut locals = HashMap::new(alloc);
    for meaning in all {
        add_local(alloc, &mut locals, meaning)?;
    }
    Ok(locals)
}

/// The meanings of a package with these entries, by their names.
///
/// # Errors
///
/// Want of memory.
pub fn by_name<'a>(alloc: Global, entries: &'a [Entry<'a>]) -> Result<Named<'a>, Memory>
    requires nested { (n : ℕ) → AreNested (locals_of n (map entry_view entries.now)) }
    ensures named { IfOk result (λ x. IsNamed x) }
    ensures meanings { IfOk result (λ x. all_meanings x ≡ map entry_view entries.entry.now) }
{
    let sorted = by_block(alloc, meanings(alloc, entries)?)?;
    let locals = locals(alloc, &sorted.all)?;
    Ok(Named { sorted, locals })
}

impl<'a> Named<'a> {
    /// The segments of the name in the file, if it has a local one.
    fn segments_of(&self, file: u32, name: &'a [u8]) -> Option<&Vec<Segment<'a>>>
        requires { IsNamed self.now }
        ensures { AreSegments file (segments_of (option_copied result)) (named_locals file name.entry.now (all_meanings self.now)) }
    {
        self.locals.get(&(file, name))
    }

    /// The tokens of the file at which the meaning of the name may change, in order: at most two for each declaration of the name there.
    ///
    /// # Errors
    ///
    /// Want of memory.
    pub fn changes(&self, alloc: Global, file: u32, name: &'a [u8]) -> Result<Vec<u32>, AllocError>
        requires { IsNamed self.now }
        ensures order { IfOk result (λ v. AreAscending v.items) }
        ensures changes { IfOk result (λ v. AreChanges file name.entry.now (all_meanings self.now) v.items) }
    {
        match self.segments_of(file, name) {
            None => Ok(Vec::new(alloc)),
            Some(segments) => beginnings(alloc, segments),
        }
    }

    /// The innermost local meaning of the name at the token of the file.
    fn local_at(&self, file: u32, token: u32, name: &'a [u8]) -> Option<Meaning<'a>>
        requires { IsNamed self.now }
        ensures { option_map meaning_view result ≡ local_meaning file token name.entry.now (all_meanings self.now) }
    {
        match self.segments_of(file, name) {
            None => None,
            Some(segments) => said(segments, token),
        }
    }

    /// The innermost local meaning of the name, else that of the import, else that of the package.
    fn reached(&self, file: u32, token: u32, name: &'a [u8]) -> Option<Meaning<'a>>
        requires { IsNamed self.now }
        ensures { option_map meaning_view result ≡ reached_meaning file token name.entry.now (all_meanings self.now) }
    {
        if let Some(meaning) = self.local_at(file, token, name) {
            return Some(meaning);
        }
        if let Some(meaning) = self.sorted.find_outer(Some(file), name) {
            return Some(meaning);
        }
        self.sorted.find_outer(None, name)
    }

    /// The declared or imported meaning of the name at the token of the file (Go specification: Declarations and scope).
    ///
    /// It looks the name up in maps, and the token by binary search among the places of that file where the name's local meaning changes.
    pub fn meaning_at(&self, file: u32, token: u32, name: &'a [u8]) -> Option<Meaning<'a>>
        requires { IsNamed self.now }
        ensures { option_map meaning_view result ≡ meaning_at (all_meanings self.now) file token name.entry.now }
    {
        self.reached(file, token, name)
    }

    /// What the name means at the token of the file, each counted from 0, whether or not it stands there: its object, a
    /// predeclared one too. The blank identifier means nothing.
    pub fn object_at(&self, file: u32, token: u32, name: &'a [u8]) -> Option<Object>
        requires { IsNamed self.now }
        ensures { result ≡ object_at (all_meanings self.now) file token name.entry.now }
    {
        if is_blank(name) {
            return None;
        }
        object_by(name, self.meaning_at(file, token, name))
    }
}
