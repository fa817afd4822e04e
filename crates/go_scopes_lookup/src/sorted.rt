//! The meanings of a package by their blocks.

ghost use Rattle.std.specs.Prelude.{◌≡◌, List, [], ◌∷◌, ◌++◌, IfOk, OnOk, map};
ghost use Rattle.std.specs.Option.{option_map, option_copied};
ghost use Rattle.go_tree.specs.Meanings as meanings;
ghost use Rattle.go_scopes_events.specs.Scopes.{first_by, locals_of};
ghost use Rattle.go_scopes_lookup.specs.Views.{meaning_view};
ghost use Rattle.go_scopes_lookup.specs.Sorted.{outer_by, in_block, items_of, all_of, KnowsOuter, KnowsLocals, IsSorted};

use crate::meaning::Meaning;
use go_base::Memory;
use go_tree::object::Extent;
use indexmap::IndexMap;
use std::alloc::{AllocError, Global};
use std::collections::HashMap;

/// A name in the block of the package or in that of a file.
#[derive(Clone, Copy, Debug, PartialEq, Eq, Hash)]
struct Outer<'a> {
    /// The number of the file, if it isn't the block of the package.
    file: Option<u32>,
    name: &'a [u8],
}

/// The first meaning of each name in the block of the package and in those of the files.
type OuterNames<'a> = IndexMap<Outer<'a>, Meaning<'a>>;

/// The local meanings of each file, in order.
type Locals<'a> = HashMap<u32, Vec<Meaning<'a>>>;

/// The meanings of a package, in order and by their blocks.
#[derive(Drop)]
pub struct Sorted<'a> {
    pub all: Vec<Meaning<'a>>,
    outer: OuterNames<'a>,
    locals: Locals<'a>,
}

/// The name and the block of a meaning, if it isn't local.
fn outer_of<'a>(meaning: &Meaning<'a>) -> Option<Outer<'a>>
    ensures { result ≡ outer_by meaning.now meaning.now.entry.now.extent }
{
    match meaning.entry.extent {
        Extent::Everywhere => Some(Outer {
            file: None,
            name: meaning.entry.name,
        }),
        Extent::Throughout(file) => Some(Outer {
            file: Some(file),
            name: meaning.entry.name,
        }),
        Extent::Between { .. } => None,
    }
}

/// Notes a meaning that stands in front of those that were noted.
fn add_outer<'a>(outer: &mut OuterNames<'a>, meaning: &Meaning<'a>) -> Result<(), Memory>
    ensures { OnOk result ((ms : List meanings.Meaning) → KnowsOuter outer.old ms → KnowsOuter outer.new (meaning_view meaning.now ∷ ms)) }
{
    if let Some(key) = outer_of(meaning) {
        outer.insert(key, *meaning)?;
    }
    Ok(())
}

/// The meanings in the block of the package and in those of the files.
fn outer_names<'a>(alloc: Global, all: &[Meaning<'a>]) -> Result<OuterNames<'a>, Memory>
    ensures { IfOk result (λ m. KnowsOuter m (map meaning_view all.now)) }
{
    let mut outer = IndexMap::new(alloc);
    for number in (0..all.len()).rev() {
        add_outer(&mut outer, &all[number])?;
    }
    Ok(outer)
}

/// The meanings that were there, or none.
pub fn or_none(alloc: Global, own: Option<Vec<Meaning<'_>>>) -> Vec<Meaning<'_>>
    ensures { map meaning_view result.items ≡ items_of own.entry }
{
    match own {
        None => Vec::new(alloc),
        Some(own) => own,
    }
}

/// Puts a local meaning behind those of its file.
fn add_local<'a>(
    alloc: Global,
    locals: &mut Locals<'a>,
    meaning: &Meaning<'a>,
) -> Result<(), AllocError>
    ensures { OnOk result ((ms : List meanings.Meaning) → KnowsLocals locals.old ms → KnowsLocals locals.new (ms ++ meaning_view meaning.now ∷ [])) }
{
    if let Extent::Between { file, .. } = meaning.entry.extent {
        let mut own = or_none(alloc, locals.remove(&file));
        own.push(*meaning)?;
        locals.insert(file, own)?;
    }
    Ok(())
}

/// The local meanings by file.
fn locals<'a>(alloc: Global, all: &[Meaning<'a>]) -> Result<Locals<'a>, AllocError>
    ensures { IfOk result (λ m. KnowsLocals m (map meaning_view all.now)) }
{
    let mut locals = HashMap::new(alloc);
    for meaning in all {
        add_local(alloc, &mut locals, meaning)?;
    }
    Ok(locals)
}

/// The meanings, by their blocks too.
pub fn by_block<'a>(alloc: Global, all: Vec<Meaning<'a>>) -> Result<Sorted<'a>, Memory>
    ensures sorted { IfOk result (λ s. IsSorted s) }
    ensures all { IfOk result (λ s. all_of s ≡ map meaning_view all.entry.items) }
{
    let outer = outer_names(alloc, &all)?;
    let locals = locals(alloc, &all)?;
    Ok(Sorted { all, outer, locals })
}

impl<'a> Sorted<'a> {
    /// What the name means in the block of the file, or in that of the package.
    pub fn find_outer(&self, file: Option<u32>, name: &'a [u8]) -> Option<Meaning<'a>>
        requires { IsSorted self.now }
        ensures { option_map meaning_view result ≡ first_by (in_block file) name.entry.now (all_of self.now) }
    {
        self.outer.get(&Outer { file, name }).copied()
    }

    /// The local meanings of the file, in order, if it has some.
    pub fn locals(&self, file: u32) -> Option<&Vec<Meaning<'a>>>
        requires { IsSorted self.now }
        ensures { items_of (option_copied result) ≡ locals_of file (all_of self.now) }
    {
        self.locals.get(&file)
    }
}
