//! The declarations of a package.

ghost use Rattle.std.specs.Prelude.{◌≡◌, ◌≤◌, ◌++◌, List, IfOk, OnOk, length, map};
ghost use Rattle.std.specs.Option.{option_map};
ghost use Rattle.go_tree.specs.Declarations.{found_in, found, is_variable, is_reused, may_be_reused, is_new, new_among};
ghost use Rattle.go_tree.specs.Declarations as rules;
ghost use Rattle.go_scopes_lookup.specs.Views.{place_of, unit_view, units_view, found_view};
ghost use Rattle.go_scopes_lookup.specs.Keys.{KnowsVariables};

use crate::keys::{Key, add_variable, key_of};
use crate::unit::{Unit, bytes_at, is_blank, word};
use go_base::{Memory, Span};
use go_tokens::tokens::Tokens;
use go_tree::context::{Entity, Manner};
use go_tree::event::{Declaration, Event};
use indexmap::IndexMap;
use std::alloc::{AllocError, Global};

/// A declaration in a package.
#[derive(Clone, Copy)]
pub struct Found<'a> {
    /// The number of its file.
    pub file: u32,
    /// The tokens of its file.
    pub tokens: &'a Tokens,
    pub declaration: &'a Declaration,
}

impl<'a> Found<'a> {
    /// Its name.
    pub fn name(&self) -> &'a [u8]
        ensures { result.now ≡ (found_view self.now).name }
    {
        word(self.tokens, self.declaration.name)
    }

    /// The bytes of its name.
    pub fn place(&self) -> Span
        ensures { place_of result ≡ (found_view self.now).place }
    {
        bytes_at(self.file, self.tokens, self.declaration.name)
    }
}

/// The declarations of a file, behind those that were found.
fn push_found<'a>(out: &mut Vec<Found<'a>>, file: u32, unit: &'a Unit<'a>) -> Result<(), AllocError>
    ensures { OnOk result (map found_view out.new.items ≡ map found_view out.old.items ++ found_in file (unit_view unit.entry.now).tokens (unit_view unit.entry.now).events) }
{
    let mut events: &'a [Event] = &unit.events;
    while let [event, rest @ ..] = events {
        if let Event::Declaration(declaration) = event {
            out.push(Found {
                file,
                tokens: unit.tokens,
                declaration,
            })?;
        }
        events = rest;
    }
    Ok(())
}

/// All declarations of the files, with the names before each `:=`.
pub fn all_found<'a>(alloc: Global, units: &'a [Unit<'a>]) -> Result<Vec<Found<'a>>, AllocError>
    requires { length units.now ≤ 256 }
    ensures { IfOk result (λ v. map found_view v.items ≡ found (units_view units.entry.now)) }
{
    let mut out = Vec::new(alloc);
    let mut file = 0;
    let mut units = units;
    while let [unit, rest @ ..] = units {
        push_found(&mut out, file, unit)?;
        file += 1;
        units = rest;
    }
    out.shrink_to_fit();
    Ok(out)
}

/// Whether it is a variable: parameters are some.
pub fn is_variable(entity: Entity) -> bool
    ensures { result ≡ is_variable entity }
{
    match entity {
        Entity::Variable | Entity::Parameter => true,
        Entity::Constant | Entity::Type | Entity::Function => false,
    }
}

/// The first tokens of the variables of each name and block.
fn variables<'a>(alloc: Global, all: &[Found<'a>]) -> Result<IndexMap<Key<'a>, u32>, Memory>
    ensures { IfOk result (λ m. KnowsVariables m (map found_view all.now)) }
{
    let mut variables = IndexMap::new(alloc);
    for d in all {
        add_variable(&mut variables, d)?;
    }
    Ok(variables)
}

/// Whether an earlier statement of the block declares the variable.
fn is_reused(d: &Found<'_>, variables: &IndexMap<Key<'_>, u32>) -> bool
    ensures { (all : List rules.Found) → KnowsVariables variables.now all → result ≡ is_reused (found_view d.now) all }
{
    match variables.get(&key_of(d)).copied() {
        None => false,
        Some(first) => first < d.declaration.statement,
    }
}

fn may_be_reused(manner: Manner) -> bool
    ensures { result ≡ may_be_reused manner }
{
    match manner {
        Manner::Defined => true,
        Manner::Declared | Manner::Ranged => false,
    }
}

/// Whether the name is declared here: it isn't blank, and no variable before `:=` that is there already (Go specification:
/// Short variable declarations).
fn is_new(variables: &IndexMap<Key<'_>, u32>, d: &Found<'_>) -> bool
    ensures { (all : List rules.Found) → KnowsVariables variables.now all → result ≡ is_new all (found_view d.now) }
{
    !is_blank(d.name()) && !(may_be_reused(d.declaration.manner) && is_reused(d, variables))
}

/// Those that declare their name.
pub fn new_among<'a>(alloc: Global, all: &[Found<'a>]) -> Result<Vec<Found<'a>>, Memory>
    ensures { IfOk result (λ v. map found_view v.items ≡ new_among (map found_view all.now) (map found_view all.now)) }
{
    let variables = variables(alloc, all)?;
    let mut out = Vec::new(alloc);
    let mut left = all;
    while let [d, rest @ ..] = left {
        if is_new(&variables, d) {
            out.push(*d)?;
        }
        left = rest;
    }
    out.shrink_to_fit();
    Ok(out)
}
