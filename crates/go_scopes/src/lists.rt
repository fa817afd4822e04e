//! The lists of expressions of a file's constants, by the names that stand in them.

ghost use Rattle.std.specs.Prelude.{◌≡◌, ◌++◌, ◌∷◌, [], ℕ, List, OnOk};
ghost use Rattle.go_tree.specs.declared.event.Event.{Event};
ghost use Rattle.go_tree.specs.declared.event.Event.TheVariants as event;
ghost use Rattle.go_tree.specs.Constants.{list_at, list_by, list_of, list_around, is_hidden};
ghost use Rattle.go_tree.specs.Units.{word};
ghost use Rattle.go_scopes.specs.Lists.{AddsUse, AddsConstant, KnowsLists};

use crate::members::add_name;
use go_scopes_lookup::unit::{is_blank, word};
use go_tokens::tokens::Tokens;
use go_tree::context::{Entity, Site};
use go_tree::event::{Declaration, Event, Use};
use std::alloc::{AllocError, Global};
use std::collections::HashSet;

/// What the events of a file told so far of the lists of its constants. A list is known by the first token of the specification
/// that has it (Go specification: Constant declarations).
#[derive(Drop)]
pub struct Lists<'a> {
    /// The names that lists use.
    used: HashSet<(u32, &'a [u8])>,
    /// The names of constants that have lists.
    declared: HashSet<(u32, &'a [u8])>,
    /// The lists that use the name of a constant that has them.
    hidden: HashSet<u32>,
}

/// The list of constants with this source.
fn list_by(entity: Entity, source: Option<u32>) -> Option<u32>
    ensures { result ≡ list_by entity source }
{
    match entity {
        Entity::Constant => source,
        Entity::Type | Entity::Variable | Entity::Parameter | Entity::Function => None,
    }
}

/// The list that a constant has, by its own specification or as a repetition.
pub fn list_of(declaration: &Declaration) -> Option<u32>
    ensures { result ≡ list_of declaration.now }
{
    list_by(declaration.entity, declaration.source)
}

/// The list of the specification in whose type or values a name stands.
fn list_at(site: Site) -> Option<u32>
    ensures { result ≡ list_at site }
{
    match site {
        Site::Type { specification } => Some(specification),
        Site::Value { specification, .. } => Some(specification),
        Site::Elsewhere | Site::Right { .. } => None,
    }
}

/// The list in which a name is looked up.
fn list_around(lookup: &Use) -> Option<u32>
    ensures { result ≡ list_around lookup.now }
{
    if lookup.constant {
        list_at(lookup.site.get())
    } else {
        None
    }
}

impl<'a> Lists<'a> {
    /// No lists.
    pub fn new(alloc: Global) -> Lists<'a>
        ensures { (text : ℕ → List ℕ) → KnowsLists result text [] }
    {
        Lists {
            used: HashSet::new(alloc),
            declared: HashSet::new(alloc),
            hidden: HashSet::new(alloc),
        }
    }

    /// Whether a constant that has this list hides a name of it.
    pub fn is_hidden(&self, list: Option<u32>) -> bool
        ensures { (text : ℕ → List ℕ) → (es : List Event) → KnowsLists self.now text es → result ≡ is_hidden list text es }
    {
        match list {
            None => false,
            Some(list) => self.hidden.contains(&list),
        }
    }

    /// Adds a name that a list uses.
    fn add_use(&mut self, list: u32, name: &'a [u8]) -> Result<(), AllocError>
        ensures { OnOk result (AddsUse self.old self.new list name.entry) }
    {
        add_name(&mut self.used, list, name)?;
        if self.declared.contains(&(list, name)) {
            self.hidden.insert(list)?;
        }
        Ok(())
    }

    /// Adds the name of a constant that has a list.
    fn add_constant(&mut self, list: u32, name: &'a [u8]) -> Result<(), AllocError>
        ensures { OnOk result (AddsConstant self.old self.new list name.entry) }
    {
        if is_blank(name) {
            return Ok(());
        }
        add_name(&mut self.declared, list, name)?;
        if self.used.contains(&(list, name)) {
            self.hidden.insert(list)?;
        }
        Ok(())
    }

    /// Adds what the event tells.
    pub fn add(&mut self, tokens: &'a Tokens, event: &Event) -> Result<(), AllocError>
        ensures { (es : List Event) → KnowsLists self.old (word tokens.now) es → OnOk result (KnowsLists self.new (word tokens.now) (es ++ event.now ∷ [])) }
    {
        match event {
            Event::Use(lookup) => self.add_lookup(tokens, lookup),
            Event::Declaration(declaration) => self.add_declaration(tokens, declaration),
            _ => Ok(()),
        }
    }

    /// Adds a name that is looked up, if that is in a list.
    fn add_lookup(&mut self, tokens: &'a Tokens, lookup: &Use) -> Result<(), AllocError>
        ensures { (es : List Event) → KnowsLists self.old (word tokens.now) es → OnOk result (KnowsLists self.new (word tokens.now) (es ++ event.Use lookup.now ∷ [])) }
    {
        match list_around(lookup) {
            None => Ok(()),
            Some(list) => self.add_use(list, word(tokens, lookup.name)),
        }
    }

    /// Adds a name that is declared, if it is that of a constant that has a list.
    fn add_declaration(
        &mut self,
        tokens: &'a Tokens,
        declaration: &Declaration,
    ) -> Result<(), AllocError>
        ensures { (es : List Event) → KnowsLists self.old (word tokens.now) es → OnOk result (KnowsLists self.new (word tokens.now) (es ++ event.Declaration declaration.now ∷ [])) }
    {
        match list_of(declaration) {
            None => Ok(()),
            Some(list) => self.add_constant(list, word(tokens, declaration.name)),
        }
    }
}
