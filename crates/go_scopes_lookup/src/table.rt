//! The objects of the tokens of each file.

ghost use Rattle.std.specs.Prelude.{◌≡◌, ℕ, List, IfOk, OnOk, None, length, map, replicate, set};
ghost use Rattle.std.specs.Option.{option_map};
ghost use Rattle.go_tree.specs.Meanings.{meaning_at};
ghost use Rattle.go_tree.specs.Objects.{object_at, own_object};
ghost use Rattle.go_tree.specs.Meanings as meanings;
ghost use Rattle.go_scopes_lookup.specs.Tables.{Owns, over_event, unit_objects};
ghost use Rattle.go_scopes_lookup.specs.Views.{unit_view, meaning_view};
ghost use Rattle.go_scopes_lookup.specs.Sorted.{IsNamed, AreNamed};

use crate::meaning::{Meaning, object_by};
use crate::sweep::told_at;
use crate::unit::{Unit, is_blank, word};
use go_base::Memory;
use go_tokens::tokens::Tokens;
use go_tree::event::Event;
use go_tree::meant::Meant;
use go_tree::object::Object;
use std::alloc::{AllocError, Global};
use std::collections::HashMap;

/// The objects that declarations declare, by the number of the file and that of the token.
pub type Owners = HashMap<(u32, u32), Object>;

/// The objects of the declarations; of several at one place the first.
pub fn owners_of(alloc: Global, all: &[Meaning<'_>]) -> Result<Owners, AllocError>
    ensures { IfOk result (λ m. Owns m (map meaning_view all.now)) }
{
    let mut owners = HashMap::new(alloc);
    for number in (0..all.len()).rev() {
        let meaning = all[number];
        if let Some(d) = meaning.entry.source {
            owners.insert((d.file, d.declaration.name), meaning.entry.object)?;
        }
    }
    Ok(owners)
}

/// What a name means, by its declared or imported meaning.
fn named_object(name: &[u8], meaning: Option<Meaning<'_>>) -> Option<Object>
    ensures { (ms : List meanings.Meaning) → (n t : ℕ) → option_map meaning_view meaning.entry ≡ meaning_at ms n t name.now → result ≡ object_at ms n t name.now }
{
    if is_blank(name) {
        return None;
    }
    object_by(name, meaning)
}

/// The object that a declaration at the token declares, if it does; else the one that its name means there.
fn own_object(
    owners: &Owners,
    file: u32,
    token: u32,
    name: &[u8],
    meaning: Option<Meaning<'_>>,
) -> Option<Object>
    ensures { (ms : List meanings.Meaning) → Owns owners.now ms → option_map meaning_view meaning.entry ≡ meaning_at ms file token name.now → result ≡ own_object file token name.now ms ms }
{
    match owners.get(&(file, token)) {
        Some(object) => Some(*object),
        None => named_object(name, meaning),
    }
}

/// As many tokens without an object.
fn no_objects(alloc: Global, count: u32) -> Result<Vec<Meant>, AllocError>
    ensures { IfOk result (λ v. v.items ≡ replicate count None) }
{
    vec![in alloc; Meant::nothing(); count as usize]
}

/// Writes the object of a token, if there is such a token.
fn put(objects: &mut Vec<Meant>, token: u32, object: Meant)
    ensures { objects.new.items ≡ set objects.old.items token object }
{
    if (token as usize) < objects.len() {
        objects[token as usize] = object;
    }
}

/// Writes the object of the token that the event is about, whose name means this.
fn put_event(
    objects: &mut Vec<Meant>,
    owners: &Owners,
    file: u32,
    tokens: &Tokens,
    event: &Event,
    meaning: Option<Meaning<'_>>,
) -> Result<(), Memory>
    ensures { OnOk result ((ms : List meanings.Meaning) → Owns owners.now ms → IsNamed ms file tokens.now event.now meaning.entry → objects.new.items ≡ over_event ms file tokens.now event.now objects.old.items) }
{
    match event {
        Event::Use(lookup) => {
            let name = word(tokens, lookup.name);
            put(
                objects,
                lookup.name,
                Meant::of(named_object(name, meaning))?,
            );
        }
        Event::Declaration(d) => {
            let name = word(tokens, d.name);
            let object = own_object(owners, file, d.name, name, meaning);
            put(objects, d.name, Meant::of(object)?);
        }
        _ => {}
    }
    Ok(())
}

/// The objects of the tokens of a file, whose events' names mean what is told; of several events at one token the first counts.
pub fn token_objects(
    alloc: Global,
    owners: &Owners,
    file: u32,
    unit: &Unit<'_>,
    told: &[Option<Meaning<'_>>],
) -> Result<Vec<Meant>, Memory>
    ensures { IfOk result (λ v. (ms : List meanings.Meaning) → Owns owners.now ms → AreNamed ms file (unit_view unit.now).tokens (unit_view unit.now).events told.now → v.items ≡ unit_objects ms file (unit_view unit.now)) }
{
    let mut out = no_objects(alloc, unit.tokens.count())?;
    for number in (0..unit.events.len()).rev() {
        put_event(
            &mut out,
            owners,
            file,
            unit.tokens,
            &unit.events[number],
            told_at(told, number),
        )?;
    }
    Ok(out)
}
