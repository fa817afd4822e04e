//! The names that are looked up in a package.

ghost use Rattle.std.specs.Prelude.{◌≡◌, ◌++◌, List, OnOk, map, []};
ghost use Rattle.go_tree.specs.Lookups.{whole_of, selected_of, asked, asked_event};
ghost use Rattle.go_tree.specs.Lookups as rules;
ghost use Rattle.go_tree.specs.Meanings as meanings;
ghost use Rattle.go_scopes_lookup.specs.Views.{place_of, unit_view, asked_view, one_asked};
ghost use Rattle.go_scopes_lookup.specs.Sited.{sited};
ghost use Rattle.go_scopes_lookup.specs.Sorted.{IsMeant, IsNamed, AreTold, unit_asked};

use crate::kinds::is_sited;
use crate::meaning::Meaning;
use crate::sweep::told_at;
use crate::unit::{Unit, bytes_at, bytes_of, is_blank, word};
use go_base::Span;
use go_tokens::tokens::Tokens;
use go_tree::context::Role;
use go_tree::event::{Event, Use};
use std::alloc::AllocError;

/// A name that is looked up.
#[derive(Clone, Copy)]
pub struct Asked<'a> {
    /// The number of its file.
    pub file: u32,
    /// The tokens of its file.
    pub tokens: &'a Tokens,
    /// What it is declared as there.
    pub meaning: Option<Meaning<'a>>,
    pub lookup: &'a Use,
}

impl<'a> Asked<'a> {
    /// The name.
    pub fn name(&self) -> &'a [u8]
        ensures { result.now ≡ (asked_view self.now).name }
    {
        word(self.tokens, self.lookup.name)
    }

    /// Its bytes.
    pub fn place(&self) -> Span
        ensures { place_of result ≡ (asked_view self.now).place }
    {
        bytes_at(self.file, self.tokens, self.lookup.name)
    }

    /// If it is the operand of a selector, the bytes of the selector.
    pub fn whole(&self) -> Span
        ensures { place_of result ≡ (asked_view self.now).whole }
    {
        whole_of(
            self.file,
            self.tokens,
            self.lookup.name,
            self.lookup.role.get(),
        )
    }

    /// If it is the operand of a selector, the selected name.
    pub fn selected(&self) -> &'a [u8]
        ensures { result.now ≡ (asked_view self.now).selected }
    {
        selected_of(self.tokens, self.lookup.role.get())
    }
}

/// The bytes of the selector whose operand the token is; else those of the token.
fn whole_of(file: u32, tokens: &Tokens, token: u32, role: Role) -> Span
    ensures { place_of result ≡ whole_of file tokens.now token role }
{
    match role {
        Role::Selected { last, .. } => bytes_of(file, tokens, token, last),
        _ => bytes_at(file, tokens, token),
    }
}

/// The selected name.
fn selected_of(tokens: &Tokens, role: Role) -> &[u8]
    ensures { result.now ≡ selected_of tokens.now role }
{
    match role {
        Role::Selected { last, .. } => word(tokens, last.saturating_sub(1)),
        _ => &[],
    }
}

/// A name that is looked up, which means this.
fn ask<'a>(
    file: u32,
    tokens: &'a Tokens,
    lookup: &'a Use,
    meaning: Option<Meaning<'a>>,
) -> Asked<'a>
    ensures { (ms : List meanings.Meaning) → IsMeant ms file tokens.entry.now lookup.entry.now meaning.entry → asked_view result ≡ asked ms file tokens.entry.now lookup.entry.now }
{
    Asked {
        file,
        tokens,
        meaning,
        lookup,
    }
}

/// The name that is looked up by the event, if one is: the blank identifier isn't.
fn asked_by<'a>(
    file: u32,
    tokens: &'a Tokens,
    event: &'a Event,
    meaning: Option<Meaning<'a>>,
) -> Option<Asked<'a>>
    ensures { (ms : List meanings.Meaning) (asks : List rules.Asked) → IsNamed ms file tokens.entry.now event.entry.now meaning.entry → asked_event ms file tokens.entry.now event.entry.now asks ≡ one_asked result ++ asks }
{
    let Event::Use(lookup) = event else {
        return None;
    };
    if is_blank(word(tokens, lookup.name)) {
        return None;
    }
    Some(ask(file, tokens, lookup, meaning))
}

/// The same, if the name stands in a part of a declaration.
fn sited_by<'a>(
    file: u32,
    tokens: &'a Tokens,
    event: &'a Event,
    meaning: Option<Meaning<'a>>,
) -> Option<Asked<'a>>
    ensures { (ms : List meanings.Meaning) (asks : List rules.Asked) → IsNamed ms file tokens.entry.now event.entry.now meaning.entry → sited (asked_event ms file tokens.entry.now event.entry.now asks) ≡ one_asked result ++ sited asks }
{
    match asked_by(file, tokens, event, meaning) {
        Some(asked) if is_sited(asked.lookup.site.get()) => Some(asked),
        _ => None,
    }
}

/// The names that are looked up in a file, behind those that were found. Its events' names mean what is told.
pub fn push_asked<'a>(
    out: &mut Vec<Asked<'a>>,
    file: u32,
    unit: &'a Unit<'a>,
    told: &[Option<Meaning<'a>>],
) -> Result<(), AllocError>
    ensures { OnOk result ((ms : List meanings.Meaning) → AreTold ms file (unit_view unit.entry.now) told.now → map asked_view out.new.items ≡ map asked_view out.old.items ++ unit_asked ms file (unit_view unit.entry.now)) }
{
    for (number, event) in unit.events.iter().enumerate() {
        if let Some(asked) = asked_by(file, unit.tokens, event, told_at(told, number)) {
            out.push(asked)?;
        }
    }
    Ok(())
}

/// Those of them that stand in parts of declarations.
pub fn push_sited<'a>(
    out: &mut Vec<Asked<'a>>,
    file: u32,
    unit: &'a Unit<'a>,
    told: &[Option<Meaning<'a>>],
) -> Result<(), AllocError>
    ensures { OnOk result ((ms : List meanings.Meaning) → AreTold ms file (unit_view unit.entry.now) told.now → map asked_view out.new.items ≡ map asked_view out.old.items ++ sited (unit_asked ms file (unit_view unit.entry.now))) }
{
    for (number, event) in unit.events.iter().enumerate() {
        if let Some(asked) = sited_by(file, unit.tokens, event, told_at(told, number)) {
            out.push(asked)?;
        }
    }
    Ok(())
}
