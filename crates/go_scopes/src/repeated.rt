//! Names that stand twice, with their tokens.

ghost use Rattle.std.specs.Prelude.{◌≡◌, ◌++◌, ◌≤◌, List, [], IfOk, OnOk, length, map};
ghost use Rattle.go_tree.specs.declared.event.Event.{Event};
ghost use Rattle.go_tree.specs.Repeated.{place_if, second_names, hidden_names, redeclared_names, parameter_place, parameters_in, repeated_parameters, name_place};
ghost use Rattle.go_scopes_lookup.specs.Views.{found_view, unit_view, units_view};
ghost use Rattle.go_scopes.specs.Gathered.{Gathers};
ghost use Rattle.go_scopes.specs.Resolve.{units_of};
ghost use Rattle.go_scopes.specs.Views.{name_view};

use crate::duplicates::is_duplicate;
use crate::members::Members;
use crate::redeclared::{has_clash, has_import};
use crate::resolve::units_of;
use go_base::{Memory, Span};
use go_scopes_lookup::found::{Found, all_found, new_among};
use go_scopes_lookup::keys::add_name;
use go_scopes_lookup::kinds::is_package;
use go_scopes_lookup::unit::{Unit, bytes_at, is_fmt, word};
use go_tokens::tokens::Tokens;
use go_tree::event::{Event, Member};
use go_tree::file::File;
use indexmap::IndexMap;
use std::alloc::{AllocError, Global};

/// Where a name stands.
#[derive(Clone, Copy, Debug, PartialEq, Eq)]
pub struct NamePlace {
    /// The number of its file.
    pub file: u32,
    /// The number of its token.
    pub token: u32,
    /// Its bytes.
    pub place: Span,
}

/// Where a declaration has its name.
fn name_place(d: &Found<'_>) -> NamePlace
    ensures { name_view result ≡ name_place (found_view d.now) }
{
    NamePlace {
        file: d.file,
        token: d.declaration.name,
        place: d.place(),
    }
}

/// Puts a place behind others, if the rule fails there.
fn push_if(out: &mut Vec<NamePlace>, fails: bool, place: NamePlace) -> Result<(), AllocError>
    ensures { OnOk result (map name_view out.new.items ≡ map name_view out.old.items ++ place_if fails (name_view place) []) }
{
    if fails {
        out.push(place)?;
    }
    Ok(())
}

/// Names that are declared twice in a block, behind other places.
#[tactic(auto, using(crate::proofs::Twice::if_append))]
fn push_second(alloc: Global, out: &mut Vec<NamePlace>, all: &[Found<'_>]) -> Result<(), Memory>
    ensures { OnOk result (map name_view out.new.items ≡ map name_view out.old.items ++ second_names [] (map found_view all.now)) }
{
    let mut names = IndexMap::new(alloc);
    for d in all {
        push_if(out, has_clash(d, &names), name_place(d))?;
        add_name(&mut names, d)?;
    }
    Ok(())
}

/// Names of the package that an import hides, behind other places.
#[tactic(auto, using(crate::proofs::Twice::if_append))]
fn push_hidden(
    out: &mut Vec<NamePlace>,
    imported: bool,
    all: &[Found<'_>],
) -> Result<(), AllocError>
    ensures { OnOk result (map name_view out.new.items ≡ map name_view out.old.items ++ hidden_names imported (map found_view all.now)) }
{
    for d in all {
        let hides = imported && is_package(d.declaration.block) && is_fmt(d.name());
        push_if(out, hides, name_place(d))?;
    }
    Ok(())
}

/// The places of names that are declared twice in a block, and of those that stand in a file's block and in that of the package
/// (Go specification: Declarations and scope). The files are numbered from 0 by their places.
///
/// # Errors
///
/// Want of memory.
pub fn redeclared_names(alloc: Global, files: &[File]) -> Result<Vec<NamePlace>, Memory>
    requires { length files.now ≤ 256 }
    ensures { IfOk result (λ v. map name_view v.items ≡ redeclared_names (units_of files.now)) }
{
    let units = units_of(alloc, files)?;
    let all = all_found(alloc, &units)?;
    let declared = new_among(alloc, &all)?;
    let mut out = Vec::new(alloc);
    push_second(alloc, &mut out, &declared)?;
    push_hidden(&mut out, has_import(alloc, &units)?, &declared)?;
    Ok(out)
}

/// The place of a parameter that stands in its list already, behind other places; `before` has the members of the events in
/// front.
fn push_parameter<'a>(
    out: &mut Vec<NamePlace>,
    file: u32,
    tokens: &'a Tokens,
    before: &Members<'a>,
    event: &Event,
) -> Result<(), AllocError>
    ensures { OnOk result ((es : List Event) → Gathers before.now tokens.now es → map name_view out.new.items ≡ map name_view out.old.items ++ parameter_place es file tokens.now event.now []) }
{
    if let Event::Member {
        member: Member::Parameter,
        group,
        name,
    } = event
    {
        let fails = is_duplicate(Member::Parameter, *group, word(tokens, *name), before);
        let place = NamePlace {
            file,
            token: *name,
            place: bytes_at(file, tokens, *name),
        };
        push_if(out, fails, place)?;
    }
    Ok(())
}

/// Those of a file, behind other places.
fn push_parameters(
    alloc: Global,
    out: &mut Vec<NamePlace>,
    file: u32,
    unit: &Unit<'_>,
) -> Result<(), AllocError>
    ensures { OnOk result (map name_view out.new.items ≡ map name_view out.old.items ++ parameters_in [] file (unit_view unit.now).tokens (unit_view unit.now).events) }
{
    let tokens = unit.tokens;
    let mut members = Members::new(alloc);
    for event in &unit.events {
        push_parameter(out, file, tokens, &members, event)?;
        members.add(tokens, event)?;
    }
    Ok(())
}

/// Those of all files, which are numbered from 0 by their places.
fn all_parameters(alloc: Global, units: &[Unit<'_>]) -> Result<Vec<NamePlace>, AllocError>
    requires { length units.now ≤ 256 }
    ensures { IfOk result (λ v. map name_view v.items ≡ repeated_parameters (units_view units.now)) }
{
    let mut out = Vec::new(alloc);
    for (file, unit) in units.iter().enumerate() {
        push_parameters(alloc, &mut out, file as u32, unit)?;
    }
    Ok(out)
}

/// The places of parameters that are named twice in a list (Go specification: Function types). The files are numbered from 0 by
/// their places.
///
/// # Errors
///
/// Want of memory.
pub fn repeated_parameters(alloc: Global, files: &[File]) -> Result<Vec<NamePlace>, Memory>
    requires { length files.now ≤ 256 }
    ensures { IfOk result (λ v. map name_view v.items ≡ repeated_parameters (units_of files.now)) }
{
    let units = units_of(alloc, files)?;
    Ok(all_parameters(alloc, &units)?)
}
