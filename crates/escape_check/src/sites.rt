//! Refusals for what names mean at sites, for what is no longer used, and for types that are written.

ghost use Rattle.std.specs.Prelude.{◌≡◌, ◌<◌, ◌≤◌, ◌++◌, ℕ, map, length, IfOk, OnOk};
ghost use Rattle.std.specs.List.{AllByRecursion};
ghost use Rattle.std.specs.Option.{option_map};
ghost use Rattle.go_scopes.specs.Resolve as trees;
ghost use Rattle.go_scopes_named.specs.Named.{IsNamed, all_meanings};
ghost use Rattle.go_scopes_lookup.specs.Views.{asked_view, units_view};
ghost use Rattle.go_tree.specs.Meanings.{meanings};
ghost use Rattle.go_types.specs.Tables.{type_of};
ghost use Rattle.param_choose.specs.Choosing.{Choice as Chosen};
ghost use Rattle.param_choose.specs.Handed.{HandedHole, choice_shown, handed, hole_shown};
ghost use Rattle.param_choose.specs.Shown.{variable_view};
ghost use Rattle.escape_check.specs.Lookups.{all_asked, left_unused, lost_imports};
ghost use Rattle.escape_check.specs.Places.{each_refused, first_refused, or_refused, sources_in, template_refused};
ghost use Rattle.escape_check.specs.Refusals.{site_refusals};
ghost use Rattle.escape_check.specs.Shown.{IsSound, KnowsPlaces, member_view, refused_view};
ghost use Rattle.escape_check.specs.Written.{AreKnownTypes, handed_types};
ghost use Rattle.escape_check.specs.Types.{hidden_at_site, hidden_types_written, hole_numbers, local_types_written, variable_types};

use crate::hidden_names::hidden_in_files;
use crate::imports::{LostImports, lost_files};
use crate::member::Member;
use crate::place::Refused;
use crate::results::Declared;
use crate::rule::{first_refused, refused_in};
use crate::site::HiddenAtSite;
use crate::type_names::names_of_all;
use crate::types::{any_local, any_taken};
use crate::unused::{LeftUnused, last_uses};
use clone_window::locals::locals_of;
use go_base::Memory;
use go_scopes::names::entries_of;
use go_scopes::resolve::units_of;
use go_scopes_lookup::asked::Asked;
use go_scopes_lookup::look_up::looked_up;
use go_scopes_lookup::unit::Unit;
use go_scopes_named::by_name::{Named, by_name};
use go_typed::checked::Checked;
use go_types::TypeId;
use param_choose::choice::{Choice, HoleParameter};
use param_choose::later::places_of;
use param_choose::variables::Variable;
use std::alloc::{AllocError, Global};

/// The first refusal for what names mean at sites, for what is no longer used, and for types that are written.
#[tactic(auto, using(crate::proofs::AtSites::numbers_shown, crate::proofs::AtSites::of_five, crate::proofs::AtSites::first_found, crate::proofs::AtSites::later_found))]
pub(crate) fn site_refusal(
    alloc: Global,
    checked: &Checked,
    template: &Member<'_>,
    choice: &Choice,
    members: &[Member<'_>],
) -> Result<Option<Refused>, Memory>
    requires few { length checked.now.files ≤ 256 }
    requires template { IsSound checked.now template.now }
    requires sound { AllByRecursion (IsSound checked.now) members.now }
    requires types { AreKnownTypes checked.now (choice_shown choice.now) }
    ensures { (h : Chosen ℕ) → choice_shown choice.now ≡ handed h → IfOk result (λ r. option_map refused_view r
        ≡ first_refused (site_refusals (type_of checked.now.types.shapes) (sources_in checked.now) (map member_view members.now) (member_view template.now) h)) }
{
    let units = units_of(alloc, checked.files())?;
    let entries = entries_of(alloc, &units)?;
    let named = by_name(alloc, &entries)?;
    let places = places_of(alloc, &locals_of(alloc, template.statements)?)?;
    let locals = locals_of_variables(alloc, &choice.declared)?;
    let declared = Declared {
        template,
        locals: &locals,
        places: &places,
    };
    let holes = numbers_of(alloc, &choice.holes)?;
    let results = &choice.declared;
    if let Some(refused) = hidden_refusal(
        alloc, checked, &named, declared, results, &holes, members,
    )? {
        return Ok(Some(refused));
    }
    let asked = looked_up(alloc, &units, &entries)?.asked;
    if let Some(refused) = use_refusal(alloc, checked, &units, &asked, declared, members)? {
        return Ok(Some(refused));
    }
    type_refusal(alloc, checked, template, choice)
}

/// The first refusal for what names mean at sites. The results are those that the template declares, and the numbers are those of its holes
/// that are parameters.
#[tactic(auto, using(crate::proofs::AtSites::hidden_each))]
fn hidden_refusal(
    alloc: Global,
    checked: &Checked,
    named: &Named<'_>,
    declared: Declared<'_>,
    results: &[Variable],
    holes: &[u32],
    members: &[Member<'_>],
) -> Result<Option<Refused>, Memory>
    requires types { AllByRecursion (λ t. t < length checked.now.types.shapes) (variable_types (map variable_view results.now)) }
    requires named { IsNamed named.now }
    requires meanings { all_meanings named.now ≡ meanings (trees.units_of checked.now.files) }
    requires places { KnowsPlaces declared }
    requires sound { AllByRecursion (IsSound checked.now) members.now }
    ensures { (h : Chosen ℕ) → map (λ v. v.local) h.declared ≡ declared.entry.locals.now → hole_numbers h.holes ≡ holes.now → IfOk result (λ r. option_map refused_view r
        ≡ each_refused 12 (hidden_at_site (type_of checked.now.types.shapes) (sources_in checked.now) (member_view declared.entry.template.now) h) (map member_view members.now)) }
{
    let mut types = Vec::new(alloc);
    push_types(results, &mut types)?;
    let hidden = hidden_in_files(alloc, checked, named, &types, members)?;
    let rule = HiddenAtSite {
        declared,
        holes,
        named,
        hidden: &hidden,
    };
    first_refused(alloc, checked, 12, &rule, members)
}

/// The first refusal for an import or a result that is no longer used.
#[tactic(auto, using(crate::proofs::AtSites::imports_each, crate::proofs::AtSites::unused_each, crate::proofs::AtSites::first_found, crate::proofs::AtSites::later_found))]
fn use_refusal(
    alloc: Global,
    checked: &Checked,
    units: &[Unit<'_>],
    asked: &[Asked<'_>],
    declared: Declared<'_>,
    members: &[Member<'_>],
) -> Result<Option<Refused>, Memory>
    requires units { units_view units.now ≡ trees.units_of checked.now.files }
    requires asked { map asked_view asked.now ≡ all_asked (sources_in checked.now) }
    requires places { KnowsPlaces declared }
    requires template { IsSound checked.now declared.template.now }
    requires sound { AllByRecursion (IsSound checked.now) members.now }
    ensures { (h : Chosen ℕ) → map (λ v. v.local) h.declared ≡ declared.entry.locals.now → IfOk result (λ r. option_map refused_view r
        ≡ or_refused (each_refused 13 (lost_imports (sources_in checked.now) (member_view declared.entry.template.now) (map member_view members.now)) (map member_view members.now))
        (each_refused 14 (left_unused (sources_in checked.now) (member_view declared.entry.template.now) h) (map member_view members.now))) }
{
    let files = lost_files(alloc, checked, units, asked, declared.template, members)?;
    let rule = LostImports { files: &files };
    if let Some(refused) = first_refused(alloc, checked, 13, &rule, members)? {
        return Ok(Some(refused));
    }
    let ends = last_uses(alloc, asked)?;
    let rule = LeftUnused {
        declared,
        ends: &ends,
    };
    first_refused(alloc, checked, 14, &rule, members)
}

/// The first refusal for the types of parameters and results.
#[tactic(auto, using(crate::proofs::AtSites::names_told, crate::proofs::AtSites::template_there, crate::proofs::AtSites::template_free, crate::proofs::AtSites::first_found, crate::proofs::AtSites::later_found))]
fn type_refusal(
    alloc: Global,
    checked: &Checked,
    template: &Member<'_>,
    choice: &Choice,
) -> Result<Option<Refused>, Memory>
    requires template { IsSound checked.now template.now }
    requires types { AreKnownTypes checked.now (choice_shown choice.now) }
    ensures { (h : Chosen ℕ) → choice_shown choice.now ≡ handed h → IfOk result (λ r. option_map refused_view r
        ≡ or_refused (template_refused 15 (local_types_written (type_of checked.now.types.shapes) (sources_in checked.now) (member_view template.now) h))
        (template_refused 16 (hidden_types_written (type_of checked.now.types.shapes) (sources_in checked.now) (member_view template.now) h))) }
{
    let names = names_of_all(alloc, checked, &types_of(alloc, choice)?)?;
    let place = template.window_place(checked);
    if any_local(checked, &names) {
        return Ok(Some(refused_in(15, 0, place)?));
    }
    if any_taken(checked, &names) {
        return Ok(Some(refused_in(16, 0, place)?));
    }
    Ok(None)
}

/// The types of parameters and results.
fn types_of(alloc: Global, choice: &Choice) -> Result<Vec<TypeId>, AllocError>
    ensures { IfOk result (λ v. v.items ≡ handed_types (choice_shown choice.now)) }
{
    let mut types = Vec::new(alloc);
    push_types(&choice.free, &mut types)?;
    push_hole_types(&choice.holes, &mut types)?;
    push_types(&choice.assigned, &mut types)?;
    push_types(&choice.declared, &mut types)?;
    Ok(types)
}

/// Puts the types of variables behind the others.
fn push_types(variables: &[Variable], types: &mut Vec<TypeId>) -> Result<(), AllocError>
    ensures { OnOk result (types.new.items ≡ types.old.items ++ variable_types (map variable_view variables.now)) }
{
    for variable in variables {
        types.push(variable.ty)?;
    }
    Ok(())
}

/// Puts the types of holes that are parameters behind the others.
fn push_hole_types(holes: &[HoleParameter], types: &mut Vec<TypeId>) -> Result<(), AllocError>
    ensures { OnOk result (types.new.items ≡ types.old.items ++ map (λ (x : HandedHole ℕ). x.type) (map hole_shown holes.now)) }
{
    for hole in holes {
        types.push(hole.ty)?;
    }
    Ok(())
}

/// The numbers of variables.
fn locals_of_variables(alloc: Global, variables: &[Variable]) -> Result<Vec<u32>, AllocError>
    ensures { IfOk result (λ v. v.items ≡ map (λ x. x.local) (map variable_view variables.now)) }
{
    let mut locals = Vec::with_capacity(alloc, variables.len())?;
    for variable in variables {
        locals.push(variable.local)?;
    }
    Ok(locals)
}

/// The numbers of holes that are parameters among the holes.
fn numbers_of(alloc: Global, holes: &[HoleParameter]) -> Result<Vec<u32>, AllocError>
    ensures { IfOk result (λ v. v.items ≡ map (λ x. x.number) (map hole_shown holes.now)) }
{
    let mut numbers = Vec::with_capacity(alloc, holes.len())?;
    for hole in holes {
        numbers.push(hole.number)?;
    }
    Ok(numbers)
}
