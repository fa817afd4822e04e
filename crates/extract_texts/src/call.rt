//! The call at the window of a member.

ghost use Rattle.std.specs.Prelude.{◌≡◌, ◌++◌, ◌<◌, [], length, map, if◌then◌else◌, IfOk, OnOk};
ghost use Rattle.std.specs.List.{AllByRecursion};
ghost use Rattle.go_types.specs.Tables.{type_of};
ghost use Rattle.go_typed.specs.Contents.{content};
ghost use Rattle.go_typed.specs.Packages.{PackageView};
ghost use Rattle.go_print_laws.specs.Calls.{argument_text, assigning_text};
ghost use Rattle.param_choose.specs.Choosing.{choice};
ghost use Rattle.param_choose.specs.Locals.{variable_at, variables_where};
ghost use Rattle.param_choose.specs.Members.{members_in, occurs_later};
ghost use Rattle.param_choose.specs.Shown.{array_in, variable_view};
ghost use Rattle.escape_check.specs.Places.{local_text, sources_in};
ghost use Rattle.escape_check.specs.Shown.{IsSound, member_by, member_view};
ghost use Rattle.escape_check.specs.Types.{variable_types};
ghost use Rattle.extract_texts.specs.Shown.{IsTemplate, KnowsLocals, declarations, local_by, locals_by, numbers_shown};
ghost use Rattle.extract_texts.specs.Texts as specs;
ghost use Rattle.extract_texts.specs.Texts.{call_at, constants_at, result_name};

use crate::held::push_constants;
use crate::pieces::{named_type, push_listed, push_locals};
use crate::template::Template;
use clone_window::locals::locals_of;
use escape_check::member::Member;
use escape_check::results::occurs_later;
use go_base::{Bytes, Memory};
use go_typed::checked::Checked;
use param_choose::later::local_at;
use param_choose::variables::{Variable, push_variable};
use std::alloc::{AllocError, Global};

/// What stands at the window of a member: `var y T; ` for each declared result that occurs behind it, then the names of the results and
/// ` = `, if there are results, and the call of the function of this name. A declared result that doesn't occur behind the window is
/// written `_`. Arguments are the member's free locals, and then the values of its constants that are parameters (Go specification:
/// Calls, Assignment statements, Variable declarations).
///
/// It looks once at each node of the window.
///
/// # Errors
///
/// Want of memory.
pub fn call_text(
    alloc: Global,
    checked: &Checked,
    name: &[u8],
    template: &Template<'_>,
    member: &Member<'_>,
) -> Result<Bytes, Memory>
    requires template { IsTemplate checked.now template.now }
    requires member { IsSound checked.now member.now }
    ensures { IfOk result (λ text. text ≡ call_at (content checked.now) name.now template.now.windows.now member.now.window) }
{
    written_call(alloc, checked, name, template, member)
}

/// The same by the numbers of types.
fn written_call(
    alloc: Global,
    checked: &Checked,
    name: &[u8],
    template: &Template<'_>,
    member: &Member<'_>,
) -> Result<Bytes, Memory>
    requires template { IsTemplate checked.now template.now }
    requires member { IsSound checked.now member.now }
    ensures { IfOk result (λ text. text ≡ specs.call_text (type_of checked.now.types.shapes) (sources_in checked.now) name.now (member_view template.now.member)
        (choice (array_in checked.now.types) (members_in checked.now template.now.windows.now) (member_by checked.now template.now.member)) (member_view member.now)) }
{
    checked.types();
    let others = locals_of(alloc, member.statements)?;
    let declared = locals_at(alloc, template, &others, &template.choice.declared)?;
    let later = later_among(alloc, member, &declared)?;
    let results = result_names(alloc, checked, template, member, &others, &declared)?;
    let arguments = arguments(alloc, checked, template, member, &others)?;
    let mut text = Vec::new(alloc);
    push_declarations(alloc, checked, member, &later, &mut text)?;
    push_assigning(&results, &mut text)?;
    text.extend_from_slice(name)?;
    text.push(b'(')?;
    push_listed(&arguments, &mut text)?;
    text.push(b')')?;
    Ok(Bytes::of(text))
}

/// The locals among those of a member that stand where variables of the template do.
fn locals_at(
    alloc: Global,
    template: &Template<'_>,
    others: &[u32],
    variables: &[Variable],
) -> Result<Vec<u32>, AllocError>
    requires { KnowsLocals template.now }
    ensures { IfOk result (λ v. v.items ≡ locals_by template.now others.now (map variable_view variables.now)) }
{
    let mut locals = Vec::with_capacity(alloc, variables.len())?;
    for variable in variables {
        locals.push(local_for(template, others, variable.local))?;
    }
    Ok(locals)
}

/// The local among those of a member that stands where a local of the template does.
fn local_for(template: &Template<'_>, others: &[u32], local: u32) -> u32
    requires { KnowsLocals template.now }
    ensures { result ≡ local_by template.now others.now local }
{
    local_at(&template.places, others, local)
}

/// The variables among some locals of a member's function that occur behind the member.
fn later_among(
    alloc: Global,
    member: &Member<'_>,
    locals: &[u32],
) -> Result<Vec<Variable>, AllocError>
    ensures { (p : PackageView) → IsSound p member.now → IfOk result (λ v. map variable_view v.items ≡ variables_where member.now.func.now.locals (occurs_later (member_view member.now)) locals.now) }
{
    let mut later = Vec::new(alloc);
    for local in locals {
        push_later(member, *local, &mut later)?;
    }
    Ok(later)
}

/// Puts a local behind the others, if it is a variable and occurs behind the member.
fn push_later(member: &Member<'_>, local: u32, later: &mut Vec<Variable>) -> Result<(), AllocError>
    ensures { (p : PackageView) → IsSound p member.now → OnOk result (map variable_view later.new.items
        ≡ map variable_view later.old.items ++ (if occurs_later (member_view member.now) local then variable_at member.now.func.now.locals local else [])) }
{
    if occurs_later(member, local) {
        push_variable(member.func, local, later)?;
    }
    Ok(())
}

/// Puts a declaration of each variable behind a text (Go specification: Variable declarations).
fn push_declarations(
    alloc: Global,
    checked: &Checked,
    member: &Member<'_>,
    variables: &[Variable],
    text: &mut Vec<u8>,
) -> Result<(), Memory>
    requires { AllByRecursion (λ t. t < length checked.now.types.shapes) (variable_types (map variable_view variables.now)) }
    ensures { OnOk result (text.new.items ≡ text.old.items ++ declarations checked.now (member_view member.now) (map variable_view variables.now)) }
{
    for variable in variables {
        text.extend_from_slice(b"var ")?;
        let name = member.local_text(checked, variable.local);
        text.extend_from_slice(named_type(alloc, checked, name, variable.ty)?.as_slice())?;
        text.extend_from_slice(b"; ")?;
    }
    Ok(())
}

/// The names of results: those of assigned free locals, and then of these declared variables.
fn result_names(
    alloc: Global,
    checked: &Checked,
    template: &Template<'_>,
    member: &Member<'_>,
    others: &[u32],
    declared: &[u32],
) -> Result<Vec<Bytes>, Memory>
    requires template { KnowsLocals template.now }
    requires member { IsSound checked.now member.now }
    ensures { IfOk result (λ v. v.items ≡ map (local_text (sources_in checked.now) (member_view member.now)) (locals_by template.now others.now (map variable_view template.now.choice.assigned.items))
        ++ map (result_name (sources_in checked.now) (member_view member.now)) declared.now) }
{
    let assigned = locals_at(alloc, template, others, &template.choice.assigned)?;
    let mut names = Vec::new(alloc);
    push_locals(alloc, checked, member, &assigned, &mut names)?;
    push_declared(alloc, checked, member, declared, &mut names)?;
    Ok(names)
}

/// Puts the names of declared results behind others.
fn push_declared(
    alloc: Global,
    checked: &Checked,
    member: &Member<'_>,
    locals: &[u32],
    names: &mut Vec<Bytes>,
) -> Result<(), Memory>
    requires { IsSound checked.now member.now }
    ensures { OnOk result (names.new.items ≡ names.old.items ++ map (result_name (sources_in checked.now) (member_view member.now)) locals.now) }
{
    for local in locals {
        names.push(Bytes::from_slice(alloc, result_name(checked, member, *local))?)?;
    }
    Ok(())
}

/// A declared result by its name, and `_` where it doesn't occur behind the member.
fn result_name<'c>(checked: &'c Checked, member: &Member<'_>, local: u32) -> &'c [u8]
    requires { IsSound checked.now member.now }
    ensures { result.now ≡ result_name (sources_in checked.entry.now) (member_view member.now) local }
{
    if occurs_later(member, local) {
        member.local_text(checked, local)
    } else {
        b"_"
    }
}

/// Puts the names of results and an equals sign behind a text; nothing where there are none (Go specification: Assignment statements).
fn push_assigning(results: &[Bytes], text: &mut Vec<u8>) -> Result<(), AllocError>
    ensures { OnOk result (text.new.items ≡ text.old.items ++ assigning_text results.now) }
{
    match results {
        [] => Ok(()),
        _ => {
            push_listed(results, text)?;
            text.extend_from_slice(b" = ")
        }
    }
}

/// The arguments: the member's free locals, and then the values of its holes that are parameters.
fn arguments(
    alloc: Global,
    checked: &Checked,
    template: &Template<'_>,
    member: &Member<'_>,
    others: &[u32],
) -> Result<Vec<Bytes>, Memory>
    requires { KnowsLocals template.now }
    ensures { IfOk result (λ v. v.items ≡ map (local_text (sources_in checked.now) (member_view member.now)) (locals_by template.now others.now (map variable_view template.now.choice.free.items))
        ++ map argument_text (constants_at (numbers_shown template.now.choice.holes.items) (member_view member.now))) }
{
    let free = locals_at(alloc, template, others, &template.choice.free)?;
    let mut texts = Vec::new(alloc);
    push_locals(alloc, checked, member, &free, &mut texts)?;
    push_constants(alloc, member, &template.choice.holes, &mut texts)?;
    Ok(texts)
}
