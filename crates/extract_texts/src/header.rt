//! The header of the new function.

ghost use Rattle.std.specs.Prelude.{◌≡◌, ◌++◌, ◌<◌, ℕ, length, map, IfOk, OnOk};
ghost use Rattle.std.specs.List.{AllByRecursion};
ghost use Rattle.std.specs.Option.{option_map};
ghost use Rattle.go_print.specs.Texts.{named};
ghost use Rattle.go_print_laws.specs.Headers.{header_text};
ghost use Rattle.go_types.specs.Tables.{type_of};
ghost use Rattle.param_choose.specs.Choosing.{Choice as Chosen};
ghost use Rattle.param_choose.specs.Handed.{choice_shown, handed};
ghost use Rattle.param_choose.specs.Shown.{variable_view};
ghost use Rattle.escape_check.specs.Places.{sources_in};
ghost use Rattle.escape_check.specs.Shown.{member_view};
ghost use Rattle.escape_check.specs.Types.{declared_text, variable_types};
ghost use Rattle.escape_check.specs.Written.{AreKnownTypes};
ghost use Rattle.extract_texts.specs.Shown.{named_if, named_variables, types_shown, written};
ghost use Rattle.extract_texts.specs.Texts.{header_of};

use crate::pieces::{named_type, push_listed, push_results, written_type};
use crate::template::Template;
use escape_check::member::Member;
use go_base::{Bytes, Memory};
use go_typed::checked::Checked;
use go_types::TypeId;
use param_choose::choice::{Choice, HoleParameter};
use param_choose::variables::Variable;
use std::alloc::Global;

/// Puts the header of the function of this name behind a text, with fresh names for constants that are parameters (Go specification:
/// Function declarations).
pub(crate) fn push_header(
    alloc: Global,
    checked: &Checked,
    name: &[u8],
    template: &Template<'_>,
    fresh: &[Bytes],
    text: &mut Vec<u8>,
) -> Result<(), Memory>
    requires { AreKnownTypes checked.now (choice_shown template.now.choice) }
    ensures { (h : Chosen ℕ) → choice_shown template.now.choice ≡ handed h → OnOk result (text.new.items
        ≡ text.old.items ++ header_text (declared_text (sources_in checked.now)) (header_of (type_of checked.now.types.shapes) (sources_in checked.now) name.now fresh.now (member_view template.now.member) h)) }
{
    let parameters = parameters(alloc, checked, &template.member, &template.choice, fresh)?;
    let results = results(alloc, checked, &template.choice)?;
    text.extend_from_slice(b"func ")?;
    text.extend_from_slice(name)?;
    text.push(b'(')?;
    push_listed(&parameters, text)?;
    text.push(b')')?;
    Ok(push_results(&results, text)?)
}

/// The parameters, each with its type: free locals, and then constants under fresh names.
fn parameters(
    alloc: Global,
    checked: &Checked,
    member: &Member<'_>,
    choice: &Choice,
    fresh: &[Bytes],
) -> Result<Vec<Bytes>, Memory>
    requires { AreKnownTypes checked.now (choice_shown choice.now) }
    ensures { IfOk result (λ v. v.items ≡ named_variables checked.now (member_view member.now) (map variable_view choice.now.free.items)
        ++ named fresh.now (map (written checked.now) (types_shown choice.now.holes.items))) }
{
    let mut parameters = Vec::new(alloc);
    push_free(alloc, checked, member, &choice.free, &mut parameters)?;
    push_holes(alloc, checked, &choice.holes, fresh, &mut parameters)?;
    Ok(parameters)
}

/// Puts variables of a member's function behind other parameters.
fn push_free(
    alloc: Global,
    checked: &Checked,
    member: &Member<'_>,
    variables: &[Variable],
    parameters: &mut Vec<Bytes>,
) -> Result<(), Memory>
    requires { AllByRecursion (λ t. t < length checked.now.types.shapes) (variable_types (map variable_view variables.now)) }
    ensures { OnOk result (parameters.new.items ≡ parameters.old.items ++ named_variables checked.now (member_view member.now) (map variable_view variables.now)) }
{
    for variable in variables {
        let name = member.local_text(checked, variable.local);
        parameters.push(named_type(alloc, checked, name, variable.ty)?)?;
    }
    Ok(())
}

/// Puts holes behind other parameters, under these names.
fn push_holes(
    alloc: Global,
    checked: &Checked,
    holes: &[HoleParameter],
    names: &[Bytes],
    parameters: &mut Vec<Bytes>,
) -> Result<(), Memory>
    requires { AllByRecursion (λ t. t < length checked.now.types.shapes) (types_shown holes.now) }
    ensures { OnOk result (parameters.new.items ≡ parameters.old.items ++ named names.now (map (written checked.now) (types_shown holes.now))) }
{
    let mut index: usize = 0;
    for hole in holes {
        push_named(alloc, checked, names.get(index), hole.ty, parameters)?;
        index += 1;
    }
    Ok(())
}

/// Puts a name with its type behind other parameters, if there is a name.
fn push_named(
    alloc: Global,
    checked: &Checked,
    name: Option<&Bytes>,
    ty: TypeId,
    parameters: &mut Vec<Bytes>,
) -> Result<(), Memory>
    requires { ty < length checked.now.types.shapes }
    ensures { OnOk result (parameters.new.items ≡ parameters.old.items ++ named_if checked.now (option_map (λ n. n.now) name.entry) ty) }
{
    if let Some(name) = name {
        parameters.push(named_type(alloc, checked, name.as_slice(), ty)?)?;
    }
    Ok(())
}

/// The types of the results.
fn results(alloc: Global, checked: &Checked, choice: &Choice) -> Result<Vec<Bytes>, Memory>
    requires { AreKnownTypes checked.now (choice_shown choice.now) }
    ensures { IfOk result (λ v. v.items ≡ map (written checked.now) (variable_types (map variable_view choice.now.assigned.items)) ++ map (written checked.now) (variable_types (map variable_view choice.now.declared.items))) }
{
    let mut results = Vec::new(alloc);
    push_types(alloc, checked, &choice.assigned, &mut results)?;
    push_types(alloc, checked, &choice.declared, &mut results)?;
    Ok(results)
}

/// Puts the types of variables behind others.
fn push_types(
    alloc: Global,
    checked: &Checked,
    variables: &[Variable],
    types: &mut Vec<Bytes>,
) -> Result<(), Memory>
    requires { AllByRecursion (λ t. t < length checked.now.types.shapes) (variable_types (map variable_view variables.now)) }
    ensures { OnOk result (types.new.items ≡ types.old.items ++ map (written checked.now) (variable_types (map variable_view variables.now))) }
{
    for variable in variables {
        types.push(written_type(alloc, checked, variable.ty)?)?;
    }
    Ok(())
}
