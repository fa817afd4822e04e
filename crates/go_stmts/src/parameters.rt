//! The parameters of a function (Go specification: Function declarations).
ghost use Rattle.std.specs.Prelude.{◌≡◌, IfOk, length, map};
ghost use Rattle.std.specs.Option.{option_map};
ghost use Rattle.go_typed.specs.Forms.{local_of};
ghost use Rattle.go_typed.specs.Views.{seen, Known, AllKnown};
ghost use Rattle.go_exprs_rules.specs.TypeNodes.{is_parameter};
ghost use Rattle.go_stmts_defs.specs.Reading.{first_name, entry_name, entry_names};

use go_base::Memory;
use go_grammar::kind::Kind;
use go_stmts_parts::nodes::{first_there, form_of, parts_of};
use go_typed::{Form, TypedNode};
use go_types::Types;
use std::alloc::Global;

/// The local that a node of this form names, if it names one.
fn local_of(form: Form) -> Option<u32>
    ensures { result ≡ local_of form }
{
    match form {
        Form::Local(number) => Some(number),
        Form::New(number) => Some(number),
        Form::Declared(number) => Some(number),
        _ => None,
    }
}

fn is_parameter(form: Form) -> bool
    ensures { result ≡ is_parameter form }
{
    matches!(form, Form::Held(Kind::Parameter))
}

/// The local that the first of some parts names, if it names one.
#[tactic(auto, using(crate::proofs::Lasts::first_named))]
fn first_name(types: &Types, parts: &[Option<TypedNode>]) -> Option<u32>
    requires { AllKnown (length types.now.shapes) parts.now }
    ensures { result ≡ first_name (map (option_map (seen types.now)) parts.now) }
{
    match first_there(types, parts) {
        Some(name) => local_of(form_of(types, name)),
        None => None,
    }
}

/// The local that an entry of parameters declares, if it declares one.
fn entry_name(types: &Types, entry: &TypedNode) -> Option<u32>
    requires { Known (length types.now.shapes) entry.now }
    ensures { result ≡ entry_name (seen types.now entry.now) }
{
    let form = form_of(types, entry);
    if is_parameter(form) {
        first_name(types, parts_of(types, entry))
    } else {
        local_of(form)
    }
}

/// The locals that the entries of parameters declare, in order; none for one that is blank or has no name.
///
/// # Errors
///
/// Want of memory.
pub fn entry_names(
    alloc: Global,
    types: &Types,
    entries: &[Option<TypedNode>],
) -> Result<Vec<Option<u32>>, Memory>
    requires { AllKnown (length types.now.shapes) entries.now }
    ensures { IfOk result (λ ns. ns.items ≡ entry_names (map (option_map (seen types.now)) entries.now)) }
{
    let mut names = Vec::new(alloc);
    for entry in entries {
        let Some(entry) = entry else { continue };
        names.push(entry_name(types, entry))?;
    }
    Ok(names)
}
