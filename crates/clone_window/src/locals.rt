//! The locals that windows name.

ghost use Rattle.std.specs.Prelude.{◌≡◌, ◌++◌, false, OnOk, IfOk};
ghost use Rattle.std.specs.Option.{option_to_list};
ghost use Rattle.go_typed.specs.Forms.{local_of};
ghost use Rattle.go_typed.specs.Views.{view, views};
ghost use Rattle.clone_window.specs.Sameness.{all_locals, locals};

use crate::mass::{is_hole, is_inside};
use go_base::Memory;
use go_typed::form::Form;
use go_typed::node::TypedNode;
use std::alloc::{AllocError, Global};

/// The locals that the nodes of statements name, in order of place, outside holes.
///
/// # Errors
///
/// Want of memory.
pub fn locals_of(alloc: Global, statements: &[Option<TypedNode>]) -> Result<Vec<u32>, Memory>
    ensures { IfOk result (λ v. v.items ≡ all_locals false (views statements.now)) }
{
    let mut out = Vec::new(alloc);
    push_all_locals(false, statements, &mut out)?;
    Ok(out)
}

/// Puts the locals that the nodes of a tree name behind the others.
#[cycle(locals)]
fn push_locals(inside: bool, node: &TypedNode, out: &mut Vec<u32>) -> Result<(), AllocError>
    ensures { OnOk result (out.new.items ≡ out.old.items ++ locals inside (view node.now)) }
{
    if is_hole(inside, node) {
        return Ok(());
    }
    push_local(node.form, out)?;
    let within = is_inside(inside, node);
    push_all_locals(within, &node.parts, out)
}

/// Puts the locals that the nodes of a row of parts name behind the others.
#[cycle(locals)]
fn push_all_locals(
    inside: bool,
    parts: &[Option<TypedNode>],
    out: &mut Vec<u32>,
) -> Result<(), AllocError>
    ensures { OnOk result (out.new.items ≡ out.old.items ++ all_locals inside (views parts.now)) }
{
    for part in parts {
        if let Some(node) = part {
            push_locals(inside, node, out)?;
        }
    }
    Ok(())
}

/// Puts the local that a node of this form names behind the others, if it names one.
fn push_local(form: Form, out: &mut Vec<u32>) -> Result<(), AllocError>
    ensures { OnOk result (out.new.items ≡ out.old.items ++ option_to_list (local_of form)) }
{
    match form {
        Form::Local(local) => out.push(local)?,
        Form::New(local) => out.push(local)?,
        Form::Declared(local) => out.push(local)?,
        _ => {}
    }
    Ok(())
}
