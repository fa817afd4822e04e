//! The locals that the statements of a window declare in the block of their list.

ghost use Rattle.std.specs.Prelude.{◌≡◌, ◌++◌, IfOk, OnOk};
ghost use Rattle.go_typed.specs.Views.{view, views};
ghost use Rattle.param_choose.specs.Locals as specs;
ghost use Rattle.param_choose.specs.Locals.{names_among, names_in, names_of, names_specified, new_in};

use go_typed::form::Form;
use go_typed::node::TypedNode;
use std::alloc::{AllocError, Global};

/// What statements declare in the block of their list, in order (Go specification: Declarations and scope).
///
/// # Errors
///
/// Want of memory.
pub fn names_declared(
    alloc: Global,
    statements: &[Option<TypedNode>],
) -> Result<Vec<u32>, AllocError>
    ensures { IfOk result (λ v. v.items ≡ specs.names_declared (views statements.now)) }
{
    let mut out = Vec::new(alloc);
    for statement in statements {
        if let Some(statement) = statement {
            push_names_of(statement, &mut out)?;
        }
    }
    Ok(out)
}

/// Puts the locals that a statement declares behind the others.
fn push_names_of(statement: &TypedNode, out: &mut Vec<u32>) -> Result<(), AllocError>
    ensures { OnOk result (out.new.items ≡ out.old.items ++ names_of (view statement.now)) }
{
    match statement.form {
        Form::Define(_) => push_names_among(&statement.parts, out),
        Form::Variables => push_names_specified(&statement.parts, out),
        Form::Constants => push_names_among(&statement.parts, out),
        Form::TypeNames => push_names_among(&statement.parts, out),
        _ => Ok(()),
    }
}

/// Puts the locals that specifications declare behind the others.
fn push_names_specified(
    specifications: &[Option<TypedNode>],
    out: &mut Vec<u32>,
) -> Result<(), AllocError>
    ensures { OnOk result (out.new.items ≡ out.old.items ++ names_specified (views specifications.now)) }
{
    for specification in specifications {
        if let Some(specification) = specification {
            push_names_in(specification, out)?;
        }
    }
    Ok(())
}

/// Puts the locals that the parts of a node declare, as they stand there, behind the others.
fn push_names_in(node: &TypedNode, out: &mut Vec<u32>) -> Result<(), AllocError>
    ensures { OnOk result (out.new.items ≡ out.old.items ++ names_in (view node.now)) }
{
    push_names_among(&node.parts, out)
}

/// The same of a row of parts.
fn push_names_among(parts: &[Option<TypedNode>], out: &mut Vec<u32>) -> Result<(), AllocError>
    ensures { OnOk result (out.new.items ≡ out.old.items ++ names_among (views parts.now)) }
{
    for part in parts {
        if let Some(part) = part {
            push_new(part, out)?;
        }
    }
    Ok(())
}

/// Puts the local that a node declares behind the others, if it does so itself.
fn push_new(node: &TypedNode, out: &mut Vec<u32>) -> Result<(), AllocError>
    ensures { OnOk result (out.new.items ≡ out.old.items ++ new_in (view node.now)) }
{
    match node.form {
        Form::New(local) => out.push(local)?,
        Form::Declared(local) => out.push(local)?,
        _ => {}
    }
    Ok(())
}
