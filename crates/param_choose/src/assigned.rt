//! The locals that statements assign.

ghost use Rattle.std.specs.Prelude.{◌≡◌, ◌++◌, nat_eq, map, ℕ, Option, Some, None, if◌then◌else◌, IfOk, OnOk};
ghost use Rattle.std.specs.HashSet as set;
ghost use Rattle.std.specs.Option.{option_to_list};
ghost use Rattle.go_typed.specs.Trees as trees;
ghost use Rattle.go_typed.specs.Views.{sort_view, view, views};
ghost use Rattle.clone_window.specs.Fields.{operand};
ghost use Rattle.param_choose.specs.Locals as specs;
ghost use Rattle.param_choose.specs.Locals.{assigned_among, assigned_in, has, is_value, only, root, roots};
ghost use Rattle.param_choose.specs.Shown.{array_in, variable_view};

use crate::variables::Variable;
use go_typed::form::Form;
use go_typed::node::TypedNode;
use go_typed::sort::Sort;
use go_types::{Shape, TypeId, Types};
use go_types_relations::underlying;
use std::alloc::{AllocError, Global};
use std::collections::HashSet;

/// Those of some variables that statements assign.
///
/// # Errors
///
/// Want of memory.
pub fn assigned_of(
    alloc: Global,
    types: &Types,
    statements: &[Option<TypedNode>],
    free: &[Variable],
) -> Result<Vec<Variable>, AllocError>
    ensures { IfOk result (λ v. map variable_view v.items ≡ only (has (assigned_among (array_in types.now) (views statements.now))) (map variable_view free.now)) }
{
    let mut assigned = Vec::new(alloc);
    push_all_assigned(types, statements, &mut assigned)?;
    let assigned = set_of(alloc, &assigned)?;
    these_among(alloc, &assigned, free)
}

/// Those of some variables that are in a set.
fn these_among(
    alloc: Global,
    these: &HashSet<u32>,
    variables: &[Variable],
) -> Result<Vec<Variable>, AllocError>
    ensures { IfOk result (λ v. map variable_view v.items ≡ only (set.contains nat_eq these.now) (map variable_view variables.now)) }
{
    let mut out = Vec::new(alloc);
    for variable in variables {
        if these.contains(&variable.local) {
            out.push(*variable)?;
        }
    }
    Ok(out)
}

/// These numbers as a set.
pub fn set_of(alloc: Global, numbers: &[u32]) -> Result<HashSet<u32>, AllocError>
    ensures { IfOk result (λ s. (n : ℕ) → set.contains nat_eq s n ≡ has numbers.now n) }
{
    let mut set = HashSet::new(alloc);
    for number in numbers {
        set.insert(*number)?;
    }
    Ok(set)
}

/// Puts the locals that a statement assigns behind the others, with the statements inside it.
#[cycle(assigned)]
fn push_assigned(types: &Types, node: &TypedNode, out: &mut Vec<u32>) -> Result<(), AllocError>
    ensures { OnOk result (out.new.items ≡ out.old.items ++ assigned_in (array_in types.now) (view node.now)) }
{
    push_roots(types, left_sides(node.form), &node.parts, out)?;
    push_all_assigned(types, &node.parts, out)
}

/// The same of a row of parts.
#[cycle(assigned)]
fn push_all_assigned(
    types: &Types,
    parts: &[Option<TypedNode>],
    out: &mut Vec<u32>,
) -> Result<(), AllocError>
    ensures { OnOk result (out.new.items ≡ out.old.items ++ assigned_among (array_in types.now) (views parts.now)) }
{
    for part in parts {
        if let Some(node) = part {
            push_assigned(types, node, out)?;
        }
    }
    Ok(())
}

/// How many of the first parts of a node of this form are assigned (Go specification: Assignment statements, IncDec statements,
/// Short variable declarations, For statements with range clause).
fn left_sides(form: Form) -> u32
    ensures { result ≡ specs.left_sides form }
{
    match form {
        Form::Assign(targets) => targets,
        Form::Operate(_) => 1,
        Form::Step(_) => 1,
        Form::Define(names) => names,
        Form::Range {
            defines: false,
            targets,
        } => targets,
        _ => 0,
    }
}

/// Puts the locals of which the first parts are parts behind the others.
fn push_roots(
    types: &Types,
    count: u32,
    parts: &[Option<TypedNode>],
    out: &mut Vec<u32>,
) -> Result<(), AllocError>
    ensures { OnOk result (out.new.items ≡ out.old.items ++ roots (array_in types.now) count (views parts.now)) }
{
    let mut left = count;
    for part in parts {
        if left == 0 {
            return Ok(());
        }
        left -= 1;
        if let Some(node) = part {
            push_root(types, node, out)?;
        }
    }
    Ok(())
}

/// Puts the local of which a node is a part behind the others, if there is one.
fn push_root(types: &Types, node: &TypedNode, out: &mut Vec<u32>) -> Result<(), AllocError>
    ensures { OnOk result (out.new.items ≡ out.old.items ++ option_to_list (root (array_in types.now) (view node.now))) }
{
    if let Some(local) = root_of(types, node) {
        out.push(local)?;
    }
    Ok(())
}

/// The local of which a node is a part, through array elements, fields and parentheses (Go specification: Assignment statements).
#[cycle(roots)]
fn root_of(types: &Types, node: &TypedNode) -> Option<u32>
    ensures { result ≡ root (array_in types.now) (view node.now) }
{
    match node.form {
        Form::Local(local) => own_root(local, &node.sort),
        Form::Parenthesized => first_root(types, &node.parts),
        Form::Selector(_) => first_root(types, &node.parts),
        Form::Index => {
            if holds_array(types, &node.parts) {
                first_root(types, &node.parts)
            } else {
                None
            }
        }
        _ => None,
    }
}

/// The same of the first part, if it is there.
#[cycle(roots)]
fn first_root(types: &Types, parts: &[Option<TypedNode>]) -> Option<u32>
    ensures { result ≡ specs.first_root (array_in types.now) (views parts.now) }
{
    match parts {
        [Some(first), ..] => root_of(types, first),
        _ => None,
    }
}

/// A local, if it is a variable.
fn own_root(local: u32, sort: &Sort) -> Option<u32>
    ensures { result ≡ (if is_value (sort_view sort.now) then Some local else None) }
{
    match sort {
        Sort::Value(_) => Some(local),
        _ => None,
    }
}

/// Whether the first part is an array, whose elements are parts of the variable that it is a part of.
fn holds_array(types: &Types, parts: &[Option<TypedNode>]) -> bool
    ensures { result ≡ array_in types.now (operand (views parts.now)) }
{
    match parts {
        [Some(first), ..] => is_array(types, &first.sort),
        _ => false,
    }
}

/// Whether a value of this sort is an array.
fn is_array(types: &Types, sort: &Sort) -> bool
    ensures { result ≡ array_in types.now (sort_view sort.now) }
{
    match sort {
        Sort::Value(ty) => is_array_type(types, *ty),
        _ => false,
    }
}

/// Whether a type is an array type by its underlying type (Go specification: Underlying types).
#[tactic(auto, using(crate::proofs::Arrays::no_array))]
fn is_array_type(types: &Types, ty: TypeId) -> bool
    ensures { result ≡ array_in types.now (trees.Value ty) }
{
    if types.count() <= ty {
        return false;
    }
    matches!(underlying(types, ty), Some(Shape::Array { .. }))
}
