//! Locals that are variables, and those that occur free in a window.

ghost use Rattle.std.specs.Prelude.{◌≡◌, ◌-◌, ◌++◌, [], ◌∷◌, not, nat_eq, map, slice_get, if◌then◌else◌, ℕ, IfOk, OnOk};
ghost use Rattle.std.specs.HashSet as set;
ghost use Rattle.std.specs.Option.{option_to_list};
ghost use Rattle.go_typed.specs.Windows.{uses_from};
ghost use Rattle.param_choose.specs.Members as specs;
ghost use Rattle.param_choose.specs.Members.{declared_between};
ghost use Rattle.param_choose.specs.Locals as spec;
ghost use Rattle.param_choose.specs.Locals.{each_local, has, once, variables_where};
ghost use Rattle.param_choose.specs.Shown.{variable_view};

use go_tree::object::Declared;
use go_typed::func::TypedFunc;
use go_typed::sort::Sort;
use go_types::TypeId;
use std::alloc::{AllocError, Global};
use std::collections::HashSet;

/// A local that is a variable or a parameter, and its type.
#[derive(Clone, Copy, Debug)]
pub struct Variable {
    pub local: u32,
    pub ty: TypeId,
}

/// Where a window stands.
#[derive(Clone, Copy, Debug)]
pub struct Extent {
    /// The number of its function's first token in the file.
    pub first: u32,
    /// The number of its first token, counted from that one.
    pub from: u32,
    /// The number of the token behind its last one, counted so too.
    pub upto: u32,
    /// The number of its first statement among the nodes of its function.
    pub start: u32,
}

/// The local of this number of a function, if it is a variable (Go specification: Variables).
fn variable_at(func: &TypedFunc, local: u32) -> Option<Variable>
    ensures { map variable_view (option_to_list result) ≡ spec.variable_at func.now.locals local }
{
    match func.locals().get(local as usize) {
        Some(Sort::Value(ty)) => Some(Variable { local, ty: *ty }),
        _ => None,
    }
}

/// Puts the local of this number behind the others, if it is a variable.
pub fn push_variable(
    func: &TypedFunc,
    local: u32,
    out: &mut Vec<Variable>,
) -> Result<(), AllocError>
    ensures { OnOk result (map variable_view out.new.items ≡ map variable_view out.old.items ++ spec.variable_at func.now.locals local) }
{
    if let Some(variable) = variable_at(func, local) {
        out.push(variable)?;
    }
    Ok(())
}

/// Whether a local is declared in the window, by the declarations of its function.
pub fn is_inside(declared: &[Declared], extent: Extent, local: u32) -> bool
    ensures { result ≡ declared_between extent.first extent.from extent.upto (slice_get declared.now local) }
{
    match declared.get(local as usize) {
        Some(declared) => is_between(extent, declared.name),
        None => false,
    }
}

/// Whether a token of the file is one of the window.
fn is_between(extent: Extent, token: u32) -> bool
    ensures { result ≡ specs.is_between extent.first extent.from extent.upto token }
{
    let token = u64::from(token);
    let first = u64::from(extent.first);
    first + u64::from(extent.from) <= token && token < first + u64::from(extent.upto)
}

/// The variables and parameters that are declared outside the window and occur in it, by first occurrence.
///
/// # Errors
///
/// Want of memory.
pub fn free_locals(
    alloc: Global,
    func: &TypedFunc,
    declared: &[Declared],
    extent: Extent,
) -> Result<Vec<Variable>, AllocError>
    ensures { IfOk result (λ v. map variable_view v.items ≡ variables_where func.now.locals (λ n. not (declared_between extent.first extent.from extent.upto (slice_get declared.now n)))
        (once [] (each_local (uses_from func.now.tokens extent.from (extent.upto - extent.from))))) }
{
    let locals = occurring(alloc, func, extent.from, extent.upto)?;
    these_free(alloc, func, declared, extent, &locals)
}

/// The variables among some locals that are declared outside the window.
fn these_free(
    alloc: Global,
    func: &TypedFunc,
    declared: &[Declared],
    extent: Extent,
    locals: &[u32],
) -> Result<Vec<Variable>, AllocError>
    ensures { IfOk result (λ v. map variable_view v.items ≡ variables_where func.now.locals (λ n. not (declared_between extent.first extent.from extent.upto (slice_get declared.now n))) locals.now) }
{
    let mut out = Vec::new(alloc);
    for local in locals {
        push_free(func, declared, extent, *local, &mut out)?;
    }
    Ok(out)
}

/// Puts a local behind the others, if it is a variable that is declared outside the window.
fn push_free(
    func: &TypedFunc,
    declared: &[Declared],
    extent: Extent,
    local: u32,
    out: &mut Vec<Variable>,
) -> Result<(), AllocError>
    ensures { OnOk result (map variable_view out.new.items ≡ map variable_view out.old.items
        ++ (if not (declared_between extent.first extent.from extent.upto (slice_get declared.now local)) then spec.variable_at func.now.locals local else [])) }
{
    if !is_inside(declared, extent, local) {
        push_variable(func, local, out)?;
    }
    Ok(())
}

/// The locals that tokens of a function name, from one up to another, each once, by first occurrence.
#[tactic(auto, using(crate::proofs::Tokens::locals_next, crate::proofs::Tokens::no_uses, crate::proofs::Tokens::once_more))]
fn occurring(alloc: Global, func: &TypedFunc, from: u32, upto: u32) -> Result<Vec<u32>, AllocError>
    ensures { IfOk result (λ v. v.items ≡ once [] (each_local (uses_from func.now.tokens from (upto - from)))) }
{
    let mut seen = HashSet::new(alloc);
    let mut out = Vec::new(alloc);
    for token in from..upto {
        if let Some(local) = func.local_at(token) {
            note(local, &mut seen, &mut out)?;
        }
    }
    Ok(out)
}

/// Puts a local behind the others, unless it is among them. The set has the same ones.
fn note(local: u32, seen: &mut HashSet<u32>, out: &mut Vec<u32>) -> Result<(), AllocError>
    requires { (n : ℕ) → set.contains nat_eq seen.old n ≡ has out.old.items n }
    ensures same { OnOk result ((n : ℕ) → set.contains nat_eq seen.new n ≡ has out.new.items n) }
    ensures out { OnOk result (out.new.items ≡ (if has out.old.items local then out.old.items else out.old.items ++ local ∷ [])) }
{
    if seen.insert(local)? {
        out.push(local)?;
    }
    Ok(())
}
