//! The objects of a package, and the locals of its functions.

ghost use Rattle.std.specs.Prelude.{◌≡◌, IfOk, map};
ghost use Rattle.go_tree.specs.Uses.{declared_by, declared_in_package, begins_function, own_locals, function_locals, uses_by, IsComplete};
ghost use Rattle.go_scopes_lookup.specs.Views.{found_view};

use crate::found::Found;
use go_tree::context::{Block, Entity};
use go_tree::meant::Meant;
use go_tree::object::Declared;
use go_tree::uses::Uses;
use std::alloc::{AllocError, Global};

/// Where and as what it is declared.
fn declared_by(d: &Found<'_>) -> Declared
    ensures { result ≡ declared_by (found_view d.now) }
{
    Declared {
        file: d.file,
        name: d.declaration.name,
        entity: d.declaration.entity,
        block: d.declaration.block,
        scope: d.declaration.scope,
    }
}

/// The objects of the package, in order.
pub fn declared_in_package(
    alloc: Global,
    declared: &[Found<'_>],
) -> Result<Vec<Declared>, AllocError>
    ensures { IfOk result (λ v. v.items ≡ declared_in_package (map found_view declared.now)) }
{
    let mut out = Vec::new(alloc);
    for d in declared {
        if let Block::Package = d.declaration.block {
            out.push(declared_by(d))?;
        }
    }
    Ok(out)
}

/// Whether it declares a function.
fn begins_function(d: &Found<'_>) -> bool
    ensures { result ≡ begins_function (found_view d.now) }
{
    match (d.declaration.block, d.declaration.entity) {
        (Block::Package, Entity::Function) => true,
        _ => false,
    }
}

/// The locals in front of the next function, in order.
fn own_locals(alloc: Global, declared: &[Found<'_>]) -> Result<Vec<Declared>, AllocError>
    ensures { IfOk result (λ v. v.items ≡ own_locals (map found_view declared.now)) }
{
    let mut out = Vec::new(alloc);
    for d in declared {
        if begins_function(d) {
            return Ok(out);
        }
        if let Block::Local(_) = d.declaration.block {
            out.push(declared_by(d))?;
        }
    }
    Ok(out)
}

/// The locals of each function.
pub fn function_locals(
    alloc: Global,
    declared: &[Found<'_>],
) -> Result<Vec<Vec<Declared>>, AllocError>
    ensures { IfOk result (λ v. map (λ v. v.items) v.items ≡ function_locals (map found_view declared.now)) }
{
    let mut out = Vec::new(alloc);
    let mut left = declared;
    while let [d, rest @ ..] = left {
        if begins_function(d) {
            out.push(own_locals(alloc, rest)?)?;
        }
        left = rest;
    }
    Ok(out)
}

/// What the names of a package mean, by the objects of its tokens and its declarations.
///
/// # Errors
///
/// Want of memory.
pub fn uses_of(
    alloc: Global,
    objects: Vec<Vec<Meant>>,
    declared: &[Found<'_>],
) -> Result<Uses, AllocError>
    requires { IsComplete (uses_by (map (λ v. v.items) objects.items) (map found_view declared.now)) }
    ensures { IfOk result (λ u. u ≡ uses_by (map (λ v. v.items) objects.items) (map found_view declared.now)) }
{
    let package_level = declared_in_package(alloc, declared)?;
    let locals = function_locals(alloc, declared)?;
    Ok(Uses::new(objects, package_level, locals))
}
