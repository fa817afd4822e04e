//! Where the declared types of a package stand.
ghost use Rattle.std.specs.Prelude.{◌≡◌, ◌+◌, ◌++◌, IfOk, OnOk};
ghost use Rattle.go_package_defs.specs.Checked.{package_origins, local_origins, origins};
ghost use Rattle.go_package_defs.specs.Knowledge.{is_type};

use go_base::Memory;
use go_tree::context::Entity;
use go_tree::object::Declared;
use go_tree::uses::Uses;
use go_typed::Origin;
use std::alloc::Global;

fn is_type(entity: Entity) -> bool
    ensures { result ≡ is_type entity }
{
    matches!(entity, Entity::Type)
}

/// The next number. `Memory` where there is none.
fn next(number: u32) -> Result<u32, Memory>
    ensures { IfOk result (λ n. n ≡ number + 1) }
{
    number.checked_add(1).ok_or(Memory)
}

/// Adds the types among the objects of the package. `Memory` also where their numbers are too large.
fn push_package(origins: &mut Vec<Origin>, objects: &[Declared]) -> Result<(), Memory>
    ensures { OnOk result (origins.new.items ≡ origins.old.items ++ package_origins 0 objects.now) }
{
    let mut number: u32 = 0;
    for object in objects {
        if is_type(object.entity) {
            origins.push(Origin::Package(number))?;
        }
        number = next(number)?;
    }
    Ok(())
}

/// Adds the types among the locals of a function. `Memory` also where their numbers are too large.
fn push_locals(origins: &mut Vec<Origin>, func: u32, locals: &[Declared]) -> Result<(), Memory>
    ensures { OnOk result (origins.new.items ≡ origins.old.items ++ local_origins func 0 locals.now) }
{
    let mut local: u32 = 0;
    for declared in locals {
        if is_type(declared.entity) {
            origins.push(Origin::Local { func, local })?;
        }
        local = next(local)?;
    }
    Ok(())
}

/// Where the declared types of a package stand, by their numbers: those of the package block, and behind them those of the functions
/// (Go specification: Type declarations).
///
/// # Errors
///
/// Want of memory.
pub(crate) fn origins(alloc: Global, uses: &Uses) -> Result<Vec<Origin>, Memory>
    ensures { IfOk result (λ v. v.items ≡ origins uses.now) }
{
    let mut origins = Vec::new(alloc);
    push_package(&mut origins, uses.package_objects())?;
    let mut func: u32 = 0;
    for number in 0..uses.functions() {
        let Some(locals) = uses.locals(number) else {
            return Err(Memory);
        };
        push_locals(&mut origins, func, locals)?;
        func = next(func)?;
    }
    Ok(origins)
}
