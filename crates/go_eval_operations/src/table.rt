//! The operations of plans.

ghost use Rattle.std.specs.Prelude.{◌≡◌, [], ◌∷◌, length};
ghost use Rattle.go_types.specs.Tables.{type_of, rights_of};
ghost use Rattle.go_typed.specs.Views.{all_seen};
ghost use Rattle.go_meaning.specs.Operations.{Print, perform};
ghost use Rattle.go_eval_plans.specs.Known.{KnownOperation};
ghost use Rattle.go_eval_plans.specs.Views.{operation_view};
ghost use Rattle.go_values.specs.Views.{views};
ghost use Rattle.go_values.specs.Worlds.{world_view};
ghost use Rattle.go_eval_operations.specs.Performing.{IsPerformed};

use crate::builds::build;
use crate::cuts::slice_expression;
use crate::numbers::{compare, complement, compute, convert, negate, not};
use crate::operands::kept;
use crate::picks::picked;
use crate::slices::{append, capacity, copy, length, make_slice};
use crate::texts::{byte, bytes_of_text, join, text_of_bytes, text_of_code};
use go_eval_plans::plan::Operation;
use go_grammar::kind::Comparison;
use go_typed::node::TypedNode;
use go_types::Types;
use go_values::{Panic, Stop, Value, World};
use std::alloc::Global;

/// What an operation gives of its operands, and what it does to the world; `parts` are those of the node whose plan it is, and
/// `types` has their types. Where it panics, or memory is wanting, the world stays as it was.
///
/// # Errors
///
/// The panic of the operation; want of memory.
pub fn perform(
    alloc: Global,
    types: &Types,
    parts: &[Option<TypedNode>],
    operation: Operation,
    operands: Vec<Value>,
    world: &mut World,
) -> Result<Option<Value>, Stop>
    requires { KnownOperation (length types.now.shapes) operation }
    ensures { IsPerformed result (perform (operation_view (rights_of types.now) (type_of types.now.shapes) (all_seen types.now parts.now) operation) (views operands.items) (world_view world.old)) (world_view world.old) (world_view world.new) }
{
    let all = operands.as_slice();
    match operation {
        Operation::Compute(kind, op) => Ok(Some(compute(kind, op, all)?)),
        Operation::Compare(comparison) => Ok(Some(compare(comparison, all))),
        Operation::Keep => Ok(Some(kept(operands))),
        Operation::Not => Ok(Some(not(all))),
        Operation::Negate(kind) => Ok(Some(negate(kind, all))),
        Operation::Complement(kind) => Ok(Some(complement(kind, all))),
        Operation::Wrap(kind) => Ok(Some(convert(kind, all))),
        Operation::Join => Ok(Some(join(alloc, all)?)),
        Operation::Byte => Ok(Some(byte(all)?)),
        Operation::TextOfCode => Ok(Some(text_of_code(alloc, all)?)),
        Operation::TextOfBytes => Ok(Some(text_of_bytes(alloc, world, all)?)),
        Operation::BytesOfText => Ok(Some(bytes_of_text(alloc, world, all)?)),
        Operation::Cut { low, high } => Ok(Some(slice_expression(alloc, low, high, all)?)),
        Operation::Length => Ok(Some(length(all))),
        Operation::Capacity => Ok(Some(capacity(all))),
        Operation::Least => Ok(Some(picked(alloc, Comparison::Less, all)?)),
        Operation::Greatest => Ok(Some(picked(alloc, Comparison::Greater, all)?)),
        Operation::MakeSlice(ty) => Ok(Some(make_slice(alloc, types, ty, world, all)?)),
        Operation::Append(ty) => Ok(Some(append(alloc, types, ty, world, operands)?)),
        Operation::Copy => Ok(Some(copy(alloc, world, all)?)),
        Operation::Build(ty) => Ok(Some(build(alloc, types, ty, parts, operands)?)),
        Operation::Gather => Ok(Some(world.gather(alloc, operands)?)),
        Operation::Print => print(alloc, world, all),
        Operation::PanicWith => Err(Stop::Panic(Panic::User)),
        Operation::Drop => Ok(None),
    }
}

/// What is printed gives nothing.
fn print(alloc: Global, world: &mut World, operands: &[Value]) -> Result<Option<Value>, Stop>
    ensures { IsPerformed result (perform Print (views operands.now) (world_view world.old)) (world_view world.old) (world_view world.new) }
{
    world.print(alloc, operands)?;
    Ok(None)
}
