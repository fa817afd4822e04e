//! Operations on slices and on what has a length.

#![tactic(auto, using(go_values::proofs::Views::view_nil))]

ghost use Rattle.std.specs.Prelude.{◌≡◌, [], ◌∷◌, IfOk, IfSome, OnErr, length, ◌<◌};
ghost use Rattle.go_types.specs.Tables.{type_of, rights_of};
ghost use Rattle.go_meaning.specs.Planning.{zero_in};
ghost use Rattle.go_eval_plans.specs.Views.{type_in};
ghost use Rattle.go_meaning.specs.Computations as meaning;
ghost use Rattle.go_meaning.specs.Operations.{Append, Capacity, Copy, Gives, Length, MakeSlice, perform};
ghost use Rattle.go_values.specs.Deeds.{IsDone};
ghost use Rattle.go_values.specs.Views.{view, views};
ghost use Rattle.go_values.specs.Worlds.{world_view};

use crate::operands::{at, split};
use crate::zeros::zero_value;
use go_base::Memory;
use go_types::{TypeId, Types};
use go_values::{Stop, Value, World};
use std::alloc::Global;

/// `len` (Go specification, "Length and capacity").
pub fn length(operands: &[Value]) -> Value
    ensures { (w : meaning.World) → perform Length (views operands.now) w ≡ Gives (view result ∷ []) w }
{
    let absent = Value::NilFunction;
    Value::Whole(go_values::length(at(operands, 0, &absent)) as i128)
}

/// `cap` (Go specification, "Length and capacity").
pub fn capacity(operands: &[Value]) -> Value
    ensures { (w : meaning.World) → perform Capacity (views operands.now) w ≡ Gives (view result ∷ []) w }
{
    let absent = Value::NilFunction;
    Value::Whole(go_values::capacity(at(operands, 0, &absent)) as i128)
}

/// `make` of elements of a type (Go specification, "Making slices, maps and channels").
///
/// # Errors
///
/// A length or a capacity out of range; want of memory.
pub fn make_slice(
    alloc: Global,
    types: &Types,
    ty: Option<TypeId>,
    world: &mut World,
    operands: &[Value],
) -> Result<Value, Stop>
    requires { IfSome ty (λ a. a < length types.now.shapes) }
    ensures value { IsDone result (world_view world.new) (perform (MakeSlice (zero_in (rights_of types.now) (type_in (type_of types.now.shapes) ty))) (views operands.now) (world_view world.old)) }
    ensures err { OnErr result (world_view world.new ≡ world_view world.old) }
{
    let zero = zero_value(alloc, types, ty)?;
    let absent = Value::NilFunction;
    let length = at(operands, 0, &absent);
    let capacity = at(operands, operands.len().saturating_sub(1), &absent);
    world.make_slice(alloc, &zero, length, capacity)
}

/// `append` to elements of a type (Go specification, "Appending to and copying slices").
///
/// # Errors
///
/// Want of memory.
pub fn append(
    alloc: Global,
    types: &Types,
    ty: Option<TypeId>,
    world: &mut World,
    operands: Vec<Value>,
) -> Result<Value, Memory>
    requires { IfSome ty (λ a. a < length types.now.shapes) }
    ensures value { IfOk result (λ v. perform (Append (zero_in (rights_of types.now) (type_in (type_of types.now.shapes) ty))) (views operands.items) (world_view world.old) ≡ Gives (view v ∷ []) (world_view world.new)) }
    ensures err { OnErr result (world_view world.new ≡ world_view world.old) }
{
    let zero = zero_value(alloc, types, ty)?;
    let (slice, values) = split(operands);
    world.append(alloc, &zero, slice, values)
}

/// `copy` (Go specification, "Appending to and copying slices").
///
/// # Errors
///
/// Want of memory.
pub fn copy(alloc: Global, world: &mut World, operands: &[Value]) -> Result<Value, Memory>
    ensures value { IfOk result (λ v. perform Copy (views operands.now) (world_view world.old) ≡ Gives (view v ∷ []) (world_view world.new)) }
    ensures err { OnErr result (world_view world.new ≡ world_view world.old) }
{
    let absent = Value::NilFunction;
    let target = at(operands, 0, &absent);
    let source = at(operands, 1, &absent);
    world.copy(alloc, target, source)
}
