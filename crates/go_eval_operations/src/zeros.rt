//! Zero values (Go specification, "The zero value").

ghost use Rattle.std.specs.Prelude.{◌≡◌, ◌<◌, IfOk, IfSome, IsSome, length, replicate};
ghost use Rattle.go_types.specs.Tables.{type_of, rights_of};
ghost use Rattle.go_types_relations.specs.Zeros.{zero_of, zeros_of};
ghost use Rattle.go_meaning.specs.Planning.{zero_in};
ghost use Rattle.go_meaning.specs.Values as meant;
ghost use Rattle.go_eval_plans.specs.Views.{type_in};
ghost use Rattle.go_values.specs.Views.{view, views};
ghost use Rattle.go_eval_operations.specs.Settled.{AreKnown, row_of, zeros_in};

use go_base::Memory;
use go_constants::SharedBytes;
use go_types::{Field, Shape, TypeId, Types};
use go_values::Value;
use std::alloc::Global;

/// The zero value of a type, which is `bool` where none is given; a nil function where the type can't be told yet.
///
/// # Errors
///
/// Want of memory.
pub fn zero_value(alloc: Global, types: &Types, ty: Option<TypeId>) -> Result<Value, Memory>
    requires { IfSome ty (λ a. a < length types.now.shapes) }
    ensures { IfOk result (λ v. view v ≡ meant.zero_value (zero_in (rights_of types.now) (type_in (type_of types.now.shapes) ty))) }
{
    match ty {
        None => Ok(Value::Truth(false)),
        Some(a) => of_type(alloc, types, a),
    }
}

fn of_type(alloc: Global, types: &Types, a: TypeId) -> Result<Value, Memory>
    requires { a < length types.now.shapes }
    ensures { IfOk result (λ v. view v ≡ meant.zero_value (zero_in (rights_of types.now) (type_of types.now.shapes a))) }
{
    match go_types_relations::scalars(types, a) {
        None => Ok(Value::NilFunction),
        Some(_) => of_settled(alloc, types, a),
    }
}

/// The zero value of a type that can be told.
#[cycle(zero)]
fn of_settled(alloc: Global, types: &Types, a: TypeId) -> Result<Value, Memory>
    requires known { a < length types.now.shapes }
    requires told { IsSome (zero_of (rights_of types.now) (type_of types.now.shapes a)) }
    ensures { IfOk result (λ v. view v ≡ meant.zero_value (zero_in (rights_of types.now) (type_of types.now.shapes a))) }
{
    match go_types_relations::underlying(types, a) {
        Some(Shape::Bool) => Ok(Value::Truth(false)),
        Some(Shape::Text) => Ok(Value::Text(SharedBytes::of(Vec::new(alloc))?)),
        Some(Shape::Int(_)) => Ok(Value::Whole(0)),
        Some(Shape::Array { length, elem }) => {
            let element = of_settled(alloc, types, *elem)?;
            Value::of_parts(alloc, copies(alloc, &element, *length)?)
        }
        Some(Shape::Slice { .. }) => Ok(Value::NilSlice),
        Some(Shape::Struct { fields }) => {
            let values = of_fields(alloc, types, fields.as_slice())?;
            Value::of_parts(alloc, values)
        }
        Some(Shape::Func { .. }) => Ok(Value::NilFunction),
        Some(Shape::Named { .. }) => Ok(Value::NilFunction),
        None => Ok(Value::NilFunction),
    }
}

/// The zero values of fields that can be told.
#[cycle(zero)]
fn of_fields(alloc: Global, types: &Types, fields: &[Field]) -> Result<Vec<Value>, Memory>
    requires known { AreKnown (length types.now.shapes) fields.now }
    requires told { IsSome (zeros_of (rights_of types.now) (row_of (type_of types.now.shapes) fields.now)) }
    ensures { IfOk result (λ vs. views vs.items ≡ zeros_in (rights_of types.now) (type_of types.now.shapes) fields.now) }
{
    let mut values = Vec::with_capacity(alloc, fields.len())?;
    for field in fields {
        let value = of_settled(alloc, types, field.ty)?;
        values.push(value)?;
    }
    Ok(values)
}

/// So many copies of a value.
fn copies(alloc: Global, value: &Value, count: u32) -> Result<Vec<Value>, Memory>
    ensures { IfOk result (λ vs. views vs.items ≡ replicate count (view value.now)) }
{
    let mut values = Vec::with_capacity(alloc, count as usize)?;
    for i in 0..count {
        let copy = value.copy_of(alloc)?;
        values.push(copy)?;
    }
    Ok(values)
}
