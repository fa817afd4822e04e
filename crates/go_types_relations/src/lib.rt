//! What the typing of expressions asks of types, as total functions of trees.
//!
//! Each function of specs/ takes a type as a tree and the right sides of the declared types, and is
//! equal to the relation that go_types has for it (specs/Relations.antt there), for all right sides.
//! Nothing is asked before: of a declared type that has no right side yet nothing is told, so it has
//! no underlying type, isn't comparable, and is assignable where it is identical. The contract of the
//! calls below: for numbers of a table the answer is that of the function. The laws say that answers
//! stay when a table grows and when declared types get other numbers.
#![tactic(auto)]

ghost use Rattle.std.specs.Prelude.{◌≡◌, ◌<◌, IfOk, IfSome, OnErr, length};
ghost use Rattle.std.specs.Option.{option_map};
ghost use Rattle.go_types.specs.Tables.{HasPartsBelow, WasDeclared, tree_of, type_of, rights_of};
ghost use Rattle.go_types.specs.Verdicts.{kept_count};
ghost use Rattle.go_types_relations.specs.Identity.{is_identical};
ghost use Rattle.go_types_relations.specs.Tests.{underlying_of, is_comparable, is_assignable};
ghost use Rattle.go_types_relations.specs.Sizes.{scalars_of};
ghost use Rattle.go_types_relations.specs.Extends.{Grows};

pub mod laws;

use go_base::Memory;
use go_types::{Shape, TypeId, Types};

/// The shape of a type.
pub fn shape(types: &Types, a: TypeId) -> &Shape
    requires { a < length types.now.shapes }
    ensures tree { type_of types.now.shapes a ≡ tree_of (type_of types.now.shapes) result.now }
    ensures parts { HasPartsBelow (length types.now.shapes) result.now }
{
    types.count();
    types.shape(a)
}

/// The shape of the underlying type, or `None` for a declared type that has no right side yet (Go
/// specification, "Underlying types").
pub fn underlying(types: &Types, a: TypeId) -> Option<&Shape>
    requires { a < length types.now.shapes }
    ensures tree { option_map (λ s. tree_of (type_of types.now.shapes) s.now) result ≡ underlying_of (rights_of types.now) (type_of types.now.shapes a) }
    ensures parts { IfSome result (λ s. HasPartsBelow (length types.now.shapes) s.now) }
{
    types.count();
    if types.is_open(a) {
        None
    } else {
        Some(shape(types, types.underlying(a)))
    }
}

/// Whether two types are identical (Go specification, "Type identity").
pub fn identical(types: &Types, a: TypeId, b: TypeId) -> bool
    requires left { a < length types.now.shapes }
    requires right { b < length types.now.shapes }
    ensures { result ≡ is_identical (type_of types.now.shapes a) (type_of types.now.shapes b) }
{
    types.identical(a, b)
}

/// Whether a value of the type `from` is assignable to the type `to` (Go specification,
/// "Assignability").
pub fn assignable(types: &Types, from: TypeId, to: TypeId) -> bool
    requires from { from < length types.now.shapes }
    requires to { to < length types.now.shapes }
    ensures { result ≡ is_assignable (rights_of types.now) (type_of types.now.shapes from) (type_of types.now.shapes to) }
{
    types.count();
    if types.is_open(from) {
        return identical(types, from, to);
    }
    if types.is_open(to) {
        return identical(types, from, to);
    }
    types.assignable(from, to)
}

/// Whether values of the type are comparable (Go specification, "Comparison operators"). Where it
/// can't be told yet they aren't.
pub fn comparable(types: &Types, a: TypeId) -> bool
    requires { a < length types.now.shapes }
    ensures { result ≡ is_comparable (rights_of types.now) (type_of types.now.shapes a) }
{
    types.count();
    types.is_settled(a) && types.comparable(a)
}

/// How many scalars a value of the type has, as `Types::scalars` counts them, or `None` where it
/// can't be told yet. A count above 2^64 - 1 is answered as 2^64 - 1.
pub fn scalars(types: &Types, a: TypeId) -> Option<u64>
    requires { a < length types.now.shapes }
    ensures { result ≡ option_map kept_count (scalars_of (rights_of types.now) (type_of types.now.shapes a)) }
{
    types.count();
    if types.is_settled(a) {
        Some(types.scalars(a))
    } else {
        None
    }
}

/// The number of the type of a shape, which is added if the table lacks it. After `Memory` the table
/// is unchanged.
pub fn intern(types: &mut Types, shape: &Shape) -> Result<TypeId, Memory>
    requires parts { HasPartsBelow (length types.old.shapes) shape.now }
    requires declared { WasDeclared types.old shape.now }
    ensures grows { Grows types.old types.new }
    ensures err { OnErr result (types.new ≡ types.old) }
    ensures within { IfOk result (λ i. i < length types.new.shapes) }
    ensures tree { IfOk result (λ i. type_of types.new.shapes i ≡ tree_of (type_of types.old.shapes) shape.now) }
{
    types.count();
    let interned = types.intern(shape);
    types.count();
    interned
}
