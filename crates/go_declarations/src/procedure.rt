//! The function `main` of the package `main`.
ghost use Rattle.std.specs.Prelude.{◌≡◌, ◌<◌, true, length, map};
ghost use Rattle.go_tree.specs.declared.context.Entity.TheVariants as entity;
ghost use Rattle.go_types.specs.Trees.{row};
ghost use Rattle.go_types.specs.Tables.{type_of};
ghost use Rattle.go_typed.specs.Trees.{Value};
ghost use Rattle.go_typed.specs.Views.{sort_seen, KnownSort};
ghost use Rattle.go_package_defs.specs.Answer.{is_procedure};
ghost use Rattle.go_declarations.specs.Procedures.{is_none};

use go_tree::context::Entity;
use go_typed::Sort;
use go_types::{Shape, TypeId, Types};
use go_types_relations::shape;

fn is_empty(_types: &Types, types: &[TypeId]) -> bool
    ensures { result ≡ is_none (row (map (type_of _types.now.shapes) types.now)) }
{
    match types {
        [] => true,
        [_, ..] => false,
    }
}

/// Whether a type is that of functions without parameters and results.
#[tactic(auto, using(crate::proofs::Rows::procedure_is))]
fn takes_nothing(types: &Types, of: TypeId) -> bool
    requires { of < length types.now.shapes }
    ensures { result ≡ is_procedure entity.Function (Value (type_of types.now.shapes of)) }
{
    match shape(types, of) {
        Shape::Func { params, results } => {
            is_empty(types, params.as_slice()) && is_empty(types, results.as_slice())
        }
        _ => false,
    }
}

/// Whether it is a function without parameters and results, as `main` of the package `main` must be (Go specification, "Program
/// execution").
pub fn is_procedure(types: &Types, declares: Entity, sort: &Sort) -> bool
    requires { KnownSort (length types.now.shapes) sort.now }
    ensures { result ≡ is_procedure declares (sort_seen types.now sort.now) }
{
    match (declares, sort) {
        (Entity::Function, Sort::Value(of)) => takes_nothing(types, *of),
        _ => false,
    }
}
