//! Struct types.
ghost use Rattle.std.specs.Prelude.{◌≡◌, ◌<◌, ◌++◌, ◌∷◌, List, Option, Some, IfOk, OnOk, [], length, map};
ghost use Rattle.std.specs.List.{AllByRecursion};
ghost use Rattle.std.specs.Option.{option_map};
ghost use Rattle.go_types.specs.Tables.{type_of};
ghost use Rattle.go_types_relations.specs.Extends.{Grows};
ghost use Rattle.go_typed.specs.Trees.{IsType, form_of, first_of, sort_of};
ghost use Rattle.go_typed.specs.Views.{seen, sort_seen, AllKnown, Known, KnownSort};
ghost use Rattle.go_exprs_rules.specs.Settling.{Part};
ghost use Rattle.go_exprs_rules.specs.Sorts.{named_type};
ghost use Rattle.go_exprs_rules.specs.TypeNodes.{Fields as FieldRow, is_field_name, fields_of, fields_from, structure_of};
ghost use Rattle.go_exprs_types.specs.Naming.{text_in};
ghost use Rattle.go_exprs_types.specs.Structs.{fields_seen};

use crate::names::shape_sort;
use crate::scope::Scope;
use crate::sequence::named_type;
use go_base::{Bytes, Memory};
use go_exprs_rules::nodes::sort_of;
use go_grammar::kind::Kind;
use go_typed::{Form, Sort, TypedNode};
use go_types::{Field, Fields, Shape, TypeId, Types};
use std::alloc::Global;

fn is_field_name(_types: &Types, node: &TypedNode) -> bool
    ensures { result ≡ is_field_name (form_of (seen _types.now node.now)) }
{
    matches!(node.form, Form::Held(Kind::DeclaredName))
}

fn first_of(_types: &Types, node: &TypedNode) -> u32
    ensures { result ≡ first_of (seen _types.now node.now) }
{
    node.first
}

/// Adds a field of this type for each of the names, which are tokens.
fn push_fields(
    alloc: Global,
    types: &Types,
    scope: &Scope<'_>,
    fields: &mut Vec<Field>,
    names: &[u32],
    of: TypeId,
) -> Result<(), Memory>
    requires of { of < length types.now.shapes }
    requires known { AllByRecursion (λ p. p < length types.now.shapes) (map (λ f. f.ty) fields.old.items) }
    ensures fields { OnOk result ((rest : FieldRow) → fields_seen types.now fields.new.items ++ rest
        ≡ fields_seen types.now fields.old.items ++ fields_of (map (text_in scope.now) names.now) (Some (type_of types.now.shapes of)) rest) }
    ensures known { OnOk result (AllByRecursion (λ p. p < length types.now.shapes) (map (λ f. f.ty) fields.new.items)) }
{
    for name in names {
        fields.push(Field {
            name: Bytes::from_slice(alloc, scope.text(*name))?,
            ty: of,
        })?;
    }
    Ok(())
}

/// Adds the fields of a line, which ends in its type.
#[tactic(auto, using(crate::proofs::FieldRows::no_fields))]
fn push_line(
    alloc: Global,
    types: &Types,
    scope: &Scope<'_>,
    fields: &mut Vec<Field>,
    names: &[u32],
    part: &TypedNode,
) -> Result<(), Memory>
    requires part { Known (length types.now.shapes) part.now }
    requires known { AllByRecursion (λ p. p < length types.now.shapes) (map (λ f. f.ty) fields.old.items) }
    ensures fields { OnOk result ((rest : FieldRow) → fields_seen types.now fields.new.items ++ rest
        ≡ fields_seen types.now fields.old.items ++ fields_of (map (text_in scope.now) names.now) (named_type (sort_of (seen types.now part.now))) rest) }
    ensures known { OnOk result (AllByRecursion (λ p. p < length types.now.shapes) (map (λ f. f.ty) fields.new.items)) }
{
    match named_type(types, sort_of(types, part)) {
        Some(of) => push_fields(alloc, types, scope, fields, names, of),
        None => Ok(()),
    }
}

/// Reads one part of a struct type: a name of a line, which waits for the type, or the type, which ends the line.
fn read_part(
    alloc: Global,
    types: &Types,
    scope: &Scope<'_>,
    fields: &mut Vec<Field>,
    names: &mut Vec<u32>,
    part: &TypedNode,
) -> Result<(), Memory>
    requires part { Known (length types.now.shapes) part.now }
    requires known { AllByRecursion (λ p. p < length types.now.shapes) (map (λ f. f.ty) fields.old.items) }
    ensures fields { OnOk result ((rest : List (Option Part)) → fields_seen types.now fields.new.items ++ fields_from (text_in scope.now) (map (text_in scope.now) names.new.items) rest
        ≡ fields_seen types.now fields.old.items ++ fields_from (text_in scope.now) (map (text_in scope.now) names.old.items) (Some (seen types.now part.now) ∷ rest)) }
    ensures known { OnOk result (AllByRecursion (λ p. p < length types.now.shapes) (map (λ f. f.ty) fields.new.items)) }
{
    if is_field_name(types, part) {
        names.push(first_of(types, part))?;
        return Ok(());
    }
    push_line(alloc, types, scope, fields, names, part)?;
    names.clear();
    Ok(())
}

/// The fields of a struct type: the names of each line with its type (Go specification, "Struct types").
fn fields(
    alloc: Global,
    types: &Types,
    scope: &Scope<'_>,
    parts: &[Option<TypedNode>],
) -> Result<Vec<Field>, Memory>
    requires { AllKnown (length types.now.shapes) parts.now }
    ensures fields { IfOk result (λ v. fields_seen types.now v.items ≡ fields_from (text_in scope.now) [] (map (option_map (seen types.now)) parts.now)) }
    ensures known { IfOk result (λ v. AllByRecursion (λ p. p < length types.now.shapes) (map (λ f. f.ty) v.items)) }
{
    let mut fields = Vec::new(alloc);
    let mut names = Vec::new(alloc);
    for part in parts {
        let Some(part) = part else { continue };
        read_part(alloc, types, scope, &mut fields, &mut names, part)?;
    }
    Ok(fields)
}

/// What a struct type stands for (Go specification, "Struct types"); its parts are names of fields, and types behind them.
///
/// # Errors
///
/// Want of memory. The table grows by the type at most, whatever is answered.
pub fn structure(
    alloc: Global,
    types: &mut Types,
    scope: &Scope<'_>,
    parts: &[Option<TypedNode>],
) -> Result<Sort, Memory>
    requires { AllKnown (length types.old.shapes) parts.now }
    ensures grows { Grows types.old types.new }
    ensures sort { IfOk result (λ s. sort_seen types.new s ≡ IsType (structure_of (fields_from (text_in scope.now) [] (map (option_map (seen types.old)) parts.now)))) }
    ensures known { IfOk result (KnownSort (length types.new.shapes)) }
{
    types.count();
    let shape = Shape::Struct {
        fields: Fields::of(fields(alloc, types, scope, parts)?),
    };
    shape_sort(types, &shape)
}
