//! When the fields that nodes name have the same names.

ghost use Rattle.std.specs.Prelude.{◌≡◌};
ghost use Rattle.go_types.specs.Tables.{rights_of, type_of};
ghost use Rattle.go_typed.specs.Trees.{Nothing};
ghost use Rattle.go_typed.specs.Views.{sort_view, views};
ghost use Rattle.clone_window.specs.Kinds.{outline};
ghost use Rattle.clone_window.specs.Sameness.{final};
ghost use Rattle.go_types_relations.specs.Identity.{same_name};
ghost use Rattle.go_types_relations.specs.Tests.{underlying_of};
ghost use Rattle.clone_window.specs.Fields as specs;
ghost use Rattle.clone_window.specs.Fields.{field_name, field_of, field_text, names_field};

use crate::alike::{same_bytes, same_type};
use crate::outline::{Outline, outline_of};
use go_typed::form::{Form, Referent};
use go_typed::node::TypedNode;
use go_typed::sort::Sort;
use go_types::{Shape, TypeId, Types};
use go_types_relations::underlying;

/// Whether two nodes of these forms and parts name fields of the same names, if the first one names a field.
pub fn same_field(
    types: &Types,
    owner: &Sort,
    other_owner: &Sort,
    form: Form,
    other_form: Form,
    parts: &[Option<TypedNode>],
    others: &[Option<TypedNode>],
) -> bool
    ensures { result ≡ specs.same_field (names_field (outline form)) (field_name (field_text types.now) (sort_view owner.now) (outline form) (views parts.now))
        (field_name (field_text types.now) (sort_view other_owner.now) (outline other_form) (views others.now)) }
{
    if !names_field(form) {
        return true;
    }
    let nothing = Sort::Nothing;
    let shown = outline_of(form);
    let other_shown = outline_of(other_form);
    same_text(
        types,
        owner_of(owner, shown, parts, &nothing),
        owner_of(other_owner, other_shown, others, &nothing),
        shown.count,
        other_shown.count,
    )
}

/// Whether nodes of this form name a field: selectors, and keys of fields in composite literals. The commonest forms are told apart
/// without their outlines.
fn names_field(form: Form) -> bool
    ensures { result ≡ names_field (outline form) }
{
    match form {
        Form::Expression => false,
        Form::Call => false,
        Form::Literal => false,
        Form::Local(_) => false,
        Form::New(_) => false,
        Form::Binary(_) => false,
        Form::Index => false,
        Form::Block => false,
        Form::Type => false,
        Form::Object(Referent::Function(_)) => false,
        other => shows_field(outline_of(other)),
    }
}

/// The same of what a node shows.
fn shows_field(shown: Outline) -> bool
    ensures { result ≡ names_field shown }
{
    shown.kind == 36 || shown.kind == 51
}

/// Whose field a node names: its first part's, or that of the composite literal in which it stands.
fn owner_of<'a>(
    owner: &'a Sort,
    shown: Outline,
    parts: &'a [Option<TypedNode>],
    nothing: &'a Sort,
) -> &'a Sort
    requires { sort_view nothing.now ≡ Nothing }
    ensures { sort_view result.now ≡ specs.owner_of (sort_view owner.now) shown (views parts.now) }
{
    if shown.kind == 36 {
        operand(parts, nothing)
    } else {
        owner
    }
}

/// What the first part stands for, or the other sort where it is not there.
pub fn operand<'a>(parts: &'a [Option<TypedNode>], nothing: &'a Sort) -> &'a Sort
    requires { sort_view nothing.now ≡ Nothing }
    ensures { sort_view result.now ≡ specs.operand (views parts.now) }
{
    match parts {
        [Some(first), ..] => &first.sort,
        _ => nothing,
    }
}

/// Whether fields of two values have the same name. Those of one place of one type have, so no text is read then.
fn same_text(types: &Types, owner: &Sort, other: &Sort, field: u32, other_field: u32) -> bool
    ensures { result ≡ same_name (field_of (field_text types.now) (final (sort_view owner.now)) field) (field_of (field_text types.now) (final (sort_view other.now)) other_field) }
{
    if field == other_field && same_type(owner, other) {
        return true;
    }
    same_bytes(
        field_text(types, owner, field),
        field_text(types, other, other_field),
    )
}

/// The name of the field of this place of a value; the empty one where there is no such field.
pub fn field_text<'a>(types: &'a Types, owner: &Sort, field: u32) -> &'a [u8]
    ensures { result.now ≡ field_of (field_text types.now) (final (sort_view owner.now)) field }
{
    match owner {
        Sort::Type(ty) => field_in(types, *ty, field),
        Sort::Value(ty) => field_in(types, *ty, field),
        Sort::Constant(ty, _) => field_in(types, ty.id(), field),
        _ => b"",
    }
}

/// The name of the field of this place of a type.
fn field_in(types: &Types, ty: TypeId, field: u32) -> &[u8]
    ensures { result.now ≡ specs.field_in (underlying_of (rights_of types.now) (type_of types.now.shapes ty)) field }
{
    if types.count() <= ty {
        return b"";
    }
    match underlying(types, ty) {
        Some(Shape::Struct { fields }) => match fields.as_slice().get(field as usize) {
            Some(field) => field.name.as_slice(),
            None => b"",
        },
        _ => b"",
    }
}
