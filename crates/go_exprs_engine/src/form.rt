//! The form of a node.
ghost use Rattle.std.specs.Prelude.{◌≡◌, ◌<◌, ◌^◌, IfOk, IsTrue, length, map};
ghost use Rattle.std.specs.Option.{option_map};
ghost use Rattle.go_types.specs.Tables.{type_of, rights_of};
ghost use Rattle.go_types_relations.specs.Tests.{underlying_of};
ghost use Rattle.go_typed.specs.Trees.{sort_of};
ghost use Rattle.go_typed.specs.Views.{seen, sort_seen, AllKnown, KnownSort};
ghost use Rattle.go_typed.specs.declared.form.Form.TheVariants as form;
ghost use Rattle.go_exprs_rules.specs.Sorts.{form_of_value};
ghost use Rattle.go_exprs_rules.specs.Hints.{hint_seen, KnownHint};
ghost use Rattle.go_exprs_rules.specs.Tables.{on_first, on_one, callee_form, bracketed_form, field_count, key_form, selector_form, form_by};
ghost use Rattle.go_exprs_types.specs.Naming.{names, KnownScope};

use go_base::Memory;
use go_exprs_rules::nodes::sort_of;
use go_exprs_rules::sorts::own_type;
use go_exprs_rules::{Hint, Place};
use go_exprs_types::Scope;
use go_exprs_types::fields::{key_form, selector_form};
use go_exprs_types::forms::name_form;
use go_grammar::kind::Kind;
use go_typed::{Form, Sort, TypedNode};
use go_types::{Shape, TypeId, Types};
use go_types_relations::underlying;

/// A call, or a conversion where the callee is a type.
fn call_form(types: &Types, parts: &[Option<TypedNode>]) -> Form
    requires { AllKnown (length types.now.shapes) parts.now }
    ensures { result ≡ on_first form.Call (λ f xs. callee_form (sort_of f)) (map (option_map (seen types.now)) parts.now) }
{
    match parts {
        [Some(callee), ..] => match sort_of(types, callee) {
            Sort::Type(_) => Form::Conversion,
            _ => Form::Call,
        },
        _ => Form::Call,
    }
}

fn bracketed_form(types: &Types, parts: &[Option<TypedNode>]) -> Form
    ensures { result ≡ bracketed_form (map (option_map (seen types.now)) parts.now) }
{
    let _types = types;
    match parts {
        [_, _] => Form::Index,
        _ => Form::Slice,
    }
}

/// Whether a struct type has so few fields that 32 bits number them.
#[tactic(auto, using(crate::proofs::Fields::few_fields))]
fn has_few_fields(types: &Types, of: TypeId) -> bool
    requires { of < length types.now.shapes }
    ensures { IsTrue result → field_count (underlying_of (rights_of types.now) (type_of types.now.shapes of)) < 2 ^ 32 }
{
    match underlying(types, of) {
        Some(Shape::Struct { fields }) => fields.as_slice().len() < 1 << 32,
        _ => true,
    }
}

/// The field that a selector names, or `fmt.Println`.
///
/// # Errors
///
/// `Memory`, also where a struct has 2^32 fields or more.
fn selector_node(types: &Types, name: &[u8], parts: &[Option<TypedNode>]) -> Result<Form, Memory>
    requires { AllKnown (length types.now.shapes) parts.now }
    ensures { IfOk result (λ f. f ≡ selector_form (rights_of types.now) name.now (map (option_map (seen types.now)) parts.now)) }
{
    if let [Some(operand)] = parts {
        if let Some(of) = own_type(types, sort_of(types, operand)) {
            if !has_few_fields(types, of) {
                return Err(Memory);
            }
        }
    }
    Ok(selector_form(types, name, parts))
}

/// The element for a field.
///
/// # Errors
///
/// `Memory`, also where a struct has 2^32 fields or more.
fn key_node(types: &Types, hint: Hint, name: &[u8]) -> Result<Form, Memory>
    requires { KnownHint (length types.now.shapes) hint }
    ensures { IfOk result (λ f. f ≡ key_form (rights_of types.now) (hint_seen types.now hint) name.now) }
{
    if let Hint::Member(of) = hint {
        if !has_few_fields(types, of) {
            return Err(Memory);
        }
    }
    Ok(key_form(types, hint, name))
}

/// What a node of the kind is, by its parts as they are laid out.
///
/// # Errors
///
/// `Memory`, also where a struct has 2^32 fields or more.
pub fn form(
    types: &Types,
    scope: &Scope<'_>,
    kind: Kind,
    hint: Hint,
    place: Place,
    parts: &[Option<TypedNode>],
) -> Result<Form, Memory>
    requires scope { KnownScope (length types.now.shapes) scope.now }
    requires hint { KnownHint (length types.now.shapes) hint }
    requires parts { AllKnown (length types.now.shapes) parts.now }
    ensures { IfOk result (λ f. f ≡ form_by (names types.now scope.now) kind (hint_seen types.now hint) place.first place.last (map (option_map (seen types.now)) parts.now)) }
{
    match kind {
        Kind::Name => Ok(name_form(types, scope, hint, place.first)),
        Kind::Integer => Ok(Form::Literal),
        Kind::Rune => Ok(Form::Literal),
        Kind::Text => Ok(Form::Literal),
        Kind::Parenthesized => Ok(Form::Parenthesized),
        Kind::Unary(sign) => Ok(Form::Unary(sign)),
        Kind::Binary(operator) => Ok(Form::Binary(operator)),
        Kind::Selector => { selector_node(types, scope.text(place.last.saturating_sub(1)), parts) }
        Kind::Bracketed => Ok(bracketed_form(types, parts)),
        Kind::Call => Ok(call_form(types, parts)),
        Kind::Composite => Ok(Form::Composite),
        Kind::LiteralValue => Ok(Form::Composite),
        Kind::Keyed => key_node(types, hint, scope.text(place.first)),
        Kind::ParenthesizedType => Ok(Form::Type),
        Kind::SequenceType => Ok(Form::Type),
        Kind::FunctionType => Ok(Form::Type),
        Kind::StructType => Ok(Form::Type),
        _ => Ok(Form::Held(kind)),
    }
}
