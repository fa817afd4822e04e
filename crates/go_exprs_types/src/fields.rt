//! Selectors, and the fields that keys of literals name.
ghost use Rattle.std.specs.Prelude.{◌≡◌, ◌<◌, ◌^◌, Some, IfOk, IfSome, length, map, unwrap_or, slice_get};
ghost use Rattle.std.specs.List.{AllByRecursion};
ghost use Rattle.std.specs.Option.{option_map};
ghost use Rattle.go_base.specs.Gives.{Gives};
ghost use Rattle.go_types.specs.declared.shape.Field.{Field};
ghost use Rattle.go_types.specs.Tables.{type_of, rights_of};
ghost use Rattle.go_types_relations.specs.Tests.{underlying_of};
ghost use Rattle.go_typed.specs.Trees.{sort_of};
ghost use Rattle.go_typed.specs.Trees as sort;
ghost use Rattle.go_typed.specs.Views.{seen, sort_seen, AllKnown, KnownSort};
ghost use Rattle.go_exprs_rules.specs.Faults.{least, judged};
ghost use Rattle.go_exprs_rules.specs.Hints.{hint_seen, KnownHint};
ghost use Rattle.go_exprs_rules.specs.Seen.{one_fault};
ghost use Rattle.go_exprs_rules.specs.Sorts.{form_of_value};
ghost use Rattle.go_exprs_rules.specs.Indexes.{field_number, named_field, selector_failing, selector_sort};
ghost use Rattle.go_exprs_rules.specs.Tables.{on_one, selector_rule, selector_form, field_count, key_in_struct, key_form};
ghost use Rattle.go_exprs_types.specs.Structs.{struct_of, struct_seen, member_count};

use go_base::FaultCode;
use go_exprs_rules::nodes::sort_of;
use go_exprs_rules::sorts::own_type;
use go_exprs_rules::{Hint, Place, TypeFault};
use go_typed::{Form, Referent, Sort, TypedNode};
use go_types::{Field, Shape, TypeId, Types};
use go_types_relations::underlying;

/// The number of the first field of a name in a struct type, if it has one (Go specification, "Struct types").
pub fn place_of(types: &Types, of: TypeId, name: &[u8]) -> Option<usize>
    requires { of < length types.now.shapes }
    ensures number { result ≡ field_number (underlying_of (rights_of types.now) (type_of types.now.shapes of)) name.now }
    ensures within { IfSome result (λ n. n < field_count (underlying_of (rights_of types.now) (type_of types.now.shapes of))) }
{
    types.count();
    if types.is_open(of) {
        None
    } else {
        types.field_place(types.underlying(of), name)
    }
}

/// The fields of a struct type.
fn struct_fields(types: &Types, of: TypeId) -> Option<&[Field]>
    requires { of < length types.now.shapes }
    ensures tree { option_map (λ fs. struct_seen types.now fs.now) result ≡ struct_of (underlying_of (rights_of types.now) (type_of types.now.shapes of)) }
    ensures known { IfSome result (λ fs. AllByRecursion (λ p. p < length types.now.shapes) (map (λ f. f.ty) fs.now)) }
{
    match underlying(types, of) {
        Some(Shape::Struct { fields }) => Some(fields.as_slice()),
        _ => None,
    }
}

/// The fields of a value of a struct type.
fn value_fields<'a>(types: &'a Types, operand: &Sort) -> Option<&'a [Field]>
    requires { KnownSort (length types.now.shapes) operand.now }
    ensures tree { option_map (λ fs. struct_seen types.now fs.now) result ≡ struct_of (form_of_value (rights_of types.now) (sort_seen types.now operand.now)) }
    ensures known { IfSome result (λ fs. AllByRecursion (λ p. p < length types.now.shapes) (map (λ f. f.ty) fs.now)) }
{
    match own_type(types, operand) {
        Some(of) => struct_fields(types, of),
        None => None,
    }
}

/// The number of the field of a value that has this name.
fn value_place(types: &Types, name: &[u8], operand: &Sort) -> Option<usize>
    requires { KnownSort (length types.now.shapes) operand.now }
    ensures number { result ≡ field_number (form_of_value (rights_of types.now) (sort_seen types.now operand.now)) name.now }
    ensures within { IfSome result (λ n. n < field_count (form_of_value (rights_of types.now) (sort_seen types.now operand.now))) }
{
    match own_type(types, operand) {
        Some(of) => place_of(types, of, name),
        None => None,
    }
}

/// The type of the field of this number.
fn type_at(fields: &[Field], number: usize) -> TypeId
    requires { number < length fields.now }
    ensures { (f : Field) × (slice_get fields.now number ≡ Some f) × (result ≡ f.ty) }
{
    fields[number].ty
}

/// The type of the field of a value that has this name.
fn field_type(types: &Types, name: &[u8], operand: &Sort) -> Option<TypeId>
    requires { KnownSort (length types.now.shapes) operand.now }
    ensures tree { option_map (type_of types.now.shapes) result ≡ named_field (form_of_value (rights_of types.now) (sort_seen types.now operand.now)) name.now }
    ensures known { IfSome result (λ t. t < length types.now.shapes) }
{
    let Some(fields) = value_fields(types, operand) else {
        return None;
    };
    match value_place(types, name, operand) {
        Some(number) => Some(type_at(fields, number)),
        None => None,
    }
}

fn field_sort(types: &Types, place: Place, name: &[u8], operand: &Sort) -> Result<Sort, TypeFault>
    requires { KnownSort (length types.now.shapes) operand.now }
    ensures exact { let x = sort_seen types.now operand.now in let rights = rights_of types.now in
        Gives (sort_seen types.now) one_fault result (judged (least (selector_failing rights place.first place.last name.now x)) (selector_sort rights name.now x)) }
    ensures known { IfOk result (KnownSort (length types.now.shapes)) }
{
    match operand {
        Sort::Package => Ok(Sort::Println),
        _ => match field_type(types, name, operand) {
            Some(of) => Ok(Sort::Value(of)),
            None => Err(place.fault(FaultCode::Operands)),
        },
    }
}

/// What a selector stands for (Go specification, "Selectors"), or `Operands` where there is no such field. `fmt.Println` has no
/// parts.
pub fn selector(
    types: &Types,
    place: Place,
    name: &[u8],
    parts: &[Option<TypedNode>],
) -> Result<Sort, TypeFault>
    requires parts { AllKnown (length types.now.shapes) parts.now }
    ensures exact { let rights = rights_of types.now in let ys = map (option_map (seen types.now)) parts.now in
        Gives (sort_seen types.now) one_fault result (judged (least (selector_rule rights place.first place.last name.now ys)) (on_one sort.Println (λ x. selector_sort rights name.now (sort_of x)) ys)) }
    ensures known { IfOk result (KnownSort (length types.now.shapes)) }
{
    match parts {
        [Some(operand)] => field_sort(types, place, name, sort_of(types, operand)),
        _ => Ok(Sort::Println),
    }
}

/// The form of a selector, with the number of its field.
pub fn selector_form(types: &Types, name: &[u8], parts: &[Option<TypedNode>]) -> Form
    requires parts { AllKnown (length types.now.shapes) parts.now }
    requires few { on_one 0 (λ x. field_count (form_of_value (rights_of types.now) (sort_of x))) (map (option_map (seen types.now)) parts.now) < 2 ^ 32 }
    ensures { result ≡ selector_form (rights_of types.now) name.now (map (option_map (seen types.now)) parts.now) }
{
    match parts {
        [Some(operand)] => Form::Selector(selected(types, name, sort_of(types, operand))),
        _ => Form::Object(Referent::Println),
    }
}

/// The number of the field of a value that has this name, or 0 where there is none.
fn selected(types: &Types, name: &[u8], operand: &Sort) -> u32
    requires operand { KnownSort (length types.now.shapes) operand.now }
    requires few { field_count (form_of_value (rights_of types.now) (sort_seen types.now operand.now)) < 2 ^ 32 }
    ensures { result ≡ unwrap_or (field_number (form_of_value (rights_of types.now) (sort_seen types.now operand.now)) name.now) 0 }
{
    match value_place(types, name, operand) {
        Some(number) => number as u32,
        None => 0,
    }
}

/// The form of the key of an element, with the number of the field that it names (Go specification, "Composite literals"); where
/// the struct has no such field, with the number of its fields.
pub fn key_form(types: &Types, hint: Hint, name: &[u8]) -> Form
    requires hint { KnownHint (length types.now.shapes) hint }
    requires few { member_count (rights_of types.now) (hint_seen types.now hint) < 2 ^ 32 }
    ensures { result ≡ key_form (rights_of types.now) (hint_seen types.now hint) name.now }
{
    match hint {
        Hint::Member(of) => Form::Keyed(key_number(types, of, name)),
        _ => Form::Keyed(0),
    }
}

fn key_number(types: &Types, of: TypeId, name: &[u8]) -> u32
    requires of { of < length types.now.shapes }
    requires few { field_count (underlying_of (rights_of types.now) (type_of types.now.shapes of)) < 2 ^ 32 }
    ensures { let u = underlying_of (rights_of types.now) (type_of types.now.shapes of) in result ≡ unwrap_or (field_number u name.now) (field_count u) }
{
    match place_of(types, of, name) {
        Some(number) => number as u32,
        None => fields_in(types, of),
    }
}

/// How many fields a struct type has; other types have none.
fn fields_in(types: &Types, of: TypeId) -> u32
    requires of { of < length types.now.shapes }
    requires few { field_count (underlying_of (rights_of types.now) (type_of types.now.shapes of)) < 2 ^ 32 }
    ensures { result ≡ field_count (underlying_of (rights_of types.now) (type_of types.now.shapes of)) }
{
    match struct_fields(types, of) {
        Some(fields) => fields.len() as u32,
        None => 0,
    }
}
