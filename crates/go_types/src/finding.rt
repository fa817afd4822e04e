//! What is found out about a type by what is known of its parts.
ghost use Rattle.std.specs.Prelude.{◌≡◌, ℕ, ◌<◌, List, Some, IfOk, IfErr, IfSome, length, slice_get};
ghost use Rattle.go_types.specs.declared.shape.Shape.{Shape};
ghost use Rattle.go_types.specs.declared.shape.Field.{Field};
ghost use Rattle.go_types.specs.declared.types.Definition.{Definition};
ghost use Rattle.go_types.specs.Tables.{HasPartsBelow};
ghost use Rattle.go_types.specs.Changes.{table_of};
ghost use Rattle.go_types.specs.Verdicts.{AreVerdicts, IsFieldsVerdict};
ghost use Rattle.go_types.specs.Findings.{IsFinding, IsUnknownField};

use crate::shape::{Field, Shape, TypeId};
use crate::types::Definition;
use crate::verdict::Verdict;

/// What is found out about a type.
#[derive(Clone, Copy, Debug)]
pub enum Finding {
    /// This is to be said of it.
    Known(Verdict),
    /// Nothing is known of this part, which stands at this place among the parts.
    Waits { part: TypeId, place: usize },
    /// It is a declared type without a right side.
    Open,
}

impl Finding {
    ghost use Rattle.go_types.specs.Findings.{verdict_of};

    /// What is to be said of the type, if that is known.
    pub fn verdict(self) -> Option<Verdict>
        ensures { result ≡ verdict_of self }
    {
        match self {
            Finding::Known(verdict) => Some(verdict),
            Finding::Waits { .. } | Finding::Open => None,
        }
    }
}

/// What is found out about a type of this shape. Fields are looked at from this place on, where
/// something is known of all before.
pub fn find_out(
    definitions: &[Option<Definition>],
    verdicts: &[Option<Verdict>],
    shape: &Shape,
    from: usize,
) -> Finding
    requires parts { HasPartsBelow (length verdicts.now) shape.now }
    requires declared { (n : ℕ) → shape.now ≡ Shape.Named n → n < length definitions.now }
    requires rights { (n : ℕ) (d : Definition) → slice_get definitions.now n ≡ Some (Some d) → d.right < length verdicts.now }
    ensures { (shapes : List Shape) → AreVerdicts (table_of shapes definitions.now) verdicts.now → IsFinding (table_of shapes definitions.now) verdicts.now shape.now result }
{
    if let Some(comparable) = shape.plain() {
        return Finding::Known(Verdict::plain(comparable));
    }
    match shape {
        Shape::Array { length, elem } => match known(verdicts, *elem) {
            Some(verdict) => Finding::Known(verdict.of_array(*length)),
            None => Finding::Waits {
                part: *elem,
                place: 0,
            },
        },
        Shape::Struct { fields } => {
            let fields = fields.as_slice();
            match look_at_fields(definitions, verdicts, fields, from) {
                Ok(verdict) => Finding::Known(verdict.of_struct()),
                Err(place) => Finding::Waits {
                    part: type_at(fields, place),
                    place,
                },
            }
        }
        Shape::Named { number } => match definitions[*number as usize] {
            Some(definition) => right_finding(verdicts, definition.right),
            None => Finding::Open,
        },
        _ => unreachable!(),
    }
}

/// What is known of a type.
pub fn known(verdicts: &[Option<Verdict>], a: TypeId) -> Option<Verdict>
    requires { a < length verdicts.now }
    ensures { slice_get verdicts.now a ≡ Some result }
{
    verdicts[a as usize]
}

/// What is found out about a declared type of this right side.
fn right_finding(verdicts: &[Option<Verdict>], right: TypeId) -> Finding
    requires { right < length verdicts.now }
    ensures known { (v : Verdict) → result ≡ Finding.Known v → slice_get verdicts.now right ≡ Some (Some v) }
    ensures waits { (part place : ℕ) → result ≡ Finding.Waits part place → (part ≡ right) × (slice_get verdicts.now right ≡ Some None) }
    ensures closed { result ≡ Finding.Open → ⊥ }
{
    match known(verdicts, right) {
        Some(verdict) => Finding::Known(verdict),
        None => Finding::Waits {
            part: right,
            place: 0,
        },
    }
}

/// What is to be said of fields together, or the place of one of whose type nothing is known. It is
/// looked for from a place on first.
fn look_at_fields(
    definitions: &[Option<Definition>],
    verdicts: &[Option<Verdict>],
    fields: &[Field],
    from: usize,
) -> Result<Verdict, usize>
    requires { (k : ℕ) (x : Field) → slice_get fields.now k ≡ Some x → x.ty < length verdicts.now }
    ensures known { (shapes : List Shape) → AreVerdicts (table_of shapes definitions.now) verdicts.now → IfOk result (IsFieldsVerdict (table_of shapes definitions.now) fields.now (length fields.now)) }
    ensures unknown { IfErr result (IsUnknownField verdicts.now fields.now) }
{
    match unknown_field(verdicts, fields, from) {
        Some(place) => Err(place),
        None => fields_verdict(definitions, verdicts, fields),
    }
}

/// The type of the field at a place.
fn type_at(fields: &[Field], place: usize) -> TypeId
    requires { place < length fields.now }
    ensures { (x : Field) → slice_get fields.now place ≡ Some x → result ≡ x.ty }
{
    fields[place].ty
}

/// The first place, from one on, of a field of whose type nothing is known.
fn unknown_field(verdicts: &[Option<Verdict>], fields: &[Field], from: usize) -> Option<usize>
    requires { (k : ℕ) (x : Field) → slice_get fields.now k ≡ Some x → x.ty < length verdicts.now }
    ensures { IfSome result (IsUnknownField verdicts.now fields.now) }
{
    for place in from..fields.len() {
        if known(verdicts, fields[place].ty).is_none() {
            return Some(place);
        }
    }
    None
}

/// What is to be said of fields together, or the place of one of whose type nothing is known.
fn fields_verdict(
    definitions: &[Option<Definition>],
    verdicts: &[Option<Verdict>],
    fields: &[Field],
) -> Result<Verdict, usize>
    requires { (k : ℕ) (x : Field) → slice_get fields.now k ≡ Some x → x.ty < length verdicts.now }
    ensures known { (shapes : List Shape) → AreVerdicts (table_of shapes definitions.now) verdicts.now → IfOk result (IsFieldsVerdict (table_of shapes definitions.now) fields.now (length fields.now)) }
    ensures unknown { IfErr result (IsUnknownField verdicts.now fields.now) }
{
    let mut verdict = Verdict::no_fields();
    for (place, field) in fields.iter().enumerate() {
        match known(verdicts, field.ty) {
            Some(more) => verdict = verdict.with(more),
            None => return Err(place),
        }
    }
    Ok(verdict)
}
