//! The specification of a local type (Go specification: Type declarations).
ghost use Rattle.std.specs.Prelude.{◌≡◌, ℕ, ◌<◌, ◌∷◌, List, Option, Some, All, IfOk, IfSome, OnOk, length, map};
ghost use Rattle.std.specs.Option.{option_map};
ghost use Rattle.go_types.specs.Tables.{type_of, rights_of};
ghost use Rattle.go_types_relations.specs.Extends.{Extends};
ghost use Rattle.go_typed.specs.Views.{seen, sort_seen, Known, AllKnown, KnownSort};
ghost use Rattle.go_typed.specs.declared.sort.Sort as program;
ghost use Rattle.go_typed.specs.Scopes.{KnownLocals};
ghost use Rattle.go_exprs_rules.specs.Settling.{Part};
ghost use Rattle.go_stmts_defs.specs.Frames.{Frame};
ghost use Rattle.go_stmts_defs.specs.Laying.{type_number, type_sort, type_name};
ghost use Rattle.go_stmts_defs.specs.Reading as reading;
ghost use Rattle.go_stmts_parts.specs.Late.{late_seen};
ghost use Rattle.go_stmts.specs.State.{Shows, KnownSurroundings};
ghost use Rattle.go_stmts.specs.Types.{late_in, type_over, AreNamed, placed_or};

use crate::beginning::{local_named, own_type};
use crate::state::scope_of;
use crate::{State, Surroundings};
use go_base::Memory;
use go_exprs_engine::label::{is_judged, label};
use go_exprs_rules::nodes::sort_of;
use go_exprs_rules::{Hint, Place};
use go_exprs_types::forms::name_form;
use go_exprs_types::sequence::named_type;
use go_grammar::kind::{Kind, Sort as Declared};
use go_stmts_parts::LateArray;
use go_stmts_parts::late::push_late;
use go_stmts_parts::rights::give_right;
use go_typed::{Form, Sort, TypedNode};
use go_types::{TypeId, Types};
use std::alloc::Global;

/// The declared type that the name of a specification is; the blank identifier names none.
///
/// # Errors
///
/// `Memory` where a local that is no type is declared as one, which resolved names don't do.
pub(crate) fn declared_type(
    types: &Types,
    surroundings: &Surroundings<'_>,
    state: &State<'_>,
    token: u32,
) -> Result<Option<TypeId>, Memory>
    requires surroundings { KnownSurroundings types.now surroundings.now }
    requires locals { KnownLocals (length types.now.shapes) state.now.locals }
    ensures named { (x : program.Sort) (rs : List ℕ) (s : Frame) → Shows types.now surroundings.now state.now x rs s → IfOk result (λ o. AreNamed types.now o (type_number s token)) }
    ensures known { IfOk result (λ o. IfSome o (λ i. i < length types.now.shapes)) }
{
    let Some(number) = local_named(types, surroundings, &state.locals, token) else {
        return Ok(None);
    };
    let of = own_type(surroundings, number)?;
    Ok(Some(of))
}

/// The type that is the right side of a specification of these parts.
pub(crate) fn right_side(types: &Types, parts: &[Option<TypedNode>]) -> Option<TypeId>
    requires { AllKnown (length types.now.shapes) parts.now }
    ensures known { IfSome result (λ t. t < length types.now.shapes) }
    ensures tree { (n : Option Part) → option_map (type_of types.now.shapes) result ≡ reading.right_side (n ∷ map (option_map (seen types.now)) parts.now) }
{
    match parts {
        [Some(node)] => named_type(types, sort_of(types, node)),
        _ => None,
    }
}

/// The array types in the right side whose size can't be told, where it is judged.
pub(crate) fn late_arrays(
    alloc: Global,
    types: &Types,
    parts: &[Option<TypedNode>],
) -> Result<Vec<LateArray>, Memory>
    requires { AllKnown (length types.now.shapes) parts.now }
    ensures found { IfOk result (λ v. map (late_seen types.now) v.items ≡ late_in (rights_of types.now) (map (option_map (seen types.now)) parts.now)) }
    ensures known { IfOk result (λ v. All (λ a. a.of < length types.now.shapes) v.items) }
{
    let mut found = Vec::new(alloc);
    if !is_judged(types, parts) {
        return Ok(found);
    }
    match parts {
        [Some(node)] => {
            push_late(types, node, &mut found)?;
            Ok(found)
        }
        _ => Ok(found),
    }
}

/// What the name of a type stands for.
fn name_sort(types: &Types, named: Option<TypeId>) -> Sort
    requires { IfSome named (λ i. i < length types.now.shapes) }
    ensures tree { (m : Option ℕ) → AreNamed types.now named m → sort_seen types.now result ≡ type_sort m }
    ensures known { KnownSort (length types.now.shapes) result }
{
    let _types = types;
    match named {
        Some(of) => Sort::Type(of),
        None => Sort::Nothing,
    }
}

/// The name of a type that is declared.
fn type_name(
    alloc: Global,
    types: &Types,
    surroundings: &Surroundings<'_>,
    state: &State<'_>,
    named: Option<TypeId>,
    token: u32,
) -> Result<TypedNode, Memory>
    requires surroundings { KnownSurroundings types.now surroundings.now }
    requires locals { KnownLocals (length types.now.shapes) state.now.locals }
    requires named { IfSome named (λ i. i < length types.now.shapes) }
    ensures tree { (x : program.Sort) (rs : List ℕ) (s : Frame) → Shows types.now surroundings.now state.now x rs s → AreNamed types.now named (type_number s token) →
        IfOk result (λ n. seen types.now n ≡ type_name s token) }
    ensures known { IfOk result (Known (length types.now.shapes)) }
{
    let scope = scope_of(surroundings, &state.locals);
    let form = name_form(types, &scope, Hint::Declares, token);
    let Some(last) = token.checked_add(1) else {
        return Err(Memory);
    };
    let sort = name_sort(types, named);
    let parts = Vec::new(alloc);
    let label = label(types, form, sort, &parts);
    Ok(TypedNode::new(form, token, last, label, parts))
}

/// The parts of a specification of a type: its name, and its right side.
#[tactic(auto, using(go_stmts_parts::proofs::Appending::appended, go_stmts_parts::proofs::Appending::known_appended))]
fn named_parts(
    alloc: Global,
    types: &Types,
    name: TypedNode,
    mut parts: Vec<Option<TypedNode>>,
) -> Result<Vec<Option<TypedNode>>, Memory>
    requires name { Known (length types.now.shapes) name }
    requires parts { AllKnown (length types.now.shapes) parts.items }
    ensures parts { IfOk result (λ ps. map (option_map (seen types.now)) ps.items ≡ Some (seen types.now name) ∷ map (option_map (seen types.now)) parts.items) }
    ensures known { IfOk result (λ ps. AllKnown (length types.now.shapes) ps.items) }
{
    let _types = types;
    let mut out = Vec::new(alloc);
    out.push(Some(name))?;
    out.append(&mut parts)?;
    Ok(out)
}

/// The node of a specification of a type over its right side.
pub(crate) fn type_node(
    alloc: Global,
    types: &Types,
    surroundings: &Surroundings<'_>,
    state: &State<'_>,
    named: Option<TypeId>,
    place: Place,
    parts: Vec<Option<TypedNode>>,
) -> Result<TypedNode, Memory>
    requires surroundings { KnownSurroundings types.now surroundings.now }
    requires locals { KnownLocals (length types.now.shapes) state.now.locals }
    requires named { IfSome named (λ i. i < length types.now.shapes) }
    requires parts { AllKnown (length types.now.shapes) parts.items }
    ensures tree { (x : program.Sort) (rs : List ℕ) (s : Frame) → Shows types.now surroundings.now state.now x rs s → AreNamed types.now named (type_number s place.first) →
        IfOk result (λ n. seen types.now n ≡ type_over s place.first place.last (map (option_map (seen types.now)) parts.items)) }
    ensures known { IfOk result (Known (length types.now.shapes)) }
{
    let name = type_name(alloc, types, surroundings, state, named, place.first)?;
    let parts = named_parts(alloc, types, name, parts)?;
    let form = Form::Held(Kind::Specification(Declared::Type));
    let label = label(types, form, Sort::Nothing, &parts);
    Ok(TypedNode::new(form, place.first, place.last, label, parts))
}

/// The name of a type has its right side from now on.
pub(crate) fn set_right(
    types: &mut Types,
    named: Option<TypeId>,
    right: Option<TypeId>,
) -> Result<(), Memory>
    requires named { IfSome named (λ i. i < length types.old.shapes) }
    requires right { IfSome right (λ i. i < length types.old.shapes) }
    ensures extends { Extends types.old types.new }
    ensures shapes { types.new.shapes ≡ types.old.shapes }
    ensures rights { (m : Option ℕ) → AreNamed types.old named m → OnOk result (rights_of types.new ≡ placed_or m (option_map (type_of types.old.shapes) right) (rights_of types.old)) }
{
    types.count();
    match named {
        Some(named) => give_right(types, named, right),
        None => Ok(()),
    }
}
