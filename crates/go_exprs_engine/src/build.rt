//! The typed node over typed parts.
ghost use Rattle.std.specs.Prelude.{◌≡◌, ◌<◌, IfOk, length, map};
ghost use Rattle.std.specs.Option.{option_map};
ghost use Rattle.go_base.specs.Gives.{Gives};
ghost use Rattle.go_types_relations.specs.Extends.{Grows};
ghost use Rattle.go_typed.specs.Trees.{Unknown};
ghost use Rattle.go_typed.specs.Views.{seen, sort_seen, Known, AllKnown, KnownSort};
ghost use Rattle.go_exprs_rules.specs.Faults.{least, judged, refusal_of};
ghost use Rattle.go_exprs_rules.specs.Seen.{AreBasics};
ghost use Rattle.go_exprs_rules.specs.Hints.{hint_seen, KnownHint};
ghost use Rattle.go_exprs_rules.specs.Tables.{is_placed, placing, own_faults, form_by, takes, all_given, made, built_on, built, found};
ghost use Rattle.go_exprs_types.specs.Naming.{names, text_in, KnownScope};
ghost use Rattle.go_exprs_engine.specs.Literals.{Reads};

use crate::form::form;
use crate::judge::judge;
use crate::label::{is_judged, label};
use crate::layout::layout;
use crate::settle::give_all;
use crate::takes::takes;
use go_base::Memory;
use go_exprs_rules::place::placed;
use go_exprs_rules::{Hint, Place, TypeError, TypeFault};
use go_exprs_types::Scope;
use go_grammar::kind::Kind;
use go_typed::{Sort, TypedNode};
use go_types::Types;
use std::alloc::Global;

/// Whether nodes of the kind are expressions or types, which have a place; other nodes only hold parts.
pub fn is_placed(kind: Kind) -> bool
    ensures { result ≡ is_placed kind }
{
    match kind {
        Kind::Name
        | Kind::Integer
        | Kind::Rune
        | Kind::Text
        | Kind::Parenthesized
        | Kind::Unary(_)
        | Kind::Binary(_)
        | Kind::Selector
        | Kind::Bracketed
        | Kind::Call
        | Kind::Composite
        | Kind::LiteralValue
        | Kind::SequenceType
        | Kind::FunctionType
        | Kind::StructType
        | Kind::ParenthesizedType => true,
        _ => false,
    }
}

/// The fault of an expression or a type in its place.
pub fn misplaced(
    types: &Types,
    scope: &Scope<'_>,
    kind: Kind,
    hint: Hint,
    place: Place,
    sort: &Sort,
) -> Option<TypeFault>
    requires { KnownSort (length types.now.shapes) sort.now }
    ensures { result ≡ least (placing (names types.now scope.now) kind (hint_seen types.now hint) place.first place.last (sort_seen types.now sort.now)) }
{
    let _scope = scope;
    if is_placed(kind) {
        placed(types, place, hint, sort)
    } else {
        None
    }
}

/// A node with a part that has a fault or no type: it stands for nothing known.
///
/// # Errors
///
/// Want of memory.
pub fn lost(
    types: &Types,
    scope: &Scope<'_>,
    kind: Kind,
    hint: Hint,
    place: Place,
    parts: Vec<Option<TypedNode>>,
) -> Result<TypedNode, Memory>
    requires scope { KnownScope (length types.now.shapes) scope.now }
    requires hint { KnownHint (length types.now.shapes) hint }
    requires parts { AllKnown (length types.now.shapes) parts.items }
    ensures tree { let s = names types.now scope.now in let h = hint_seen types.now hint in let ys = map (option_map (seen types.now)) parts.items in
        IfOk result (λ n. seen types.now n ≡ made (form_by s kind h place.first place.last ys) place.first place.last Unknown ys ys) }
    ensures known { IfOk result (Known (length types.now.shapes)) }
{
    let form = form(types, scope, kind, hint, place, &parts)?;
    let label = label(types, form, Sort::Unknown, &parts);
    Ok(TypedNode::new(form, place.first, place.last, label, parts))
}

/// The node that stands for this, over its parts as they are laid out, which take what it gives them.
///
/// # Errors
///
/// Want of memory.
pub fn fitted(
    alloc: Global,
    types: &Types,
    scope: &Scope<'_>,
    kind: Kind,
    hint: Hint,
    place: Place,
    sort: Sort,
    mut parts: Vec<Option<TypedNode>>,
) -> Result<TypedNode, Memory>
    requires scope { KnownScope (length types.now.shapes) scope.now }
    requires basics { AreBasics types.now scope.now.basics }
    requires hint { KnownHint (length types.now.shapes) hint }
    requires sort { KnownSort (length types.now.shapes) sort }
    requires parts { AllKnown (length types.now.shapes) parts.items }
    ensures tree { let s = names types.now scope.now in let h = hint_seen types.now hint in let i = place.first in let j = place.last in let x = sort_seen types.now sort in let ys = map (option_map (seen types.now)) parts.items in
        IfOk result (λ n. seen types.now n ≡ made (form_by s kind h i j ys) i j x ys (all_given (takes s kind h ys) ys)) }
    ensures known { IfOk result (Known (length types.now.shapes)) }
{
    let form = form(types, scope, kind, hint, place, &parts)?;
    let label = label(types, form, sort, &parts);
    let takes = takes(alloc, types, scope, kind, hint, &parts)?;
    give_all(types, scope.basics, &takes, &mut parts)?;
    Ok(TypedNode::new(form, place.first, place.last, label, parts))
}

/// The same, or the fault of the node's place.
fn finish(
    alloc: Global,
    types: &Types,
    scope: &Scope<'_>,
    kind: Kind,
    hint: Hint,
    place: Place,
    sort: Sort,
    parts: Vec<Option<TypedNode>>,
) -> Result<TypedNode, TypeError>
    requires scope { KnownScope (length types.now.shapes) scope.now }
    requires basics { AreBasics types.now scope.now.basics }
    requires hint { KnownHint (length types.now.shapes) hint }
    requires sort { KnownSort (length types.now.shapes) sort }
    requires parts { AllKnown (length types.now.shapes) parts.items }
    ensures exact { let s = names types.now scope.now in let h = hint_seen types.now hint in let i = place.first in let j = place.last in let x = sort_seen types.now sort in let ys = map (option_map (seen types.now)) parts.items in
        Gives (seen types.now) refusal_of result (judged (least (placing s kind h i j x)) (made (form_by s kind h i j ys) i j x ys (all_given (takes s kind h ys) ys))) }
    ensures known { IfOk result (Known (length types.now.shapes)) }
{
    if let Some(fault) = misplaced(types, scope, kind, hint, place, &sort) {
        return Err(TypeError::Fault(fault));
    }
    Ok(fitted(alloc, types, scope, kind, hint, place, sort, parts)?)
}

/// The node over its parts as they are laid out, or the fault of its rules.
fn build_on(
    alloc: Global,
    types: &mut Types,
    scope: &Scope<'_>,
    kind: Kind,
    hint: Hint,
    place: Place,
    parts: Vec<Option<TypedNode>>,
) -> Result<TypedNode, TypeError>
    requires scope { KnownScope (length types.old.shapes) scope.now }
    requires basics { AreBasics types.old scope.now.basics }
    requires hint { KnownHint (length types.old.shapes) hint }
    requires parts { AllKnown (length types.old.shapes) parts.items }
    requires literal { Reads (text_in scope.now) kind place.first }
    ensures grows { Grows types.old types.new }
    ensures exact { let s = names types.old scope.now in let h = hint_seen types.old hint in let i = place.first in let j = place.last in let ys = map (option_map (seen types.old)) parts.items in
        Gives (seen types.new) refusal_of result (judged (least (own_faults s kind h i j ys)) (built_on s kind h i j ys)) }
    ensures known { IfOk result (Known (length types.new.shapes)) }
{
    types.count();
    if is_placed(kind) && !is_judged(types, &parts) {
        return Ok(lost(types, scope, kind, hint, place, parts)?);
    }
    let sort = judge(alloc, types, scope, kind, hint, place, &parts)?;
    finish(alloc, types, scope, kind, hint, place, sort, parts)
}

/// The typed node of a kind over its typed parts, or the first fault of its rules.
///
/// # Errors
///
/// The fault, or want of memory.
pub fn build(
    alloc: Global,
    types: &mut Types,
    scope: &Scope<'_>,
    kind: Kind,
    hint: Hint,
    place: Place,
    parts: Vec<Option<TypedNode>>,
) -> Result<TypedNode, TypeError>
    requires scope { KnownScope (length types.old.shapes) scope.now }
    requires basics { AreBasics types.old scope.now.basics }
    requires hint { KnownHint (length types.old.shapes) hint }
    requires parts { AllKnown (length types.old.shapes) parts.items }
    requires literal { Reads (text_in scope.now) kind place.first }
    ensures grows { Grows types.old types.new }
    ensures exact { let s = names types.old scope.now in let h = hint_seen types.old hint in let i = place.first in let j = place.last in let xs = map (option_map (seen types.old)) parts.items in
        Gives (seen types.new) refusal_of result (judged (least (found s kind h i j xs)) (built s kind h i j xs)) }
    ensures known { IfOk result (Known (length types.new.shapes)) }
{
    types.count();
    let parts = layout(alloc, types, kind, parts)?;
    build_on(alloc, types, scope, kind, hint, place, parts)
}
