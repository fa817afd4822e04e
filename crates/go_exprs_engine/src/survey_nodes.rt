//! A node over typed parts, where a fault doesn't end the typing.
ghost use Rattle.std.specs.Prelude.{◌≡◌, ◌<◌, IfOk, length, map};
ghost use Rattle.std.specs.Option.{option_map};
ghost use Rattle.go_types_relations.specs.Extends.{Grows};
ghost use Rattle.go_typed.specs.Views.{seen, sort_seen, Known, AllKnown, KnownSort};
ghost use Rattle.go_exprs_rules.specs.Faults.{least};
ghost use Rattle.go_exprs_rules.specs.Seen.{AreBasics};
ghost use Rattle.go_exprs_rules.specs.Hints.{hint_seen, KnownHint};
ghost use Rattle.go_exprs_rules.specs.Tables.{placing, own_faults, built_on, built, found};
ghost use Rattle.go_exprs_types.specs.Naming.{names, text_in, KnownScope};
ghost use Rattle.go_exprs_engine.specs.Literals.{Reads};
ghost use Rattle.go_exprs_engine.specs.OverParts.{is_passed_over, unknown, ended, IsFault};

use crate::build::{fitted, is_placed, lost, misplaced};
use crate::judge::judge;
use crate::label::is_judged;
use crate::layout::layout;
use go_base::Memory;
use go_exprs_rules::{Hint, Place, TypeError, TypeFault};
use go_exprs_types::Scope;
use go_grammar::kind::Kind;
use go_typed::{Sort, TypedNode};
use go_types::Types;
use std::alloc::Global;

/// A typed node, and the least fault in it, by place and then by code, if it has one.
#[derive(Debug, Drop)]
pub struct Survey {
    pub node: TypedNode,
    pub fault: Option<TypeFault>,
}

/// The node that stands for this, over its parts as they are laid out, if it may stand in its place; else it stands for nothing
/// known.
fn finish(
    alloc: Global,
    types: &Types,
    scope: &Scope<'_>,
    kind: Kind,
    hint: Hint,
    place: Place,
    sort: Sort,
    parts: Vec<Option<TypedNode>>,
) -> Result<Survey, Memory>
    requires scope { KnownScope (length types.now.shapes) scope.now }
    requires basics { AreBasics types.now scope.now.basics }
    requires hint { KnownHint (length types.now.shapes) hint }
    requires sort { KnownSort (length types.now.shapes) sort }
    requires parts { AllKnown (length types.now.shapes) parts.items }
    ensures tree { let s = names types.now scope.now in let h = hint_seen types.now hint in let i = place.first in let j = place.last in let x = sort_seen types.now sort in let ys = map (option_map (seen types.now)) parts.items in
        IfOk result (λ w. seen types.now w.node ≡ ended s kind h i j ys x (placing s kind h i j x)) }
    ensures fault { IfOk result (λ w. w.fault ≡ least (placing (names types.now scope.now) kind (hint_seen types.now hint) place.first place.last (sort_seen types.now sort))) }
    ensures known { IfOk result (λ w. Known (length types.now.shapes) w.node) }
{
    match misplaced(types, scope, kind, hint, place, &sort) {
        Some(fault) => Ok(Survey {
            node: lost(types, scope, kind, hint, place, parts)?,
            fault: Some(fault),
        }),
        None => Ok(Survey {
            node: fitted(alloc, types, scope, kind, hint, place, sort, parts)?,
            fault: None,
        }),
    }
}

/// Whether a node of the kind isn't judged, since a part has a fault.
fn is_passed_over(types: &Types, kind: Kind, parts: &[Option<TypedNode>]) -> bool
    ensures { result ≡ is_passed_over kind (map (option_map (seen types.now)) parts.now) }
{
    is_placed(kind) && !is_judged(types, parts)
}

/// The node over its parts as they are laid out, of whose rules one fails: it stands for nothing known.
fn failed(
    types: &Types,
    scope: &Scope<'_>,
    kind: Kind,
    hint: Hint,
    place: Place,
    error: TypeError,
    parts: Vec<Option<TypedNode>>,
) -> Result<Survey, Memory>
    requires scope { KnownScope (length types.now.shapes) scope.now }
    requires hint { KnownHint (length types.now.shapes) hint }
    requires parts { AllKnown (length types.now.shapes) parts.items }
    ensures tree { IfOk result (λ w. seen types.now w.node ≡ unknown (names types.now scope.now) kind (hint_seen types.now hint) place.first place.last (map (option_map (seen types.now)) parts.items)) }
    ensures fault { IfOk result (λ w. IsFault error w.fault) }
    ensures known { IfOk result (λ w. Known (length types.now.shapes) w.node) }
{
    match error {
        TypeError::Fault(fault) => Ok(Survey {
            node: lost(types, scope, kind, hint, place, parts)?,
            fault: Some(fault),
        }),
        TypeError::Memory => Err(Memory),
    }
}

/// The node over its parts as they are laid out, and the least fault of its own rules.
fn build_on(
    alloc: Global,
    types: &mut Types,
    scope: &Scope<'_>,
    kind: Kind,
    hint: Hint,
    place: Place,
    parts: Vec<Option<TypedNode>>,
) -> Result<Survey, Memory>
    requires scope { KnownScope (length types.old.shapes) scope.now }
    requires basics { AreBasics types.old scope.now.basics }
    requires hint { KnownHint (length types.old.shapes) hint }
    requires parts { AllKnown (length types.old.shapes) parts.items }
    requires literal { Reads (text_in scope.now) kind place.first }
    ensures grows { Grows types.old types.new }
    ensures tree { let ys = map (option_map (seen types.old)) parts.items in
        IfOk result (λ w. seen types.new w.node ≡ built_on (names types.old scope.now) kind (hint_seen types.old hint) place.first place.last ys) }
    ensures fault { let ys = map (option_map (seen types.old)) parts.items in
        IfOk result (λ w. w.fault ≡ least (own_faults (names types.old scope.now) kind (hint_seen types.old hint) place.first place.last ys)) }
    ensures known { IfOk result (λ w. Known (length types.new.shapes) w.node) }
{
    types.count();
    if is_passed_over(types, kind, &parts) {
        return Ok(Survey {
            node: lost(types, scope, kind, hint, place, parts)?,
            fault: None,
        });
    }
    match judge(alloc, types, scope, kind, hint, place, &parts) {
        Ok(sort) => finish(alloc, types, scope, kind, hint, place, sort, parts),
        Err(error) => failed(types, scope, kind, hint, place, error, parts),
    }
}

/// The typed node of a kind over its typed parts, and the least fault of its own rules.
pub fn build(
    alloc: Global,
    types: &mut Types,
    scope: &Scope<'_>,
    kind: Kind,
    hint: Hint,
    place: Place,
    parts: Vec<Option<TypedNode>>,
) -> Result<Survey, Memory>
    requires scope { KnownScope (length types.old.shapes) scope.now }
    requires basics { AreBasics types.old scope.now.basics }
    requires hint { KnownHint (length types.old.shapes) hint }
    requires parts { AllKnown (length types.old.shapes) parts.items }
    requires literal { Reads (text_in scope.now) kind place.first }
    ensures grows { Grows types.old types.new }
    ensures tree { let xs = map (option_map (seen types.old)) parts.items in
        IfOk result (λ w. seen types.new w.node ≡ built (names types.old scope.now) kind (hint_seen types.old hint) place.first place.last xs) }
    ensures fault { let xs = map (option_map (seen types.old)) parts.items in
        IfOk result (λ w. w.fault ≡ least (found (names types.old scope.now) kind (hint_seen types.old hint) place.first place.last xs)) }
    ensures known { IfOk result (λ w. Known (length types.new.shapes) w.node) }
{
    types.count();
    let parts = layout(alloc, types, kind, parts)?;
    build_on(alloc, types, scope, kind, hint, place, parts)
}
