//! Terminating statements (Go specification: Terminating statements).
ghost use Rattle.std.specs.Prelude.{◌≡◌, ◌∷◌, [], false, length, map};
ghost use Rattle.std.specs.List.{list_any, list_all};
ghost use Rattle.std.specs.Option.{option_map};
ghost use Rattle.go_typed.specs.Views.{seen, Known, AllKnown};
ghost use Rattle.go_exprs_rules.specs.Tables.{on_one};
ghost use Rattle.go_stmts_defs.specs.Targets.{is_panic_call};
ghost use Rattle.go_stmts_defs.specs.Ending.{lets_break, breaks, part_breaks, loop_ends, last_falls, is_default_clause, terminates};
ghost use Rattle.go_stmts_defs.specs.Rows.{part_ends, last_ends, both_branches, all_clauses_end};

use crate::calls::is_panic_call;
use crate::nodes::{form_of, parts_of};
use go_typed::{Form, TypedNode};
use go_types::Types;

/// Whether a `break` in one of its parts leaves what is around it.
fn lets_break(form: Form) -> bool
    ensures { result ≡ lets_break form }
{
    match form {
        Form::Block => true,
        Form::If => true,
        Form::Case(_) => true,
        Form::Default => true,
        _ => false,
    }
}

/// Whether there is a `break` in it that leaves the loop or switch around it.
#[cycle(breaks)]
#[tactic(auto, using(crate::proofs::Rows::breaks_by))]
fn breaks(types: &Types, node: &TypedNode) -> bool
    requires { Known (length types.now.shapes) node.now }
    ensures { result ≡ breaks (seen types.now node.now) }
{
    let form = form_of(types, node);
    if matches!(form, Form::Break) {
        return true;
    }
    lets_break(form) && any_breaks(types, parts_of(types, node))
}

#[cycle(breaks)]
fn any_breaks(types: &Types, parts: &[Option<TypedNode>]) -> bool
    requires { AllKnown (length types.now.shapes) parts.now }
    ensures { result ≡ list_any part_breaks (map (option_map (seen types.now)) parts.now) }
{
    for part in parts {
        if let Some(part) = part {
            if breaks(types, part) {
                return true;
            }
        }
    }
    false
}

fn is_default(types: &Types, part: &Option<TypedNode>) -> bool
    ensures { result ≡ is_default_clause (option_map (seen types.now) part.now) }
{
    match part {
        Some(node) => matches!(form_of(types, node), Form::Default),
        None => false,
    }
}

/// Whether one of the clauses is the default one.
fn has_default(types: &Types, clauses: &[Option<TypedNode>]) -> bool
    ensures { result ≡ list_any is_default_clause (map (option_map (seen types.now)) clauses.now) }
{
    for clause in clauses {
        if is_default(types, clause) {
            return true;
        }
    }
    false
}

fn is_panic_statement(types: &Types, parts: &[Option<TypedNode>]) -> bool
    requires { AllKnown (length types.now.shapes) parts.now }
    ensures { result ≡ on_one false is_panic_call (map (option_map (seen types.now)) parts.now) }
{
    match parts {
        [Some(expression)] => is_panic_call(types, expression),
        _ => false,
    }
}

/// A loop without a condition, and without a `break` that leaves it.
fn loop_ends(types: &Types, parts: &[Option<TypedNode>]) -> bool
    requires { AllKnown (length types.now.shapes) parts.now }
    ensures { result ≡ loop_ends (map (option_map (seen types.now)) parts.now) }
{
    match parts {
        [_, None, _, Some(block)] => !breaks(types, block),
        [_, None, _, None] => true,
        _ => false,
    }
}

/// Whether the last of some statements is `fallthrough`.
#[tactic(auto, using(crate::proofs::Rows::falls_last))]
fn last_falls(types: &Types, parts: &[Option<TypedNode>]) -> bool
    ensures { result ≡ last_falls (map (option_map (seen types.now)) parts.now) }
{
    match parts.split_last() {
        Some((Some(last), _)) => matches!(form_of(types, last), Form::Fallthrough),
        _ => false,
    }
}

/// Whether the part is there and terminating.
#[cycle(endings)]
fn part_ends(types: &Types, part: &Option<TypedNode>) -> bool
    requires { AllKnown (length types.now.shapes) (part.now ∷ []) }
    ensures { result ≡ part_ends (option_map (seen types.now) part.now) }
{
    match part {
        Some(node) => terminates(types, node),
        None => false,
    }
}

/// Whether the last part is terminating.
#[cycle(endings)]
#[tactic(auto, using(crate::proofs::Rows::ends_last))]
fn last_ends(types: &Types, parts: &[Option<TypedNode>]) -> bool
    requires { AllKnown (length types.now.shapes) parts.now }
    ensures { result ≡ last_ends (map (option_map (seen types.now)) parts.now) }
{
    match parts.split_last() {
        Some((last, _)) => part_ends(types, last),
        None => false,
    }
}

/// Both branches of an `if`.
#[cycle(endings)]
fn branches_end(types: &Types, parts: &[Option<TypedNode>]) -> bool
    requires { AllKnown (length types.now.shapes) parts.now }
    ensures { result ≡ both_branches (map (option_map (seen types.now)) parts.now) }
{
    match parts {
        [_, _, block, other] => part_ends(types, block) && part_ends(types, other),
        _ => false,
    }
}

#[cycle(endings)]
fn all_end(types: &Types, clauses: &[Option<TypedNode>]) -> bool
    requires { AllKnown (length types.now.shapes) clauses.now }
    ensures { result ≡ list_all part_ends (map (option_map (seen types.now)) clauses.now) }
{
    for clause in clauses {
        if !part_ends(types, clause) {
            return false;
        }
    }
    true
}

/// A switch with a default clause and without a `break` that leaves it, each clause of which ends so.
#[cycle(endings)]
fn clauses_end(types: &Types, parts: &[Option<TypedNode>]) -> bool
    requires { AllKnown (length types.now.shapes) parts.now }
    ensures { result ≡ all_clauses_end (map (option_map (seen types.now)) parts.now) }
{
    match parts {
        [_, _, clauses @ ..] => {
            has_default(types, clauses) && !any_breaks(types, clauses) && all_end(types, clauses)
        }
        _ => false,
    }
}

/// Whether the statement is terminating; a clause is where it ends in a terminating statement or `fallthrough`.
#[cycle(endings)]
#[tactic(auto, using(crate::proofs::Rows::terminates_by))]
pub fn terminates(types: &Types, node: &TypedNode) -> bool
    requires { Known (length types.now.shapes) node.now }
    ensures { result ≡ terminates (seen types.now node.now) }
{
    let parts = parts_of(types, node);
    match form_of(types, node) {
        Form::Return => true,
        Form::Expression => is_panic_statement(types, parts),
        Form::Block => last_ends(types, parts),
        Form::If => branches_end(types, parts),
        Form::For => loop_ends(types, parts),
        Form::Switch => clauses_end(types, parts),
        Form::Case(_) => last_ends(types, parts) || last_falls(types, parts),
        Form::Default => last_ends(types, parts) || last_falls(types, parts),
        _ => false,
    }
}
