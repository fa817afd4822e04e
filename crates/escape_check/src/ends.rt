//! Terminating statements (Go specification: Terminating statements), where a call takes the place of a window.

ghost use Rattle.std.specs.Prelude.{◌≡◌, ◌<◌, ◌≤◌, false, None, map, IfSome};
ghost use Rattle.std.specs.List.{list_all, list_any};
ghost use Rattle.std.specs.Option.{option_map};
ghost use Rattle.go_exprs_rules.specs.Tables.{on_one};
ghost use Rattle.go_stmts_defs.specs.Ending.{breaks, is_default_clause, is_fallthrough, last_falls, loop_ends, part_breaks, terminates};
ghost use Rattle.go_stmts_defs.specs.Targets.{is_panic, is_panic_call};
ghost use Rattle.go_stmts_defs.specs.Rows.{all_clauses_end, both_branches, first_there, last_ends, part_ends};
ghost use Rattle.go_typed.specs.Funcs.{size, sizes};
ghost use Rattle.go_typed.specs.Trees.{form_of, list_of, parts_of, sort_of};
ghost use Rattle.go_typed.specs.Views.{seen, sort_seen, view, views};
ghost use Rattle.escape_check.specs.Called.{all_called, called, keyed_value, last_or, staying};

use go_tree::object::Predeclared;
use go_typed::form::Form;
use go_typed::node::TypedNode;
use go_typed::sort::Sort;
use go_types::Types;

/// The tokens of a window, in whose place a call stands.
#[derive(Clone, Copy)]
pub(crate) struct Gap {
    pub from: u32,
    /// The number of the token behind the last one.
    pub upto: u32,
}

/// What the node is.
pub(crate) fn form_of(types: &Types, node: &TypedNode) -> Form
    ensures { result ≡ form_of (seen types.now node.now) }
{
    let _types = types;
    node.form
}

/// Its parts, in order.
pub(crate) fn parts_of<'a>(types: &Types, node: &'a TypedNode) -> &'a [Option<TypedNode>]
    ensures parts { map (option_map (seen types.now)) result.now ≡ list_of (parts_of (seen types.now node.entry.now)) }
    ensures smaller { sizes (views result.now) < size (view node.entry.now) }
{
    let _types = types;
    &node.parts
}

/// What it stands for.
fn sort_of<'a>(types: &Types, node: &'a TypedNode) -> &'a Sort
    ensures { sort_seen types.now result.now ≡ sort_of (seen types.now node.entry.now) }
{
    let _types = types;
    &node.sort
}

// ---- breaks

/// Whether there is a `break` in a tree that leaves the loop or switch around it.
#[cycle(breaks)]
#[tactic(auto, using(crate::proofs::Called::breaks_by))]
fn breaks(types: &Types, gap: Gap, node: &TypedNode) -> bool
    ensures { result ≡ breaks (called gap (seen types.now node.now)) }
{
    let parts = parts_of(types, node);
    match form_of(types, node) {
        Form::Break => true,
        Form::If => any_breaks(types, gap, parts),
        Form::Block | Form::Case(_) | Form::Default => list_breaks(types, gap, parts),
        _ => false,
    }
}

/// Whether there is one in some parts.
#[cycle(breaks)]
fn any_breaks(types: &Types, gap: Gap, parts: &[Option<TypedNode>]) -> bool
    ensures { result ≡ list_any part_breaks (all_called gap (map (option_map (seen types.now)) parts.now)) }
{
    for part in parts {
        if let Some(node) = part {
            if breaks(types, gap, node) {
                return true;
            }
        }
    }
    false
}

/// Whether there is one in the parts of a statement list.
#[cycle(breaks)]
fn list_breaks(types: &Types, gap: Gap, parts: &[Option<TypedNode>]) -> bool
    ensures { result ≡ list_any part_breaks (all_called gap (staying gap 0 (map (option_map (seen types.now)) parts.now))) }
{
    let mut next = 0;
    for part in parts {
        if let Some(node) = part {
            if node.first < next {
                continue;
            }
            if node.first == gap.from {
                next = gap.upto;
            } else if breaks(types, gap, node) {
                return true;
            }
        }
    }
    false
}

// ---- calls of panic

/// The first of some parts, if it is there.
pub(crate) fn first_there<'a>(
    types: &Types,
    parts: &'a [Option<TypedNode>],
) -> Option<&'a TypedNode>
    ensures part { option_map (λ n. seen types.now n.now) result ≡ first_there (map (option_map (seen types.now)) parts.entry.now) }
    ensures smaller { IfSome result (λ n. size (view n.now) ≤ sizes (views parts.entry.now)) }
{
    let _types = types;
    match parts {
        [Some(first), ..] => Some(first),
        _ => None,
    }
}

/// The value of an element for a field.
fn keyed_value<'a>(types: &Types, node: &'a TypedNode) -> Option<&'a TypedNode>
    ensures value { option_map (λ n. seen types.now n.now) result ≡ keyed_value (seen types.now node.entry.now) }
    ensures smaller { IfSome result (λ n. size (view n.now) < size (view node.entry.now)) }
{
    if !matches!(form_of(types, node), Form::Keyed(_)) {
        return None;
    }
    first_there(types, parts_of(types, node))
}

fn stands_for_panic(types: &Types, sort: &Sort) -> bool
    ensures { result ≡ is_panic (sort_seen types.now sort.now) }
{
    let _types = types;
    matches!(sort, Sort::Builtin(Predeclared::Panic))
}

/// Whether a node stands for `panic`; an element for a field stands for what its value stands for.
#[tactic(auto, using(crate::proofs::Called::panic_by))]
fn is_panic(types: &Types, gap: Gap, node: &TypedNode) -> bool
    ensures { result ≡ is_panic (sort_of (called gap (seen types.now node.now))) }
{
    match keyed_value(types, node) {
        Some(value) => is_panic(types, gap, value),
        None => stands_for_panic(types, sort_of(types, node)),
    }
}

/// Whether an expression calls `panic`, in parentheses too.
#[tactic(auto, using(crate::proofs::Called::panic_call_by))]
fn is_panic_call(types: &Types, gap: Gap, node: &TypedNode) -> bool
    ensures { result ≡ is_panic_call (called gap (seen types.now node.now)) }
{
    let Some(first) = first_there(types, parts_of(types, node)) else {
        return false;
    };
    match form_of(types, node) {
        Form::Parenthesized => is_panic_call(types, gap, first),
        Form::Call => is_panic(types, gap, first),
        _ => false,
    }
}

/// Whether the one part of an expression statement calls `panic`.
pub(crate) fn is_panic_statement(types: &Types, gap: Gap, parts: &[Option<TypedNode>]) -> bool
    ensures { result ≡ on_one false is_panic_call (all_called gap (map (option_map (seen types.now)) parts.now)) }
{
    match parts {
        [Some(expression)] => is_panic_call(types, gap, expression),
        _ => false,
    }
}

// ---- parts

/// The last part of a statement list, if it is there and no call stands in its place.
fn last_part<'a>(types: &Types, gap: Gap, parts: &'a [Option<TypedNode>]) -> Option<&'a TypedNode>
    ensures part { option_map (λ n. seen types.now n.now) result ≡ last_or None (staying gap 0 (map (option_map (seen types.now)) parts.entry.now)) }
    ensures smaller { IfSome result (λ n. size (view n.now) ≤ sizes (views parts.entry.now)) }
{
    let _types = types;
    let mut last = None;
    let mut next = 0;
    for part in parts {
        let Some(node) = part else {
            last = None;
            continue;
        };
        if node.first < next {
            continue;
        }
        last = Some(node);
        if node.first == gap.from {
            last = None;
            next = gap.upto;
        }
    }
    last
}

/// Whether a node of this form is a `fallthrough`.
pub(crate) fn is_fallthrough(form: Form) -> bool
    ensures { result ≡ is_fallthrough form }
{
    matches!(form, Form::Fallthrough)
}

/// Whether the last part of a statement list is `fallthrough`.
fn last_falls(types: &Types, gap: Gap, parts: &[Option<TypedNode>]) -> bool
    ensures { result ≡ last_falls (all_called gap (staying gap 0 (map (option_map (seen types.now)) parts.now))) }
{
    match last_part(types, gap, parts) {
        Some(node) => is_fallthrough(form_of(types, node)),
        None => false,
    }
}

#[tactic(auto, using(crate::proofs::Called::default_by))]
fn is_default(types: &Types, gap: Gap, part: &Option<TypedNode>) -> bool
    ensures { result ≡ is_default_clause (option_map (called gap) (option_map (seen types.now) part.now)) }
{
    match part {
        Some(node) => matches!(form_of(types, node), Form::Default),
        None => false,
    }
}

/// Whether one of the clauses is the default one.
pub(crate) fn has_default(types: &Types, gap: Gap, clauses: &[Option<TypedNode>]) -> bool
    ensures { result ≡ list_any is_default_clause (all_called gap (map (option_map (seen types.now)) clauses.now)) }
{
    for clause in clauses {
        if is_default(types, gap, clause) {
            return true;
        }
    }
    false
}

/// A loop without a condition, and without a `break` that leaves it.
fn loop_ends(types: &Types, gap: Gap, parts: &[Option<TypedNode>]) -> bool
    ensures { result ≡ loop_ends (all_called gap (map (option_map (seen types.now)) parts.now)) }
{
    match parts {
        [_, None, _, Some(block)] => !breaks(types, gap, block),
        [_, None, _, None] => true,
        _ => false,
    }
}

// ---- terminating statements

/// Whether the part is there and terminating.
#[cycle(endings)]
fn part_ends(types: &Types, gap: Gap, part: &Option<TypedNode>) -> bool
    ensures { result ≡ part_ends (option_map (called gap) (option_map (seen types.now) part.now)) }
{
    match part {
        Some(node) => terminates(types, gap, node),
        None => false,
    }
}

/// Whether the last part of a statement list is terminating.
#[cycle(endings)]
fn last_ends(types: &Types, gap: Gap, parts: &[Option<TypedNode>]) -> bool
    ensures { result ≡ last_ends (all_called gap (staying gap 0 (map (option_map (seen types.now)) parts.now))) }
{
    match last_part(types, gap, parts) {
        Some(node) => terminates(types, gap, node),
        None => false,
    }
}

/// Both branches of an `if`.
#[cycle(endings)]
fn branches_end(types: &Types, gap: Gap, parts: &[Option<TypedNode>]) -> bool
    ensures { result ≡ both_branches (all_called gap (map (option_map (seen types.now)) parts.now)) }
{
    match parts {
        [_, _, block, other] => part_ends(types, gap, block) && part_ends(types, gap, other),
        _ => false,
    }
}

#[cycle(endings)]
fn all_end(types: &Types, gap: Gap, clauses: &[Option<TypedNode>]) -> bool
    ensures { result ≡ list_all part_ends (all_called gap (map (option_map (seen types.now)) clauses.now)) }
{
    for clause in clauses {
        if !part_ends(types, gap, clause) {
            return false;
        }
    }
    true
}

/// A switch with a default clause and without a `break` that leaves it, each clause of which ends so.
#[cycle(endings)]
fn clauses_end(types: &Types, gap: Gap, parts: &[Option<TypedNode>]) -> bool
    ensures { result ≡ all_clauses_end (all_called gap (map (option_map (seen types.now)) parts.now)) }
{
    match parts {
        [_, _, clauses @ ..] => {
            has_default(types, gap, clauses)
                && !any_breaks(types, gap, clauses)
                && all_end(types, gap, clauses)
        }
        _ => false,
    }
}

/// Whether the statement is terminating; a clause is where it ends in a terminating statement or `fallthrough`.
#[cycle(endings)]
#[tactic(auto, using(crate::proofs::Called::terminates_by))]
pub(crate) fn terminates(types: &Types, gap: Gap, node: &TypedNode) -> bool
    ensures { result ≡ terminates (called gap (seen types.now node.now)) }
{
    let parts = parts_of(types, node);
    match form_of(types, node) {
        Form::Return => true,
        Form::Expression => is_panic_statement(types, gap, parts),
        Form::Block => last_ends(types, gap, parts),
        Form::If => branches_end(types, gap, parts),
        Form::For => loop_ends(types, gap, parts),
        Form::Switch => clauses_end(types, gap, parts),
        Form::Case(_) | Form::Default => {
            last_ends(types, gap, parts) || last_falls(types, gap, parts)
        }
        _ => false,
    }
}
