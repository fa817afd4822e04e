//! Statements that leave a window: they return, leave a loop or a switch around it, or fall through to the next clause of one.

ghost use Rattle.std.specs.Prelude.{◌≡◌, ◌||◌, false};
ghost use Rattle.std.specs.Option.{option_map};
ghost use Rattle.go_typed.specs.Lists.{present};
ghost use Rattle.go_typed.specs.Places.{nodes, nodes_among};
ghost use Rattle.go_typed.specs.Trees.{form_of};
ghost use Rattle.go_typed.specs.Views.{view, views};
ghost use Rattle.go_stmts_defs.specs.Ending.{is_fallthrough};
ghost use Rattle.escape_check.specs.Firsts.{first, first_where};
ghost use Rattle.escape_check.specs.Places.{node_place, sources_in};
ghost use Rattle.escape_check.specs.Shown.{IsSound, member_view, place_view};
ghost use Rattle.escape_check.specs.Statements.{is_loop, is_return, is_switch, leaves, leaving, leaving_among};

use crate::member::Member;
use crate::place::Place;
use crate::rule::MemberRule;
use go_base::Memory;
use go_typed::checked::Checked;
use go_typed::form::Form;
use go_typed::node::TypedNode;
use std::alloc::Global;

/// A `return` stands in a window (Go specification: Return statements).
pub(crate) struct Returns;

impl MemberRule for Returns {
    ghost use Rattle.escape_check.specs.Places.{sources_in};
    ghost use Rattle.escape_check.specs.Statements.{returns};

    ghost places = { λ _ p m. returns (sources_in p) m };

    ghost knows = { λ _ _. Unit };

    fn place(
        &self,
        _alloc: Global,
        checked: &Checked,
        member: &Member<'_>,
    ) -> Result<Option<Place>, Memory> {
        Ok(place_of(checked, member, first_return(member.statements)))
    }
}

/// A `break` or `continue` has its target outside the window (Go specification: Break statements, Continue statements).
pub(crate) struct Branches;

impl MemberRule for Branches {
    ghost use Rattle.escape_check.specs.Places.{sources_in};
    ghost use Rattle.escape_check.specs.Statements.{branches};

    ghost places = { λ _ p m. branches (sources_in p) m };

    ghost knows = { λ _ _. Unit };

    fn place(
        &self,
        _alloc: Global,
        checked: &Checked,
        member: &Member<'_>,
    ) -> Result<Option<Place>, Memory> {
        let statement = first_leaving_among(Around::nothing(), member.statements);
        Ok(place_of(checked, member, statement))
    }
}

/// A `fallthrough` belongs to a clause that isn't inside the window (Go specification: Fallthrough statements).
pub(crate) struct Falls;

impl MemberRule for Falls {
    ghost use Rattle.escape_check.specs.Places.{sources_in};
    ghost use Rattle.escape_check.specs.Statements.{falls};

    ghost places = { λ _ p m. falls (sources_in p) m };

    ghost knows = { λ _ _. Unit };

    fn place(
        &self,
        _alloc: Global,
        checked: &Checked,
        member: &Member<'_>,
    ) -> Result<Option<Place>, Memory> {
        Ok(place_of(checked, member, first_fallthrough(member.statements)))
    }
}

/// The place of a statement of a member, if there is one.
fn place_of(checked: &Checked, member: &Member<'_>, statement: Option<&TypedNode>) -> Option<Place>
    requires { IsSound checked.now member.now }
    ensures { option_map place_view result ≡ option_map (node_place (sources_in checked.now) (member_view member.now)) (option_map (λ n. view n.now) statement.entry) }
{
    match statement {
        Some(node) => Some(member.place(checked, node.first, node.last)),
        None => None,
    }
}

/// Whether a node of this form is a `return`.
fn is_return(form: Form) -> bool
    ensures { result ≡ is_return form }
{
    matches!(form, Form::Return)
}

/// The first `return` in a tree.
#[cycle(returns)]
#[tactic(auto, using(crate::proofs::Firsts::return_node))]
fn return_in(node: &TypedNode) -> Option<&TypedNode>
    ensures { option_map (λ n. view n.now) result ≡ first_where (λ x. is_return (form_of x)) (nodes (view node.entry.now)) }
{
    if is_return(node.form) {
        return Some(node);
    }
    first_return(&node.parts)
}

/// The first `return` in a row of parts.
#[cycle(returns)]
#[tactic(auto, using(crate::proofs::Firsts::where_append))]
fn first_return(parts: &[Option<TypedNode>]) -> Option<&TypedNode>
    ensures { option_map (λ n. view n.now) result ≡ first_where (λ x. is_return (form_of x)) (nodes_among (views parts.entry.now)) }
{
    for part in parts {
        if let Some(node) = part {
            let found = return_in(node);
            if found.is_some() {
                return found;
            }
        }
    }
    None
}

/// What stands around a statement in its window.
#[derive(Clone, Copy)]
struct Around {
    /// A loop or a switch, which a `break` leaves.
    breakable: bool,
    /// A loop, which a `continue` goes on with.
    looping: bool,
}

impl Around {
    fn nothing() -> Around
        ensures breakable { result.breakable ≡ false }
        ensures looping { result.looping ≡ false }
    {
        Around {
            breakable: false,
            looping: false,
        }
    }

    /// What stands around the parts of a node of this form.
    fn inside(self, form: Form) -> Around
        ensures breakable { result.breakable ≡ (self.breakable || is_loop form || is_switch form) }
        ensures looping { result.looping ≡ (self.looping || is_loop form) }
    {
        let is_loop = is_loop(form);
        Around {
            breakable: self.breakable || is_loop || matches!(form, Form::Switch),
            looping: self.looping || is_loop,
        }
    }

    /// Whether a statement of this form leaves the window.
    fn leaves(self, form: Form) -> bool
        ensures { result ≡ leaves self.breakable self.looping form }
    {
        match form {
            Form::Break => !self.breakable,
            Form::Continue => !self.looping,
            _ => false,
        }
    }
}

fn is_loop(form: Form) -> bool
    ensures { result ≡ is_loop form }
{
    matches!(form, Form::For | Form::Range { .. })
}

/// The first `break` or `continue` in a tree whose target is outside the window.
#[cycle(leaving)]
fn leaving_in(around: Around, node: &TypedNode) -> Option<&TypedNode>
    ensures { option_map (λ n. view n.now) result ≡ first (leaving around.breakable around.looping (view node.entry.now)) }
{
    if around.leaves(node.form) {
        return Some(node);
    }
    first_leaving_among(around.inside(node.form), &node.parts)
}

/// The first one in a row of parts.
#[cycle(leaving)]
#[tactic(auto, using(crate::proofs::Firsts::first_append))]
fn first_leaving_among(around: Around, parts: &[Option<TypedNode>]) -> Option<&TypedNode>
    ensures { option_map (λ n. view n.now) result ≡ first (leaving_among around.breakable around.looping (views parts.entry.now)) }
{
    for part in parts {
        if let Some(node) = part {
            let found = leaving_in(around, node);
            if found.is_some() {
                return found;
            }
        }
    }
    None
}

/// The first `fallthrough` among statements themselves.
fn first_fallthrough(statements: &[Option<TypedNode>]) -> Option<&TypedNode>
    ensures { option_map (λ n. view n.now) result ≡ first_where (λ x. is_fallthrough (form_of x)) (present (views statements.entry.now)) }
{
    for statement in statements {
        if let Some(node) = statement {
            if matches!(node.form, Form::Fallthrough) {
                return Some(node);
            }
        }
    }
    None
}
