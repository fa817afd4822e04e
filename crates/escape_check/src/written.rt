//! Locals that a new function can't name, or where it can't name them.

ghost use Rattle.std.specs.Prelude.{◌≡◌, ◌&&◌, ◌||◌, ℕ, not, nat_eq, nat_le, nat_lt, IfOk, OnOk};
ghost use Rattle.std.specs.HashSet as set;
ghost use Rattle.std.specs.List.{list_any};
ghost use Rattle.std.specs.Option.{option_map};
ghost use Rattle.go_typed.specs.declared.walk.LocalUse.{LocalUse as Use};
ghost use Rattle.go_typed.specs.Places.{covers, nodes, nodes_among};
ghost use Rattle.go_typed.specs.Trees.{form_of};
ghost use Rattle.go_typed.specs.Views.{view, views};
ghost use Rattle.param_choose.specs.Holes.{is_outer};
ghost use Rattle.param_choose.specs.Members.{uses_within};
ghost use Rattle.param_choose.specs.Shown.{holes_view};
ghost use Rattle.escape_check.specs.Firsts.{first_where};
ghost use Rattle.escape_check.specs.Names.{hole_covers, is_closed, is_free, is_variable};
ghost use Rattle.escape_check.specs.Shown.{member_view};

use crate::member::Member;
use crate::place::Place;
use crate::rule::MemberRule;
use go_base::Memory;
use go_typed::checked::Checked;
use go_typed::form::Form;
use go_typed::node::TypedNode;
use go_typed::sort::Sort;
use param_choose::holes::{Hole, holes_of, is_fixed};
use std::alloc::{AllocError, Global};
use std::collections::HashSet;

/// A constant or type that is local to the function and declared outside the window is named where no hole stands, or a free local
/// stands inside a type or inside a constant declaration.
pub(crate) struct LocalNames;

impl MemberRule for LocalNames {
    ghost use Rattle.escape_check.specs.Places.{sources_in};
    ghost use Rattle.escape_check.specs.Names.{local_names};

    ghost places = { λ _ p m. local_names (sources_in p) m };

    ghost knows = { λ _ _. Unit };

    fn place(
        &self,
        alloc: Global,
        checked: &Checked,
        member: &Member<'_>,
    ) -> Result<Option<Place>, Memory> {
        let holes = hole_tokens(alloc, &holes_of(alloc, member.statements)?)?;
        let closed = closed_tokens(alloc, member.statements)?;
        match first_unwritable(member, &holes, &closed) {
            Some(token) => Ok(Some(member.token_place(checked, token))),
            None => Ok(None),
        }
    }
}

/// The tokens of holes.
fn hole_tokens(alloc: Global, holes: &[Hole<'_>]) -> Result<HashSet<u32>, AllocError>
    ensures { IfOk result (λ s. (t : ℕ) → set.contains nat_eq s t ≡ list_any (λ h. hole_covers h t) (holes_view holes.now)) }
{
    let mut tokens = HashSet::new(alloc);
    for hole in holes {
        add_tokens(&mut tokens, hole.from, hole.upto)?;
    }
    Ok(tokens)
}

/// Adds the tokens from one up to another.
fn add_tokens(tokens: &mut HashSet<u32>, from: u32, upto: u32) -> Result<(), AllocError>
    ensures { OnOk result ((t : ℕ) → set.contains nat_eq tokens.new t ≡ (set.contains nat_eq tokens.old t || nat_le from t && nat_lt t upto)) }
{
    for token in from..upto {
        tokens.insert(token)?;
    }
    Ok(())
}

/// The tokens of types, declarations of constants and declarations of types within statements.
fn closed_tokens(
    alloc: Global,
    statements: &[Option<TypedNode>],
) -> Result<HashSet<u32>, AllocError>
    ensures { IfOk result (λ s. (t : ℕ) → set.contains nat_eq s t ≡ list_any (λ x. is_closed (form_of x) && covers x t) (nodes_among (views statements.now))) }
{
    let mut tokens = HashSet::new(alloc);
    add_closed_among(&mut tokens, statements)?;
    Ok(tokens)
}

/// Adds those of a tree.
#[cycle(closed)]
fn add_closed(tokens: &mut HashSet<u32>, node: &TypedNode) -> Result<(), AllocError>
    ensures { OnOk result ((t : ℕ) → set.contains nat_eq tokens.new t ≡ (set.contains nat_eq tokens.old t || list_any (λ x. is_closed (form_of x) && covers x t) (nodes (view node.now)))) }
{
    if is_closed(node.form) {
        add_tokens(tokens, node.first, node.last)?;
    }
    add_closed_among(tokens, &node.parts)
}

/// Adds those of a row of parts.
#[cycle(closed)]
fn add_closed_among(
    tokens: &mut HashSet<u32>,
    parts: &[Option<TypedNode>],
) -> Result<(), AllocError>
    ensures { OnOk result ((t : ℕ) → set.contains nat_eq tokens.new t ≡ (set.contains nat_eq tokens.old t || list_any (λ x. is_closed (form_of x) && covers x t) (nodes_among (views parts.now)))) }
{
    for part in parts {
        if let Some(node) = part {
            add_closed(tokens, node)?;
        }
    }
    Ok(())
}

/// Whether a node of this form is a type, or a declaration of constants or types.
fn is_closed(form: Form) -> bool
    ensures { result ≡ is_closed form }
{
    matches!(form, Form::Type | Form::Constants | Form::TypeNames)
}

/// The first token of the window that names a local which the new function can't name there. The sets have the tokens of holes, and
/// those of types and of declarations of constants and types.
#[tactic(auto, using(crate::proofs::Uses::first_next, crate::proofs::Uses::none_left))]
fn first_unwritable(member: &Member<'_>, holes: &HashSet<u32>, closed: &HashSet<u32>) -> Option<u32>
    ensures { result ≡ option_map (λ u. u.token) (first_where (λ (u : Use). (is_outer (member_view member.now) u && not (set.contains nat_eq holes.now u.token))
        || (is_free (member_view member.now) u.local && set.contains nat_eq closed.now u.token)) (uses_within (member_view member.now))) }
{
    for token in member.from..member.upto {
        if let Some(local) = member.func.local_at(token) {
            if is_unwritable(member, holes, closed, token, local) {
                return Some(token);
            }
        }
    }
    None
}

/// Whether the new function can't name a local at a token.
fn is_unwritable(
    member: &Member<'_>,
    holes: &HashSet<u32>,
    closed: &HashSet<u32>,
    token: u32,
    local: u32,
) -> bool
    ensures { result ≡ ((is_outer (member_view member.now) (record { local = local; token = token }) && not (set.contains nat_eq holes.now token))
        || (is_free (member_view member.now) local && set.contains nat_eq closed.now token)) }
{
    if member.is_inside(local) {
        return false;
    }
    (is_fixed(member.func, local) && !holes.contains(&token))
        || (is_variable(member, local) && closed.contains(&token))
}

/// Whether a local is a variable or a parameter (Go specification: Variables).
fn is_variable(member: &Member<'_>, local: u32) -> bool
    ensures { result ≡ is_variable (member_view member.now) local }
{
    matches!(
        member.func.locals().get(local as usize),
        Some(Sort::Value(_) | Sort::Open(_))
    )
}
