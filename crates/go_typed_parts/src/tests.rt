//! Tests of what every typed function meets.
ghost use Rattle.std.specs.Prelude.{◌≡◌};
ghost use Rattle.go_typed.specs.Forms as forms;
ghost use Rattle.go_typed.specs.Funcs.{is_tiled, are_tiled, is_full, is_whole, are_whole, is_named_so, named_at, are_below};
ghost use Rattle.go_typed.specs.Views.{view, views};

use go_typed::{Form, NamedLocal, TypedNode};

/// Whether the parts of each node lie one after the other inside its range.
#[cycle(tiled)]
#[tactic(auto, using(crate::proofs::Opened::tiled_opened))]
pub(crate) fn is_tiled(node: &TypedNode) -> bool
    ensures { result ≡ is_tiled (view node.now) }
{
    are_tiled(node.first, node.last, &node.parts)
}

#[cycle(tiled)]
fn are_tiled(first: u32, last: u32, parts: &[Option<TypedNode>]) -> bool
    ensures { result ≡ are_tiled first last (views parts.now) }
{
    let mut at = first;
    for part in parts {
        if let Some(node) = part {
            if node.first < at {
                return false;
            }
            if !is_tiled(node) {
                return false;
            }
            at = node.last;
        }
    }
    at <= last
}

/// Whether no part is left out.
fn is_full(parts: &[Option<TypedNode>]) -> bool
    ensures { result ≡ is_full (views parts.now) }
{
    for part in parts {
        if part.is_none() {
            return false;
        }
    }
    true
}

/// The local that a node of this form names, if it names one.
fn local_of(form: Form) -> Option<u32>
    ensures { result ≡ forms.local_of form }
{
    match form {
        Form::Local(local) => Some(local),
        Form::New(local) => Some(local),
        Form::Declared(local) => Some(local),
        _ => None,
    }
}

/// The local that a token names, if it names one.
fn named_at(tokens: &[NamedLocal], token: u32) -> Option<u32>
    ensures { result ≡ named_at tokens.now token }
{
    if (token as usize) < tokens.len() {
        tokens[token as usize].local()
    } else {
        None
    }
}

/// Whether a node names what its token names, if it names a local.
fn is_named_so(named: Option<u32>, own: Option<u32>) -> bool
    ensures { result ≡ is_named_so named own }
{
    match (named, own) {
        (_, None) => true,
        (None, Some(_)) => false,
        (Some(local), Some(number)) => local == number,
    }
}

fn is_holder(form: Form) -> bool
    ensures { result ≡ forms.is_holder form }
{
    matches!(form, Form::Held(_))
}

pub(crate) fn is_function(form: Form) -> bool
    ensures { result ≡ forms.is_function form }
{
    matches!(form, Form::Function)
}

/// Whether no node is a holder, each that names a local stands at a token that names the same local, and statement lists have all
/// their parts.
#[cycle(whole)]
#[tactic(auto, using(crate::proofs::Opened::whole_opened))]
pub(crate) fn is_whole(tokens: &[NamedLocal], node: &TypedNode) -> bool
    ensures { result ≡ is_whole tokens.now (view node.now) }
{
    !is_holder(node.form)
        && is_named_so(named_at(tokens, node.first), local_of(node.form))
        && (!node.form.is_statement_list() || is_full(&node.parts))
        && are_whole(tokens, &node.parts)
}

#[cycle(whole)]
fn are_whole(tokens: &[NamedLocal], parts: &[Option<TypedNode>]) -> bool
    ensures { result ≡ are_whole tokens.now (views parts.now) }
{
    for part in parts {
        if let Some(node) = part {
            if !is_whole(tokens, node) {
                return false;
            }
        }
    }
    true
}

/// Whether the numbers that are there lie below `count`.
pub(crate) fn are_below(count: usize, numbers: &[Option<u32>]) -> bool
    ensures { result ≡ are_below count numbers.now }
{
    for number in numbers {
        if let Some(number) = number {
            if *number as usize >= count {
                return false;
            }
        }
    }
    true
}

/// Whether the locals that tokens name lie below `count`.
pub(crate) fn name_below(count: usize, tokens: &[NamedLocal]) -> bool
    ensures { result ≡ are_below count tokens.now }
{
    for token in tokens {
        if let Some(number) = token.local() {
            if number as usize >= count {
                return false;
            }
        }
    }
    true
}
