//! The words of trees.

ghost use Rattle.std.specs.Prelude.{◌≡◌, ◌++◌, true, false, OnOk};
ghost use Rattle.go_typed.specs.Trees.{Nothing};
ghost use Rattle.go_typed.specs.Views.{sort_view, view, views};
ghost use Rattle.go_typed.specs.Forms.{local_of};
ghost use Rattle.clone_window.specs.Kinds.{outline};
ghost use Rattle.clone_window.specs.Sameness.{compared};
ghost use Rattle.alpha_hash_defs.specs.Words.{hole_words, own_words, row_words, words};
ghost use Rattle.alpha_hash.specs.Shown.{knows, knows_locals, knows_part, knows_parts, knows_sort, naming, part_words, shown};

use crate::names::Names;
use crate::own::{is_defined, push_back, push_front, push_lengths};
use crate::texts::final_fold;
use crate::word::{Word, push_number};
use clone_window::mass::{is_hole, is_inside};
use clone_window::outline::{Outline, outline_of};
use go_base::Memory;
use go_typed::form::Form;
use go_typed::node::TypedNode;
use go_typed::sort::Sort;
use std::alloc::Global;

/// Puts the words of a statement behind the others.
///
/// # Errors
///
/// Want of memory.
pub fn push_statement(
    alloc: Global,
    names: Names<'_>,
    node: &TypedNode,
    out: &mut Vec<Word>,
) -> Result<(), Memory>
    requires locals { knows_locals names ≡ true }
    requires node { knows names (view node.now) ≡ true }
    ensures { OnOk result (shown out.new.items ≡ shown out.old.items ++ words (naming names.entry) false false Nothing (view node.now)) }
{
    push_words(alloc, names, false, false, &Sort::Nothing, node, out)
}

/// Puts the words of a tree behind the others, which may stand inside a constant expression, or as a name of `:=`, or as an element
/// of a composite literal that stands for `owner`.
#[cycle(words)]
fn push_words(
    alloc: Global,
    names: Names<'_>,
    inside: bool,
    defined: bool,
    owner: &Sort,
    node: &TypedNode,
    out: &mut Vec<Word>,
) -> Result<(), Memory>
    requires locals { knows_locals names ≡ true }
    requires node { knows names (view node.now) ≡ true }
    ensures { OnOk result (shown out.new.items ≡ shown out.old.items ++ words (naming names.entry) inside defined (sort_view owner.now) (view node.now)) }
{
    if is_hole(inside, node) {
        return push_hole(alloc, names, &node.sort, out);
    }
    let within = is_inside(inside, node);
    push_open(
        alloc,
        names,
        within,
        defined,
        owner,
        node.form,
        &node.sort,
        &node.parts,
        out,
    )
}

/// Puts the words of a node that is no hole behind the others.
#[cycle(words)]
fn push_open(
    alloc: Global,
    names: Names<'_>,
    inside: bool,
    defined: bool,
    owner: &Sort,
    form: Form,
    sort: &Sort,
    parts: &[Option<TypedNode>],
    out: &mut Vec<Word>,
) -> Result<(), Memory>
    requires locals { knows_locals names ≡ true }
    requires sort { knows_sort names (sort_view sort.now) ≡ true }
    requires parts { knows_parts names (views parts.now) ≡ true }
    ensures { OnOk result (shown out.new.items ≡ shown out.old.items
        ++ (own_words (naming names.entry) inside defined (sort_view owner.now) (outline form) (local_of form) (compared form) (sort_view sort.now) (views parts.now)
        ++ row_words (naming names.entry) inside (outline form) (sort_view sort.now) 0 (views parts.now))) }
{
    push_front(names, form, out)?;
    push_back(alloc, names, inside, defined, owner, form, sort, parts, out)?;
    push_row(alloc, names, inside, outline_of(form), sort, parts, out)
}

/// Puts the words of a row of parts behind the others.
#[cycle(words)]
fn push_row(
    alloc: Global,
    names: Names<'_>,
    inside: bool,
    outline: Outline,
    owner: &Sort,
    parts: &[Option<TypedNode>],
    out: &mut Vec<Word>,
) -> Result<(), Memory>
    requires locals { knows_locals names ≡ true }
    requires parts { knows_parts names (views parts.now) ≡ true }
    ensures { OnOk result (shown out.new.items ≡ shown out.old.items ++ row_words (naming names.entry) inside outline (sort_view owner.now) 0 (views parts.now)) }
{
    let mut index: usize = 0;
    for part in parts {
        push_lengths(outline, index, parts.len() - index, out)?;
        push_part(
            alloc,
            names,
            inside,
            is_defined(outline, index),
            owner,
            part,
            out,
        )?;
        index += 1;
    }
    Ok(push_lengths(outline, index, 0, out)?)
}

/// Puts the words of a part behind the others; one that is left out gives 0.
#[cycle(words)]
fn push_part(
    alloc: Global,
    names: Names<'_>,
    inside: bool,
    defined: bool,
    owner: &Sort,
    part: &Option<TypedNode>,
    out: &mut Vec<Word>,
) -> Result<(), Memory>
    requires locals { knows_locals names ≡ true }
    requires part { knows_part names part.now ≡ true }
    ensures { OnOk result (shown out.new.items ≡ shown out.old.items ++ part_words names.entry inside defined (sort_view owner.now) part.now) }
{
    match part {
        Some(node) => push_words(alloc, names, inside, defined, owner, node, out),
        None => Ok(push_number(0, out)?),
    }
}

/// Puts the words of a hole behind the others.
fn push_hole(
    alloc: Global,
    names: Names<'_>,
    sort: &Sort,
    out: &mut Vec<Word>,
) -> Result<(), Memory>
    requires { knows_sort names (sort_view sort.now) ≡ true }
    ensures { OnOk result (shown out.new.items ≡ shown out.old.items ++ hole_words (naming names.entry) (sort_view sort.now)) }
{
    push_number(30, out)?;
    push_number(final_fold(alloc, names, sort)?, out)?;
    Ok(())
}
