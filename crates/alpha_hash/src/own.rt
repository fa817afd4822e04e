//! The words of a node in front of those of its parts.

ghost use Rattle.std.specs.Prelude.{◌≡◌, ◌++◌, ◌∷◌, [], true, map, slice_get, OnOk};
ghost use Rattle.std.specs.Option.{option_map};
ghost use Rattle.go_typed.specs.Forms as forms;
ghost use Rattle.go_typed.specs.Trees.{Unknown};
ghost use Rattle.go_typed.specs.Views.{sort_view, view, views};
ghost use Rattle.clone_window.specs.Kinds.{outline};
ghost use Rattle.clone_window.specs.Sameness.{compared, sort_at};
ghost use Rattle.alpha_hash_defs.specs.Words as words;
ghost use Rattle.alpha_hash_defs.specs.Words.{all_declared, blank_words, compared_words, constant_words, constants_words, declared_words, defined_words, field_words, is_one_of, kind_words, lengths_at, local_words, name_words, object_words, operator_words};
ghost use Rattle.alpha_hash.specs.Shown.{knows, knows_locals, knows_part, knows_parts, knows_sort, naming, part_declared, shown};

use crate::names::{Names, object_text};
use crate::rolling::text_fold;
use crate::texts::{final_fold, value_fold};
use crate::word::{Word, push_if, push_length_if, push_number};
use clone_window::fields::{field_text, operand};
use clone_window::mass::is_hole;
use clone_window::outline::{Outline, outline_of};
use go_base::Memory;
use go_typed::form::Form;
use go_typed::node::TypedNode;
use go_typed::sort::Sort;
use std::alloc::{AllocError, Global};

/// Puts the words of a node behind the others that say what it is, which local it names, and what else.
pub fn push_front(names: Names<'_>, form: Form, out: &mut Vec<Word>) -> Result<(), AllocError>
    ensures { OnOk result (shown out.new.items ≡ shown out.old.items
        ++ kind_words (outline form) ++ operator_words (outline form) ++ local_words (forms.local_of form) ++ object_words (naming names.entry) (outline form)) }
{
    let outline = outline_of(form);
    push_if(outline.kind < 50, u64::from(outline.kind), out)?;
    push_if(has_operator(outline.kind), u64::from(outline.operator), out)?;
    push_local(form, out)?;
    push_object(names, outline, out)
}

/// Whether nodes of this kind have an operator.
fn has_operator(kind: u32) -> bool
    ensures { result ≡ is_one_of (2 ∷ 5 ∷ 42 ∷ 43 ∷ []) kind }
{
    kind == 2 || kind == 5 || kind == 42 || kind == 43
}

/// Puts the local that a node of this form names behind the other words, if it names one.
fn push_local(form: Form, out: &mut Vec<Word>) -> Result<(), AllocError>
    ensures { OnOk result (shown out.new.items ≡ shown out.old.items ++ local_words (forms.local_of form)) }
{
    if let Some(local) = local_of(form) {
        out.push(Word::Local(local))?;
    }
    Ok(())
}

/// The local that a node of this form names, if it names one.
fn local_of(form: Form) -> Option<u32>
    ensures { result ≡ forms.local_of form }
{
    match form {
        Form::Local(local) => Some(local),
        Form::New(local) => Some(local),
        Form::Declared(local) => Some(local),
        _ => None,
    }
}

/// Puts the fold of a name that names no local behind the other words, if a node with this outline is one.
fn push_object(names: Names<'_>, outline: Outline, out: &mut Vec<Word>) -> Result<(), AllocError>
    ensures { OnOk result (shown out.new.items ≡ shown out.old.items ++ object_words (naming names.entry) outline) }
{
    if outline.kind == 32 {
        push_number(text_fold(object_text(names.checked, outline)), out)?;
    }
    Ok(())
}

/// Puts the words of a node behind the others that say which field, type, literal or name of `:=` it is, and what its constants
/// are. The node may stand as a name of `:=`, or in a composite literal that stands for `owner`; its parts may stand inside a
/// constant expression.
pub fn push_back(
    alloc: Global,
    names: Names<'_>,
    inside: bool,
    defined: bool,
    owner: &Sort,
    form: Form,
    sort: &Sort,
    parts: &[Option<TypedNode>],
    out: &mut Vec<Word>,
) -> Result<(), Memory>
    requires locals { knows_locals names ≡ true }
    requires sort { knows_sort names (sort_view sort.now) ≡ true }
    requires parts { knows_parts names (views parts.now) ≡ true }
    ensures { OnOk result (shown out.new.items ≡ shown out.old.items ++ field_words (naming names.entry) (sort_view owner.now) (outline form) (views parts.now)
        ++ compared_words (naming names.entry) (compared form) (outline form) (sort_view sort.now) ++ defined_words defined (outline form) ++ constants_words (naming names.entry) inside (outline form) (views parts.now)) }
{
    let outline = outline_of(form);
    push_field(names, owner, outline, parts, out)?;
    push_compared(alloc, names, form, sort, out)?;
    push_defined(defined, outline, out)?;
    push_constants(alloc, names, inside, outline, parts, out)
}

/// Puts the fold of the name of a field behind the other words, if a node with this outline names one.
fn push_field(
    names: Names<'_>,
    owner: &Sort,
    outline: Outline,
    parts: &[Option<TypedNode>],
    out: &mut Vec<Word>,
) -> Result<(), AllocError>
    ensures { OnOk result (shown out.new.items ≡ shown out.old.items ++ field_words (naming names.entry) (sort_view owner.now) outline (views parts.now)) }
{
    let types = names.checked.types();
    let nothing = Sort::Nothing;
    if outline.kind == 36 {
        let name = field_text(types, operand(parts, &nothing), outline.count);
        push_number(text_fold(name), out)?;
    } else if outline.kind == 51 {
        push_number(text_fold(field_text(types, owner, outline.count)), out)?;
    }
    Ok(())
}

/// Puts the fold of the type of a type node, or that of the value of a literal behind the other words.
fn push_compared(
    alloc: Global,
    names: Names<'_>,
    form: Form,
    sort: &Sort,
    out: &mut Vec<Word>,
) -> Result<(), Memory>
    requires { knows_sort names (sort_view sort.now) ≡ true }
    ensures { OnOk result (shown out.new.items ≡ shown out.old.items ++ compared_words (naming names.entry) (compared form) (outline form) (sort_view sort.now)) }
{
    match form {
        Form::Type => Ok(push_number(final_fold(alloc, names, sort)?, out)?),
        Form::Literal => Ok(push_number(value_fold(alloc, sort)?, out)?),
        Form::Blank => Ok(()),
        _ => Ok(()),
    }
}

/// Puts behind the other words whether a name of `:=` is new, reused or `_`.
fn push_defined(defined: bool, outline: Outline, out: &mut Vec<Word>) -> Result<(), AllocError>
    ensures { OnOk result (shown out.new.items ≡ shown out.old.items ++ defined_words defined outline) }
{
    if defined {
        push_if(outline.kind == 31, u64::from(outline.count), out)?;
        push_if(outline.kind == 33, 2, out)?;
    }
    Ok(())
}

/// Puts the types and values of the names of a declaration of constants behind the other words.
fn push_constants(
    alloc: Global,
    names: Names<'_>,
    inside: bool,
    outline: Outline,
    parts: &[Option<TypedNode>],
    out: &mut Vec<Word>,
) -> Result<(), Memory>
    requires locals { knows_locals names ≡ true }
    requires parts { knows_parts names (views parts.now) ≡ true }
    ensures { OnOk result (shown out.new.items ≡ shown out.old.items ++ constants_words (naming names.entry) inside outline (views parts.now)) }
{
    if outline.kind == 8 {
        push_all_declared(alloc, names, inside, parts, out)?;
    }
    Ok(())
}

/// Puts the types and values of names of constants behind the other words.
fn push_all_declared(
    alloc: Global,
    names: Names<'_>,
    inside: bool,
    parts: &[Option<TypedNode>],
    out: &mut Vec<Word>,
) -> Result<(), Memory>
    requires locals { knows_locals names ≡ true }
    requires parts { knows_parts names (views parts.now) ≡ true }
    ensures { OnOk result (shown out.new.items ≡ shown out.old.items ++ all_declared (naming names.entry) inside (views parts.now)) }
{
    for part in parts {
        push_part_declared(alloc, names, inside, part, out)?;
    }
    Ok(())
}

/// Puts the type and the value of a part that is a name of a constant behind the other words, if it is there.
fn push_part_declared(
    alloc: Global,
    names: Names<'_>,
    inside: bool,
    part: &Option<TypedNode>,
    out: &mut Vec<Word>,
) -> Result<(), Memory>
    requires locals { knows_locals names ≡ true }
    requires part { knows_part names part.now ≡ true }
    ensures { OnOk result (shown out.new.items ≡ shown out.old.items ++ part_declared names.entry inside part.now) }
{
    match part {
        Some(node) => push_declared(alloc, names, inside, node, out),
        None => Ok(()),
    }
}

/// Puts the type and the value of a name of a constant behind the other words.
fn push_declared(
    alloc: Global,
    names: Names<'_>,
    inside: bool,
    node: &TypedNode,
    out: &mut Vec<Word>,
) -> Result<(), Memory>
    requires locals { knows_locals names ≡ true }
    requires node { knows names (view node.now) ≡ true }
    ensures { OnOk result (shown out.new.items ≡ shown out.old.items ++ declared_words (naming names.entry) inside (view node.now)) }
{
    if is_hole(inside, node) {
        return Ok(());
    }
    push_name(alloc, names, node.form, &node.sort, out)
}

/// Puts the type and the value of a name of this form behind the other words.
fn push_name(
    alloc: Global,
    names: Names<'_>,
    form: Form,
    sort: &Sort,
    out: &mut Vec<Word>,
) -> Result<(), Memory>
    requires locals { knows_locals names ≡ true }
    requires sort { knows_sort names (sort_view sort.now) ≡ true }
    ensures { OnOk result (shown out.new.items ≡ shown out.old.items ++ name_words (naming names.entry) (forms.local_of form) (compared form) (sort_view sort.now)) }
{
    match local_of(form) {
        Some(local) => push_local_constant(alloc, names, local, out),
        None => push_blank(alloc, names, form, sort, out),
    }
}

/// Puts the type and the value of a name that names no local behind the other words, if those are compared.
fn push_blank(
    alloc: Global,
    names: Names<'_>,
    form: Form,
    sort: &Sort,
    out: &mut Vec<Word>,
) -> Result<(), Memory>
    requires { knows_sort names (sort_view sort.now) ≡ true }
    ensures { OnOk result (shown out.new.items ≡ shown out.old.items ++ blank_words (naming names.entry) (compared form) (sort_view sort.now)) }
{
    match form {
        Form::Type | Form::Blank => push_constant(alloc, names, sort, out),
        _ => Ok(()),
    }
}

/// Puts the type and the value of a local behind the other words.
fn push_local_constant(
    alloc: Global,
    names: Names<'_>,
    local: u32,
    out: &mut Vec<Word>,
) -> Result<(), Memory>
    requires { knows_locals names ≡ true }
    ensures { OnOk result (shown out.new.items ≡ shown out.old.items ++ constant_words (naming names.entry) (sort_at (map sort_view names.entry.locals.now) local)) }
{
    let unknown = Sort::Unknown;
    push_constant(alloc, names, local_sort(names, local, &unknown), out)
}

/// What a local stands for, or the other sort where there is no such local.
fn local_sort<'a>(names: Names<'a>, local: u32, unknown: &'a Sort) -> &'a Sort
    requires { sort_view unknown.now ≡ Unknown }
    ensures sort { sort_view result.now ≡ sort_at (map sort_view names.entry.locals.now) local }
    ensures known { knows_locals names.entry ≡ true → knows_sort names.entry (sort_view result.now) ≡ true }
{
    match sort_there(names, local) {
        Some(sort) => sort,
        None => unknown,
    }
}

/// What a local stands for, if there is such a local.
fn sort_there<'a>(names: Names<'a>, local: u32) -> Option<&'a Sort>
    ensures { slice_get (map sort_view names.entry.locals.now) local ≡ option_map (λ s. sort_view s.now) result }
{
    names.locals.get(local as usize)
}

/// Puts a type and a value behind the other words.
fn push_constant(
    alloc: Global,
    names: Names<'_>,
    sort: &Sort,
    out: &mut Vec<Word>,
) -> Result<(), Memory>
    requires { knows_sort names (sort_view sort.now) ≡ true }
    ensures { OnOk result (shown out.new.items ≡ shown out.old.items ++ constant_words (naming names.entry) (sort_view sort.now)) }
{
    push_number(final_fold(alloc, names, sort)?, out)?;
    push_number(value_fold(alloc, sort)?, out)?;
    Ok(())
}

/// Puts the lengths of the lists behind the other words that begin in front of the part of this place, behind which so many parts
/// stand.
pub fn push_lengths(
    outline: Outline,
    index: usize,
    left: usize,
    out: &mut Vec<Word>,
) -> Result<(), AllocError>
    ensures { OnOk result (shown out.new.items ≡ shown out.old.items ++ lengths_at outline index left) }
{
    let first = begins_with_list(outline.kind) && index == 0;
    push_length_if(first, u64::from(outline.count), out)?;
    let last = last_list(outline) == Some(index as u64);
    push_length_if(last, left as u64, out)
}

/// Whether a list stands first whose length nodes of this kind show.
fn begins_with_list(kind: u32) -> bool
    ensures { result ≡ is_one_of (4 ∷ 6 ∷ 17 ∷ 20 ∷ 21 ∷ 50 ∷ []) kind }
{
    kind == 4 || kind == 6 || kind == 17 || kind == 20 || kind == 21 || kind == 50
}

/// The place among the parts at which the last list begins.
fn last_list(outline: Outline) -> Option<u64>
    ensures { result ≡ words.last_list outline }
{
    match outline.kind {
        4 | 6 | 17 => Some(u64::from(outline.count)),
        50 => Some(u64::from(outline.count) + 1),
        7 | 8 | 9 | 10 | 14 | 18 => Some(0),
        39 | 41 => Some(1),
        16 => Some(2),
        _ => None,
    }
}

/// Whether the part of this place is a name of `:=`.
pub fn is_defined(outline: Outline, index: usize) -> bool
    ensures { result ≡ words.is_defined outline index }
{
    (outline.kind == 6 || outline.kind == 21) && index < outline.count as usize
}
