//! Folds of the texts of types and constants.

ghost use Rattle.std.specs.Prelude.{◌≡◌, ◌<◌, true, length, IfOk};
ghost use Rattle.go_print.specs.Literals.{literal_text};
ghost use Rattle.go_print.specs.Printed.{printed};
ghost use Rattle.go_typed.specs.Views.{sort_view};
ghost use Rattle.clone_window.specs.Sameness.{const_kind, final, untyped_kind, value_of};
ghost use Rattle.alpha_hash_defs.specs.Hash.{text_fold};
ghost use Rattle.alpha_hash_defs.specs.Naming.{final_text, untyped_text};
ghost use Rattle.alpha_hash_defs.specs.Words.{value_text};
ghost use Rattle.alpha_hash.specs.Shown.{knows_sort, naming};

use crate::names::Names;
use crate::rolling::text_fold;
use go_base::Memory;
use go_constants::Const;
use go_print::{literal_text, type_text};
use go_typed::checked::Checked;
use go_typed::sort::{Sort, Untyped};
use go_types::TypeId;
use std::alloc::Global;

/// The fold of the text of the type of what a node or a local stands for.
///
/// # Errors
///
/// Want of memory.
pub fn final_fold(alloc: Global, names: Names<'_>, sort: &Sort) -> Result<u64, Memory>
    requires { knows_sort names (sort_view sort.now) ≡ true }
    ensures { IfOk result (λ h. h ≡ text_fold (final_text (naming names.entry) (final (sort_view sort.now)))) }
{
    match sort {
        Sort::Type(ty) => type_fold(alloc, names.checked, *ty),
        Sort::Value(ty) => type_fold(alloc, names.checked, *ty),
        Sort::Constant(ty, _) => type_fold(alloc, names.checked, ty.id()),
        Sort::Open(untyped) => Ok(text_fold(open_text(*untyped))),
        Sort::OpenConstant(value) => Ok(text_fold(constant_text(value.get()))),
        _ => Ok(text_fold(b"")),
    }
}

/// The fold of the text of a type.
fn type_fold(alloc: Global, checked: &Checked, ty: TypeId) -> Result<u64, Memory>
    requires { ty < length checked.now.types.shapes }
    ensures { IfOk result (λ h. h ≡ text_fold (printed checked.now ty)) }
{
    let text = type_text(alloc, checked, ty)?;
    Ok(text_fold(text.as_slice()))
}

/// The text of the kind of an untyped value.
fn open_text(untyped: Untyped) -> &'static [u8]
    ensures { result.now ≡ untyped_text (untyped_kind untyped) }
{
    match untyped {
        Untyped::Boolean => b"untyped bool",
        Untyped::Integer => b"untyped int",
        Untyped::Rune => b"untyped rune",
    }
}

/// The text of the kind of an untyped constant.
fn constant_text(value: &Const) -> &'static [u8]
    ensures { result.now ≡ untyped_text (const_kind value.now) }
{
    match value {
        Const::Bool(_) => b"untyped bool",
        Const::Int { rune: false, .. } => b"untyped int",
        Const::Int { rune: true, .. } => b"untyped rune",
        Const::Text(_) => b"untyped string",
    }
}

/// The fold of the text of the value of a constant.
///
/// # Errors
///
/// Want of memory.
pub fn value_fold(alloc: Global, sort: &Sort) -> Result<u64, Memory>
    ensures { IfOk result (λ h. h ≡ text_fold (value_text (value_of (sort_view sort.now)))) }
{
    match sort {
        Sort::Constant(_, value) => literal_fold(alloc, value.get()),
        Sort::OpenConstant(value) => literal_fold(alloc, value.get()),
        _ => Ok(text_fold(b"")),
    }
}

/// The fold of the literal of a value.
fn literal_fold(alloc: Global, value: &Const) -> Result<u64, Memory>
    ensures { IfOk result (λ h. h ≡ text_fold (literal_text value.now)) }
{
    let text = literal_text(alloc, value)?;
    Ok(text_fold(text.as_slice()))
}
