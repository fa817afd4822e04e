//! Pieces of texts.

ghost use Rattle.std.specs.Prelude.{◌≡◌, ◌++◌, ◌<◌, codes, length, map, slice_range, IfOk, OnOk};
ghost use Rattle.go_print.specs.Texts.{listed, marked, results_text};
ghost use Rattle.escape_check.specs.Places.{local_text, sources_in};
ghost use Rattle.escape_check.specs.Shown.{member_view};
ghost use Rattle.extract_texts.specs.Shown.{named_type, written};
ghost use Rattle.extract_texts.specs.Texts.{returning_text, variable_names};
ghost use Rattle.param_choose.specs.Shown.{variable_view};

use escape_check::member::Member;
use go_base::{Bytes, Memory};
use go_print::type_text;
use go_typed::checked::Checked;
use go_types::TypeId;
use param_choose::variables::Variable;
use std::alloc::{AllocError, Global};

/// Puts texts behind others, with a comma between each two.
pub(crate) fn push_listed(texts: &[Bytes], out: &mut Vec<u8>) -> Result<(), AllocError>
    ensures { OnOk result (out.new.items ≡ out.old.items ++ listed texts.now) }
{
    let Some((first, rest)) = texts.split_first() else {
        return Ok(());
    };
    out.extend_from_slice(first.as_slice())?;
    push_further(rest, out)
}

/// Puts texts behind others, each behind a comma.
fn push_further(texts: &[Bytes], out: &mut Vec<u8>) -> Result<(), AllocError>
    ensures { OnOk result (out.new.items ≡ out.old.items ++ marked (codes ", ") texts.now) }
{
    for text in texts {
        out.extend_from_slice(b", ")?;
        out.extend_from_slice(text.as_slice())?;
    }
    Ok(())
}

/// Puts the types of results behind others (Go specification: Function types).
pub(crate) fn push_results(results: &[Bytes], out: &mut Vec<u8>) -> Result<(), AllocError>
    ensures { OnOk result (out.new.items ≡ out.old.items ++ results_text results.now) }
{
    match results {
        [] => Ok(()),
        [result] => {
            out.push(b' ')?;
            out.extend_from_slice(result.as_slice())
        }
        _ => {
            out.extend_from_slice(b" (")?;
            push_listed(results, out)?;
            Ok(out.push(b')')?)
        }
    }
}

/// Puts a return of some names behind others, on a line of its own; nothing where there are none.
pub(crate) fn push_return(names: &[Bytes], out: &mut Vec<u8>) -> Result<(), AllocError>
    ensures { OnOk result (out.new.items ≡ out.old.items ++ returning_text names.now) }
{
    match names {
        [] => Ok(()),
        _ => {
            out.extend_from_slice(b"return ")?;
            push_listed(names, out)?;
            Ok(out.push(b'\n')?)
        }
    }
}

/// Puts the bytes of a text from one up to another behind others, as far as they are there.
#[tactic(auto, using(crate::proofs::Parts::part_within))]
pub(crate) fn push_part(
    text: &[u8],
    from: u32,
    upto: u32,
    out: &mut Vec<u8>,
) -> Result<(), AllocError>
    ensures { OnOk result (out.new.items ≡ out.old.items ++ slice_range text.now from upto) }
{
    let upto = text.len().min(upto as usize);
    let from = upto.min(from as usize);
    out.extend_from_slice(&text[from..upto])
}

/// A type, by which it can be written where its names mean what they mean where they are declared.
#[tactic(auto, using(crate::proofs::Names::written_told))]
pub(crate) fn written_type(alloc: Global, checked: &Checked, ty: TypeId) -> Result<Bytes, Memory>
    requires { ty < length checked.now.types.shapes }
    ensures { IfOk result (λ text. text ≡ written checked.now ty) }
{
    type_text(alloc, checked, ty)
}

/// A name with its type behind it.
pub(crate) fn named_type(
    alloc: Global,
    checked: &Checked,
    name: &[u8],
    ty: TypeId,
) -> Result<Bytes, Memory>
    requires { ty < length checked.now.types.shapes }
    ensures { IfOk result (λ text. text ≡ named_type checked.now name.now ty) }
{
    let mut text = Vec::from_slice(alloc, name)?;
    text.push(b' ')?;
    text.extend_from_slice(written_type(alloc, checked, ty)?.as_slice())?;
    Ok(Bytes::of(text))
}

/// Puts the names of locals of a member's function behind others.
pub(crate) fn push_locals(
    alloc: Global,
    checked: &Checked,
    member: &Member<'_>,
    locals: &[u32],
    out: &mut Vec<Bytes>,
) -> Result<(), Memory>
    ensures { OnOk result (out.new.items ≡ out.old.items ++ map (local_text (sources_in checked.now) (member_view member.now)) locals.now) }
{
    for local in locals {
        out.push(Bytes::from_slice(alloc, member.local_text(checked, *local))?)?;
    }
    Ok(())
}

/// Puts the names of variables of a member's function behind others.
pub(crate) fn push_variables(
    alloc: Global,
    checked: &Checked,
    member: &Member<'_>,
    variables: &[Variable],
    out: &mut Vec<Bytes>,
) -> Result<(), Memory>
    ensures { OnOk result (out.new.items ≡ out.old.items ++ variable_names (sources_in checked.now) (member_view member.now) (map variable_view variables.now)) }
{
    for variable in variables {
        out.push(Bytes::from_slice(alloc, member.local_text(checked, variable.local))?)?;
    }
    Ok(())
}
