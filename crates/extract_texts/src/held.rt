//! The constants of members that are arguments.

ghost use Rattle.std.specs.Prelude.{◌≡◌, ◌++◌, map, slice_get, OnOk};
ghost use Rattle.std.specs.Option.{option_map};
ghost use Rattle.clone_window.specs.Sameness.{value_of};
ghost use Rattle.go_print_laws.specs.Calls.{argument_text};
ghost use Rattle.go_typed.specs.Views.{sort_view};
ghost use Rattle.param_choose.specs.Shown.{hole_view, holes_view};
ghost use Rattle.escape_check.specs.Shown.{member_view};
ghost use Rattle.extract_texts.specs.Shown.{numbers_shown};
ghost use Rattle.extract_texts.specs.Texts.{constant_at, constants_at};

use escape_check::member::Member;
use go_base::{Bytes, Memory};
use go_constants::Const;
use go_print::literal_text;
use go_typed::sort::Sort;
use param_choose::choice::HoleParameter;
use param_choose::holes::{Hole, holes_of};
use std::alloc::Global;

/// Puts the literals of the values of a member's holes of the same numbers as these behind other texts.
#[tactic(auto, using(crate::proofs::Loops::constants_next))]
pub(crate) fn push_constants(
    alloc: Global,
    member: &Member<'_>,
    parameters: &[HoleParameter],
    texts: &mut Vec<Bytes>,
) -> Result<(), Memory>
    ensures { OnOk result (texts.new.items ≡ texts.old.items ++ map argument_text (constants_at (numbers_shown parameters.now) (member_view member.now))) }
{
    let holes = holes_of(alloc, member.statements)?;
    for parameter in parameters {
        push_numbered(alloc, &holes, parameter.number, texts)?;
    }
    Ok(())
}

/// Puts the literal of the value of the hole of a number behind other texts, if there is such a hole.
fn push_numbered(
    alloc: Global,
    holes: &[Hole<'_>],
    number: u32,
    texts: &mut Vec<Bytes>,
) -> Result<(), Memory>
    ensures { OnOk result (texts.new.items ≡ texts.old.items ++ map argument_text (constant_at (slice_get (holes_view holes.now) number))) }
{
    push_constant(alloc, hole_at(holes, number), texts)
}

/// The hole of a number, if there is one.
pub(crate) fn hole_at<'h, 'a>(holes: &'h [Hole<'a>], number: u32) -> Option<&'h Hole<'a>>
    ensures { slice_get holes.entry.now number ≡ option_map (λ h. h.now) result }
{
    holes.get(number as usize)
}

/// Puts the literal of a hole's value behind other texts, if there is a hole.
fn push_constant(
    alloc: Global,
    hole: Option<&Hole<'_>>,
    texts: &mut Vec<Bytes>,
) -> Result<(), Memory>
    ensures { OnOk result (texts.new.items ≡ texts.old.items ++ map argument_text (constant_at (option_map hole_view (option_map (λ h. h.now) hole.entry)))) }
{
    if let Some(hole) = hole {
        if let Some(value) = value_of(hole.sort) {
            texts.push(literal_text(alloc, value)?)?;
        }
    }
    Ok(())
}

/// The value of a constant (Go specification: Constants).
fn value_of(sort: &Sort) -> Option<&Const>
    ensures { option_map (λ c. c.now) result ≡ value_of (sort_view sort.now) }
{
    match sort {
        Sort::Constant(_, value) => Some(value.get()),
        Sort::OpenConstant(value) => Some(value.get()),
        _ => None,
    }
}
