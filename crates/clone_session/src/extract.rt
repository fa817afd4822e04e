//! The members of a class taken out into a function.

ghost use Rattle.std.specs.Prelude.{◌≡◌, ◌<◌, true, None, unwrap_or, slice_get, IfOk};
ghost use Rattle.std.specs.Option.{option_map};
ghost use Rattle.std.specs.List.{AllByRecursion};
ghost use Rattle.go_base.specs.Gives.{Meets};
ghost use Rattle.go_package_defs.specs.Checked.{IsCheckedPackage, texts_of};
ghost use Rattle.edit_apply.specs.Applied.{AreApplicable};
ghost use Rattle.escape_check.specs.Shown.{refusal_view};
ghost use Rattle.extract_rewrite.specs.Shown.{extract_refusal, extracted_shown};
ghost use Rattle.clone_classes.specs.Listing.{members_of};
ghost use Rattle.clone_session.specs.Extracting.{members_by, numbered, refusal_by, IsKept, IsTaken, IsKeptFrom, IsTakenFrom};

use clone_classes::choose::{Choice, ChooseError, chosen};
use edit_apply::Texts;
use escape_check::report::Refusal;
use extract_rewrite::error::ExtractError;
use extract_rewrite::extract::extract;
use extract_rewrite::extracted::Extracted;
use go_base::Memory;
use go_typed::checked::Checked;
use go_typed::window::{Class, Window};
use std::alloc::Global;

/// The refusal where a number of the command is none of the listing.
fn unlisted(code: u8, member: u32) -> Refusal
    ensures { refusal_view result ≡ record { code = code; member = member; span = None } }
{
    Refusal {
        code,
        member,
        span: None,
    }
}

/// The class with this number in a listing, whose first one has the number 1.
fn class_at(classes: &[Class], number: u32) -> Option<&Class>
    ensures { option_map (λ x. x.now.members) result ≡ numbered (members_of classes.now) number }
{
    if number == 0 {
        return None;
    }
    classes.get((number - 1) as usize)
}

/// The member with this number in its class, whose first one has the number 1.
fn member_at(members: &[Window], number: u32) -> Option<Window>
    ensures { result ≡ numbered members.now number }
{
    if number == 0 {
        return None;
    }
    members.get((number - 1) as usize).copied()
}

/// The members with these numbers in their class, in this order.
///
/// # Errors
///
/// Want of memory; also where a number is no member's.
fn members_by(alloc: Global, members: &[Window], numbers: &[u32]) -> Result<Vec<Window>, Memory>
    ensures { IfOk result (λ v. v.items ≡ members_by members.now numbers.now) }
{
    let mut windows = Vec::new(alloc);
    for number in numbers {
        let Some(member) = member_at(members, *number) else {
            return Err(Memory);
        };
        windows.push(member)?;
    }
    Ok(windows)
}

/// The number at a place, and 0 where there is none.
fn number_at(numbers: &[u32], place: u32) -> u32
    ensures { result ≡ unwrap_or (slice_get numbers.now place) 0 }
{
    match numbers.get(place as usize) {
        Some(number) => *number,
        None => 0,
    }
}

/// A refusal of the windows that are the members with these numbers, as a session tells it.
fn refusal_by(numbers: &[u32], refusal: Refusal) -> Refusal
    ensures { refusal_view result ≡ refusal_by numbers.now (refusal_view refusal) }
{
    match refusal.span {
        Some(span) => Refusal {
            code: refusal.code,
            member: number_at(numbers, refusal.member),
            span: Some(span),
        },
        None => Refusal {
            code: refusal.code,
            member: 0,
            span: None,
        },
    }
}

/// Whether each of the windows stands in one of so many functions.
fn are_below(windows: &[Window], functions: usize) -> bool
    ensures { result ≡ true → AllByRecursion (λ w. w.func < functions) windows.now }
{
    let mut rest = windows;
    while let [window, others @ ..] = rest {
        if window.func as usize >= functions {
            return false;
        }
        rest = others;
    }
    true
}

/// Chosen members of a class taken out, where they are the ones with these numbers.
fn taken_by(
    alloc: Global,
    checked: &Checked,
    texts: &Texts,
    members: &[Window],
    numbers: &[u32],
    name: &[u8],
) -> Result<Extracted, ExtractError>
    requires checked { IsCheckedPackage checked.now }
    requires texts { texts_of checked.now ≡ texts.now }
    ensures answer { Meets extract_refusal result (λ x. IsTakenFrom checked.now members.now numbers.now name.now (extracted_shown x)) (IsKeptFrom checked.now members.now numbers.now name.now) }
    ensures ready { IfOk result (λ x. AreApplicable texts.now x.edits) }
{
    let windows = members_by(alloc, members, numbers)?;
    let stand = !windows.is_empty() && are_below(&windows, checked.functions().len());
    if !stand || checked.files().len() > 256 {
        return Err(ExtractError::Memory);
    }
    match extract(alloc, checked, texts, &windows, name) {
        Ok(extracted) => Ok(extracted),
        Err(ExtractError::Refused(refusal)) => {
            Err(ExtractError::Refused(refusal_by(numbers, refusal)))
        }
        Err(ExtractError::Memory) => Err(ExtractError::Memory),
    }
}

/// The chosen members of the class with this number in a listing, taken out into a function of this name.
///
/// # Errors
///
/// The refusal of the least code that applies, with the member's number in the class, or with the number that is no member's; or want
/// of memory.
pub fn taken(
    alloc: Global,
    checked: &Checked,
    texts: &Texts,
    classes: &[Class],
    class: u32,
    name: &[u8],
    choice: &Choice,
) -> Result<Extracted, ExtractError>
    requires checked { IsCheckedPackage checked.now }
    requires texts { texts_of checked.now ≡ texts.now }
    ensures answer { Meets extract_refusal result (λ x. IsTaken (members_of classes.now) checked.now class name.now choice.now (extracted_shown x)) (IsKept (members_of classes.now) checked.now class name.now choice.now) }
    ensures ready { IfOk result (λ x. AreApplicable texts.now x.edits) }
{
    match class_at(classes, class) {
        Some(class) => {
            let members = class.members.as_slice();
            if u32::try_from(members.len()).is_err() {
                return Err(ExtractError::Memory);
            }
            match chosen(alloc, checked, class, choice) {
                Ok(numbers) => taken_by(alloc, checked, texts, members, &numbers, name),
                Err(ChooseError::NoMember(number)) => {
                    Err(ExtractError::Refused(unlisted(2, number)))
                }
                Err(ChooseError::Memory) => Err(ExtractError::Memory),
            }
        }
        None => Err(ExtractError::Refused(unlisted(1, 0))),
    }
}
