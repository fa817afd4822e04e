//! The edits that take windows out into a function.

ghost use Rattle.std.specs.Prelude.{◌≡◌, ◌++◌, ◌∷◌, drop, length, map, IfOk, OnOk, slice_get};
ghost use Rattle.std.specs.List.{AllByRecursion};
ghost use Rattle.go_typed.specs.Contents.{content};
ghost use Rattle.param_choose.specs.Members.{members_in};
ghost use Rattle.escape_check.specs.Places.{sources_in};
ghost use Rattle.escape_check.specs.Shown.{IsSound, member_view, unnumbered};
ghost use Rattle.extract_texts.specs.Shown.{IsTemplate};
ghost use Rattle.extract_texts.specs.Texts.{file_text, function_for, text_of};
ghost use Rattle.extract_rewrite.specs.Edits.{edit_at, edits, file_end};
ghost use Rattle.extract_rewrite.specs.Shown.{found_edit};

use crate::order::from_the_end;
use edit_apply::{Edit, Edits};
use escape_check::member::Member;
use escape_check::place::bytes_of;
use extract_texts::call::call_text;
use extract_texts::function::function_text;
use extract_texts::template::Template;
use go_base::Memory;
use go_typed::checked::Checked;
use std::alloc::Global;

/// The edits that take windows out into a function of this name: at each window its call, and the function at the end of the template's
/// file, whose bytes are these. They go from the last file to the first, and in a file from its end to its start. `others` are the
/// windows behind the first one, which is the template.
///
/// # Errors
///
/// Want of memory.
pub fn edits_of(
    alloc: Global,
    checked: &Checked,
    name: &[u8],
    template: &Template<'_>,
    others: &[Member<'_>],
    file: &[u8],
) -> Result<Edits, Memory>
    requires template { IsTemplate checked.now template.now }
    requires sound { AllByRecursion (IsSound checked.now) others.now }
    requires others { map member_view others.now ≡ map unnumbered (members_in checked.now (drop 1 template.now.windows.now)) }
    requires file { file.now ≡ file_text (sources_in checked.now) (member_view template.now.member) }
    ensures { IfOk result (λ e. e ≡ edits (content checked.now) name.now template.now.windows.now) }
{
    let edits = all_edits(alloc, checked, name, template, others, file)?;
    let ordered = from_the_end(alloc, edits)?;
    Ok(ordered)
}

/// The same edits in the order of the windows, behind the function.
fn all_edits(
    alloc: Global,
    checked: &Checked,
    name: &[u8],
    template: &Template<'_>,
    others: &[Member<'_>],
    file: &[u8],
) -> Result<Vec<Edit>, Memory>
    requires template { IsTemplate checked.now template.now }
    requires sound { AllByRecursion (IsSound checked.now) others.now }
    requires file { file.now ≡ file_text (sources_in checked.now) (member_view template.now.member) }
    ensures { IfOk result (λ v. v.items ≡ edit_at (file_end (sources_in checked.now) (member_view template.now.member)) (function_for (content checked.now) name.now template.now.windows.now)
        ∷ found_edit checked.now name.now template.now.windows.now template.now.member ∷ map (found_edit checked.now name.now template.now.windows.now) others.now) }
{
    let member = &template.member;
    let mut edits = Vec::new(alloc);
    edits.push(function_edit(alloc, checked, name, template, file)?)?;
    edits.push(window_edit(alloc, checked, name, template, member)?)?;
    push_windows(alloc, checked, name, template, others, &mut edits)?;
    Ok(edits)
}

/// The function at the end of the template's file.
fn function_edit(
    alloc: Global,
    checked: &Checked,
    name: &[u8],
    template: &Template<'_>,
    file: &[u8],
) -> Result<Edit, Memory>
    requires template { IsTemplate checked.now template.now }
    requires file { file.now ≡ file_text (sources_in checked.now) (member_view template.now.member) }
    ensures { IfOk result (λ e. e ≡ edit_at (file_end (sources_in checked.now) (member_view template.now.member)) (function_for (content checked.now) name.now template.now.windows.now)) }
{
    let end = file_length(checked, template.member.file);
    let text = function_text(alloc, checked, name, template, file)?;
    Ok(Edit {
        file: template.member.file,
        start: end,
        end,
        text,
    })
}

/// How many bytes a file has; none where there is no such file.
fn file_length(checked: &Checked, file: u32) -> u32
    ensures { result ≡ length (text_of (slice_get checked.now.files file)) }
{
    match checked.files().get(file as usize) {
        Some(file) => file.tokens().length(),
        None => 0,
    }
}

/// The call at the window of a member.
fn window_edit(
    alloc: Global,
    checked: &Checked,
    name: &[u8],
    template: &Template<'_>,
    member: &Member<'_>,
) -> Result<Edit, Memory>
    requires template { IsTemplate checked.now template.now }
    requires member { IsSound checked.now member.now }
    ensures { IfOk result (λ e. e ≡ found_edit checked.now name.now template.now.windows.now member.now) }
{
    let window = bytes_of(checked, member.window_place(checked));
    let text = call_text(alloc, checked, name, template, member)?;
    Ok(Edit {
        file: window.file,
        start: window.start,
        end: window.end,
        text,
    })
}

/// Puts the calls at the windows of members behind other edits.
fn push_windows(
    alloc: Global,
    checked: &Checked,
    name: &[u8],
    template: &Template<'_>,
    members: &[Member<'_>],
    edits: &mut Vec<Edit>,
) -> Result<(), Memory>
    requires template { IsTemplate checked.now template.now }
    requires sound { AllByRecursion (IsSound checked.now) members.now }
    ensures { OnOk result (edits.new.items ≡ edits.old.items ++ map (found_edit checked.now name.now template.now.windows.now) members.now) }
{
    for member in members {
        edits.push(window_edit(alloc, checked, name, template, member)?)?;
    }
    Ok(())
}
