//! Windows taken out into a function: the edits, and what is told of them.

ghost use Rattle.std.specs.Prelude.{◌≡◌, ◌+◌, Some, drop, length, map, slice_get, IfOk};
ghost use Rattle.std.specs.Option.{option_map};
ghost use Rattle.std.specs.List.{AllByRecursion};
ghost use Rattle.go_typed.specs.Contents.{content};
ghost use Rattle.param_choose.specs.Members.{members_in};
ghost use Rattle.escape_check.specs.Places.{sources_in};
ghost use Rattle.escape_check.specs.Shown.{IsSound, member_view, unnumbered};
ghost use Rattle.extract_texts.specs.Shown.{IsTemplate};
ghost use Rattle.extract_texts.specs.Texts.{file_text};
ghost use Rattle.extract_rewrite.specs.Counts.{counts, parameters_of, results_of};
ghost use Rattle.extract_rewrite.specs.Edits.{edits};
ghost use Rattle.extract_rewrite.specs.Extraction.{extraction_of};
ghost use Rattle.extract_rewrite.specs.Shown.{AreItsTexts, bytes_of_file, counts_shown, extracted_shown};

use crate::dropped::{dropped_comments, sum};
use crate::edits::edits_of;
use edit_apply::{Edits, Texts};
use escape_check::member::{Member, members_of};
use extract_texts::template::{Template, template_of};
use go_base::Memory;
use go_typed::checked::Checked;
use go_typed::func::TypedFunc;
use go_typed::window::Window;
use param_choose::later::all_ends;
use std::alloc::Global;

/// The edits that take windows out into a function, and what is told of them.
#[derive(Drop)]
pub struct Extracted {
    pub edits: Edits,
    /// How many windows are taken out.
    pub members: u32,
    /// How many parameters the function has.
    pub parameters: u32,
    /// How many results it has.
    pub results: u32,
    /// How many comments are dropped.
    pub dropped: u32,
}

/// Windows taken out into a function of this name, where nothing is asked of them. The first one is the template, whose file has these
/// bytes, and `others` are those behind it.
///
/// # Errors
///
/// Want of memory; also where something is counted that has no number of 32 bits.
pub fn extraction(
    alloc: Global,
    checked: &Checked,
    name: &[u8],
    template: &Template<'_>,
    others: &[Member<'_>],
    file: &[u8],
) -> Result<Extracted, Memory>
    requires template { IsTemplate checked.now template.now }
    requires sound { AllByRecursion (IsSound checked.now) others.now }
    requires others { map member_view others.now ≡ map unnumbered (members_in checked.now (drop 1 template.now.windows.now)) }
    requires file { file.now ≡ file_text (sources_in checked.now) (member_view template.now.member) }
    ensures edits { IfOk result (λ x. x.edits ≡ edits (content checked.now) name.now template.now.windows.now) }
    ensures counts { IfOk result (λ x. counts_shown x ≡ counts (content checked.now) template.now.windows.now) }
{
    let edits = edits_of(alloc, checked, name, template, others, file)?;
    let members = count(template.windows)?;
    let parameters = parameters(checked, template)?;
    let results = results(checked, template)?;
    let dropped = dropped_comments(alloc, checked, template, others)?;
    Ok(Extracted {
        edits,
        members,
        parameters,
        results,
        dropped,
    })
}

/// Windows of a package that has these texts, taken out into a function of this name, where nothing is asked of them. The first window
/// is the template; there is nothing where the package doesn't have its function.
///
/// # Errors
///
/// Want of memory; also where something is counted that has no number of 32 bits.
#[tactic(auto, using(crate::proofs::Taken::nothing_there))]
pub fn taken_out(
    alloc: Global,
    checked: &Checked,
    texts: &Texts,
    windows: &[Window],
    name: &[u8],
) -> Result<Option<Extracted>, Memory>
    requires { AreItsTexts checked.now texts.now }
    ensures { IfOk result (λ r. option_map extracted_shown r ≡ extraction_of (content checked.now) name.now windows.now) }
{
    let [first, ..] = windows else {
        return Ok(None);
    };
    let Some(func) = checked.function(first.func) else {
        return Ok(None);
    };
    let extracted = by_template(alloc, checked, texts, func, first, windows, name)?;
    Ok(Some(extracted))
}

/// The same of windows of which the first one stands in this function.
fn by_template(
    alloc: Global,
    checked: &Checked,
    texts: &Texts,
    func: &TypedFunc,
    first: &Window,
    windows: &[Window],
    name: &[u8],
) -> Result<Extracted, Memory>
    requires texts { AreItsTexts checked.now texts.now }
    requires function { slice_get checked.now.functions first.now.func ≡ Some func.now }
    requires first { slice_get windows.now 0 ≡ Some first.now }
    ensures { IfOk result (λ x. Some (extracted_shown x) ≡ extraction_of (content checked.now) name.now windows.now) }
{
    let ends = all_ends(alloc, checked.functions())?;
    let template = template_of(alloc, checked, &ends, func, first, windows)?;
    let others = members_of(alloc, checked, &ends, behind_first(windows))?;
    let file = file_bytes(texts, template.member.file);
    let extracted = extraction(alloc, checked, name, &template, &others, file)?;
    Ok(extracted)
}

/// The windows behind the first one.
fn behind_first(windows: &[Window]) -> &[Window]
    ensures { result.now ≡ drop 1 windows.now }
{
    match windows {
        [_, others @ ..] => others,
        [] => &[],
    }
}

/// The bytes of a file; none where there is no such file.
fn file_bytes(texts: &Texts, file: u32) -> &[u8]
    ensures { result.now ≡ bytes_of_file (slice_get texts.now file) }
{
    match texts.all().get(file as usize) {
        Some(file) => file.bytes.as_slice(),
        None => &[],
    }
}

/// How many parameters the function has: the template's free locals, and its constants that are parameters.
fn parameters(checked: &Checked, template: &Template<'_>) -> Result<u32, Memory>
    requires { IsTemplate checked.now template.now }
    ensures { IfOk result (λ n. n ≡ parameters_of (content checked.now) template.now.windows.now) }
{
    let free = count(&template.choice.free)?;
    let holes = count(&template.choice.holes)?;
    let parameters = sum(free, holes)?;
    Ok(parameters)
}

/// How many results it has: the assigned free locals, and the declared variables that are needed.
fn results(checked: &Checked, template: &Template<'_>) -> Result<u32, Memory>
    requires { IsTemplate checked.now template.now }
    ensures { IfOk result (λ n. n ≡ results_of (content checked.now) template.now.windows.now) }
{
    let assigned = count(&template.choice.assigned)?;
    let declared = count(&template.choice.declared)?;
    let results = sum(assigned, declared)?;
    Ok(results)
}

/// How many of something there are, if that is a number of 32 bits.
fn count<T>(items: &[T]) -> Result<u32, Memory>
    ensures { IfOk result (λ n. n ≡ length items.now) }
{
    match u32::try_from(items.len()) {
        Ok(count) => Ok(count),
        Err(_) => Err(Memory),
    }
}
