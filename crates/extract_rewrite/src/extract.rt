//! Windows of a package taken out into a function, or why they are not.

ghost use Rattle.std.specs.Prelude.{◌≡◌, ◌<◌, ◌≤◌, Some, length, IfOk};
ghost use Rattle.std.specs.List.{AllByRecursion};
ghost use Rattle.go_base.specs.Gives.{Meets};
ghost use Rattle.go_typed.specs.Contents.{content};
ghost use Rattle.go_package_defs.specs.Checked.{IsCheckedPackage, texts_of};
ghost use Rattle.edit_apply.specs.Applied.{AreApplicable};
ghost use Rattle.extract_rewrite.specs.Answers.{IsExtraction, IsRefused, limit_refusal};
ghost use Rattle.escape_check.specs.Shown.{refusal_view};
ghost use Rattle.extract_rewrite.specs.Extraction.{extraction_of};
ghost use Rattle.extract_rewrite.specs.Shown.{AreItsTexts, extract_refusal, extracted_shown};

use crate::error::ExtractError;
use crate::extracted::{Extracted, taken_out};
use crate::laws::edits_can_be_done;
use crate::limits::keeps_limits;
use edit_apply::Texts;
use escape_check::refusal::refusal;
use escape_check::report::Refusal;
use go_base::Memory;
use go_typed::checked::Checked;
use go_typed::window::Window;
use std::alloc::Global;

/// The edits that take windows of a package that has these texts out into a function of this name, with what is told of them. The
/// windows are the same, and the first one is the template.
///
/// # Errors
///
/// The refusal of the least code that applies, with the first window to which it applies and the first place there; or want of memory.
#[tactic(auto, using(crate::proofs::CheckedFiles::are_read, crate::proofs::CheckedFiles::its_texts, crate::proofs::Extracting::refused_early))]
pub fn extract(
    alloc: Global,
    checked: &Checked,
    texts: &Texts,
    members: &[Window],
    name: &[u8],
) -> Result<Extracted, ExtractError>
    requires checked { IsCheckedPackage checked.now }
    requires few { length checked.now.files ≤ 256 }
    requires texts { texts_of checked.now ≡ texts.now }
    requires some { 1 ≤ length members.now }
    requires functions { AllByRecursion (λ w. w.func < length checked.now.functions) members.now }
    ensures answer { Meets extract_refusal result (λ x. IsExtraction (content checked.now) name.now members.now (extracted_shown x)) (IsRefused (content checked.now) name.now members.now) }
    ensures ready { IfOk result (λ x. AreApplicable texts.now x.edits) }
{
    if let Some(refused) = refusal(alloc, checked, members, name)? {
        return Err(ExtractError::Refused(refused));
    }
    edits_can_be_done();
    let extracted = unlimited(alloc, checked, texts, members, name)?;
    if keeps_limits(alloc, checked, texts.all(), extracted.edits.as_slice())? {
        Ok(extracted)
    } else {
        Err(ExtractError::Refused(limit_refusal()))
    }
}

/// The same where nothing is asked of the windows and of the limits.
///
/// # Errors
///
/// Want of memory.
#[tactic(auto, using(crate::proofs::Extracting::template_there))]
fn unlimited(
    alloc: Global,
    checked: &Checked,
    texts: &Texts,
    members: &[Window],
    name: &[u8],
) -> Result<Extracted, Memory>
    requires texts { AreItsTexts checked.now texts.now }
    requires some { 1 ≤ length members.now }
    requires functions { AllByRecursion (λ w. w.func < length checked.now.functions) members.now }
    ensures { IfOk result (λ x. extraction_of (content checked.now) name.now members.now ≡ Some (extracted_shown x)) }
{
    match taken_out(alloc, checked, texts, members, name)? {
        Some(extracted) => Ok(extracted),
        None => unreachable!(),
    }
}

/// The refusal of windows that no lesser code applies to, where the new package would pass a limit.
fn limit_refusal() -> Refusal
    ensures { refusal_view result ≡ limit_refusal }
{
    Refusal {
        code: 17,
        member: 0,
        span: None,
    }
}
