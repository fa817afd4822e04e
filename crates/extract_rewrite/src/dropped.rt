//! The comments that an extraction drops.

ghost use Rattle.std.specs.Prelude.{◌≡◌, ◌+◌, ℕ, drop, map, sum_by, IfOk};
ghost use Rattle.std.specs.List.{AllByRecursion};
ghost use Rattle.go_scopes_lookup.specs.Views.{place_of};
ghost use Rattle.go_typed.specs.Contents.{content};
ghost use Rattle.param_choose.specs.Members.{members_in};
ghost use Rattle.escape_check.specs.Places.{sources_in};
ghost use Rattle.escape_check.specs.Shown.{IsSound, member_view, unnumbered};
ghost use Rattle.extract_texts.specs.Shown.{IsTemplate};
ghost use Rattle.extract_rewrite.specs.Counts.{comments_in, dropped};
ghost use Rattle.extract_rewrite.specs.Shown.{found_bytes};

use escape_check::member::Member;
use escape_check::place::bytes_of;
use extract_texts::function::hole_spans;
use extract_texts::template::Template;
use go_base::{Memory, Span};
use go_typed::checked::Checked;
use std::alloc::{AllocError, Global};

/// How many comments are dropped where windows are taken out into a function: those in the windows behind the first one, which is the
/// template, and those in the template's constants that become parameters.
///
/// # Errors
///
/// Want of memory; also where there are more comments than numbers.
pub fn dropped_comments(
    alloc: Global,
    checked: &Checked,
    template: &Template<'_>,
    others: &[Member<'_>],
) -> Result<u32, Memory>
    requires template { IsTemplate checked.now template.now }
    requires sound { AllByRecursion (IsSound checked.now) others.now }
    requires others { map member_view others.now ≡ map unnumbered (members_in checked.now (drop 1 template.now.windows.now)) }
    ensures { IfOk result (λ n. n ≡ dropped (content checked.now) template.now.windows.now) }
{
    let mut spans = window_spans(alloc, checked, others)?;
    let holes = hole_spans(alloc, checked, &template.member, &template.choice.holes)?;
    spans.extend_from_slice(&holes)?;
    let total = comments_within(checked, &spans)?;
    Ok(total)
}

/// The bytes of the windows of members.
fn window_spans(
    alloc: Global,
    checked: &Checked,
    members: &[Member<'_>],
) -> Result<Vec<Span>, AllocError>
    requires { AllByRecursion (IsSound checked.now) members.now }
    ensures { IfOk result (λ v. map place_of v.items ≡ map (found_bytes checked.now) members.now) }
{
    let mut spans = Vec::with_capacity(alloc, members.len())?;
    for member in members {
        spans.push(bytes_of(checked, member.window_place(checked)))?;
    }
    Ok(spans)
}

/// How many comments lie in these places, all together.
fn comments_within(checked: &Checked, spans: &[Span]) -> Result<u32, Memory>
    ensures { IfOk result (λ n. n ≡ sum_by (λ x. comments_in (sources_in checked.now) (place_of x)) spans.now) }
{
    let mut total: u32 = 0;
    for span in spans {
        total = sum(total, comments_in(checked, *span))?;
    }
    Ok(total)
}

/// The sum of two numbers, if it is a number of 32 bits.
pub(crate) fn sum(a: u32, b: u32) -> Result<u32, Memory>
    ensures { IfOk result (λ n. n ≡ a + b) }
{
    match a.checked_add(b) {
        Some(sum) => Ok(sum),
        None => Err(Memory),
    }
}

/// How many comments lie among some bytes of a file; none where there is no such file.
fn comments_in(checked: &Checked, span: Span) -> u32
    ensures { result ≡ comments_in (sources_in checked.now) (place_of span) }
{
    match checked.files().get(span.file as usize) {
        Some(file) => file.tokens().comments(span.start, span.end),
        None => 0,
    }
}
