//! The reply to `extract`.

ghost use Rattle.std.specs.Prelude.{◌≡◌, ◌++◌, Some, IfOk, IsSome};
ghost use Rattle.go_package_defs.specs.Checked.{names_of};
ghost use Rattle.go_scopes_lookup.specs.Views.{place_of};
ghost use Rattle.escape_check.specs.Shown.{refusal_view};
ghost use Rattle.extract_rewrite.specs.Shown.{counts_shown};
ghost use Rattle.clone_script.specs.Extracts.{refusal_head};
ghost use Rattle.clone_session.specs.After.{AreKeptOrNew};
ghost use Rattle.clone_session.specs.Extracting.{choice_of, kept_line, refusal_tail, taken_line, Extracts};
ghost use Rattle.clone_session.specs.Session.{IsGoodVerdict};

use crate::answers::{fault_line, refresh};
use crate::{Check, Session};
use alpha_hash_defs::window_hash::WindowHash;
use clone_classes::choose::{Choice, Numbers};
use clone_script::{Choice as Named, ExtractAnswer, extract_reply};
use escape_check::report::Refusal;
use extract_rewrite::error::ExtractError;
use extract_rewrite::extracted::Extracted;
use go_base::{Bytes, Memory, Name, Span};
use std::alloc::Global;
use std::marker::Brand;
use std::sync::ledger::Blank;

/// The choice that a command names.
fn choice_of(alloc: Global, named: &Named) -> Result<Choice, Memory>
    ensures { IfOk result (λ c. c ≡ choice_of named.now) }
{
    match named {
        Named::All => Ok(Choice::All),
        Named::Members(numbers) => {
            let items = Vec::from_slice(alloc, numbers.as_slice())?;
            Ok(Choice::Members(Numbers::of(items)))
        }
    }
}

/// The line of a refusal for these bytes of a member.
fn placed_line<C: Check, H: WindowHash + Copy + Drop>(
    alloc: Global,
    session: &Session<C, H>,
    name: &Name,
    code: u8,
    member: u32,
    span: Span,
) -> Result<Bytes, Memory>
    ensures { IfOk result (λ reply. reply ≡ refusal_head code ++ refusal_tail (names_of session.now.texts) member (Some (place_of span))) }
{
    if span.file >= session.files() {
        return Err(Memory);
    }
    let answer = ExtractAnswer::Refused {
        code,
        member,
        place: Some((session.name_at(span.file), span)),
    };
    extract_reply(alloc, name.bytes(), answer)
}

/// The line of a refusal.
fn refused_line<C: Check, H: WindowHash + Copy + Drop>(
    alloc: Global,
    session: &Session<C, H>,
    name: &Name,
    refusal: Refusal,
) -> Result<Bytes, Memory>
    ensures { IfOk result (λ reply. reply ≡ kept_line (names_of session.now.texts) (refusal_view refusal)) }
{
    let (code, member) = (refusal.code, refusal.member);
    if code == 1 {
        return extract_reply(alloc, name.bytes(), ExtractAnswer::NoClass);
    }
    if code == 2 {
        return extract_reply(alloc, name.bytes(), ExtractAnswer::NoMember(member));
    }
    match refusal.span {
        Some(span) => placed_line(alloc, session, name, code, member, span),
        None => {
            let answer = ExtractAnswer::Refused {
                code,
                member,
                place: None,
            };
            extract_reply(alloc, name.bytes(), answer)
        }
    }
}

/// The line of an extraction that was done.
fn done_line(alloc: Global, name: &Name, extracted: &Extracted) -> Result<Bytes, Memory>
    ensures { IfOk result (λ reply. reply ≡ taken_line name.now (counts_shown extracted.now)) }
{
    let answer = ExtractAnswer::Done {
        members: extracted.members,
        parameters: extracted.parameters,
        results: extracted.results,
        dropped: extracted.dropped,
    };
    extract_reply(alloc, name.bytes(), answer)
}

/// The reply to `extract` of a package that type-checks.
fn taken_line<C: Check, H: WindowHash + Copy + Drop>(
    alloc: Global,
    session: &mut Session<C, H>,
    class: u32,
    name: &Name,
    choice: &Choice,
) -> Result<Bytes, Memory>
    requires { IsGoodVerdict session.old.verdict }
    ensures reply { IfOk result (λ reply. Extracts session.old.bounds session.old.texts class name.now choice.now reply session.new.texts) }
    ensures after { AreKeptOrNew session.old session.new }
{
    match session.extract(class, name.bytes(), choice) {
        Ok(extracted) => done_line(alloc, name, &extracted),
        Err(ExtractError::Refused(refusal)) => refused_line(alloc, session, name, refusal),
        Err(ExtractError::Memory) => Err(Memory),
    }
}

/// The reply to `extract`.
pub fn extracted<C: Check, H: WindowHash + Copy + Drop>(
    alloc: Global,
    session: &mut Session<C, H>,
    class: u32,
    name: &Name,
    choice: &Named,
) -> Result<Bytes, Memory>
    ensures reply { IfOk result (λ reply. Extracts session.old.bounds session.old.texts class name.now (choice_of choice.now) reply session.new.texts) }
    ensures bounds { session.new.bounds ≡ session.old.bounds }
    ensures known { IsSome session.old.verdict → AreKeptOrNew session.old session.new }
{
    let choice = choice_of(alloc, choice)?;
    refresh::<C, H, Brand>(session, Blank::new(3))?;
    match session.fault() {
        Some(fault) => fault_line(alloc, session, &fault),
        None => taken_line(alloc, session, class, name, &choice),
    }
}
