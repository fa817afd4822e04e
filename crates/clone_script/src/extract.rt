ghost use Rattle.std.specs.Prelude.{◌≡◌, ◌++◌, [], map, unwrap_or, slice_get, IfOk, OnOk};
ghost use Rattle.std.specs.Option.{option_map};
ghost use Rattle.clone_script.specs.Extracts.{refusal_word, refusal_head, refused_line, number_line, counts_text, done_line, extract_reply};

use crate::reply::{push_field, push_place};
use go_base::{Bytes, Memory, Name, Span};
use std::alloc::{AllocError, Global};

/// What became of the command `extract`: it was done, or why it was refused.
#[derive(Clone, Copy, Debug)]
pub enum ExtractAnswer<'a> {
    /// How many members were replaced by calls, how many parameters and results the new function has, and how many comments were
    /// dropped.
    Done {
        members: u32,
        parameters: u32,
        results: u32,
        dropped: u32,
    },
    /// No class has the number.
    NoClass,
    /// The class has no member of this number.
    NoMember(u32),
    /// It was refused with this code, one of 3 to 17, for the member of this number in its class. The place, where there is one, is a
    /// file's name and the bytes in that file.
    Refused {
        code: u8,
        member: u32,
        place: Option<(&'a Name, Span)>,
    },
}

/// The words of the refusals, each at its code.
const WORDS: [&[u8]; 18] = [
    b"",
    b"NoClass",
    b"NoMember",
    b"Overlap",
    b"Return",
    b"Branch",
    b"FallsThrough",
    b"DeclarationEscapes",
    b"LocalName",
    b"MissingReturn",
    b"NameInUse",
    b"Shadowed",
    b"HiddenAtSite",
    b"UnusedImport",
    b"UnusedVariable",
    b"TypeLocal",
    b"TypeHidden",
    b"Limit",
];

/// The word at a code, or nothing where there are fewer words.
fn word_at(words: &[&'static [u8]], code: usize) -> &'static [u8]
    ensures { result.now ≡ unwrap_or (slice_get (map (λ word. word.now) words.now) code) [] }
{
    match words.get(code) {
        Some(word) => *word,
        None => &[],
    }
}

/// The word of a refusal with this code, which is one of 1 to 17.
fn refusal_word(code: u8) -> &'static [u8]
    ensures { result.now ≡ refusal_word code }
{
    word_at(&WORDS, code as usize)
}

/// Puts the code and the word of a refusal behind the others.
fn push_refusal(alloc: Global, out: &mut Vec<u8>, code: u8) -> Result<(), AllocError>
    ensures { OnOk result (out.new.items ≡ out.old.items ++ refusal_head code) }
{
    push_field(alloc, out, b"no extract ", u64::from(code))?;
    out.extend_from_slice(b" ")?;
    out.extend_from_slice(refusal_word(code))
}

/// Puts the counts of an extraction behind the others, and a newline.
fn push_counts(
    alloc: Global,
    out: &mut Vec<u8>,
    members: u32,
    parameters: u32,
    results: u32,
    dropped: u32,
) -> Result<(), AllocError>
    ensures { OnOk result (out.new.items ≡ out.old.items ++ counts_text members parameters results dropped) }
{
    push_field(alloc, out, b" members ", u64::from(members))?;
    push_field(alloc, out, b" parameters ", u64::from(parameters))?;
    push_field(alloc, out, b" results ", u64::from(results))?;
    push_field(alloc, out, b" dropped ", u64::from(dropped))?;
    out.extend_from_slice(b"\n")
}

/// The line of an extraction that was done.
fn done_line(
    alloc: Global,
    name: &[u8],
    members: u32,
    parameters: u32,
    results: u32,
    dropped: u32,
) -> Result<Bytes, Memory>
    ensures { IfOk result (λ reply. reply ≡ done_line name.now members parameters results dropped) }
{
    let mut out = Vec::from_slice(alloc, b"ok extract ")?;
    out.extend_from_slice(name)?;
    push_counts(alloc, &mut out, members, parameters, results, dropped)?;
    Ok(Bytes::of(out))
}

/// The line of a refusal for a member's number and a place, where there is one.
fn refused_line(
    alloc: Global,
    code: u8,
    member: u32,
    place: Option<(&Name, Span)>,
) -> Result<Bytes, Memory>
    ensures { IfOk result (λ reply. reply ≡ refused_line code member (option_map (λ p. (p.0.now, p.1)) place.entry)) }
{
    let mut out = Vec::new(alloc);
    push_refusal(alloc, &mut out, code)?;
    let Some((file, span)) = place else {
        out.extend_from_slice(b"\n")?;
        return Ok(Bytes::of(out));
    };
    push_field(alloc, &mut out, b" ", u64::from(member))?;
    out.extend_from_slice(b" ")?;
    push_place(alloc, &mut out, file.bytes(), span)?;
    out.extend_from_slice(b"\n")?;
    Ok(Bytes::of(out))
}

/// The line of a choice with this number, which is no member's.
fn number_line(alloc: Global, number: u32) -> Result<Bytes, Memory>
    ensures { IfOk result (λ reply. reply ≡ number_line number) }
{
    let mut out = Vec::new(alloc);
    push_refusal(alloc, &mut out, 2)?;
    push_field(alloc, &mut out, b" ", u64::from(number))?;
    out.extend_from_slice(b"\n")?;
    Ok(Bytes::of(out))
}

/// The reply to `extract` with this name for the new function: the counts, or the code and the word of the refusal, with the member's
/// number and the place where there is one.
pub fn extract_reply(alloc: Global, name: &[u8], answer: ExtractAnswer<'_>) -> Result<Bytes, Memory>
    ensures { IfOk result (λ reply. reply ≡ extract_reply name.now answer.entry) }
{
    match answer {
        ExtractAnswer::Done {
            members,
            parameters,
            results,
            dropped,
        } => done_line(alloc, name, members, parameters, results, dropped),
        ExtractAnswer::NoClass => refused_line(alloc, 1, 0, None),
        ExtractAnswer::NoMember(number) => number_line(alloc, number),
        ExtractAnswer::Refused {
            code,
            member,
            place,
        } => refused_line(alloc, code, member, place),
    }
}
