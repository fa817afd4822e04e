//! The new function.

ghost use Rattle.std.specs.Prelude.{◌≡◌, ◌++◌, codes, map, slice_get, IfOk, OnOk};
ghost use Rattle.std.specs.Option.{option_map};
ghost use Rattle.go_scopes_lookup.specs.Views.{place_of};
ghost use Rattle.go_typed.specs.Contents.{content};
ghost use Rattle.go_types.specs.Tables.{type_of};
ghost use Rattle.param_choose.specs.Choosing.{choice};
ghost use Rattle.param_choose.specs.Members.{members_in};
ghost use Rattle.param_choose.specs.Shown.{array_in, hole_view, holes_view, variable_view};
ghost use Rattle.escape_check.specs.Places.{sources_in};
ghost use Rattle.escape_check.specs.Shown.{IsSound, member_by, member_view};
ghost use Rattle.extract_texts.specs.Shown.{IsTemplate, numbers_shown, place_at, places_at};
ghost use Rattle.extract_texts.specs.Texts.{file_text, function_for, function_with, variable_names, window_bytes, with_names};

use crate::fresh::fresh_names;
use crate::header::push_header;
use crate::held::hole_at;
use crate::pieces::{push_part, push_return, push_variables};
use crate::template::Template;
use escape_check::member::Member;
use escape_check::place::bytes_of;
use go_base::{Bytes, Memory, Span};
use go_typed::checked::Checked;
use param_choose::choice::{Choice, HoleParameter};
use param_choose::holes::{Hole, holes_of};
use std::alloc::{AllocError, Global};

/// What stands behind the template's file: a newline, and the function of this name. Its parameters are the template's free locals, and
/// then its constants that are parameters, under fresh names. Its body has the template's own bytes, which are read from those of the
/// file, where a blank, the fresh name and a blank stand in place of each such constant; and a return of the results, if there are any
/// (Go specification: Function declarations, Return statements).
///
/// It looks once at each token of the package and at each node of the template.
///
/// # Errors
///
/// Want of memory.
pub fn function_text(
    alloc: Global,
    checked: &Checked,
    name: &[u8],
    template: &Template<'_>,
    file: &[u8],
) -> Result<Bytes, Memory>
    requires template { IsTemplate checked.now template.now }
    requires file { file.now ≡ file_text (sources_in checked.now) (member_view template.now.member) }
    ensures { IfOk result (λ text. text ≡ function_for (content checked.now) name.now template.now.windows.now) }
{
    let fresh = fresh_names(alloc, checked, name, template.choice.holes.len())?;
    written_function(alloc, checked, name, template, &fresh, file)
}

/// The same by the numbers of types, with these fresh names.
fn written_function(
    alloc: Global,
    checked: &Checked,
    name: &[u8],
    template: &Template<'_>,
    fresh: &[Bytes],
    file: &[u8],
) -> Result<Bytes, Memory>
    requires template { IsTemplate checked.now template.now }
    requires file { file.now ≡ file_text (sources_in checked.now) (member_view template.now.member) }
    ensures { IfOk result (λ text. text ≡ function_with (type_of checked.now.types.shapes) (sources_in checked.now) name.now fresh.now (member_view template.now.member)
        (choice (array_in checked.now.types) (members_in checked.now template.now.windows.now) (member_by checked.now template.now.member))) }
{
    checked.types();
    let results = results(alloc, checked, &template.member, &template.choice)?;
    let mut text = Vec::new(alloc);
    text.push(b'\n')?;
    push_header(alloc, checked, name, template, fresh, &mut text)?;
    text.extend_from_slice(b" {\n")?;
    push_template(
        alloc,
        checked,
        &template.member,
        &template.choice.holes,
        fresh,
        file,
        &mut text,
    )?;
    text.push(b'\n')?;
    push_return(&results, &mut text)?;
    text.extend_from_slice(b"}\n")?;
    Ok(Bytes::of(text))
}

/// The names of results: those of assigned free locals, and then of declared variables.
fn results(
    alloc: Global,
    checked: &Checked,
    member: &Member<'_>,
    choice: &Choice,
) -> Result<Vec<Bytes>, Memory>
    ensures { IfOk result (λ v. v.items ≡ variable_names (sources_in checked.now) (member_view member.now) (map variable_view choice.now.assigned.items)
        ++ variable_names (sources_in checked.now) (member_view member.now) (map variable_view choice.now.declared.items)) }
{
    let mut names = Vec::new(alloc);
    push_variables(alloc, checked, member, &choice.assigned, &mut names)?;
    push_variables(alloc, checked, member, &choice.declared, &mut names)?;
    Ok(names)
}

/// Puts the template's own bytes behind a text, with these names in place of the constants that are parameters.
fn push_template(
    alloc: Global,
    checked: &Checked,
    member: &Member<'_>,
    parameters: &[HoleParameter],
    names: &[Bytes],
    file: &[u8],
    text: &mut Vec<u8>,
) -> Result<(), Memory>
    requires { IsSound checked.now member.now }
    ensures { OnOk result (text.new.items ≡ text.old.items ++ with_names file.now (window_bytes (sources_in checked.now) (member_view member.now)).start (window_bytes (sources_in checked.now) (member_view member.now)).end
        (places_at (sources_in checked.now) (member_view member.now) (numbers_shown parameters.now)) names.now) }
{
    let spans = hole_spans(alloc, checked, member, parameters)?;
    let window = bytes_of(checked, member.window_place(checked));
    Ok(push_with_names(file, window.start, window.end, &spans, names, text)?)
}

/// The bytes of the holes that are parameters, by their numbers.
pub fn hole_spans(
    alloc: Global,
    checked: &Checked,
    member: &Member<'_>,
    parameters: &[HoleParameter],
) -> Result<Vec<Span>, AllocError>
    requires { IsSound checked.now member.now }
    ensures { IfOk result (λ v. map place_of v.items ≡ places_at (sources_in checked.now) (member_view member.now) (numbers_shown parameters.now)) }
{
    let holes = holes_of(alloc, member.statements)?;
    let mut spans = Vec::new(alloc);
    for parameter in parameters {
        push_numbered(checked, member, &holes, parameter.number, &mut spans)?;
    }
    Ok(spans)
}

/// Puts the bytes of the hole of a number behind others, if there is such a hole.
fn push_numbered(
    checked: &Checked,
    member: &Member<'_>,
    holes: &[Hole<'_>],
    number: u32,
    spans: &mut Vec<Span>,
) -> Result<(), AllocError>
    requires { IsSound checked.now member.now }
    ensures { OnOk result (map place_of spans.new.items ≡ map place_of spans.old.items ++ place_at (sources_in checked.now) (member_view member.now) (slice_get (holes_view holes.now) number)) }
{
    push_span(checked, member, hole_at(holes, number), spans)
}

/// Puts the bytes of a hole behind others, if there is a hole.
fn push_span(
    checked: &Checked,
    member: &Member<'_>,
    hole: Option<&Hole<'_>>,
    spans: &mut Vec<Span>,
) -> Result<(), AllocError>
    requires { IsSound checked.now member.now }
    ensures { OnOk result (map place_of spans.new.items ≡ map place_of spans.old.items ++ place_at (sources_in checked.now) (member_view member.now) (option_map hole_view (option_map (λ h. h.now) hole.entry))) }
{
    if let Some(hole) = hole {
        spans.push(bytes_of(checked, member.place(checked, hole.from, hole.upto)))?;
    }
    Ok(())
}

/// Puts the bytes of a file from one up to another behind a text, with these names in place of these parts of it.
fn push_with_names(
    file: &[u8],
    from: u32,
    upto: u32,
    spans: &[Span],
    names: &[Bytes],
    text: &mut Vec<u8>,
) -> Result<(), AllocError>
    ensures { OnOk result (text.new.items ≡ text.old.items ++ with_names file.now from upto (map place_of spans.now) names.now) }
{
    let mut at = from;
    let mut index: usize = 0;
    for span in spans {
        let Some(name) = names.get(index) else {
            return push_part(file, at, upto, text);
        };
        push_part(file, at, span.start, text)?;
        push_name(name.as_slice(), text)?;
        at = span.end;
        index += 1;
    }
    push_part(file, at, upto, text)
}

/// Puts a blank, a name and a blank behind a text.
fn push_name(name: &[u8], text: &mut Vec<u8>) -> Result<(), AllocError>
    ensures { OnOk result (text.new.items ≡ text.old.items ++ codes " " ++ name.now ++ codes " ") }
{
    text.push(b' ')?;
    text.extend_from_slice(name)?;
    Ok(text.push(b' ')?)
}
