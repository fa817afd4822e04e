//! What names mean along the tokens of a file.

ghost use Rattle.std.specs.Prelude.{◌≡◌, ◌≤◌, ℕ, List, ◌∷◌, IfOk, Some, drop, slice_get, map};
ghost use Rattle.std.specs.Option.{option_map};
ghost use Rattle.go_tokens.specs.Tokens.{TokenList};
ghost use Rattle.go_tree.specs.declared.event.Event.{Event};
ghost use Rattle.go_tree.specs.Meanings as meanings;
ghost use Rattle.go_scopes_events.specs.Scopes.{locals_of, first_by, is_import, is_package, reached, AreSwept, AreNested, IsOrderly};
ghost use Rattle.go_scopes_lookup.specs.Views.{unit_view, meaning_view};
ghost use Rattle.go_scopes_lookup.specs.Stacks.{said};
ghost use Rattle.go_scopes_lookup.specs.Sorted.{name_of, named_meaning, event_meanings, all_of, file_locals, IsNamed, AreNamed, Advances, AdvancesTo, IsSorted, IsReached};

use crate::meaning::Meaning;
use crate::scopes::{Scopes, scope_of};
use crate::sorted::Sorted;
use crate::unit::{Unit, word};
use go_base::Memory;
use go_tokens::tokens::Tokens;
use go_tree::event::Event;
use std::alloc::Global;

/// Leaves the blocks that have ended at the token, and enters the names whose scopes have begun there, from the local meaning of
/// this number on. Returns the number of the first one that is left.
fn advance<'a>(
    alloc: Global,
    scopes: &mut Scopes<'a>,
    locals: &[Meaning<'a>],
    from: usize,
    token: u32,
) -> Result<usize, Memory>
    ensures { IfOk result (λ to. Advances token scopes.old.blocks.items (map meaning_view (drop from locals.now)) scopes.new.blocks.items (map meaning_view (drop to locals.now))) }
{
    scopes.leave(token);
    for number in from..locals.len() {
        let meaning = &locals[number];
        if token < scope_of(meaning.entry.extent).from {
            return Ok(number);
        }
        scopes.enter(alloc, token, meaning)?;
    }
    Ok(locals.len())
}

/// The same for the token of an event, if it has one.
fn advance_to<'a>(
    alloc: Global,
    scopes: &mut Scopes<'a>,
    locals: &[Meaning<'a>],
    from: usize,
    token: Option<u32>,
) -> Result<usize, Memory>
    ensures { IfOk result (λ to. AdvancesTo token scopes.old.blocks.items (map meaning_view (drop from locals.now)) scopes.new.blocks.items (map meaning_view (drop to locals.now))) }
{
    match token {
        None => Ok(from),
        Some(token) => advance(alloc, scopes, locals, from, token),
    }
}

/// The declared or imported meaning of a name at a token, where the blocks around it are these.
fn meaning_in<'a>(
    sorted: &Sorted<'a>,
    scopes: &Scopes<'a>,
    file: u32,
    token: u32,
    name: &'a [u8],
) -> Option<Meaning<'a>>
    requires { IsSorted sorted.now }
    ensures { option_map meaning_view result ≡ reached (said scopes.now.blocks.items token name.entry) (first_by (is_import file) name.entry.now (all_of sorted.now)) (first_by is_package name.entry.now (all_of sorted.now)) }
{
    if let Some(meaning) = scopes.find(token, name) {
        return Some(meaning);
    }
    if let Some(meaning) = sorted.find_outer(Some(file), name) {
        return Some(meaning);
    }
    sorted.find_outer(None, name)
}

/// The meaning of the name at the token of an event, if it has one.
fn meaning_of<'a>(
    sorted: &Sorted<'a>,
    scopes: &Scopes<'a>,
    file: u32,
    tokens: &'a Tokens,
    token: Option<u32>,
) -> Option<Meaning<'a>>
    requires { IsSorted sorted.now }
    ensures { AreNested (file_locals sorted.now file) → IsReached file (file_locals sorted.now file) token scopes.now.blocks.items → option_map meaning_view result ≡ named_meaning (all_of sorted.now) file tokens.entry.now token }
{
    match token {
        None => None,
        Some(token) => meaning_in(sorted, scopes, file, token, word(tokens, token)),
    }
}

/// The token of the name that is declared or looked up.
fn name_of(event: &Event) -> Option<u32>
    ensures { result ≡ name_of event.now }
{
    match event {
        Event::Use(lookup) => Some(lookup.name),
        Event::Declaration(declaration) => Some(declaration.name),
        _ => None,
    }
}

/// For each event of the file what its name means at its place, if it has one, where the file has these local meanings.
fn meanings_along<'a>(
    alloc: Global,
    sorted: &Sorted<'a>,
    locals: &[Meaning<'a>],
    file: u32,
    unit: &Unit<'a>,
) -> Result<Vec<Option<Meaning<'a>>>, Memory>
    requires sorted { IsSorted sorted.now }
    requires locals { map meaning_view locals.now ≡ locals_of file (all_of sorted.now) }
    requires swept { AreSwept 0 (locals_of file (all_of sorted.now)) }
    requires nested { AreNested (locals_of file (all_of sorted.now)) }
    requires orderly { IsOrderly (unit_view unit.now).events }
    ensures { IfOk result (λ v. map (option_map meaning_view) v.items ≡ event_meanings (all_of sorted.now) file (unit_view unit.now).tokens (unit_view unit.now).events) }
{
    let mut scopes = Scopes::new(alloc);
    let mut entered = 0;
    let mut out = Vec::new(alloc);
    for event in &unit.events {
        let token = name_of(event);
        entered = advance_to(alloc, &mut scopes, locals, entered, token)?;
        out.push(meaning_of(sorted, &scopes, file, unit.tokens, token))?;
    }
    Ok(out)
}

/// For each event of the file what its name means at its place, if it has one.
pub fn event_meanings<'a>(
    alloc: Global,
    sorted: &Sorted<'a>,
    file: u32,
    unit: &Unit<'a>,
) -> Result<Vec<Option<Meaning<'a>>>, Memory>
    requires sorted { IsSorted sorted.now }
    requires swept { AreSwept 0 (locals_of file (all_of sorted.now)) }
    requires nested { AreNested (locals_of file (all_of sorted.now)) }
    requires orderly { IsOrderly (unit_view unit.now).events }
    ensures { IfOk result (λ v. map (option_map meaning_view) v.items ≡ event_meanings (all_of sorted.now) file (unit_view unit.now).tokens (unit_view unit.now).events) }
{
    match sorted.locals(file) {
        None => meanings_along(alloc, sorted, &[], file, unit),
        Some(locals) => meanings_along(alloc, sorted, locals, file, unit),
    }
}

/// What is told of the event of this number.
pub fn told_at<'a>(told: &[Option<Meaning<'a>>], number: usize) -> Option<Meaning<'a>>
    ensures { (ms : List meanings.Meaning) → (n : ℕ) → (ts : TokenList) → (es : List Event) → (e : Event) → AreNamed ms n ts es told.now → slice_get es number ≡ Some e → IsNamed ms n ts e result }
{
    match told.get(number) {
        None => None,
        Some(meaning) => *meaning,
    }
}
