//! Places of a package, and what is found at them.

ghost use Rattle.std.specs.Prelude.{◌≡◌, ◌+◌, suc, slice_get};
ghost use Rattle.go_tree.specs.Units as units;
ghost use Rattle.go_scopes_lookup.specs.Views.{place_of};
ghost use Rattle.escape_check.specs.Places.{bytes_of, sources_in, text_at};
ghost use Rattle.escape_check.specs.Shown.{place_view};

use go_base::Span;
use go_scopes_lookup::unit::word;
use go_tokens::tokens::Tokens;
use go_tree::object::Declared;
use go_typed::checked::Checked;

/// Tokens of a file.
#[derive(Clone, Copy, Debug)]
pub struct Place {
    pub file: u32,
    /// The number of the first one.
    pub from: u64,
    /// The number of the one behind the last.
    pub upto: u64,
}

/// A refusal with the tokens of its place.
#[derive(Clone, Copy, Debug)]
pub(crate) struct Refused {
    pub code: u8,
    /// The number of the member among all members, from 0.
    pub member: u32,
    pub place: Option<Place>,
}

/// The place of a name that is declared.
pub(crate) fn declaring_place(declared: Declared) -> Place
    ensures { place_view result ≡ record { file = declared.file; from = declared.name; upto = suc declared.name } }
{
    let from = u64::from(declared.name);
    Place {
        file: declared.file,
        from,
        upto: from + 1,
    }
}

/// The bytes of a place: from the first byte of its first token to the last one of its last token.
pub fn bytes_of(checked: &Checked, place: Place) -> Span
    ensures { place_of result ≡ bytes_of (sources_in checked.now) (place_view place) }
{
    match checked.files().get(place.file as usize) {
        Some(file) => bytes_between(place.file, file.tokens(), place.from, place.upto),
        None => Span {
            file: place.file,
            start: 0,
            end: 0,
        },
    }
}

/// The bytes of the tokens of a file, from one up to another.
fn bytes_between(file: u32, tokens: &Tokens, from: u64, upto: u64) -> Span
    ensures { place_of result ≡ units.bytes_of file tokens.now from upto }
{
    let start = start_of(tokens, from);
    let end = end_of(tokens, upto.saturating_sub(1));
    Span {
        file,
        start,
        end: start.max(end),
    }
}

/// Where the token of this number begins; 0 where there is no such token.
fn start_of(tokens: &Tokens, number: u64) -> u32
    ensures { result ≡ units.start_in (slice_get tokens.now.tokens number) }
{
    if number < u64::from(tokens.count()) {
        tokens.get(number as u32).span.start
    } else {
        0
    }
}

/// Where the token of this number ends; 0 where there is no such token.
fn end_of(tokens: &Tokens, number: u64) -> u32
    ensures { result ≡ units.end_in (slice_get tokens.now.tokens number) }
{
    if number < u64::from(tokens.count()) {
        tokens.get(number as u32).span.end
    } else {
        0
    }
}

/// The bytes of a token of a file; none where there is no such token.
pub(crate) fn text_at(checked: &Checked, file: u32, token: u32) -> &[u8]
    ensures { result.now ≡ text_at (sources_in checked.now) file token }
{
    match checked.files().get(file as usize) {
        Some(file) => word(file.tokens(), token),
        None => &[],
    }
}

/// The name that is declared.
pub(crate) fn name_text(checked: &Checked, declared: Declared) -> &[u8]
    ensures { result.now ≡ text_at (sources_in checked.now) declared.file declared.name }
{
    text_at(checked, declared.file, declared.name)
}
