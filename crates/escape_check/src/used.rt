//! Names that are in use.

ghost use Rattle.std.specs.Prelude.{◌≡◌, ◌&&◌, ◌||◌, not, map};
ghost use Rattle.std.specs.Str.{chars, is_utf8};
ghost use Rattle.go_tokens.specs.Characters.{is_in_word, is_letter};
ghost use Rattle.go_tokens.specs.Editing.{is_identifier};
ghost use Rattle.go_tokens.specs.Spellings.{listed};
ghost use Rattle.escape_check.specs.Names as specs;
ghost use Rattle.escape_check.specs.Places.{sources_in};

use go_scopes_events::predeclared::{is_unknown, predeclared_object};
use go_scopes_lookup::unit::same;
use go_tokens::token::TokenKind;
use go_tree::file::File;
use go_typed::checked::Checked;
use std::str;
use unicode::properties::{GeneralCategory, GeneralCategoryGroup};

/// The keywords (Go specification: Keywords).
const KEYWORDS: [&[u8]; 25] = [
    b"break",
    b"case",
    b"chan",
    b"const",
    b"continue",
    b"default",
    b"defer",
    b"else",
    b"fallthrough",
    b"for",
    b"func",
    b"go",
    b"goto",
    b"if",
    b"import",
    b"interface",
    b"map",
    b"package",
    b"range",
    b"return",
    b"select",
    b"struct",
    b"switch",
    b"type",
    b"var",
];

/// Whether a name isn't an identifier, or is `_`, `init`, `main`, a keyword, a predeclared name or an identifier token of the package
/// (Go specification: Identifiers, Keywords, Predeclared identifiers). Each token of the package is looked at once.
pub(crate) fn is_in_use(checked: &Checked, name: &[u8]) -> bool
    ensures { result ≡ specs.is_in_use (sources_in checked.now) name.now }
{
    !is_word(name)
        || is_reserved(name)
        || is_keyword(name)
        || is_predeclared(name)
        || names_package(checked, name)
}

/// Whether it is an identifier, but for keywords.
fn is_word(name: &[u8]) -> bool
    ensures { result ≡ (is_utf8 name.now && specs.is_name_text (chars name.now)) }
{
    match str::from_utf8(name) {
        Ok(text) => is_name_text(text),
        Err(_) => false,
    }
}

/// A letter, and then letters and digits.
fn is_name_text(text: &str) -> bool
    ensures { result ≡ specs.is_name_text (chars text.now) }
{
    let mut is_first = true;
    for c in text.chars() {
        if !may_stand(is_first, c) {
            return false;
        }
        is_first = false;
    }
    !is_first
}

/// Whether a character may be the first one of an identifier, or one behind it.
fn may_stand(is_first: bool, c: char) -> bool
    ensures { result ≡ (is_letter c || (not is_first && is_in_word c)) }
{
    is_letter(c) || (!is_first && is_in_word(c))
}

/// A letter of any script, or `_`.
#[tactic(auto, unfolding(go_tokens::specs::Characters::is_letter))]
fn is_letter(c: char) -> bool
    ensures { result ≡ is_letter c }
{
    c == '_' || GeneralCategoryGroup::Letter.contains(GeneralCategory::for_char(c))
}

/// A letter, or a digit of any script.
#[tactic(auto, unfolding(go_tokens::specs::Characters::is_in_word))]
fn is_in_word(c: char) -> bool
    ensures { result ≡ is_in_word c }
{
    is_letter(c) || GeneralCategory::for_char(c) == GeneralCategory::DecimalNumber
}

/// Whether it is a keyword (Go specification: Keywords).
pub fn is_keyword(name: &[u8]) -> bool
    ensures { result ≡ specs.is_keyword name.now }
{
    is_listed(&KEYWORDS, name)
}

/// Whether a text is in a table.
fn is_listed(table: &[&[u8]], name: &[u8]) -> bool
    ensures { result ≡ listed (map (λ text. text.now) table.now) name.now }
{
    for text in table {
        if same(text, name) {
            return true;
        }
    }
    false
}

fn is_reserved(name: &[u8]) -> bool
    ensures { result ≡ specs.is_reserved name.now }
{
    same(name, b"_") || same(name, b"init") || same(name, b"main")
}

/// Whether it is a predeclared name of Go 1.22 (Go specification: Predeclared identifiers).
pub fn is_predeclared(name: &[u8]) -> bool
    ensures { result ≡ specs.is_predeclared name.now }
{
    predeclared_object(name).is_some() || is_unknown(name)
}

/// Whether it is an identifier token of the package.
fn names_package(checked: &Checked, name: &[u8]) -> bool
    ensures { result ≡ specs.names_package name.now (sources_in checked.now) }
{
    for file in checked.files() {
        if names_file(file, name) {
            return true;
        }
    }
    false
}

/// Whether it is an identifier token of a file.
fn names_file(file: &File, name: &[u8]) -> bool
    ensures { result ≡ specs.names_file name.now file.now }
{
    let tokens = file.tokens();
    for number in 0..tokens.count() {
        let is_name = is_identifier(tokens.get(number).kind);
        if is_name && same(tokens.text(number), name) {
            return true;
        }
    }
    false
}

/// Whether a token of this kind is an identifier.
pub fn is_identifier(kind: TokenKind) -> bool
    ensures { result ≡ is_identifier kind }
{
    matches!(kind, TokenKind::Identifier)
}
