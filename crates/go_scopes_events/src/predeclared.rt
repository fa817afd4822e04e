//! Predeclared names of Go 1.22 (Go specification: Predeclared identifiers).

ghost use Rattle.std.specs.Prelude.{◌≡◌, map};
ghost use Rattle.go_tokens.specs.Spellings.{same_text, listed};
ghost use Rattle.go_tree.specs.Predeclared.{unknown_names, known_in};
ghost use Rattle.go_tree.specs.Objects.{predeclared_object};

use go_tree::object::{Object, Predeclared};

/// Those of the profile.
const KNOWN: [(&[u8], Predeclared); 26] = [
    (b"bool", Predeclared::Bool),
    (b"string", Predeclared::String),
    (b"int", Predeclared::Int),
    (b"int8", Predeclared::Int8),
    (b"int16", Predeclared::Int16),
    (b"int32", Predeclared::Int32),
    (b"int64", Predeclared::Int64),
    (b"uint", Predeclared::Uint),
    (b"uint8", Predeclared::Uint8),
    (b"uint16", Predeclared::Uint16),
    (b"uint32", Predeclared::Uint32),
    (b"uint64", Predeclared::Uint64),
    (b"byte", Predeclared::Byte),
    (b"rune", Predeclared::Rune),
    (b"true", Predeclared::True),
    (b"false", Predeclared::False),
    (b"iota", Predeclared::Iota),
    (b"nil", Predeclared::Nil),
    (b"append", Predeclared::Append),
    (b"cap", Predeclared::Cap),
    (b"copy", Predeclared::Copy),
    (b"len", Predeclared::Len),
    (b"make", Predeclared::Make),
    (b"max", Predeclared::Max),
    (b"min", Predeclared::Min),
    (b"panic", Predeclared::Panic),
];

/// Those outside the profile.
const UNKNOWN: [&[u8]; 18] = [
    b"any",
    b"comparable",
    b"complex64",
    b"complex128",
    b"error",
    b"float32",
    b"float64",
    b"uintptr",
    b"clear",
    b"close",
    b"complex",
    b"delete",
    b"imag",
    b"new",
    b"print",
    b"println",
    b"real",
    b"recover",
];

/// Whether two texts are the same.
pub fn same_text(a: &[u8], b: &[u8]) -> bool
    ensures { result ≡ same_text a.now b.now }
{
    let mut a = a;
    let mut b = b;
    while let [x, xs @ ..] = a {
        match b {
            [y, ys @ ..] if x == y => b = ys,
            _ => return false,
        }
        a = xs;
    }
    b.is_empty()
}

/// The predeclared name of a table that is spelled so.
fn known_in(mut table: &[(&[u8], Predeclared)], name: &[u8]) -> Option<Predeclared>
    ensures { result ≡ known_in (map (λ k. (k.0.now, k.1)) table.entry.now) name.now }
{
    while let [entry, rest @ ..] = table {
        if same_text(entry.0, name) {
            return Some(entry.1);
        }
        table = rest;
    }
    None
}

/// Whether a text is in a table.
fn is_listed(mut table: &[&[u8]], name: &[u8]) -> bool
    ensures { result ≡ listed (map (λ k. k.now) table.entry.now) name.now }
{
    while let [text, rest @ ..] = table {
        if same_text(text, name) {
            return true;
        }
        table = rest;
    }
    false
}

/// What a name means without a declaration, if it is a predeclared one of the profile.
pub fn predeclared_object(name: &[u8]) -> Option<Object>
    ensures { result ≡ predeclared_object name.now }
{
    match known_in(&KNOWN, name) {
        None => None,
        Some(known) => Some(Object::Predeclared(known)),
    }
}

/// Whether it is a predeclared name outside the profile.
pub fn is_unknown(name: &[u8]) -> bool
    ensures { result ≡ listed unknown_names name.now }
{
    is_listed(&UNKNOWN, name)
}
