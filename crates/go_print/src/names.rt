//! The names of declared types.
ghost use Rattle.std.specs.Prelude.{◌≡◌};
ghost use Rattle.go_print.specs.Names.{object_at, text_in, declared_name};

use go_tree::file::File;
use go_tree::object::Object;
use go_typed::{Checked, Origin};

fn object_at(origin: Origin) -> Object
    ensures { result ≡ object_at origin }
{
    match origin {
        Origin::Package(number) => Object::Package(number as usize),
        Origin::Local { func, local } => Object::Local {
            function: func as usize,
            number: local as usize,
        },
    }
}

/// The text of a token of a file, none where there is no such token.
fn text_in(file: &File, token: u32) -> &[u8]
    ensures { result.now ≡ text_in (Some file.now) token }
{
    if token < file.count() {
        file.text(token)
    } else {
        b""
    }
}

/// The name that a declared type has where it is declared.
pub(crate) fn declared_name(checked: &Checked, number: u64) -> &[u8]
    ensures { result.now ≡ declared_name checked.now number }
{
    let Some(origin) = checked.origins().get(number as usize) else {
        return b"";
    };
    let Some(declared) = checked.uses().declaration(object_at(*origin)) else {
        return b"";
    };
    match checked.files().get(declared.file as usize) {
        Some(file) => text_in(file, declared.name),
        None => b"",
    }
}
