//! The function `main` of the package `main` (Go specification, "Program execution").

ghost use Rattle.std.specs.Prelude.{◌≡◌};
ghost use Rattle.go_tokens.specs.Spellings.{same_text};
ghost use Rattle.go_tree.specs.Declarations.{is_function};
ghost use Rattle.go_tree.specs.Uses.{functions_among};
ghost use Rattle.go_eval.specs.Entry.{text_in, text_at, is_main_name, is_main, is_main_package, main_among, main_number};

use go_tree::context::Entity;
use go_tree::file::File;
use go_tree::object::Declared;
use go_typed::checked::Checked;

/// Whether two texts are the same.
fn same(a: &[u8], b: &[u8]) -> bool
    ensures { result ≡ same_text a.now b.now }
{
    a == b
}

/// Whether it is the name `main`.
fn is_main_name(name: &[u8]) -> bool
    ensures { result ≡ is_main_name name.now }
{
    same(name, b"main")
}

/// The bytes of a token of a file; none where there is no such token.
fn text_in(file: &File, token: u32) -> &[u8]
    ensures { result.now ≡ text_in file.now token }
{
    if token < file.count() {
        file.text(token)
    } else {
        b""
    }
}

/// The bytes of a token of the file of this number; none where there is no such token.
fn text_at(checked: &Checked, file: usize, token: u32) -> &[u8]
    ensures { result.now ≡ text_at checked.now file token }
{
    match checked.files().get(file) {
        Some(file) => text_in(file, token),
        None => b"",
    }
}

/// Whether it is a function named `main`.
fn is_main(checked: &Checked, declared: &Declared) -> bool
    ensures { result ≡ is_main checked.now declared.now }
{
    is_main_name(text_at(checked, declared.file as usize, declared.name))
}

/// Whether it is a function.
fn is_function(declared: &Declared) -> bool
    ensures { result ≡ is_function declared.now.entity }
{
    matches!(declared.entity, Entity::Function)
}

/// Whether the package is named `main` (Go specification, "Package clause").
fn is_main_package(checked: &Checked) -> bool
    ensures { result ≡ is_main_package checked.now }
{
    is_main_name(text_at(checked, 0, 1))
}

/// The number of the first function named `main`, if there is one.
fn main_among(checked: &Checked, objects: &[Declared]) -> Option<usize>
    ensures { result ≡ main_among checked.now 0 (functions_among objects.now) }
{
    let mut number: usize = 0;
    for object in objects {
        if is_function(object) {
            if is_main(checked, object) {
                return Some(number);
            }
            number += 1;
        }
    }
    None
}

/// The number of the function `main`, if the package is named `main` and has one.
pub fn main_number(checked: &Checked) -> Option<usize>
    ensures { result ≡ main_number checked.now }
{
    if is_main_package(checked) {
        main_among(checked, checked.uses().package_objects())
    } else {
        None
    }
}
