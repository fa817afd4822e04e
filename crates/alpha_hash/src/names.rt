//! The names that windows show.

ghost use Rattle.std.specs.Prelude.{◌≡◌, Some, slice_get};
ghost use Rattle.go_tree.specs.Predeclared.{known_names};
ghost use Rattle.go_print.specs.Names.{name_of, text_in};
ghost use Rattle.std.specs.Option.{option_map};
ghost use Rattle.clone_window.specs.Kinds.{referent_outline};
ghost use Rattle.clone_window.specs.Sameness as specs;
ghost use Rattle.alpha_hash_defs.specs.Packages.{declared_text, object_text, predeclared_text};

use clone_window::alike::same_outline;
use clone_window::outline::{Outline, outline_of};
use go_tree::file::File;
use go_tree::object::Declared;
use go_typed::checked::Checked;
use go_typed::form::Form;
use go_typed::sort::Sort;

/// What a function is named by: its package, and what its locals stand for.
#[derive(Clone, Copy)]
pub struct Names<'a> {
    pub checked: &'a Checked,
    pub locals: &'a [Sort],
}

/// The name of what an outline of a name shows that names no local.
pub fn object_text<'a>(checked: &'a Checked, outline: Outline) -> &'a [u8]
    ensures { result.now ≡ object_text checked.now outline }
{
    if outline.operator == 5 {
        predeclared_text(outline.count)
    } else if outline.operator == 6 {
        b"fmt.Println"
    } else {
        declared_text(checked, outline)
    }
}

/// The predeclared name of this number.
#[tactic(auto, unfolding(go_tree::specs::Predeclared::known_names))]
fn predeclared_text(number: u32) -> &'static [u8]
    ensures { result.now ≡ predeclared_text number known_names }
{
    match number {
        0 => b"bool",
        1 => b"string",
        2 => b"int",
        3 => b"int8",
        4 => b"int16",
        5 => b"int32",
        6 => b"int64",
        7 => b"uint",
        8 => b"uint8",
        9 => b"uint16",
        10 => b"uint32",
        11 => b"uint64",
        12 => b"byte",
        13 => b"rune",
        14 => b"true",
        15 => b"false",
        16 => b"iota",
        17 => b"nil",
        18 => b"append",
        19 => b"cap",
        20 => b"copy",
        21 => b"len",
        22 => b"make",
        23 => b"max",
        24 => b"min",
        25 => b"panic",
        _ => b"",
    }
}

/// The name of the object of the package that shows this; none where there is no such object.
fn declared_text<'a>(checked: &'a Checked, outline: Outline) -> &'a [u8]
    ensures { result.now ≡ declared_text checked.now outline checked.now.env.referents checked.now.uses.package_level }
{
    let objects = checked.uses().package_objects();
    for number in 0..objects.len() {
        match is_shown(checked, outline, number) {
            Some(shown) => {
                if shown {
                    return name_at(checked, number);
                }
            }
            None => return b"",
        }
    }
    b""
}

/// Whether the object of this number is the one that an outline shows, if there are so many.
fn is_shown(checked: &Checked, outline: Outline, number: usize) -> Option<bool>
    ensures { result ≡ option_map (λ r. specs.same_outline (referent_outline r) outline) (slice_get checked.now.env.referents number) }
{
    let referent = checked.env().referent(number)?;
    Some(same_outline(outline_of(Form::Object(referent)), outline))
}

/// The name of the object of this number.
fn name_at(checked: &Checked, number: usize) -> &[u8]
    ensures { result.now ≡ name_of checked.now (slice_get checked.now.uses.package_level number) }
{
    match checked.uses().package_object(number) {
        Some(declared) => name_of(checked, &declared),
        None => b"",
    }
}

/// The name of an object where it is declared.
fn name_of<'a>(checked: &'a Checked, declared: &Declared) -> &'a [u8]
    ensures { result.now ≡ name_of checked.now (Some declared.now) }
{
    match checked.files().get(declared.file as usize) {
        Some(file) => text_in(file, declared.name),
        None => b"",
    }
}

/// The text of a token of a file, none where there is no such token.
fn text_in(file: &File, token: u32) -> &[u8]
    ensures { result.now ≡ text_in (Some file.now) token }
{
    if token < file.count() {
        file.text(token)
    } else {
        b""
    }
}
