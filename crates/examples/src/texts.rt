//! Several edits of the texts of a package at once. Single ones, and their refusals, are rows of `session_vectors`.

use edit_apply::{Edit, Edits, Texts};
use go_base::{Bytes, Name};
use std::alloc::Global;
use std::test::Fail;

const PLAIN: &[u8] =
    b"package main\n\nfunc f(a int) int {\n\tb := a + 1\n\tb = b * 2\n\treturn b\n}\n\nfunc g(x int) int {\n\ty := x + 5\n\ty = y * 2\n\treturn y\n}\n";

fn named(alloc: Global, name: &str) -> Result<Name, Fail> {
    Ok(Name::of(alloc, name.as_bytes())?)
}

fn plain(alloc: Global) -> Result<Texts, Fail> {
    let mut texts = Texts::load(alloc, Vec::new(alloc))?;
    texts.add(&named(alloc, "a.go")?, PLAIN)?;
    Ok(texts)
}

/// The bytes of a file, up to 200 of them.
fn text(alloc: Global, texts: &Texts, name: &Name) -> Result<Vec<u8>, Fail> {
    let mut all = Vec::new(alloc);
    if let Some(_length) = texts.length(name) {
        let mut buf = [0u8; 200];
        let n = texts.text_at(name, 0, &mut buf).min(200);
        all.extend_from_slice(&buf[..n])?;
    }
    Ok(all)
}

/// Puts `x` behind the last byte of the one file, of 125 bytes, and then `y` for its first eight.
fn edit_both_ends(alloc: Global, texts: &mut Texts, name: &Name) -> Result<(), Fail> {
    let files = texts.files();
    if let Some(length) = texts.length(name)
        && length == 125
        && files == 1
    {
        let edits = [
            Edit {
                file: 0,
                start: 125,
                end: 125,
                text: Bytes::from_slice(alloc, b"x")?,
            },
            Edit {
                file: 0,
                start: 0,
                end: 8,
                text: Bytes::from_slice(alloc, b"y")?,
            },
        ];
        texts.apply(&edits)?;
    }
    Ok(())
}

#[test]
fn applies_edits(rt: HostRuntime) -> Result<(), Fail> {
    let alloc = rt.alloc();
    let mut texts = plain(alloc)?;
    let name = named(alloc, "a.go")?;
    edit_both_ends(alloc, &mut texts, &name)?;
    let edited = text(alloc, &texts, &name)?;
    assert_eq!(rt; texts.length(&name), Some(119));
    assert!(rt; edited.starts_with(b"ymain"));
    assert!(rt; edited.ends_with(b"x"));
    Ok(())
}

#[test]
fn lists_edits(rt: HostRuntime) -> Result<(), Fail> {
    let edit = Edit {
        file: 0,
        start: 1,
        end: 2,
        text: Bytes::from_slice(rt.alloc(), b"x")?,
    };
    let edits = Edits::of(vec![in rt.alloc(); edit]?);
    let first = edits.as_slice().first().ok_or("an edit")?;
    assert_eq!(rt; first.end, 2);
    assert_eq!(rt; first.text.as_slice(), b"x".as_slice());
    Ok(())
}
