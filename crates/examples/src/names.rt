//! Worked packages.

use go_base::Span;
use go_parse::parse;
use go_scopes::error::ResolveError;
use go_scopes::names::entries_of;
use go_scopes::repeated::{NamePlace, redeclared_names, repeated_parameters};
use go_scopes::resolve::{resolve, units_of};
use go_scopes_cycles::order::order_of;
use go_scopes_lookup::found::{all_found, new_among};
use go_scopes_lookup::look_up::sited_names;
use go_scopes_lookup::meaning::entries;
use go_scopes_named::by_name::by_name;
use go_tokens::lex::lex;
use go_tree::file::File;
use go_tree::object::{Object, Predeclared};
use std::alloc::Global;
use std::test::Fail;

/// A fault: its code, the number of its file, and its place.
type Place = (u8, u32, u32, u32);

/// The file with this number and text.
fn file(alloc: Global, number: u32, text: &[u8]) -> Result<File, Fail> {
    if text.len() > 1_048_576 {
        return Err("a file has at most 1 MiB".into());
    }
    let tokens = lex(alloc, number, text)?;
    Ok(parse(alloc, &tokens)?)
}

/// The fault of a package with these files, if it has one.
fn fault(alloc: Global, texts: &[&[u8]]) -> Result<Option<Place>, Fail> {
    let mut files = Vec::new(alloc);
    let mut number = 0u32;
    for text in texts {
        files.push(file(alloc, number, text)?)?;
        number = number.saturating_add(1);
    }
    if files.len() > 256 {
        return Err("a package has at most 256 files".into());
    }
    match resolve(alloc, &files) {
        Ok(_) => Ok(None),
        Err(ResolveError::Fault(fault)) => {
            let span = fault.span;
            Ok(Some((fault.code.number(), span.file, span.start, span.end)))
        }
        Err(ResolveError::Memory) => Err("out of memory".into()),
    }
}

/// A function with so many statements `f()`, of four bytes each behind the first 21 of the file.
fn with_statements(alloc: Global, count: usize) -> Result<String, Fail> {
    let mut text = String::from_str(alloc, "package p\nfunc f() {\n")?;
    for _ in 0..count {
        text.push_str("f()\n")?;
    }
    text.push_str("}\n")?;
    Ok(text)
}

/// No file, and the statement behind the 65,536 that a package may have.
#[test]
fn statements(rt: HostRuntime) -> Result<(), Fail> {
    let alloc = rt.alloc();
    assert!(rt; fault(alloc, &[])?.is_none());
    let more = with_statements(alloc, 65_537)?;
    assert!(rt; fault(alloc, &[more.as_bytes()])? == Some((25, 0, 262_165, 262_168)));
    Ok(())
}

/// A package, and the objects of some of its tokens as one reads them.
const PACKAGE: &[u8] =
    b"package p\n\nimport \"fmt\"\n\nconst one = 1\n\nfunc f(a int) int {\n\tb := a + one\n\tfmt.Println(b)\n\treturn g(b)\n}\n\nfunc g(int int) int { return int }\n";

const OBJECTS: [(usize, Option<Object>); 16] = [
    (7, Some(Object::Package(0))),
    (12, Some(Object::Package(1))),
    (
        14,
        Some(Object::Local {
            function: 0,
            number: 0,
        }),
    ),
    (15, Some(Object::Predeclared(Predeclared::Int))),
    (
        19,
        Some(Object::Local {
            function: 0,
            number: 1,
        }),
    ),
    (
        21,
        Some(Object::Local {
            function: 0,
            number: 0,
        }),
    ),
    (23, Some(Object::Package(0))),
    (25, Some(Object::Import)),
    (27, None),
    (
        29,
        Some(Object::Local {
            function: 0,
            number: 1,
        }),
    ),
    (33, Some(Object::Package(2))),
    (41, Some(Object::Package(2))),
    (
        43,
        Some(Object::Local {
            function: 1,
            number: 0,
        }),
    ),
    (44, Some(Object::Predeclared(Predeclared::Int))),
    (46, Some(Object::Predeclared(Predeclared::Int))),
    (
        49,
        Some(Object::Local {
            function: 1,
            number: 0,
        }),
    ),
];

#[test]
fn objects(rt: HostRuntime) -> Result<(), Fail> {
    let alloc = rt.alloc();
    let mut files = Vec::new(alloc);
    files.push(file(alloc, 0, PACKAGE)?)?;
    if files.len() > 256 {
        return Err("a package has at most 256 files".into());
    }
    let uses = resolve(alloc, &files)?;
    for (token, wanted) in OBJECTS {
        assert!(rt; uses.object(0, token) == wanted);
    }
    Ok(())
}

/// The file of this number of a package of 256, whose 20 constants have the values of those of the next file.
fn chained(alloc: Global, number: u32) -> Result<String, Fail> {
    let mut text = String::from_str(alloc, "package p\n")?;
    let next = number.saturating_add(1);
    for constant in 0..20 {
        let line = if number == 255 {
            format!(in alloc; "const c255x{constant} = 1\n")?
        } else {
            format!(in alloc; "const c{number}x{constant} = c{next}x{constant}\n")?
        };
        text.push_str(&line)?;
    }
    Ok(text)
}

/// A package with as many files as there may be, and with chains of names through all of them.
#[test]
fn many_files(rt: HostRuntime) -> Result<(), Fail> {
    let alloc = rt.alloc();
    let mut files = Vec::new(alloc);
    for number in 0..256 {
        let text = chained(alloc, number)?;
        files.push(file(alloc, number, text.as_bytes())?)?;
    }
    if files.len() > 256 {
        return Err("a package has at most 256 files".into());
    }
    let uses = resolve(alloc, &files)?;
    assert_eq!(rt; uses.package_objects().len(), 5120);
    assert!(rt; uses.object(0, 6) == Some(Object::Package(20)));
    Ok(())
}

/// Declarations stand behind those that they need.
#[test]
fn order(rt: HostRuntime) -> Result<(), Fail> {
    let alloc = rt.alloc();
    let mut files = Vec::new(alloc);
    let text = b"package p\ntype A struct { b B }\ntype B struct { c C }\ntype C int";
    files.push(file(alloc, 0, text)?)?;
    let units = units_of(alloc, &files)?;
    if units.len() > 256 {
        return Err("a package has at most 256 files".into());
    }
    let all = all_found(alloc, &units)?;
    let declared = new_among(alloc, &all)?;
    let entries = entries(alloc, &units, &declared)?;
    let asked = sited_names(alloc, &units, &entries)?;
    let mut names = Vec::new(alloc);
    let sorted = order_of(alloc, &asked, &declared)?.in_order(alloc, &declared)?;
    for d in sorted.iter().flatten() {
        names.extend_from_slice(d.name())?;
    }
    assert!(rt; names.as_slice() == b"CBA".as_slice());
    Ok(())
}

/// What the name means at a token of a package of one file.
fn object_at<'a>(
    alloc: Global,
    files: &'a [File],
    token: u32,
    name: &'a [u8],
) -> Result<Option<Object>, Fail> {
    let units = units_of(alloc, files)?;
    if units.len() > 256 {
        return Err("a package has at most 256 files".into());
    }
    let entries = entries_of(alloc, &units)?;
    let names = by_name(alloc, &entries)?;
    Ok(names.object_at(0, token, name))
}

/// What names mean at the first statement of `f` above, and at that of `g`.
#[test]
fn meant(rt: HostRuntime) -> Result<(), Fail> {
    let alloc = rt.alloc();
    let mut files = Vec::new(alloc);
    files.push(file(alloc, 0, PACKAGE)?)?;
    let local = Object::Local {
        function: 1,
        number: 0,
    };
    let int = Object::Predeclared(Predeclared::Int);
    assert!(rt; object_at(alloc, &files, 48, b"int")? == Some(local));
    assert!(rt; object_at(alloc, &files, 19, b"int")? == Some(int));
    assert!(rt; object_at(alloc, &files, 19, b"b")? == None);
    assert!(rt; object_at(alloc, &files, 19, b"g")? == Some(Object::Package(2)));
    Ok(())
}

/// Where a name of the file 0 stands: its token and its first byte.
fn letter(token: u32, start: u32) -> NamePlace {
    NamePlace {
        file: 0,
        token,
        place: Span {
            file: 0,
            start,
            end: start.saturating_add(1),
        },
    }
}

/// A variable and a parameter that stand twice.
#[test]
fn repeated(rt: HostRuntime) -> Result<(), Fail> {
    let alloc = rt.alloc();
    let mut files = Vec::new(alloc);
    let text = b"package p\nvar x, x int\nfunc f(a, a int) { f(a, a) }";
    files.push(file(alloc, 0, text)?)?;
    if files.len() > 256 {
        return Err("a package has at most 256 files".into());
    }
    let names = redeclared_names(alloc, &files)?;
    assert!(rt; names.first() == Some(&letter(6, 17)) && names.len() == 1);
    let parameters = repeated_parameters(alloc, &files)?;
    assert!(rt; parameters.first() == Some(&letter(14, 33)) && parameters.len() == 1);
    Ok(())
}
