ghost use Rattle.std.specs.Prelude.{◌≡◌, ◌++◌, map, IfOk, OnOk};
ghost use Rattle.std.specs.List.{flat_map};
ghost use Rattle.clone_script.specs.Maximal.{numbered_text, coverage_line, coverage_lines, maximal_reply};

use crate::listing::{ListedClass, file_name, push_class};
use crate::reply::push_field;
use go_base::{Bytes, Memory, Name};
use std::alloc::{AllocError, Global};

/// A clone class with the number that it has in the listing of all.
#[derive(Debug, Drop)]
pub struct NumberedClass {
    pub number: u32,
    pub class: ListedClass,
}

/// Puts classes behind the others, each with its number.
fn push_numbered(
    alloc: Global,
    out: &mut Vec<u8>,
    names: &[&Name],
    classes: &[NumberedClass],
) -> Result<(), AllocError>
    ensures { OnOk result (out.new.items ≡ out.old.items ++ flat_map (numbered_text (map (λ name. name.now) names.now)) classes.now) }
{
    for numbered in classes {
        push_class(alloc, out, names, numbered.number as usize, &numbered.class)?;
    }
    Ok(())
}

/// Puts the line of a file behind the others: its name, how many of its statements are covered, and how many it has.
fn push_coverage(
    alloc: Global,
    out: &mut Vec<u8>,
    file: &[u8],
    counts: (u32, u32),
) -> Result<(), AllocError>
    ensures { OnOk result (out.new.items ≡ out.old.items ++ coverage_line file.now counts) }
{
    let (covered, statements) = counts;
    out.extend_from_slice(file)?;
    push_field(alloc, out, b" covered ", u64::from(covered))?;
    push_field(alloc, out, b" of ", u64::from(statements))?;
    out.extend_from_slice(b"\n")
}

/// Puts the lines of the files behind the others, from the first one on.
fn push_coverages(
    alloc: Global,
    out: &mut Vec<u8>,
    names: &[&Name],
    covered: &[(u32, u32)],
) -> Result<(), AllocError>
    ensures { OnOk result (out.new.items ≡ out.old.items ++ coverage_lines (map (λ name. name.now) names.now) 0 covered.now) }
{
    for (file, counts) in covered.iter().enumerate() {
        push_coverage(alloc, out, file_name(names, file), *counts)?;
    }
    Ok(())
}

/// The reply to `maximal`: how many classes are maximal, these classes as the listing of all shows them, and of each file, in the
/// order of the names, how many of its statements are covered and how many it has. A span's file is the number of a name among
/// `names`. A number past them shows no name.
pub fn maximal_reply(
    alloc: Global,
    names: &[&Name],
    classes: &[NumberedClass],
    covered: &[(u32, u32)],
) -> Result<Bytes, Memory>
    ensures { IfOk result (λ reply. reply ≡ maximal_reply (map (λ name. name.now) names.now) classes.now covered.now) }
{
    let mut out = Vec::new(alloc);
    push_field(alloc, &mut out, b"maximal ", classes.len() as u64)?;
    out.extend_from_slice(b"\n")?;
    push_numbered(alloc, &mut out, names, classes)?;
    push_coverages(alloc, &mut out, names, covered)?;
    Ok(Bytes::of(out))
}
