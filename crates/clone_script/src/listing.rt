ghost use Rattle.std.specs.Prelude.{◌≡◌, ◌++◌, suc, map, IfOk, OnOk};
ghost use Rattle.std.specs.List.{flat_map};
ghost use Rattle.clone_script.specs.Listing.{file_name, member_line, class_head, class_text, classes_text, class_reply};

use crate::reply::{push_field, push_place};
use go_base::{Bytes, Memory, Name, Span};
use std::alloc::{AllocError, Global};

/// A clone class, as the listing shows it.
#[derive(Debug, Drop)]
pub struct ListedClass {
    /// Where the members stand, in the order of their lines.
    pub members: Vec<Span>,
    /// How many statements a member has.
    pub statements: u32,
    /// How many tokens count in a member.
    pub mass: u32,
}

/// The name of the file with this number, or nothing where there are fewer names.
pub fn file_name<'a>(names: &[&'a Name], file: usize) -> &'a [u8]
    ensures { result.now ≡ file_name (map (λ name. name.now) names.now) file }
{
    match names.get(file) {
        Some(name) => name.bytes(),
        None => &[],
    }
}

/// Puts the line of a member behind the others.
fn push_member(
    alloc: Global,
    out: &mut Vec<u8>,
    names: &[&Name],
    span: Span,
) -> Result<(), AllocError>
    ensures { OnOk result (out.new.items ≡ out.old.items ++ member_line (map (λ name. name.now) names.now) span) }
{
    push_place(alloc, out, file_name(names, span.file as usize), span)?;
    out.extend_from_slice(b"\n")
}

/// Puts a line for each member behind the others.
fn push_members(
    alloc: Global,
    out: &mut Vec<u8>,
    names: &[&Name],
    members: &[Span],
) -> Result<(), AllocError>
    ensures { OnOk result (out.new.items ≡ out.old.items ++ flat_map (member_line (map (λ name. name.now) names.now)) members.now) }
{
    for span in members {
        push_member(alloc, out, names, *span)?;
    }
    Ok(())
}

/// Puts the line at the head of a class behind the others.
fn push_head(
    alloc: Global,
    out: &mut Vec<u8>,
    number: usize,
    class: &ListedClass,
) -> Result<(), AllocError>
    ensures { OnOk result (out.new.items ≡ out.old.items ++ class_head number class.now) }
{
    push_field(alloc, out, b"class ", number as u64)?;
    push_field(alloc, out, b" members ", class.members.len() as u64)?;
    push_field(alloc, out, b" statements ", u64::from(class.statements))?;
    push_field(alloc, out, b" mass ", u64::from(class.mass))?;
    out.extend_from_slice(b"\n")
}

/// Puts a class behind the others: its head, and a line for each member.
pub fn push_class(
    alloc: Global,
    out: &mut Vec<u8>,
    names: &[&Name],
    number: usize,
    class: &ListedClass,
) -> Result<(), AllocError>
    ensures { OnOk result (out.new.items ≡ out.old.items ++ class_text (map (λ name. name.now) names.now) number class.now) }
{
    push_head(alloc, out, number, class)?;
    push_members(alloc, out, names, &class.members)
}

/// Puts the classes behind the others, numbered from 1.
fn push_classes(
    alloc: Global,
    out: &mut Vec<u8>,
    names: &[&Name],
    classes: &[ListedClass],
) -> Result<(), AllocError>
    ensures { OnOk result (out.new.items ≡ out.old.items ++ classes_text (map (λ name. name.now) names.now) 1 classes.now) }
{
    for (i, class) in classes.iter().enumerate() {
        push_class(alloc, out, names, i + 1, class)?;
    }
    Ok(())
}

/// The reply to `classes`: the listing of the clone classes, numbered from 1, in their order. A span's file is
/// the number of a name among `names`. A number past them shows no name.
pub fn class_reply(alloc: Global, names: &[&Name], classes: &[ListedClass]) -> Result<Bytes, Memory>
    ensures { IfOk result (λ reply. reply ≡ class_reply (map (λ name. name.now) names.now) classes.now) }
{
    let mut out = Vec::new(alloc);
    push_field(alloc, &mut out, b"classes ", classes.len() as u64)?;
    out.extend_from_slice(b"\n")?;
    push_classes(alloc, &mut out, names, classes)?;
    Ok(Bytes::of(out))
}
