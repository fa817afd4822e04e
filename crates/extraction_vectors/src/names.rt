//! What locals and types are called, and where nodes stand.
use crate::items::Items;
use clone_window::span::{TokenRange, function_place, span_at_place};
use go_base::{Memory, Span};
use go_print::type_text;
use go_typed::checked::Checked;
use go_typed::node::TypedNode;
use go_types::TypeId;
use std::alloc::Global;

/// The name of a local of a function.
pub fn local_name(package: &Checked, func: u32, local: u32) -> &[u8] {
    let Some(declared) = package.uses().local(func as usize, local as usize) else {
        return b"(no local)";
    };
    if let Some(file) = package.files().get(declared.file as usize) {
        if declared.name < file.count() {
            return file.text(declared.name);
        }
    }
    b"(no name)"
}

/// The bytes of a node of a function.
pub fn span_of_node(package: &Checked, func: u32, node: &TypedNode) -> Option<Span> {
    let place = function_place(package.files(), func)?;
    let range = TokenRange {
        from: node.first,
        to: node.last,
    };
    span_at_place(package.files(), place, range)
}

/// Adds the place of a node to the last item, as `START-END`.
///
/// # Errors
///
/// Want of memory.
pub fn add_node(
    alloc: Global,
    package: &Checked,
    func: u32,
    node: &TypedNode,
    out: &mut Items,
) -> Result<(), Memory> {
    match span_of_node(package, func, node) {
        Some(span) => {
            let text = format!(in alloc; "{}-{}", span.start, span.end)?;
            Ok(out.add(text.as_bytes())?)
        }
        None => Ok(out.add(b"(no place)")?),
    }
}

/// Adds a type to the last item.
///
/// # Errors
///
/// Want of memory.
pub fn add_type(
    alloc: Global,
    package: &Checked,
    ty: TypeId,
    out: &mut Items,
) -> Result<(), Memory> {
    if ty < package.types().count() {
        out.add(type_text(alloc, package, ty)?.as_slice())?;
    }
    Ok(())
}
