//! The comments that an extraction drops.
use crate::names::span_of_node;
use clone_window::span::span_of;
use go_base::Span;
use go_typed::checked::Checked;
use go_typed::node::TypedNode;
use go_typed::window::Window;

/// How many comments stand in the windows behind the first one, which are replaced by calls, and in these holes of the first one, which
/// are replaced by parameters.
pub fn dropped(package: &Checked, members: &[Window], holes: &[&TypedNode]) -> u32 {
    match members {
        [template, others @ ..] => {
            in_windows(package, others).saturating_add(in_holes(package, template.func, holes))
        }
        [] => 0,
    }
}

/// How many stand in windows.
fn in_windows(package: &Checked, windows: &[Window]) -> u32 {
    let mut count: u32 = 0;
    for window in windows {
        count = count.saturating_add(comments_in(package, span_of(package, *window)));
    }
    count
}

/// How many stand in nodes of a function.
fn in_holes(package: &Checked, func: u32, holes: &[&TypedNode]) -> u32 {
    let mut count: u32 = 0;
    for hole in holes {
        if let Some(span) = span_of_node(package, func, hole) {
            count = count.saturating_add(comments_in(package, span));
        }
    }
    count
}

/// How many stand in these bytes.
fn comments_in(package: &Checked, span: Span) -> u32 {
    match package.files().get(span.file as usize) {
        Some(file) => file.tokens().comments(span.start, span.end),
        None => 0,
    }
}
