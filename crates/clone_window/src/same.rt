//! When two windows are the same.

ghost use Rattle.std.specs.Prelude.{◌≡◌, ◌+◌, ◌&&◌, false, true, nat_eq, map, slice_get, IfOk};
ghost use Rattle.go_typed.specs.Views.{sort_view, views};
ghost use Rattle.clone_window.specs.Sameness.{all_agree, is_same};
ghost use Rattle.clone_window.specs.Bodies.{bodies_of, locals_in, same_in, statements_at};
ghost use Rattle.clone_window.specs.Fields.{field_text, window_fields_agree};

use crate::agree::statements_agree;
use crate::locals::locals_of;
use crate::pairing::{are_matched, is_one_to_one};
use crate::run::statements;
use go_base::{Memory, Steps};
use go_typed::checked::Checked;
use go_typed::node::TypedNode;
use go_typed::sort::Sort;
use go_typed::window::Window;
use go_types::Types;
use std::alloc::Global;
use std::sync::ledger::Ledger;

/// Whether two windows of a package are the same: their trees agree node by node up to constants, the locals that they name are
/// paired one to one, each with one that is alike, and the fields that they name at corresponding places have the same names. It
/// counts one comparison, whatever it answers.
///
/// # Errors
///
/// Want of memory.
pub fn same<L: Ledger>(
    alloc: Global,
    checked: &Checked,
    window: Window,
    other: Window,
    steps: &mut Steps<L>,
) -> Result<bool, Memory>
    ensures answer { IfOk result (λ b. b ≡ same_in checked.now window other) }
    ensures counted { steps.new ≡ record steps.old { compared = steps.old.compared + 1 } }
{
    steps.tick_compared();
    let (run, other) = (run_of(checked, &window), run_of(checked, &other));
    are_same(alloc, checked.types(), &run, &other)
}

/// Statements, and what the locals of their function stand for.
#[derive(Clone, Copy)]
struct Run<'a> {
    locals: &'a [Sort],
    statements: &'a [Option<TypedNode>],
}

/// The statements of a window; none where its function is not there.
fn run_of<'a>(checked: &'a Checked, window: &Window) -> Run<'a>
    ensures locals { map sort_view result.locals.now ≡ locals_in (slice_get (bodies_of checked.now.functions) window.now.func) }
    ensures statements { views result.statements.now ≡ statements_at (slice_get (bodies_of checked.now.functions) window.now.func) window.now }
{
    match checked.function(window.func) {
        Some(f) => Run {
            locals: f.locals(),
            statements: statements(f, window),
        },
        None => Run {
            locals: &[],
            statements: &[],
        },
    }
}

/// Whether two runs of statements are the same, also in the names of the fields of their types.
fn are_same(alloc: Global, types: &Types, run: &Run<'_>, other: &Run<'_>) -> Result<bool, Memory>
    ensures { IfOk result (λ b. b ≡ (is_same nat_eq (map sort_view run.now.locals.now) (map sort_view other.now.locals.now) (views run.now.statements.now) (views other.now.statements.now)
        && window_fields_agree (field_text types.now) (field_text types.now) (views run.now.statements.now) (views other.now.statements.now))) }
{
    if !statements_agree(types, run.statements, other.statements) {
        return Ok(false);
    }
    are_paired(alloc, run, other)
}

/// Whether the locals that two runs of statements name are paired one to one, each with one that is alike.
fn are_paired(alloc: Global, run: &Run<'_>, other: &Run<'_>) -> Result<bool, Memory>
    ensures { IfOk result (λ b. all_agree nat_eq false false (views run.now.statements.now) (views other.now.statements.now) ≡ true
        → b ≡ is_same nat_eq (map sort_view run.now.locals.now) (map sort_view other.now.locals.now) (views run.now.statements.now) (views other.now.statements.now)) }
{
    let left = locals_of(alloc, run.statements)?;
    if left.is_empty() {
        return Ok(true);
    }
    let right = locals_of(alloc, other.statements)?;
    if !is_one_to_one(alloc, &left, &right)? {
        return Ok(false);
    }
    Ok(are_matched(run.locals, other.locals, &left, &right))
}
