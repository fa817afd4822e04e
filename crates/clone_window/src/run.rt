//! The statements of a window, and their mass.

ghost use Rattle.std.specs.Prelude.{◌≡◌, ◌^◌, ◌<◌, true, drop, take};
ghost use Rattle.go_typed.specs.Forms.{is_statement_list};
ghost use Rattle.go_typed.specs.Funcs.{is_full, tree_of};
ghost use Rattle.go_typed.specs.Lists.{statements_of};
ghost use Rattle.go_typed.specs.Trees.{parts_of};
ghost use Rattle.go_typed.specs.Views.{view, views};
ghost use Rattle.clone_window.specs.Caps.{capped};
ghost use Rattle.clone_window.specs.Windows.{row_of, window_mass, window_statements};

use crate::mass::masses_of;
use go_typed::func::TypedFunc;
use go_typed::node::TypedNode;
use go_typed::window::Window;

/// The statements of a window of a function; none where the function has no such window.
pub fn statements<'a>(f: &'a TypedFunc, window: &Window) -> &'a [Option<TypedNode>]
    ensures { views result.now ≡ window_statements (tree_of f.now) window.now }
{
    let root = f.root();
    match f.list(window.list as usize) {
        Some(list) => run_of(list, window.first, window.count),
        None => &root.parts[..0],
    }
}

/// So many statements of a statement list, from the one of some number on, as far as there are so many.
fn run_of(list: &TypedNode, first: u32, count: u32) -> &[Option<TypedNode>]
    requires full { is_full (parts_of (view list.now)) ≡ true }
    ensures { views result.now ≡ row_of (take count (drop first (statements_of (view list.now)))) }
{
    let most = list.parts.len();
    let begin = most.min(first as usize + list.form.values_count() as usize);
    let end = most.min(begin + count as usize);
    &list.parts[begin..end]
}

/// The mass of a window of a function: the nodes of its statements, of which a hole is one. It has no bound, so it ends at the
/// last number.
pub fn mass(f: &TypedFunc, window: Window) -> u32
    ensures { result ≡ capped (window_mass (tree_of f.now) window) }
{
    masses_of(false, statements(f, &window))
}
