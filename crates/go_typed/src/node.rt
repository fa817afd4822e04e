//! The nodes of a typed tree.

ghost use Rattle.std.specs.Prelude.{◌≡◌};
ghost use Rattle.go_typed.specs.Trees.{typed, form_of, first_of, last_of, parts_of};
ghost use Rattle.go_typed.specs.Views.{view, views, label_view};

use crate::form::Form;
use crate::sort::{Label, Sort};

/// A node of a typed tree: its tokens are those from the number `first` up to `last`, without `last`. Tokens are counted from
/// the first token of the function. A part that is left out has its place among the parts.
#[derive(Debug, Drop)]
pub struct TypedNode {
    pub form: Form,
    /// The number of its first token.
    pub first: u32,
    /// The number of the token behind its last one.
    pub last: u32,
    /// Whether a variable is named in it, within types too.
    pub varies: bool,
    /// Whether it has a call that is no constant.
    pub calls: bool,
    pub sort: Sort,
    pub parts: Vec<Option<TypedNode>>,
}

impl TypedNode {
    /// A node over the tokens from `first` up to `last`.
    pub fn new(
        form: Form,
        first: u32,
        last: u32,
        label: Label,
        mut parts: Vec<Option<TypedNode>>,
    ) -> TypedNode
        ensures { view result ≡ typed form first last (label_view label) (views parts.items) }
    {
        parts.shrink_to_fit();
        TypedNode {
            form,
            first,
            last,
            varies: label.varies,
            calls: label.calls,
            sort: label.sort,
            parts,
        }
    }
}
