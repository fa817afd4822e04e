//! Whether the names of an expression are known before it.

ghost use Rattle.std.specs.Prelude.{◌≡◌, IsTrue};
ghost use Rattle.go_grammar.specs.Trees.{kind_of, first};
ghost use Rattle.go_tree.specs.Views.{view, views};
ghost use Rattle.go_package_laws.specs.Names.{NameHas, EachName, EachNameIn};
ghost use Rattle.go_package_stages.specs.Names.{IsFullBefore};

use crate::marks::{Marks, is_full_before};
use go_grammar::kind::Kind;
use go_tree::node::Node;

/// Whether a node is no name, or what it means is known before a stage.
fn is_name_before(marks: &Marks<'_>, file: usize, stage: usize, node: &Node) -> bool
    ensures { IsTrue result → NameHas (IsFullBefore marks.now.uses.now file marks.now.marks.now stage) (kind_of (view node.now)) (first (view node.now)) }
{
    match node.kind() {
        Kind::Name => is_full_before(marks, file, stage, node.first() as usize),
        _ => true,
    }
}

/// Whether what each name of an expression means is known in full before a stage.
#[cycle(each)]
pub fn are_before(marks: &Marks<'_>, file: usize, stage: usize, node: &Node) -> bool
    ensures { IsTrue result → EachName (IsFullBefore marks.now.uses.now file marks.now.marks.now stage) (view node.now) }
{
    is_name_before(marks, file, stage, node) && are_parts_before(marks, file, stage, node.parts())
}

#[cycle(each)]
fn are_parts_before(marks: &Marks<'_>, file: usize, stage: usize, parts: &[Option<Node>]) -> bool
    ensures { IsTrue result → EachNameIn (IsFullBefore marks.now.uses.now file marks.now.marks.now stage) (views parts.now) }
{
    for part in parts {
        let Some(node) = part else { continue };
        if !are_before(marks, file, stage, node) {
            return false;
        }
    }
    true
}
