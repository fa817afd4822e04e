//! Whether the names of a type are known before it.

ghost use Rattle.std.specs.Prelude.{◌≡◌, ℕ, IsTrue, true, false};
ghost use Rattle.std.specs.Option.{option_map};
ghost use Rattle.go_grammar.specs.Trees.{kind_of, first};
ghost use Rattle.go_exprs_rules.specs.Scopes.{type_place};
ghost use Rattle.go_exprs_rules.specs.Tables.{skips_first};
ghost use Rattle.go_tree.specs.Views.{view, views};
ghost use Rattle.go_package_laws.specs.Names.{NameHas, EachName, EachNameIn, EachNeed, is_of_types, is_sequence};
ghost use Rattle.go_package_stages.specs.Marks.{type_need};
ghost use Rattle.go_package_stages.specs.Names.{ways_before};
ghost use Rattle.go_package_stages.specs.Ways.{EachWay, WaysIn, FirstWay, told_loose};

use crate::marks::{Marks, is_type_before};
use crate::names::are_before;
use go_grammar::kind::Kind;
use go_scopes_events::enter::ends_named;
use go_tree::node::Node;

/// What names mean and when it is known: in a type, and in the lengths of its arrays; and before which stage of a file's declaration it
/// has to be known.
#[derive(Clone, Copy)]
pub struct TypeMarks<'a> {
    pub named: Marks<'a>,
    pub counted: Marks<'a>,
    pub file: usize,
    pub stage: usize,
}

/// Whether a node is of types, and so are its parts besides the lengths of arrays.
fn is_of_types(kind: Kind) -> bool
    ensures { result ≡ is_of_types kind }
{
    matches!(
        kind,
        Kind::ParenthesizedType
            | Kind::SequenceType
            | Kind::FunctionType
            | Kind::StructType
            | Kind::Signature
            | Kind::Results
            | Kind::NameList
            | Kind::Parameters
            | Kind::Parameter
            | Kind::Fields
    )
}

fn skips_first(parts: &[Option<Node>]) -> bool
    ensures { result ≡ skips_first (views parts.now) }
{
    matches!(parts, [None, ..])
}

/// Whether a part of a node of types stands in an element of a slice or in a function type, where its node does.
fn told_loose(kind: Kind, loose: bool, parts: &[Option<Node>], is_first: bool, part: Kind) -> bool
    ensures { result ≡ told_loose kind loose (views parts.now) is_first part }
{
    match kind {
        Kind::ParenthesizedType | Kind::StructType | Kind::Signature | Kind::Results => loose,
        Kind::SequenceType => !is_first && (skips_first(parts) || loose),
        Kind::FunctionType => true,
        Kind::Parameters => loose && !(ends_named(parts) && matches!(part, Kind::Name)),
        Kind::Parameter | Kind::Fields => !is_first && loose,
        _ => false,
    }
}

/// Whether a node is no name, or what it means is known before the stage.
fn is_name_before(marks: &TypeMarks<'_>, loose: bool, node: &Node) -> bool
    ensures { IsTrue result → let m = marks.now in let w = ways_before m.named.uses.now m.file m.named.marks.now m.counted.uses.now m.counted.marks.now m.stage in
        NameHas (w.named (type_need loose)) (kind_of (view node.now)) (first (view node.now)) }
{
    match node.kind() {
        Kind::Name => is_type_before(
            &marks.named,
            marks.file,
            marks.stage,
            loose,
            node.first() as usize,
        ),
        _ => true,
    }
}

/// Whether there is no name in a tree.
#[cycle(nameless)]
fn is_nameless(node: &Node) -> bool
    ensures { IsTrue result → EachName (λ i. ⊥) (view node.now) }
{
    !matches!(node.kind(), Kind::Name) && are_nameless(node.parts())
}

#[cycle(nameless)]
fn are_nameless(parts: &[Option<Node>]) -> bool
    ensures { IsTrue result → EachNameIn (λ i. ⊥) (views parts.now) }
{
    for part in parts {
        let Some(node) = part else { continue };
        if !is_nameless(node) {
            return false;
        }
    }
    true
}

/// Whether the names in the length of an array are known before the stage.
fn is_length_before(marks: &TypeMarks<'_>, node: &Node) -> bool
    ensures { IsTrue result → let m = marks.now in let w = ways_before m.named.uses.now m.file m.named.marks.now m.counted.uses.now m.counted.marks.now m.stage in EachName w.counted (view node.now) }
{
    are_before(&marks.counted, marks.file, marks.stage, node)
}

/// Whether the names of a type are known before the stage; `loose` says whether it stands in an element of a slice or in a function type.
#[cycle(way)]
fn is_type_node_before(marks: &TypeMarks<'_>, loose: bool, node: &Node) -> bool
    ensures { IsTrue result → let m = marks.now in EachWay (ways_before m.named.uses.now m.file m.named.marks.now m.counted.uses.now m.counted.marks.now m.stage) loose (view node.now) }
{
    is_name_before(marks, loose, node) && are_parts_before(marks, node.kind(), loose, node.parts())
}

/// Whether those of the parts of a node are.
#[cycle(way)]
fn are_parts_before(marks: &TypeMarks<'_>, kind: Kind, loose: bool, parts: &[Option<Node>]) -> bool
    ensures { IsTrue result → let m = marks.now in
        WaysIn (ways_before m.named.uses.now m.file m.named.marks.now m.counted.uses.now m.counted.marks.now m.stage) kind loose (views parts.now) true (views parts.now) (is_of_types kind) (is_sequence kind) }
{
    if !is_of_types(kind) {
        return are_nameless(parts);
    }
    match parts.split_first() {
        None => true,
        Some((first, rest)) => {
            is_first_before(marks, kind, loose, parts, first)
                && are_others_before(marks, kind, loose, parts, rest)
        }
    }
}

/// Whether those of the first part are.
#[cycle(way)]
fn is_first_before(
    marks: &TypeMarks<'_>,
    kind: Kind,
    loose: bool,
    parts: &[Option<Node>],
    first: &Option<Node>,
) -> bool
    ensures { IsTrue result → let m = marks.now in
        FirstWay (ways_before m.named.uses.now m.file m.named.marks.now m.counted.uses.now m.counted.marks.now m.stage) kind loose (views parts.now) (is_sequence kind) (option_map view first.now) }
{
    match first {
        None => true,
        Some(node) => match kind {
            Kind::SequenceType => is_length_before(marks, node),
            _ => is_type_node_before(
                marks,
                told_loose(kind, loose, parts, true, node.kind()),
                node,
            ),
        },
    }
}

/// Whether those of parts behind it are.
#[cycle(way)]
fn are_others_before(
    marks: &TypeMarks<'_>,
    kind: Kind,
    loose: bool,
    parts: &[Option<Node>],
    rest: &[Option<Node>],
) -> bool
    ensures { IsTrue result → let m = marks.now in
        WaysIn (ways_before m.named.uses.now m.file m.named.marks.now m.counted.uses.now m.counted.marks.now m.stage) kind loose (views parts.now) false (views rest.now) true false }
{
    for part in rest {
        let Some(node) = part else { continue };
        let inner = told_loose(kind, loose, parts, false, node.kind());
        if !is_type_node_before(marks, inner, node) {
            return false;
        }
    }
    true
}

/// Whether what each name of the right side of a type means is known before the stage, as it is needed there.
pub fn are_before_type(marks: &TypeMarks<'_>, node: &Node) -> bool
    ensures { IsTrue result → let m = marks.now in EachNeed (ways_before m.named.uses.now m.file m.named.marks.now m.counted.uses.now m.counted.marks.now m.stage) type_place (view node.now) }
{
    is_type_node_before(marks, false, node)
}
