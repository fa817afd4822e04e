//! What the parts of a node must be besides standing where the grammar has them.

ghost use Rattle.std.specs.Prelude.{◌≡◌, ◌||◌, ◌&&◌, nat_le};
ghost use Rattle.go_grammar.specs.Grammar as grammar;
ghost use Rattle.go_grammar.specs.Trees.{kind_of, parts};
ghost use Rattle.go_tree.specs.Views.{view, views, named_at, typed_at, entry_at, parameter_at};

use crate::node::Node;
use go_grammar::kind::Kind;

impl Node {
    /// Whether its parts agree: names stand before `:=`, a range assigns one or two operands, and either all parameters have
    /// names or none has (Go specification: Short variable declarations, For statements, Function types).
    pub fn agrees(&self) -> bool
        ensures { result ≡ grammar.agrees (kind_of (view self.now)) (parts (view self.now)) }
    {
        match self.kind() {
            Kind::NewNames => are_names(first_parts(self.parts())),
            Kind::AssigningRange | Kind::DefiningRange => {
                at_most_two(first_parts(first_parts(self.parts())))
            }
            Kind::Parameters => agree_as_parameters(self.parts()),
            _ => true,
        }
    }
}

/// Whether there are at most two parts.
fn at_most_two(parts: &[Option<Node>]) -> bool
    ensures { result ≡ nat_le (grammar.count (views parts.now)) 2 }
{
    parts.len() <= 2
}

/// Whether either all entries have names or none has.
fn agree_as_parameters(parts: &[Option<Node>]) -> bool
    ensures { result ≡ (grammar.are_types (views parts.now) || (grammar.ends_named (views parts.now) && grammar.are_entries (views parts.now))) }
{
    are_types(parts) || (ends_named(parts) && are_entries(parts))
}

/// The parts of the first part.
fn first_parts(parts: &[Option<Node>]) -> &[Option<Node>]
    ensures { views result.now ≡ grammar.first_parts (views parts.now) }
{
    match parts.first() {
        Some(Some(part)) => part.parts(),
        _ => &[],
    }
}

/// Whether a part is there and is a name.
fn is_name(part: &Option<Node>) -> bool
    ensures { result ≡ named_at part.now }
{
    match part {
        Some(node) => matches!(node.kind(), Kind::Name),
        None => false,
    }
}

/// Whether a part is there and has no name in front of its type.
fn is_type(part: &Option<Node>) -> bool
    ensures { result ≡ typed_at part.now }
{
    match part {
        Some(node) => !matches!(node.kind(), Kind::Parameter),
        None => false,
    }
}

/// Whether a part is there, and is a name or has one.
fn is_entry(part: &Option<Node>) -> bool
    ensures { result ≡ entry_at part.now }
{
    match part {
        Some(node) => matches!(node.kind(), Kind::Name) || matches!(node.kind(), Kind::Parameter),
        None => false,
    }
}

/// Whether each part is there and is a name.
fn are_names(parts: &[Option<Node>]) -> bool
    ensures { result ≡ grammar.are_names (views parts.now) }
{
    for part in parts {
        if !is_name(part) {
            return false;
        }
    }
    true
}

/// Whether no entry has a name.
fn are_types(parts: &[Option<Node>]) -> bool
    ensures { result ≡ grammar.are_types (views parts.now) }
{
    for part in parts {
        if !is_type(part) {
            return false;
        }
    }
    true
}

/// Whether each entry is a name or has one.
fn are_entries(parts: &[Option<Node>]) -> bool
    ensures { result ≡ grammar.are_entries (views parts.now) }
{
    for part in parts {
        if !is_entry(part) {
            return false;
        }
    }
    true
}

/// Whether a part is there and has a name in front of its type.
fn is_parameter(part: &Option<Node>) -> bool
    ensures { result ≡ parameter_at part.now }
{
    match part {
        Some(node) => matches!(node.kind(), Kind::Parameter),
        None => false,
    }
}

/// Whether the last entry has a name and a type.
fn ends_named(parts: &[Option<Node>]) -> bool
    ensures { result ≡ grammar.ends_named (views parts.now) }
{
    let mut named = false;
    for part in parts {
        named = is_parameter(part);
    }
    named
}
