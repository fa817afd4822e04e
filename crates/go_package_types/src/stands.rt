//! Whether the nodes of specifications begin and end with tokens that have bytes.
ghost use Rattle.std.specs.Prelude.{◌≡◌, IsTrue, slice_get};
ghost use Rattle.std.specs.Option.{option_map};
ghost use Rattle.go_tree.specs.Views.{view, views};
ghost use Rattle.go_package_laws.specs.Places.{EachNode, EachPart};
ghost use Rattle.go_declarations.specs.Views.{specification_view};
ghost use Rattle.go_package_types.specs.Places as places;
ghost use Rattle.go_package_types.specs.Places.{PartStands, EachStands, SpecificationStands};

use go_declarations::Specification;
use go_tokens::tokens::Tokens;
use go_tree::node::Node;

/// Whether there is a token of this number, which has bytes, as each has but an inserted semicolon.
fn has_bytes(tokens: &Tokens, number: u32) -> bool
    ensures { result ≡ places.has_bytes (slice_get tokens.now.tokens number) }
{
    if number >= tokens.count() {
        return false;
    }
    let span = tokens.get(number).span;
    span.start < span.end
}

/// Whether the tokens from `first` up to `last` begin and end with such tokens, or are none in front of one.
fn stands(tokens: &Tokens, first: u32, last: u32) -> bool
    ensures { result ≡ places.stands tokens.now first last }
{
    has_bytes(tokens, first)
        && 0 < first
        && (first == last || first < last && has_bytes(tokens, last - 1))
}

/// Whether all nodes of a tree stand so.
#[cycle(each)]
fn each_node(tokens: &Tokens, node: &Node) -> bool
    ensures { IsTrue result → EachNode (places.stands tokens.now) (view node.now) }
{
    stands(tokens, node.first(), node.last()) && each_part(tokens, node.parts())
}

#[cycle(each)]
fn each_part(tokens: &Tokens, parts: &[Option<Node>]) -> bool
    ensures { IsTrue result → EachPart (places.stands tokens.now) (views parts.now) }
{
    for part in parts {
        let Some(node) = part else { continue };
        if !each_node(tokens, node) {
            return false;
        }
    }
    true
}

fn part_stands(tokens: &Tokens, part: Option<&Node>) -> bool
    ensures { IsTrue result → PartStands (places.stands tokens.now) (option_map (λ n. view n.now) part.entry) }
{
    match part {
        Some(node) => each_node(tokens, node),
        None => true,
    }
}

/// Whether a specification stands so, with its type and its values.
pub fn specification_stands(tokens: &Tokens, specification: &Specification<'_>) -> bool
    ensures { IsTrue result → SpecificationStands (places.stands tokens.now) (specification_view specification.now) }
{
    stands(tokens, specification.first, specification.last)
        && part_stands(tokens, specification.of)
        && each_part(tokens, specification.values)
}
