//! The nodes of a syntax tree.

ghost use Rattle.std.specs.Prelude.{◌≡◌};
ghost use Rattle.std.specs.Option.{option_map};
ghost use Rattle.go_grammar.specs.Trees.{node, kind_of, first, last, parts};
ghost use Rattle.go_tree.specs.Views.{view, views, part_at, flat, behind_first};

use go_grammar::kind::Kind;

/// A node of a syntax tree: its tokens are those from the number `first` up to `last`, without `last`. Those that lie in
/// none of its parts are its own. A part that is left out has its place among the parts.
#[derive(Debug, Drop)]
pub struct Node {
    kind: Kind,
    first: u32,
    last: u32,
    parts: Vec<Option<Node>>,
}

impl Node {
    /// A node over the tokens from `first` up to `last`.
    pub fn new(kind: Kind, first: u32, last: u32, parts: Vec<Option<Node>>) -> Node
        ensures { view result ≡ node kind first last (views parts.items) }
    {
        Node {
            kind,
            first,
            last,
            parts: fitted(parts),
        }
    }

    /// What it is.
    pub fn kind(&self) -> Kind
        ensures { result ≡ kind_of (view self.now) }
    {
        self.kind
    }

    /// The number of its first token.
    pub fn first(&self) -> u32
        ensures { result ≡ first (view self.now) }
    {
        self.first
    }

    /// The number of the token behind its last one.
    pub fn last(&self) -> u32
        ensures { result ≡ last (view self.now) }
    {
        self.last
    }

    /// Its parts, in order.
    pub fn parts(&self) -> &[Option<Node>]
        ensures { views result.now ≡ parts (view self.now) }
    {
        &self.parts
    }

    /// The part of this number, from 0; none where it is left out, or there are not so many.
    pub fn part(&self, number: usize) -> Option<&Node>
        ensures { part_at (parts (view self.now)) number ≡ option_map (λ n. view n.now) result }
    {
        part_of(self.parts(), number)
    }

    /// Its parts behind the first, in order.
    pub fn behind_first(&self) -> &[Option<Node>]
        ensures { views result.now ≡ behind_first (parts (view self.now)) }
    {
        rest(self.parts())
    }
}

/// The row with no room for more parts. It is made anew, since a row that is cut in place leaves room that hardly another fits;
/// where memory lacks it is the row as it was.
fn fitted(mut parts: Vec<Option<Node>>) -> Vec<Option<Node>>
    ensures { result.items ≡ parts.items }
{
    if parts.len() == parts.capacity() {
        return parts;
    }
    let Ok(mut row) = Vec::with_capacity(*parts.allocator(), parts.len()) else {
        return parts;
    };
    match row.append(&mut parts) {
        Ok(()) => row,
        Err(_) => parts,
    }
}

/// The part of this number in a row of parts, from 0; none where it is left out, or there are not so many.
pub fn part_of(row: &[Option<Node>], number: usize) -> Option<&Node>
    ensures { part_at (views row.now) number ≡ option_map (λ n. view n.now) result }
{
    match place(row, number) {
        Some(Some(part)) => Some(part),
        _ => None,
    }
}

/// What stands in a row at a number.
fn place(parts: &[Option<Node>], number: usize) -> Option<&Option<Node>>
    ensures { part_at (views parts.now) number ≡ flat (option_map (λ x. option_map view x.now) result) }
{
    parts.get(number)
}

/// The row without its first place.
fn rest(parts: &[Option<Node>]) -> &[Option<Node>]
    ensures { views result.now ≡ behind_first (views parts.now) }
{
    match parts.split_first() {
        Some((_, rest)) => rest,
        None => &[],
    }
}
