ghost use Rattle.std.specs.Prelude.{◌≡◌, ◌≤◌, length};

use std::marker::Model;

/// MemberNumbers of members of a class, one or more; the first member has the number 1.
#[derive(Debug, Drop)]
pub struct MemberNumbers {
    items: Vec<u32>,
}

impl Model for MemberNumbers {
    ghost use Rattle.std.specs.Prelude.{List, ℕ, ◌≤◌, length};

    ghost Value = { List ℕ };

    ghost view = { λ n. n.items.items };

    ghost invariant = { λ n. 1 ≤ length n.items.items };
}

impl MemberNumbers {
    /// The numbers of a `Vec`, which is kept.
    pub fn of(items: Vec<u32>) -> MemberNumbers
        requires { 1 ≤ length items.items }
        ensures { result ≡ items.items }
    {
        MemberNumbers { items }
    }

    /// All the numbers.
    pub fn as_slice(&self) -> &[u32]
        ensures value { result.now ≡ self.now }
        ensures some { 1 ≤ length result.now }
    {
        self.items.as_slice()
    }
}

/// Which members of a class a command takes.
#[derive(Debug, Drop)]
pub enum Choice {
    /// `all`: each that overlaps no earlier one that is taken.
    All,
    /// Those of these numbers, in this order.
    Members(MemberNumbers),
}
