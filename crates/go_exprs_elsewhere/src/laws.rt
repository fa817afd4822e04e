//! Laws of trees whose tokens stand elsewhere, under other numbers. These functions do nothing: their contracts are what holds.
ghost use Rattle.std.specs.Prelude.{◌≡◌, ℕ, true};
ghost use Rattle.go_exprs_elsewhere.specs.Elsewhere.{Moves, Along, KeepsLast, KeepsSpelling, IsTypedElsewhere};
ghost use Rattle.go_exprs_rules.specs.Scopes.{Scope, Hint};
ghost use Rattle.go_grammar.specs.Trees.{Tree};

/// An expression or a type whose tokens stand elsewhere, in a scope that gives locals and objects other numbers, is typed the same
/// under these, and the same rules fail in it at the new places. Names may be spelled anew where typing doesn't read them.
pub fn expressions_are_typed_elsewhere()
    ensures { (m : Moves) (s t : Scope) (h : Hint) (x : Tree) → Along m s t → KeepsSpelling m x → IsTypedElsewhere m s t h x }
{}

/// Where each token is spelled the same, the trees that keep the last tokens of their selectors keep what is read of them.
pub fn trees_spelled_the_same_keep_it()
    ensures { (m : Moves) (x : Tree) → ((i : ℕ) → m.spelled i ≡ true) → KeepsLast m x → KeepsSpelling m x }
{}
