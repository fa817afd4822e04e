//! Laws of trees whose tokens stand elsewhere. These functions do nothing: their contracts are what holds.
ghost use Rattle.std.specs.Prelude.{ℕ, ◌+◌};
ghost use Rattle.go_grammar.specs.Trees.{Tree};
ghost use Rattle.go_rewriting.specs.Lists.{InOrder};
ghost use Rattle.go_exprs_rules.specs.Scopes.{Scope, Hint};
ghost use Rattle.go_elsewhere.specs.Elsewhere.{KeepsLast, IsTypedElsewhere};

/// An expression or a type whose tokens stand elsewhere is typed as in a scope where its tokens say and mean what they do there, and the
/// same rules fail in it: nothing but the places depends on where the tokens stand. The names of selectors stay in front of their ends.
pub fn moved_expressions_are_typed_the_same()
    ensures { (m : ℕ → ℕ) (s : Scope) (h : Hint) (t : Tree) → KeepsLast m t → IsTypedElsewhere m s h t }
{}

/// A tree whose nodes have tokens keeps them in order so many tokens further on.
pub fn trees_further_on_keep_their_names()
    ensures { (n : ℕ) (t : Tree) → InOrder t → KeepsLast (λ i. n + i) t }
{}
