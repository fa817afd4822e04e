//! Laws of trees that stand over tokens, and of what names mean.

ghost use Rattle.std.specs.Prelude.{◌≡◌, ℕ, ◌<◌, ◌≤◌, List, Some, map};
ghost use Rattle.go_tokens.specs.declared.token.Token.{Token};
ghost use Rattle.go_tokens.specs.Tokens.{AreOrdered, span_of};
ghost use Rattle.go_tree.specs.Spans.{start_of, end_of};
ghost use Rattle.go_tokens.specs.declared.token.TokenKind.{TokenKind};
ghost use Rattle.go_grammar.specs.declared.kind.Category.{Category};
ghost use Rattle.go_grammar.specs.Grammar.{Derives};
ghost use Rattle.go_grammar.specs.Trees.{Tree, first, last, parts};
ghost use Rattle.go_tree.specs.Views.{Tiles};
ghost use Rattle.go_tree.specs.declared.object.Declared.{Declared};
ghost use Rattle.go_tree.specs.declared.object.Object.{Object};
ghost use Rattle.go_tree.specs.Uses.{UsesView, declared_as, IsComplete};

/// The parts of a derivation lie one after the other inside its range.
pub fn parts_lie_in_order()
    ensures { (ts : List TokenKind) (c : Category) (t : Tree) → Derives ts c t → Tiles (first t) (last t) (parts t) }
{}

/// Where tokens stand in order, a node with a token begins before it ends.
pub fn nodes_begin_before_they_end()
    ensures { (ts : List Token) (s e : ℕ) (t : Tree) (a b : ℕ) → AreOrdered s (map span_of ts) e → first t < last t → start_of ts t ≡ Some a → end_of ts t ≡ Some b → a ≤ b }
{}

/// No two objects have one declaration.
pub fn objects_have_declarations_of_their_own()
    ensures { (u : UsesView) (o p : Object) (d : Declared) → IsComplete u → declared_as u o ≡ Some d → declared_as u p ≡ Some d → o ≡ p }
{}
