//! Laws of the grammar.

ghost use Rattle.std.specs.Prelude.{◌≡◌, ℕ, ◌<◌, ◌≤◌, List, Some, length};
ghost use Rattle.go_tokens.specs.declared.token.TokenKind.{TokenKind};
ghost use Rattle.go_grammar.specs.declared.kind.Category.{Category};
ghost use Rattle.go_grammar.specs.Grammar.{Derives, IsFile};
ghost use Rattle.go_grammar.specs.Reader.{read, Tends};
ghost use Rattle.go_grammar.specs.Trees.{Tree, first, last, depth};

/// A range of tokens has at most one tree of a category.
pub fn one_tree()
    ensures { (ts : List TokenKind) (c : Category) (t u : Tree) → Derives ts c t → Derives ts c u → first t ≡ first u → last t ≡ last u → t ≡ u }
{}

/// A file has at most one tree.
pub fn one_tree_of_a_file()
    ensures { (ts : List TokenKind) (t u : Tree) → IsFile ts t → IsFile ts u → t ≡ u }
{}

/// The reader finds the tree of a file, where there is one.
pub fn reader_is_complete()
    ensures { (ts : List TokenKind) (t : Tree) → IsFile ts t → Tends (λ n. read n ts 101 Category.File 0) (Some t) }
{}

/// What the reader finds is a derivation that begins where it was asked for, of no more levels than there is room for.
pub fn reader_is_sound()
    ensures { (ts : List TokenKind) (n m : ℕ) (c : Category) (i : ℕ) (t : Tree) → read n ts m c i ≡ Some t → Derives ts c t × (first t ≡ i) × (depth t ≤ m) }
{}

/// A derivation has a token at least, and lies within the tokens.
pub fn ranges_lie_within()
    ensures { (ts : List TokenKind) (c : Category) (t : Tree) → Derives ts c t → (first t < last t) × (last t ≤ length ts) }
{}
