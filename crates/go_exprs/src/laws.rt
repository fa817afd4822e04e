//! Laws of typing. These functions do nothing: their contracts are the laws.
ghost use Rattle.std.specs.Prelude.{◌≡◌, ℕ, List, Some};
ghost use Rattle.go_tokens.specs.Files.{IsLexing};
ghost use Rattle.go_tokens.specs.Tokens.{TokenList, kinds};
ghost use Rattle.go_tokens.specs.declared.token.TokenKind.{TokenKind};
ghost use Rattle.go_grammar.specs.declared.kind.Category.{Category};
ghost use Rattle.go_grammar.specs.Grammar.{Derives, IsFile};
ghost use Rattle.go_grammar.specs.Trees.{Tree, parts};
ghost use Rattle.go_tree.specs.Units.{word};
ghost use Rattle.go_tree.specs.Views.{part_at};
ghost use Rattle.go_exprs_rules.specs.Scopes.{Scope, Hint};
ghost use Rattle.go_exprs_rules.specs.Settling.{Take, given};
ghost use Rattle.go_exprs_rules.specs.Typing.{typing};
ghost use Rattle.go_exprs_engine.specs.Literals.{AllRead};
ghost use Rattle.go_exprs.specs.Examples.{TreeExamples, RefusalExamples};
ghost use Rattle.go_exprs.specs.Final.{take, final};

/// An expression has one final type for what is wanted of it, and so has each of its parts: the tree with the final types, found from
/// above, is the tree that the expression has by itself, once it takes what is wanted.
pub fn final_types()
    ensures { (ts : List TokenKind) (c : Category) (s : Scope) (h : Hint) (w : Take) (t : Tree) → Derives ts c t → final s h (take w) t ≡ given w (typing s h t) }
{}

/// Literals of a lexed file can be read, in its tree and in each part of one (Go specification, "Rune literals", "String literals").
pub fn literals_read()
    ensures file { (file : ℕ) (l : TokenList) (t : Tree) → IsLexing file l.text l.tokens l.comments → IsFile (kinds l.tokens) t → AllRead (word l) t }
    ensures part { (texts : ℕ → List ℕ) (t : Tree) (n : ℕ) (p : Tree) → AllRead texts t → part_at (parts t) n ≡ Some p → AllRead texts p }
{}

/// Whole typed trees of expressions.
pub fn trees()
    ensures { TreeExamples }
{}

/// What contexts refuse.
pub fn refusals()
    ensures { RefusalExamples }
{}
