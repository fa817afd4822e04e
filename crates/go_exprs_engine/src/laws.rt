//! Laws of typing. These functions do nothing: their contracts are what holds.
ghost use Rattle.go_grammar.specs.Trees.{Tree};
ghost use Rattle.go_tree.specs.declared.object.Object.{Object};
ghost use Rattle.go_exprs_rules.specs.Scopes.{Needed, Scope, Hint};
ghost use Rattle.go_exprs_rules.specs.Sorts.{Stands};
ghost use Rattle.go_exprs_engine.specs.Alike.{Alike, IsTypedAlike};

/// What objects stand for counts at the names of an expression alone, as these are needed: where they stand for the same in two
/// scopes, the expression is typed the same and the same rules fail in it.
pub fn names_alone_tell()
    ensures { (s : Scope) (r : Needed → Object → Stands) (h : Hint) (t : Tree) → Alike s r h t → IsTypedAlike s r h t }
{}
