//! Laws of the numbers of declared types. The functions do nothing: their contracts are the laws.

ghost use Rattle.std.specs.Prelude.{◌≡◌, ℕ};
ghost use Rattle.go_grammar.specs.Trees.{Tree};
ghost use Rattle.go_exprs_rules.specs.Scopes.{Hint, Scope};
ghost use Rattle.go_stmts_defs.specs.Frames.{Frame};
ghost use Rattle.go_stmts_defs.specs.Reading.{reading};
ghost use Rattle.go_package_defs.specs.Bodies.{function_in};
ghost use Rattle.go_stmts_own_types.specs.Numbered.{AreNumbered, numbered, read_numbered};

/// Statements read the numbers of declared types of those locals alone at whose tokens they declare types: with other numbers of other locals the
/// same tree is read, the same rules fail, and the same is known behind them. So it is with functions (Go specification: Type declarations).
pub fn types_of_other_locals_count_for_nothing()
    ensures statements { (others : ℕ → ℕ) (f : Frame) (h : Hint) (x : Tree) → AreNumbered f.types others f.around.objects x → reading (numbered others f) h x ≡ read_numbered others (reading f h x) }
    ensures functions { (s : Scope) (number count : ℕ) (types others : ℕ → ℕ) (x : Tree) → AreNumbered types others s.objects x → function_in s number count others x ≡ function_in s number count types x }
{}
