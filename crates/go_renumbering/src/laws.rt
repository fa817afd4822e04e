//! Laws, for the crates above. The functions do nothing: their contracts are the laws.

ghost use Rattle.std.specs.Prelude.{ℕ, Bool, ◌≡◌, ◌++◌, List, length};
ghost use Rattle.go_grammar.specs.Trees.{Tree};
ghost use Rattle.go_package_laws.specs.Reach.{ScopeWithin, HintWithin};
ghost use Rattle.go_exprs_rules.specs.Scopes.{Scope, Hint};
ghost use Rattle.go_renumbering.specs.Reached.{IsClosed, reached};
ghost use Rattle.go_renumbering.specs.Renumbered.{RenamedScopes, IsTypedRenamed, part_renamed, hint_renamed};
ghost use Rattle.go_exprs_rules.specs.Settling.{Part};
ghost use Rattle.go_stmts_defs.specs.Frames.{Frame};
ghost use Rattle.go_stmts_defs.specs.Reading.{holding, held_faults, reading};
ghost use Rattle.go_renumbering.specs.Frames.{RenamedFrames, RenamedReadings};
ghost use Rattle.go_stmts_defs.specs.Ending.{terminates, breaks};
ghost use Rattle.go_stmts_defs.specs.Targets.{is_statement_call};
ghost use Rattle.go_types.specs.Relations.{Rights};
ghost use Rattle.go_stmts_defs.specs.Bodies.{start};
ghost use Rattle.go_package_defs.specs.Bodies.{Portion, Surroundings, function_in, function_of};
ghost use Rattle.go_renumbering.specs.Functions.{AreBelow, RenamedFunctions, shifted};

/// Where names stand for the same with declared types renamed, one to one, and so do right sides, an expression or a type has the same
/// types, renamed, and the same rules fail in it: typing doesn't depend on the numbers of declared types.
pub fn renumbered_expressions_are_typed_the_same()
    ensures { (name : ℕ → ℕ) (s t : Scope) (h : Hint) (x : Tree) → RenamedScopes name s t → IsTypedRenamed name s t h x }
{}

/// The same where only the right sides of those types are renamed that are reached through what is declared.
pub fn reached_types_are_renumbered()
    ensures { (p : ℕ → Bool) (name : ℕ → ℕ) (s t : Scope) (h : Hint) (x : Tree) →
        IsClosed p s.rights → ScopeWithin p s → HintWithin p h → RenamedScopes name (reached p s) t → IsTypedRenamed name s t h x }
{}

/// Whether a statement is terminating, and what may be a statement, doesn't depend on the numbers of declared types.
pub fn endings_have_no_types()
    ensures terminating { (name : ℕ → ℕ) (x : Part) → terminates (part_renamed name x) ≡ terminates x }
    ensures breaking { (name : ℕ → ℕ) (x : Part) → breaks (part_renamed name x) ≡ breaks x }
    ensures called { (name : ℕ → ℕ) (x : Part) → is_statement_call (part_renamed name x) ≡ is_statement_call x }
{}

/// The names and the expressions of a statement are typed the same, renamed, in renamed frames, and the same rules fail in them.
pub fn held_parts_are_typed_the_same()
    ensures typed { (name : ℕ → ℕ) (f g : Frame) → RenamedFrames name f g → (h : Hint) (x : Tree) → holding g (hint_renamed name h) x ≡ part_renamed name (holding f h x) }
    ensures failing { (name : ℕ → ℕ) (f g : Frame) → RenamedFrames name f g → (h : Hint) (x : Tree) → held_faults g (hint_renamed name h) x ≡ held_faults f h x }
{}

/// Statements, declarations and bodies are read the same, with their types renamed, the same rules fail in them, and so it is known behind
/// them.
pub fn renumbered_statements_are_read_the_same()
    ensures { (name : ℕ → ℕ) (f g : Frame) (h : Hint) (x : Tree) → RenamedFrames name f g → RenamedReadings name (reading f h x) (reading g (hint_renamed name h) x) }
{}

/// A function has its types, renamed, in each scope that says the same with other numbers of declared types, with the right sides behind it
/// renamed too; or the same fault is reported of it.
pub fn renumbered_functions_are_typed_the_same()
    ensures { (name : ℕ → ℕ) (s t : Scope) (number count : ℕ) (types others : ℕ → ℕ) (x : Tree) →
        RenamedFrames name (start s count types) (start t count others) → RenamedFunctions name (function_in s number count types x) (function_in t number count others x) }
{}

/// Where what surrounds a function and the right sides in front of it name no declared types but those in front, it is with its types the
/// same behind more right sides, but for the numbers of its own types, which are so many higher.
pub fn functions_stand_behind_more_right_sides()
    ensures { (a : Surroundings) (rights more : Rights) (number : ℕ) (which : List Bool) (o : Portion) → AreBelow (length rights) a rights →
        RenamedFunctions (shifted (length rights) (length more)) (function_of a rights number which o) (function_of a (rights ++ more) number which o) }
{}
