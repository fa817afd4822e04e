//! Laws of typed trees that are lexically scoped, for the crates above. The functions do nothing: their contracts are the laws.

ghost use Rattle.std.specs.Prelude.{◌≡◌, ℕ, Bool, true, List};
ghost use Rattle.go_grammar.specs.declared.kind.Category.{Category};
ghost use Rattle.go_grammar.specs.declared.kind.Category.TheVariants as category;
ghost use Rattle.go_grammar.specs.declared.kind.Kind.TheVariants as kind;
ghost use Rattle.go_grammar.specs.declared.kind.Sort.TheVariants as declaring;
ghost use Rattle.go_grammar.specs.Categories.{is_simple};
ghost use Rattle.go_grammar.specs.Trees.{Tree, Trees, node, kind_of};
ghost use Rattle.go_tree.specs.declared.context.Scope.{Scope as Extent};
ghost use Rattle.go_types.specs.Relations.{Rights};
ghost use Rattle.go_types.specs.Trees.{TypeTree};
ghost use Rattle.go_typed.specs.Trees.{Typed, Typeds};
ghost use Rattle.go_exprs_rules.specs.Scopes.{Scope, Hint};
ghost use Rattle.go_exprs_rules.specs.Typing.{typing};
ghost use Rattle.go_stmts_defs.specs.Frames.{Frame};
ghost use Rattle.go_stmts_defs.specs.Reading.{reading};
ghost use Rattle.go_stmts_final_types.specs.Shapes.{IsShaped};
ghost use Rattle.go_meaning_simulation.specs.Links.{Ways, nowhere};
ghost use Rattle.extract_runs.specs.Lexical.{lexical_links};
ghost use Rattle.extract_runs.specs.Sound.{SoundChain, SoundStatement};
ghost use Rattle.go_stmts_scopes.specs.Examples.{Examples};
ghost use Rattle.go_stmts_scopes.specs.Locals.{behind_all, IsLexical, IsLexicalList};
ghost use Rattle.go_stmts_scopes.specs.Names.{NamesMean};
ghost use Rattle.go_stmts_scopes.specs.Runs.{IsExpression, HasBrackets};
ghost use Rattle.go_stmts_scopes.specs.Scoped.{IsScoped, is_use, tested};
ghost use Rattle.go_stmts_scopes.specs.Shapes.{AreStatements, IsFirst, IsFunction, IsStatement};
ghost use Rattle.go_stmts_scopes.specs.Standing.{Extents, StandInScope, StandsInScope};
ghost use Rattle.go_stmts_scopes.specs.Statements.{AreScoped, IsSimple, IsSimpleTree, is_written_simple, tree_in};

/// What is typed as an expression has the shape of one: no statement and no name that is declared is run in it, whatever the scope, and
/// whether a rule fails or none (Go specification: Expressions).
pub fn typed_expressions_are_expressions()
    ensures { (s : Scope) (h : Hint) (t : Tree) → is_use h ≡ true → HasBrackets t → IsExpression (typing s h t) }
{}

/// A tree that is derived from the grammar, and typed as an expression, has the shape of one (Go specification: Expressions).
pub fn derived_expressions_are_expressions()
    ensures { (c : Category) (s : Scope) (h : Hint) (t : Tree) → IsShaped c t → is_use h ≡ true → IsExpression (typing s h t) }
{}

/// An expression is lexically scoped where each local that is read in it is in scope, and the one that is written may be written (Go
/// specification: Declarations and scope).
pub fn expressions_are_scoped()
    ensures { (named written declared : ℕ → Bool) (returns : Bool) (rights : Rights) (local : ℕ → ℕ) (gone : ℕ → Bool) (s : List ℕ) (x : Typed TypeTree)
        → IsExpression x → IsScoped (tested named written declared returns) rights local gone s x }
{}

/// A statement that holds no others is lexically scoped where each local that is read in it is in scope, those that are written may be
/// written, and a branch leads to where no other locals are known (Go specification: Statements).
pub fn simple_statements_are_scoped()
    ensures { (named written declared : ℕ → Bool) (returns : Bool) (rights : Rights) (local : ℕ → ℕ) (gone : ℕ → Bool) (W : Ways (List ℕ)) (s : List ℕ)
        → AreScoped (tested named written declared returns) rights local gone W s }
{}

/// Expression statements, `x++`, assignments and `return` are read as statements whose parts are expressions, whatever is known where they
/// begin, and whether a rule fails or none (Go specification: Expression statements, IncDec statements, Assignment statements, Return
/// statements).
pub fn typed_statements_are_simple()
    ensures { (s : Frame) (h : Hint) (t : Tree) → IsSimpleTree t → IsSimple (tree_in (reading s h t)) }
{}

/// Expression statements, `x++`, assignments and `return` that are derived from the grammar are read as statements whose parts are
/// expressions (Go specification: Expression statements, IncDec statements, Assignment statements, Return statements).
pub fn derived_statements_are_simple()
    ensures { (c : Category) (s : Frame) (h : Hint) (t : Tree) → IsShaped c t → is_written_simple (kind_of t) ≡ true → IsSimple (tree_in (reading s h t)) }
{}

/// A simple statement that is derived from the grammar, as it may stand in front of a condition, is read as one that may stand there: a
/// definition declares names and reads expressions (Go specification: Short variable declarations, If statements).
pub fn derived_definitions_have_shape()
    ensures { (c : Category) (s : Frame) (h : Hint) (t : Tree) → IsShaped c t → is_simple (kind_of t) ≡ true → IsFirst (tree_in (reading s h t)) }
{}

/// A specification of variables is read as a statement that declares names and reads expressions (Go specification: Variable
/// declarations).
pub fn derived_specifications_have_shape()
    ensures { (s : Frame) (h : Hint) (t : Tree) → IsShaped (category.Specification declaring.Variable) t → IsStatement (tree_in (reading s h t)) }
{}

/// Each statement that is derived from the grammar, and each function, is read as one of the shape that evaluation asks for, whatever is
/// known where it begins, and whether a rule fails or none (Go specification: Statements, Function declarations).
pub fn derived_functions_have_shape()
    ensures { ((s : Frame) (h : Hint) (t : Tree) → IsShaped category.Statement t → IsStatement (tree_in (reading s h t)))
        × ((s : Frame) (h : Hint) (i j : ℕ) (ps : Trees) → IsShaped category.Declaration (node kind.FunctionDeclaration i j ps) → IsFunction (tree_in (reading s h (node kind.FunctionDeclaration i j ps)))) }
{}

/// A statement of the shape that evaluation asks for is lexically scoped where what is named in it is in scope, and so are a function and a
/// list of statements (Go specification: Blocks, Declarations and scope).
pub fn shaped_statements_are_scoped()
    ensures { (named written declared : ℕ → Bool) (returns : Bool) (rights : Rights) (local : ℕ → ℕ) (gone : ℕ → Bool) (W : Ways (List ℕ)) (s : List ℕ)
        → ((x : Typed TypeTree) → IsLexical (tested named written declared returns) rights local gone W s x) × ((ps : Typeds TypeTree) → IsLexicalList (tested named written declared returns) rights local gone W s ps) }
{}

/// Where a typed tree names or declares a local, the token means this local (Go specification: Declarations and scope). This holds of any
/// tree, whatever is known where it begins, and whether a rule fails or none.
pub fn names_stand_where_they_are_meant()
    ensures { (s : Frame) (h : Hint) (t : Tree) → NamesMean s.around.objects (tree_in (reading s h t)) }
{}

/// A function is lexically scoped from its parameters on where its names stand as they may, and each variable that is in scope at one of its
/// tokens is a parameter or is declared in it; and so is a window, from the locals on that are in scope in front of it (Go specification:
/// Blocks, Declarations and scope).
pub fn covered_functions_are_scoped()
    ensures { (named written declared : ℕ → Bool) (returns : Bool) (rights : Rights) (x : Extents) (gone : ℕ → Bool) (local : ℕ → ℕ) (s : List ℕ) →
        let ls = tested named written declared returns in
        ((t : Typed TypeTree) → IsFunction t → StandsInScope ls rights x s t → SoundStatement (lexical_links ls) rights local gone nowhere s s t)
        × ((r : Extent) (a b : ℕ) (ps : Typeds TypeTree) → AreStatements ps → StandInScope ls rights x r a b s ps → SoundChain (lexical_links ls) rights local gone nowhere s (behind_all s ps) ps) }
{}

/// A window and a function that are lexically scoped, and a statement that isn't, worked out by hand.
pub fn examples()
    ensures { Examples }
{}
