//! Laws, for the crates above. The functions do nothing: their contracts are the laws.

ghost use Rattle.std.specs.Prelude.{◌≡◌, ℕ, ◌+◌, Bool, true, ◌&&◌, not, [], ◌++◌, List, Some, length, map, slice_get};
ghost use Rattle.go_tokens.specs.declared.token.TokenKind.{TokenKind};
ghost use Rattle.go_grammar.specs.declared.kind.Category.{Category};
ghost use Rattle.go_grammar.specs.declared.kind.Kind.{Kind};
ghost use Rattle.go_grammar.specs.Grammar.{Derives};
ghost use Rattle.go_grammar.specs.Trees.{Tree, node, Trees, onto};
ghost use Rattle.go_rewriting.specs.Places.{carry};
ghost use Rattle.go_tree.specs.Branches.{branches};
ghost use Rattle.go_tree.specs.Constants.{hidden_lists};
ghost use Rattle.go_tree.specs.declared.context.Context.{Context};
ghost use Rattle.go_tree.specs.Declarations.{declarations, found};
ghost use Rattle.go_tree.specs.Duplicates.{second_defaults, second_members};
ghost use Rattle.go_tree.specs.Events.{events, is_more};
ghost use Rattle.go_tree.specs.Failures.{of_files};
ghost use Rattle.go_tree.specs.Lookups.{undeclared, outside_names, outside_members, not_called, initialisers, unused_variables};
ghost use Rattle.go_tree.specs.Needs.{cycles};
ghost use Rattle.go_tree.specs.Redeclared.{second_declarations, none_new};
ghost use Rattle.go_heads.specs.Functions.{Function, AreRead, all_functions, function_alone};
ghost use Rattle.go_heads.specs.Heads.{File, heads};
ghost use Rattle.go_heads.specs.Locals.{AreNamed};
ghost use Rattle.go_heads.specs.Objects.{units_of};
ghost use Rattle.go_scopes_bodies.specs.Carried.{KeepsNames, carried_context, carried_event};
ghost use Rattle.go_scopes_bodies.specs.Listed.{AreStatements, TellsStatements, holds_statements, told_list};
ghost use Rattle.go_scopes_bodies.specs.Meant.{MeansAt};
ghost use Rattle.go_scopes_bodies.specs.Outside.{outside_units};
ghost use Rattle.go_scopes_bodies.specs.Faults.{CountsStatements, FaultsAreThoseOfFunctions, GoesByFunctions, NothingFailsOutside, UsesImportByFunctions};
ghost use Rattle.go_scopes_bodies.specs.Faults.{all_asked, outside_asked, outer_in, outside_declared, shared, own_misplaced, own_second_defaults, own_second_members, own_hidden_lists, own_second_declarations};
ghost use Rattle.go_scopes_bodies.specs.Faults.{own_none_new, own_undeclared, own_outside_names, own_outside_members, own_not_called, own_initialisers, own_unused, own_cycles};

use go_scopes_cycles::laws::declarations_bound_rounds;

/// Each token of a function means what it means by itself, and by what names mean outside of functions in its file: the local of the
/// same number of this function, an object of the package, a predeclared name, fmt, or nothing (Go specification: Declarations and
/// scope).
pub fn tokens_mean_by_themselves()
    ensures { (fs : List File) → AreRead fs → AreNamed fs → (k : ℕ) (f : Function) → slice_get (all_functions fs) k ≡ Some f → MeansAt fs k f }
{}

/// Whether a `break`, `continue` or `fallthrough` is misplaced is judged function by function (Go specification: Break statements,
/// Continue statements, Fallthrough statements).
pub fn branches_are_judged_by_functions()
    ensures { (fs : List File) → AreRead fs → AreNamed fs → GoesByFunctions fs (λ n f. own_misplaced (function_alone f)) (branches (outside_units fs)) (branches (units_of fs)) }
{}

/// So is whether a switch has two defaults (Go specification: Switch statements).
pub fn defaults_are_judged_by_functions()
    ensures { (fs : List File) → AreRead fs → AreNamed fs
        → GoesByFunctions fs (λ n f. own_second_defaults (function_alone f)) (of_files second_defaults 0 (outside_units fs)) (of_files second_defaults 0 (units_of fs)) }
{}

/// So is whether a field, a key or a parameter stands twice in its group (Go specification: Struct types, Composite literals, Function
/// types).
pub fn members_are_judged_by_functions()
    ensures { (fs : List File) → AreRead fs → AreNamed fs
        → GoesByFunctions fs (λ n f. own_second_members (function_alone f)) (of_files (second_members []) 0 (outside_units fs)) (of_files (second_members []) 0 (units_of fs)) }
{}

/// So is whether a specification of constants repeats a list of which a constant hides a name (Go specification: Constant
/// declarations).
pub fn repeated_lists_are_judged_by_functions()
    ensures { (fs : List File) → AreRead fs → AreNamed fs → GoesByFunctions fs (λ n f. own_hidden_lists (function_alone f)) (hidden_lists (outside_units fs)) (hidden_lists (units_of fs)) }
{}

/// No name is declared twice in its block where none is in the block of the package, and none in a function by itself (Go
/// specification: Declarations and scope).
pub fn names_are_declared_once_by_functions()
    ensures { (fs : List File) → AreRead fs
        → GoesByFunctions fs (λ n f. own_second_declarations (function_alone f)) (second_declarations [] (shared (declarations (units_of fs)))) (second_declarations [] (declarations (units_of fs))) }
{}

/// Whether a `:=` declares a new name is judged function by function (Go specification: Short variable declarations).
pub fn new_names_are_judged_by_functions()
    ensures { (fs : List File) → AreRead fs → AreNamed fs
        → GoesByFunctions fs (λ n f. own_none_new (function_alone f)) (none_new (declarations (units_of fs)) (found (outside_units fs))) (none_new (declarations (units_of fs)) (found (units_of fs))) }
{}

/// Whether a name means anything is judged function by function (Go specification: Declarations and scope).
pub fn undeclared_names_are_judged_by_functions()
    ensures { (fs : List File) → AreRead fs → AreNamed fs → GoesByFunctions fs (λ n f. own_undeclared (function_alone f) (outer_in fs n)) (undeclared (outside_asked fs)) (undeclared (all_asked fs)) }
{}

/// So is whether a predeclared name is one of the profile.
pub fn outside_names_are_judged_by_functions()
    ensures { (fs : List File) → AreRead fs → AreNamed fs
        → GoesByFunctions fs (λ n f. own_outside_names (function_alone f) (outer_in fs n)) (outside_names (outside_asked fs)) (outside_names (all_asked fs)) }
{}

/// So is whether a member of an import is one of the profile (Go specification: Qualified identifiers).
pub fn outside_members_are_judged_by_functions()
    ensures { (fs : List File) → AreRead fs → AreNamed fs
        → GoesByFunctions fs (λ n f. own_outside_members (function_alone f) (outer_in fs n)) (outside_members (outside_asked fs)) (outside_members (all_asked fs)) }
{}

/// So is whether it is called.
pub fn calls_of_members_are_judged_by_functions()
    ensures { (fs : List File) → AreRead fs → AreNamed fs → GoesByFunctions fs (λ n f. own_not_called (function_alone f) (outer_in fs n)) (not_called (outside_asked fs)) (not_called (all_asked fs)) }
{}

/// Whether the value of a variable of the package names a function or a variable is judged outside of functions (Go specification: Package
/// initialization): no name in a function stands there.
pub fn initialisers_are_judged_by_functions()
    ensures { (fs : List File) → AreRead fs → AreNamed fs
        → GoesByFunctions fs (λ n f. own_initialisers (function_alone f) (outer_in fs n)) (initialisers (outside_asked fs)) (initialisers (all_asked fs)) }
{}

/// Whether a local variable is used is judged function by function (Go specification: Variable declarations).
pub fn unused_variables_are_judged_by_functions()
    ensures { (fs : List File) → AreRead fs → AreNamed fs
        → GoesByFunctions fs (λ n f. own_unused (function_alone f) (outer_in fs n)) (unused_variables (all_asked fs) (outside_declared fs)) (unused_variables (all_asked fs) (declarations (units_of fs))) }
{}

/// In packages with equal heads each name means the same outside of functions (Go specification: Declarations and scope).
pub fn names_outside_of_functions_stay()
    ensures { (old new : List File) → AreRead old → AreRead new → heads old ≡ heads new → (n : ℕ) (w : List ℕ) → outer_in new n w ≡ outer_in old n w }
{}

/// Outside of functions no statement is misplaced, no switch has a second default, no `:=` lacks a new name, no local variable is
/// unused and no list has a hidden name: there are none.
pub fn nothing_fails_outside_of_functions()
    ensures { (fs : List File) → AreRead fs → NothingFailsOutside fs }
{}

/// No declaration needs itself where none in the block of the package does, and none of a function by itself, in as many rounds as the
/// function declares names, twice (Go specification: Declarations and scope, Type declarations).
pub fn cycles_are_judged_by_functions()
    ensures { (fs : List File) → AreRead fs → AreNamed fs
        → let ds = declarations (units_of fs) in GoesByFunctions fs (λ n f. own_cycles (function_alone f) (outer_in fs n)) (cycles (all_asked fs) (length ds + length ds) (shared ds)) (cycles (all_asked fs) (length ds + length ds) ds) }
{
    declarations_bound_rounds();
}

/// No fault of names is reported of a package where no rule of names fails outside of functions and none in a function by itself, each
/// import is used, and there are not too many statements; and the other way round.
pub fn faults_are_those_of_functions()
    ensures { (fs : List File) → AreRead fs → AreNamed fs → FaultsAreThoseOfFunctions fs }
{
    declarations_bound_rounds();
}

/// The statements of a package are those of its functions, and none is too many where there are at most 65,536.
pub fn statements_are_counted_by_functions()
    ensures { (fs : List File) → AreRead fs → CountsStatements fs }
{}

/// Whether the import of a file is used is judged function by function (Go specification: Import declarations).
pub fn imports_are_used_by_functions()
    ensures { (fs : List File) → AreRead fs → AreNamed fs → (n : ℕ) → UsesImportByFunctions fs n }
{}

/// Where the tokens of a tree stand elsewhere, it tells the same of names, of tokens that stand there. This holds of any tree and any
/// places, so long as the name of a function stays its second token.
pub fn carried_trees_tell_the_same()
    ensures { (v : ℕ → ℕ) (c : Context) (t : Tree) → KeepsNames v t → events (carried_context v c) (carry v t) ≡ map (carried_event v) (events c t) }
{}

/// A block or a clause tells of names what its statements tell, each by itself (Go specification: Blocks).
pub fn lists_tell_each_statement()
    ensures { (c : Context) (i j : ℕ) (ps : Trees) → AreStatements ps → TellsStatements c i j ps }
{}

/// The parts of a derived block or clause are such statements, with the list of expressions in front of those of a `case`.
pub fn lists_hold_statements()
    ensures { (ts : List TokenKind) (x : Category) (k : Kind) (i j : ℕ) (ps : Trees) → holds_statements k ≡ true → Derives ts x (node k i j ps) → AreStatements ps }
{}

/// Two lists of statements, one behind the other, tell what each tells; so where statements are put in place of some, what stands in
/// front of these and behind them tells the same.
pub fn lists_tell_one_behind_the_other()
    ensures { (c : Context) (followed : Bool) (xs ys : Trees) → told_list c followed (onto xs ys) ≡ told_list c (followed && not (is_more ys)) xs ++ told_list c followed ys }
{}
