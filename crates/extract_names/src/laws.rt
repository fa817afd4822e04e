//! Laws, for the crates above. The functions do nothing: their contracts are the laws.

ghost use Rattle.std.specs.Prelude.{◌≡◌, ℕ, Bool, List, [], map};
ghost use Rattle.go_grammar.specs.Trees.{Tree, Trees};
ghost use Rattle.go_rewriting.specs.Places.{Patch, become, carries};
ghost use Rattle.go_tree.specs.declared.context.Context.{Context};
ghost use Rattle.go_heads.specs.Functions.{Alone};
ghost use Rattle.go_scopes_bodies.specs.Carried.{AllKeepNames, carried_context, carried_event};
ghost use Rattle.go_scopes_bodies.specs.Listed.{told_list};
ghost use Rattle.go_scopes_bodies.specs.Faults.{own_second_declarations, own_misplaced, own_second_defaults, own_second_members, own_undeclared, own_outside_names, own_outside_members};
ghost use Rattle.go_scopes_bodies.specs.Faults.{own_not_called, own_initialisers, own_none_new, own_unused, own_hidden_lists, own_cycles, own_faults};
ghost use Rattle.go_scopes_bodies.specs.Meant.{Outer};
ghost use Rattle.extract_names.specs.Gaps.{Gap};
ghost use Rattle.extract_names.specs.Pieces.{ReplacesRuns, TellsPieces};
ghost use Rattle.extract_names.specs.Copies.{Copy, IsCopy, KeepsCopied, HolesMeanParameters, CopiesNames};
ghost use Rattle.extract_names.specs.CopyExample.{copy, taken};
ghost use Rattle.extract_names.specs.Examples.{Examples, gaps, new, old};
ghost use Rattle.extract_names.specs.NameExamples.{NameExamples};
ghost use Rattle.extract_names.specs.Sentences.{around};
ghost use Rattle.extract_names.specs.Sites.{IsSite, KeepsTokens, SaysNames, KeepsNames};

use go_scopes_bodies::laws::{
    carried_trees_tell_the_same, lists_tell_each_statement, lists_tell_one_behind_the_other,
};
use go_scopes_cycles::laws::declarations_bound_rounds;

/// A tree in which runs of statements are replaced tells of names, in order, what stays, each token at its new place, and in each gap
/// what the statements tell that stand there. What stays and what the runs told is all that the old tree told (Go specification:
/// Blocks, Statement lists).
pub fn replaced_runs_tell()
    ensures { (v : ℕ → ℕ) (c : Context) (t : Tree) (q : Patch) → ReplacesRuns v t q → TellsPieces v c t q (become v t q) }
{
    carried_trees_tell_the_same();
    lists_tell_each_statement();
    lists_tell_one_behind_the_other();
}

/// Statements whose tokens stand elsewhere tell of names what they told, of tokens that stand there (Go specification: Statement lists).
pub fn copied_runs_tell_the_same()
    ensures { (v : ℕ → ℕ) (c : Context) (followed : Bool) (ps : Trees) → AllKeepNames v ps → told_list (carried_context v c) followed (carries v ps) ≡ map (carried_event v) (told_list c followed ps) }
{
    carried_trees_tell_the_same();
    lists_tell_each_statement();
    lists_tell_one_behind_the_other();
}

/// In a function with runs of statements replaced each token that stays means what it meant, the locals by their new numbers: what the
/// runs declared and is named elsewhere is declared in their gaps (Go specification: Declarations and scope).
pub fn tokens_that_stay_mean_the_same()
    ensures { (a new : Alone) (outer : Outer) (gaps : List Gap) → IsSite a outer gaps new → own_second_declarations a ≡ [] → KeepsTokens a outer gaps new }
{
    replaced_runs_tell();
}

/// And each name of a gap that has to mean something means it: what its name means where the run begins, or the local of this name that the
/// gap declares (Go specification: Declarations and scope).
pub fn new_names_mean_what_they_have_to()
    ensures { (a new : Alone) (outer : Outer) (gaps : List Gap) → IsSite a outer gaps new → own_second_declarations a ≡ [] → SaysNames a outer gaps new }
{
    replaced_runs_tell();
}

/// No `break`, `continue` or `fallthrough` is misplaced where none was (Go specification: Break statements, Continue statements,
/// Fallthrough statements).
pub fn branches_stand_where_they_may()
    ensures { (a new : Alone) (outer : Outer) (gaps : List Gap) → IsSite a outer gaps new → own_misplaced a ≡ [] → own_misplaced new ≡ [] }
{
    replaced_runs_tell();
}

/// No switch has a second default where none had (Go specification: Switch statements).
pub fn switches_have_one_default()
    ensures { (a new : Alone) (outer : Outer) (gaps : List Gap) → IsSite a outer gaps new → own_second_defaults a ≡ [] → own_second_defaults new ≡ [] }
{
    replaced_runs_tell();
}

/// No field, key or parameter stands twice in its group where none did (Go specification: Struct types, Composite literals, Function
/// types).
pub fn members_stand_once()
    ensures { (a new : Alone) (outer : Outer) (gaps : List Gap) → IsSite a outer gaps new → own_second_members a ≡ [] → own_second_members new ≡ [] }
{
    replaced_runs_tell();
}

/// Each name that is looked up means something where each did, and `iota` stands in declarations of constants alone (Go specification:
/// Declarations and scope, Iota).
pub fn names_stay_declared()
    ensures { (a new : Alone) (outer : Outer) (gaps : List Gap) → IsSite a outer gaps new → own_second_declarations a ≡ [] → own_undeclared a outer ≡ [] → own_undeclared new outer ≡ [] }
{
    replaced_runs_tell();
}

/// No predeclared name outside of the profile is looked up where none was.
pub fn names_stay_in_the_profile()
    ensures { (a new : Alone) (outer : Outer) (gaps : List Gap) → IsSite a outer gaps new → own_second_declarations a ≡ [] → own_outside_names a outer ≡ [] → own_outside_names new outer ≡ [] }
{
    replaced_runs_tell();
}

/// No member of an import outside of the profile is named where none was (Go specification: Qualified identifiers).
pub fn members_of_imports_stay_in_the_profile()
    ensures { (a new : Alone) (outer : Outer) (gaps : List Gap) → IsSite a outer gaps new → own_second_declarations a ≡ [] → own_outside_members a outer ≡ [] → own_outside_members new outer ≡ [] }
{
    replaced_runs_tell();
}

/// Each member of an import that is named is called where each was.
pub fn members_of_imports_stay_called()
    ensures { (a new : Alone) (outer : Outer) (gaps : List Gap) → IsSite a outer gaps new → own_second_declarations a ≡ [] → own_not_called a outer ≡ [] → own_not_called new outer ≡ [] }
{
    replaced_runs_tell();
}

/// No name stands in the value of a variable of the package (Go specification: Package initialization).
pub fn initialisers_stay_outside()
    ensures { (a new : Alone) (outer : Outer) (gaps : List Gap) → IsSite a outer gaps new → own_second_declarations a ≡ [] → own_initialisers a outer ≡ [] → own_initialisers new outer ≡ [] }
{
    replaced_runs_tell();
}

/// No name is declared twice in a block where none was (Go specification: Declarations and scope).
pub fn names_are_declared_once()
    ensures { (a new : Alone) (outer : Outer) (gaps : List Gap) → IsSite a outer gaps new → own_second_declarations a ≡ [] → own_second_declarations new ≡ [] }
{
    replaced_runs_tell();
}

/// Each `:=` declares a new name where each did (Go specification: Short variable declarations).
pub fn assignments_declare_new_names()
    ensures { (a new : Alone) (outer : Outer) (gaps : List Gap) → IsSite a outer gaps new → own_second_declarations a ≡ [] → own_none_new a ≡ [] → own_none_new new ≡ [] }
{
    replaced_runs_tell();
}

/// Each local variable is used (Go specification: Variable declarations).
pub fn variables_are_used()
    ensures { (a new : Alone) (outer : Outer) (gaps : List Gap) → IsSite a outer gaps new → own_second_declarations a ≡ [] → own_unused new outer ≡ [] }
{
    replaced_runs_tell();
}

/// No specification of constants repeats a list of which a constant hides a name where none did (Go specification: Constant
/// declarations).
pub fn repeated_lists_hide_no_names()
    ensures { (a new : Alone) (outer : Outer) (gaps : List Gap) → IsSite a outer gaps new → own_hidden_lists a ≡ [] → own_hidden_lists new ≡ [] }
{
    replaced_runs_tell();
}

/// No declaration needs itself where none did (Go specification: Type declarations, Constant declarations).
pub fn declarations_need_others()
    ensures { (a new : Alone) (outer : Outer) (gaps : List Gap) → IsSite a outer gaps new → own_second_declarations a ≡ [] → own_cycles a outer ≡ [] → own_cycles new outer ≡ [] }
{
    replaced_runs_tell();
    declarations_bound_rounds();
}

/// In a function of which no rule on names fails, with runs of statements replaced, none fails; each token that stays means what it meant,
/// the locals by their new numbers, and each name of a gap what it has to.
pub fn sites_are_faultless()
    ensures { (a new : Alone) (outer : Outer) (gaps : List Gap) → IsSite a outer gaps new → own_faults a outer ≡ [] → KeepsNames a outer gaps new }
{
    tokens_that_stay_mean_the_same();
    new_names_mean_what_they_have_to();
    names_are_declared_once();
    assignments_declare_new_names();
    names_stay_declared();
    names_stay_in_the_profile();
    members_of_imports_stay_in_the_profile();
    members_of_imports_stay_called();
    initialisers_stay_outside();
    variables_are_used();
    branches_stand_where_they_may();
    members_stand_once();
    switches_have_one_default();
    repeated_lists_hide_no_names();
    declarations_need_others();
}

/// In a function that begins with a copy of a run of another one each copied token means what it meant, the locals by their new numbers:
/// what the run declares is declared in the copy, and each free local is a parameter (Go specification: Declarations and scope).
pub fn copied_tokens_mean_what_they_meant()
    ensures { (a new : Alone) (outer : Outer) (c : Copy) → IsCopy a outer c new → KeepsCopied a outer c new }
{}

/// In a copied run each branch stands where it may (Go specification: Break statements, Continue statements, Fallthrough statements).
pub fn copied_branches_stand_where_they_may()
    ensures { (a new : Alone) (outer : Outer) (c : Copy) → IsCopy a outer c new → own_misplaced a ≡ [] → own_misplaced new ≡ [] }
{}

/// In a copied run each switch has one default at most (Go specification: Switch statements).
pub fn copied_switches_have_one_default()
    ensures { (a new : Alone) (outer : Outer) (c : Copy) → IsCopy a outer c new → own_second_defaults a ≡ [] → own_second_defaults new ≡ [] }
{}

/// In a function that begins with a copied run no name is declared twice in a block (Go specification: Declarations and scope).
pub fn copied_names_are_declared_once()
    ensures { (a new : Alone) (outer : Outer) (c : Copy) → IsCopy a outer c new → own_second_declarations a ≡ [] → own_second_declarations new ≡ [] }
{}

/// In such a function each name in place of a hole means the hole's parameter (Go specification: Declarations and scope).
pub fn names_in_place_of_holes_are_parameters()
    ensures { (a new : Alone) (outer : Outer) (c : Copy) → IsCopy a outer c new → HolesMeanParameters a outer c new }
{}

/// In such a function each `:=` declares a new name where each did (Go specification: Short variable declarations).
pub fn copied_assignments_declare_new_names()
    ensures { (a new : Alone) (outer : Outer) (c : Copy) → IsCopy a outer c new → own_none_new a ≡ [] → own_none_new new ≡ [] }
{}

/// In such a function each local variable is used (Go specification: Variable declarations).
pub fn copied_variables_are_used()
    ensures { (a new : Alone) (outer : Outer) (c : Copy) → IsCopy a outer c new → own_second_declarations a ≡ [] → own_unused new outer ≡ [] }
{}

/// In such a function each name that is looked up means something where each did, and `iota` stands in declarations of constants alone (Go
/// specification: Declarations and scope, Iota).
pub fn copied_names_stay_declared()
    ensures { (a new : Alone) (outer : Outer) (c : Copy) → IsCopy a outer c new → own_second_declarations a ≡ [] → own_undeclared a outer ≡ [] → own_undeclared new outer ≡ [] }
{}

/// In such a function no predeclared name outside of the profile is looked up where none was.
pub fn copied_names_stay_in_the_profile()
    ensures { (a new : Alone) (outer : Outer) (c : Copy) → IsCopy a outer c new → own_second_declarations a ≡ [] → own_outside_names a outer ≡ [] → own_outside_names new outer ≡ [] }
{}

/// In such a function no member of an import outside of the profile is named where none was (Go specification: Qualified identifiers).
pub fn copied_members_of_imports_stay_in_the_profile()
    ensures { (a new : Alone) (outer : Outer) (c : Copy) → IsCopy a outer c new → own_second_declarations a ≡ [] → own_outside_members a outer ≡ [] → own_outside_members new outer ≡ [] }
{}

/// In such a function each member of an import that is named is called where each was.
pub fn copied_members_of_imports_stay_called()
    ensures { (a new : Alone) (outer : Outer) (c : Copy) → IsCopy a outer c new → own_second_declarations a ≡ [] → own_not_called a outer ≡ [] → own_not_called new outer ≡ [] }
{}

/// In such a function no name stands in the value of a variable of the package (Go specification: Package initialization).
pub fn copied_initialisers_stay_outside()
    ensures { (a new : Alone) (outer : Outer) (c : Copy) → IsCopy a outer c new → own_second_declarations a ≡ [] → own_initialisers a outer ≡ [] → own_initialisers new outer ≡ [] }
{}

/// In such a function no field, key or parameter stands twice in its group where none did (Go specification: Struct types, Composite
/// literals, Function types).
pub fn copied_members_stand_once()
    ensures { (a new : Alone) (outer : Outer) (c : Copy) → IsCopy a outer c new → own_second_members a ≡ [] → own_second_members new ≡ [] }
{}

/// In such a function no specification of constants repeats a list of which a constant hides a name where none did (Go specification:
/// Constant declarations).
pub fn copied_lists_hide_no_names()
    ensures { (a new : Alone) (outer : Outer) (c : Copy) → IsCopy a outer c new → own_hidden_lists a ≡ [] → own_hidden_lists new ≡ [] }
{}

/// In such a function no declaration needs itself where none did (Go specification: Type declarations, Constant declarations).
pub fn copied_declarations_need_others()
    ensures { (a new : Alone) (outer : Outer) (c : Copy) → IsCopy a outer c new → own_cycles a outer ≡ [] → own_cycles new outer ≡ [] }
{
    declarations_bound_rounds();
}

/// In a function that begins with a copy of a run of another one of which no rule on names fails, none fails; each token of the run that is
/// in no hole means what it meant, the locals by their new numbers, the free ones as parameters, and each name in place of a hole the hole's
/// parameter.
pub fn copies_are_faultless()
    ensures { (a new : Alone) (outer : Outer) (c : Copy) → IsCopy a outer c new → own_faults a outer ≡ [] → CopiesNames a outer c new }
{
    copied_tokens_mean_what_they_meant();
    names_in_place_of_holes_are_parameters();
    copied_names_are_declared_once();
    copied_assignments_declare_new_names();
    copied_names_stay_declared();
    copied_names_stay_in_the_profile();
    copied_members_of_imports_stay_in_the_profile();
    copied_members_of_imports_stay_called();
    copied_initialisers_stay_outside();
    copied_variables_are_used();
    copied_branches_stand_where_they_may();
    copied_members_stand_once();
    copied_switches_have_one_default();
    copied_lists_hide_no_names();
    copied_declarations_need_others();
}

/// Worked examples: two statements of a function are replaced by a declaration and a call.
pub fn examples()
    ensures { Examples }
{}

/// The first worked example is such a site: all that is asked of one holds of it.
pub fn the_example_is_a_site()
    ensures { IsSite old around gaps new }
{}

/// A worked example begins with such a copy: all that is asked of one holds of it.
pub fn the_example_is_a_copy()
    ensures { IsCopy old around copy taken }
{}

/// Worked examples: what names mean in functions that runs are taken out into and in those that call them, where a name is hidden or in
/// use, an inner block hides a parameter, `:=` reuses one, and a result is needed or not.
pub fn name_examples()
    ensures { NameExamples }
{}
