//! Laws, for the crates above. The functions do nothing: their contracts are the laws.

ghost use Rattle.std.specs.Prelude.{◌≡◌, ◌+◌, ℕ, false, [], List, None, length};
ghost use Rattle.go_tree.specs.Clauses.{imports, missing_bodies};
ghost use Rattle.go_tree.specs.Declarations.{declarations, found};
ghost use Rattle.go_tree.specs.Duplicates.{second_members};
ghost use Rattle.go_tree.specs.Failures.{of_files};
ghost use Rattle.go_tree.specs.Faults.{clause_faults, lookup_faults, reported};
ghost use Rattle.go_tree.specs.Lookups.{unused_imports};
ghost use Rattle.go_tree.specs.Needs.{cycles};
ghost use Rattle.go_tree.specs.Redeclared.{second_declarations, has_import, hidden_imports, second_imports};
ghost use Rattle.go_heads.specs.Functions.{AreRead};
ghost use Rattle.go_heads.specs.Heads.{File, heads};
ghost use Rattle.go_heads.specs.Locals.{AreNamed};
ghost use Rattle.go_heads.specs.Objects.{units_of};
ghost use Rattle.go_scopes_bodies.specs.Faults.{all_asked, outside_asked, shared};
ghost use Rattle.go_scopes_bodies.specs.Outside.{outside_units};
ghost use Rattle.go_scopes_changes.specs.Changes.{FunctionsAreSound, KeepsBodies, KeepsImports};

use go_heads::laws::{functions_have_names, functions_keep_their_numbers, heads_tell_names};
use go_scopes_bodies::laws::{
    carried_trees_tell_the_same, faults_are_those_of_functions, imports_are_used_by_functions,
    names_outside_of_functions_stay, statements_are_counted_by_functions,
};
use go_scopes_cycles::laws::declarations_bound_rounds;

/// In packages with equal heads no field, key or parameter stands twice in its group outside of functions, where none did (Go
/// specification: Struct types, Composite literals, Function types).
pub fn members_stay_different()
    ensures { (old new : List File) → AreRead old → AreRead new → heads old ≡ heads new → of_files (second_members []) 0 (outside_units old) ≡ [] → of_files (second_members []) 0 (outside_units new) ≡ [] }
{
    carried_trees_tell_the_same();
}

/// In packages with equal heads no name is declared twice in the block of the package, where none was (Go specification: Declarations and
/// scope).
pub fn names_stay_declared_once()
    ensures { (old new : List File) → AreRead old → AreRead new → heads old ≡ heads new
        → second_declarations [] (shared (declarations (units_of old))) ≡ [] → second_declarations [] (shared (declarations (units_of new))) ≡ [] }
{}

/// In packages with equal heads no object of the package hides an import, where none did (Go specification: Declarations and scope).
pub fn imports_stay_seen()
    ensures { (old new : List File) → AreRead old → AreRead new → heads old ≡ heads new
        → hidden_imports (has_import (units_of old)) (declarations (units_of old)) ≡ [] → hidden_imports (has_import (units_of new)) (declarations (units_of new)) ≡ [] }
{}

/// In packages with equal heads no file imports fmt twice, where none did (Go specification: Import declarations).
pub fn imports_stay_single()
    ensures { (old new : List File) → AreRead old → AreRead new → heads old ≡ heads new → of_files (second_imports false) 0 (units_of old) ≡ [] → of_files (second_imports false) 0 (units_of new) ≡ [] }
{
    carried_trees_tell_the_same();
}

/// In packages with equal heads no file imports another path than that of fmt, where none did (Go specification: Import declarations).
pub fn paths_stay_those_of_fmt()
    ensures { (old new : List File) → AreRead old → AreRead new → heads old ≡ heads new → imports (units_of old) ≡ [] → imports (units_of new) ≡ [] }
{
    carried_trees_tell_the_same();
}

/// In packages with equal heads no name that is looked up outside of functions fails a rule, where none did: each means something of the
/// profile, and no value of a variable of the package names a function or a variable (Go specification: Declarations and scope, Qualified
/// identifiers, Calls, Package initialization).
pub fn names_stay_looked_up()
    ensures { (old new : List File) → AreRead old → AreRead new → heads old ≡ heads new → lookup_faults (outside_asked old) ≡ [] → lookup_faults (outside_asked new) ≡ [] }
{
    carried_trees_tell_the_same();
    names_outside_of_functions_stay();
}

/// In packages with equal heads no rule on clauses fails, where none did, and where no function lacks its body: the name of the package is
/// the same, files import fmt alone, and no name of the package is `init` (Go specification: Package clause, Import declarations, Package
/// initialization). Heads don't tell which functions have bodies, so that this is asked of the second package.
pub fn clauses_stay_faultless()
    ensures { (old new : List File) → AreRead old → AreRead new → heads old ≡ heads new → clause_faults (units_of old) ≡ [] → missing_bodies (found (units_of new)) (units_of new) ≡ [] → clause_faults (units_of new) ≡ [] }
{
    heads_tell_names();
    carried_trees_tell_the_same();
}

/// In packages with equal heads no function has the blank name, where none has in the first (Go specification: Blank identifier): the name
/// of a function stands outside its body.
pub fn functions_stay_named()
    ensures { (old new : List File) → AreRead old → AreRead new → heads old ≡ heads new → AreNamed old → AreNamed new }
{
    functions_keep_their_numbers();
}

/// In packages with equal heads each import is used, where each was and where the functions that name an import stay in its file, or others
/// come there (Go specification: Import declarations).
pub fn imports_stay_used()
    ensures { (old new : List File) → AreRead old → AreNamed old → AreRead new → AreNamed new → heads old ≡ heads new → KeepsImports old new
        → unused_imports (all_asked old) (units_of old) ≡ [] → unused_imports (all_asked new) (units_of new) ≡ [] }
{
    carried_trees_tell_the_same();
    names_outside_of_functions_stay();
    imports_are_used_by_functions();
}

/// In packages with equal heads no declaration of the package needs itself, where none did (Go specification: Declarations and scope, Type
/// declarations, Package initialization): what a declaration needs stands in its own specification or signature, and no body counts.
pub fn declarations_stay_in_order()
    ensures { (old new : List File) → AreRead old → AreRead new → heads old ≡ heads new → let ds = declarations (units_of old) in let es = declarations (units_of new) in
        cycles (all_asked old) (length ds + length ds) (shared ds) ≡ [] → cycles (all_asked new) (length es + length es) (shared es) ≡ [] }
{
    heads_tell_names();
    declarations_bound_rounds();
}

/// In packages with equal heads no function lacks its body but that of the profile, where none did and each function that had a body has one
/// (Go specification: Function declarations). Heads don't tell which functions have bodies.
pub fn bodies_stay_there()
    ensures { (old new : List File) → AreRead old → AreRead new → heads old ≡ heads new → KeepsBodies old new
        → missing_bodies (found (units_of old)) (units_of old) ≡ [] → missing_bodies (found (units_of new)) (units_of new) ≡ [] }
{
    heads_tell_names();
    functions_keep_their_numbers();
}

/// No fault of names is reported of a package that differs in the bodies of functions alone from one of which none is, where each function
/// that had a body has one, the functions that name an import stay in its file, or others come there, no function fails a rule by itself, and
/// there are not too many statements. Outside of functions nothing is asked: heads tell the rest.
pub fn packages_stay_free_of_faults()
    ensures { (old new : List File) → AreRead old → AreRead new → heads old ≡ heads new → reported (units_of old) ≡ None
        → KeepsBodies old new → KeepsImports old new → FunctionsAreSound old new → reported (units_of new) ≡ None }
{
    functions_have_names();
    carried_trees_tell_the_same();
    faults_are_those_of_functions();
    names_outside_of_functions_stay();
    statements_are_counted_by_functions();
    clauses_stay_faultless();
    names_stay_declared_once();
    imports_stay_seen();
    imports_stay_single();
    names_stay_looked_up();
    members_stay_different();
    functions_stay_named();
    imports_stay_used();
    declarations_stay_in_order();
    bodies_stay_there();
}
