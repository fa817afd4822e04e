//! Laws, for the crates above. The functions do nothing: their contracts are the laws.

ghost use Rattle.std.specs.Prelude.{◌≡◌, ℕ, true, List, [], None, Some};
ghost use Rattle.go_tree.specs.declared.event.Event.TheVariants as event;
ghost use Rattle.go_tree.specs.declared.event.Use.{Use};
ghost use Rattle.go_tree.specs.declared.object.Object.TheVariants as object;
ghost use Rattle.go_tree.specs.Faults.{reported};
ghost use Rattle.go_tree.specs.Lookups.{uses_import};
ghost use Rattle.go_heads.specs.Bodies.{function_events};
ghost use Rattle.go_heads.specs.Functions.{Alone, AreRead};
ghost use Rattle.go_heads.specs.Heads.{File, heads};
ghost use Rattle.go_heads.specs.Objects.{units_of};
ghost use Rattle.go_heads.specs.Tokens.{function_files};
ghost use Rattle.go_scopes_bodies.specs.Faults.{own_asked, own_faults};
ghost use Rattle.go_scopes_bodies.specs.Meant.{Outer, outside, own_object};
ghost use Rattle.go_scopes_changes.specs.Changes.{FunctionsAreSound, KeepsBodies, KeepsImports};
ghost use Rattle.extract_names.specs.Copies.{Copy, IsCopy, IsKept};
ghost use Rattle.extract_names.specs.Gaps.{Among, Gap, Stays};
ghost use Rattle.extract_names.specs.Sites.{IsSite};
ghost use Rattle.extract_names_changes.specs.Extracted.{IsExtracted};

use extract_names::laws::{copies_are_faultless, replaced_runs_tell, sites_are_faultless};
use go_heads::laws::{functions_have_names, functions_keep_their_numbers};
use go_scopes_bodies::laws::faults_are_those_of_functions;
use go_scopes_changes::laws::packages_stay_free_of_faults;

/// In packages with equal heads the functions of one number stand in files of one number.
pub fn functions_stay_in_their_files()
    ensures { (old new : List File) → AreRead old → AreRead new → heads old ≡ heads new → function_files 0 new ≡ function_files 0 old }
{
    functions_keep_their_numbers();
}

/// In packages with equal heads, where no fault of names is reported of the first, no function of the second fails a rule of names by itself,
/// where each is the old one of its number by itself, or that one with runs of statements replaced, or begins with a copy of a run of a function
/// of its file.
pub fn extracted_functions_are_sound()
    ensures { (old new : List File) → AreRead old → AreRead new → heads old ≡ heads new → reported (units_of old) ≡ None → IsExtracted old new → FunctionsAreSound old new }
{
    functions_have_names();
    functions_keep_their_numbers();
    functions_stay_in_their_files();
    faults_are_those_of_functions();
    sites_are_faultless();
    copies_are_faultless();
}

/// In such a package each function that had a body has one.
pub fn extracted_functions_have_bodies()
    ensures { (old new : List File) → IsExtracted old new → KeepsBodies old new }
{}

/// A function that looks up a name which means the import of its file uses it (Go specification: Import declarations).
pub fn named_imports_are_used()
    ensures { (a : Alone) (outer : Outer) (u : Use) → Among (event.Use u) (function_events a) → own_object a outer u.name ≡ Some (outside object.Import) → uses_import 0 (own_asked a outer) ≡ true }
{}

/// A function with runs of statements replaced uses the import of its file, where a name that stays means it.
pub fn imports_that_stay_are_used()
    ensures { (a new : Alone) (outer : Outer) (gaps : List Gap) → IsSite a outer gaps new → own_faults a outer ≡ [] → (u : Use) → Among (event.Use u) (function_events a) → Stays gaps u.name
        → own_object a outer u.name ≡ Some (outside object.Import) → uses_import 0 (own_asked new outer) ≡ true }
{
    replaced_runs_tell();
    sites_are_faultless();
}

/// So does a function that begins with a copy of a run, where a name of the run means it that stands in no replaced hole.
pub fn copied_imports_are_used()
    ensures { (a new : Alone) (outer : Outer) (c : Copy) → IsCopy a outer c new → own_faults a outer ≡ [] → (u : Use) → Among (event.Use u) (function_events a) → IsKept c u.name
        → own_object a outer u.name ≡ Some (outside object.Import) → uses_import 0 (own_asked new outer) ≡ true }
{
    copies_are_faultless();
}

/// No fault of names is reported of such a package, where the functions that name an import stay in its file, or others come there.
pub fn extracted_packages_are_free_of_faults()
    ensures { (old new : List File) → AreRead old → AreRead new → heads old ≡ heads new → reported (units_of old) ≡ None
        → IsExtracted old new → KeepsImports old new → reported (units_of new) ≡ None }
{
    extracted_functions_are_sound();
    extracted_functions_have_bodies();
    packages_stay_free_of_faults();
}
