//! Laws and worked examples of the definitions. These functions do nothing: their contracts are what holds.
ghost use Rattle.go_package_defs.specs.CheckExamples.{CheckExamples, TypingExamples};
ghost use Rattle.go_package_defs.specs.StatementExamples.{StatementExamples};
ghost use Rattle.go_package_defs.specs.DeclarationExamples.{SingleExamples, NeededExamples, GroupExamples};
ghost use Rattle.go_base.specs.declared.bytes.FileText.{FileText};
ghost use Rattle.go_package_defs.specs.Declarations.{Specification};
ghost use Rattle.go_package_defs.specs.Kept.{StaysChecked};
ghost use Rattle.go_package_defs.specs.Portions.{PortionSaysAll};
ghost use Rattle.go_typed.specs.Packages.{PackageView};
ghost use Rattle.go_package_defs.specs.Single.{HasOneAnswer};
ghost use Rattle.go_package_defs.specs.Sources.{Package};
ghost use Rattle.std.specs.Prelude.{◌≡◌, ℕ, List, None};
ghost use Rattle.go_tree.specs.Faults.{reported};
ghost use Rattle.go_tree.specs.Units as names;
ghost use Rattle.go_scopes_events.specs.Scopes.{AreOrderly};
ghost use Rattle.go_package_defs.specs.Resolved.{IsOrdered};

use go_grammar::laws::one_tree_of_a_file;
use go_scopes_cycles::laws::declarations_bound_rounds;
use go_tokens::laws::{one_fault, one_lexing};
use go_typed::laws::packages_under_other_numbers;

/// Single declarations: what a name stands for, or which rule fails where.
pub fn single_declarations()
    ensures { SingleExamples }
{}

/// Declarations that need one another, in one file and in two.
pub fn needed_declarations()
    ensures { NeededExamples }
{}

/// Groups of constants.
pub fn groups()
    ensures { GroupExamples }
{}

/// Whole packages: whether one is good, or what is reported of it.
pub fn checks()
    ensures { CheckExamples }
{}

/// Statements in whole packages.
pub fn statements()
    ensures { StatementExamples }
{}

/// The types of a package with those of its functions.
pub fn typings()
    ensures { TypingExamples }
{}

/// In a package whose names have no fault, no declaration needs itself, all that names call for are declared, and declarations of
/// one name are one. So they can be put in an order in which each stands behind those that it needs.
pub fn resolved_packages_have_an_order()
    ensures { (us : List names.Unit) → AreOrderly us → reported us ≡ None → IsOrdered us }
{
    declarations_bound_rounds();
}

/// A package is good, or one fault is reported, never both; and with its types it is one package.
pub fn packages_have_one_answer()
    ensures { (texts : List FileText) → HasOneAnswer texts }
{
    one_lexing();
    one_fault();
    one_tree_of_a_file();
}

/// The types of a function follow from its own tokens and their meanings, and from what surrounds it.
pub fn functions_follow_from_their_tokens()
    ensures { (p q : Package) (d e : Specification) (number : ℕ) → PortionSaysAll p q d e number }
{}

/// What the check of its bytes gives of a package stays so under other numbers of declared types.
pub fn checked_packages_stay_so()
    ensures { (p q : PackageView) → StaysChecked p q }
{
    packages_under_other_numbers();
}
