//! Laws, for the crates above. The functions do nothing: their contracts are the laws.

ghost use Rattle.std.specs.Prelude.{◌≡◌, ℕ, List, length, map, Ok};
ghost use Rattle.std.specs.List.{AllByRecursion};
ghost use Rattle.go_grammar.specs.Grammar.{IsFile};
ghost use Rattle.go_tokens.specs.Tokens.{kinds};
ghost use Rattle.go_types.specs.Trees.{TypeTree};
ghost use Rattle.go_types.specs.Relations.{Rights, HasRight};
ghost use Rattle.go_tree.specs.Uses.{uses};
ghost use Rattle.go_package_defs.specs.Answer.{specifications};
ghost use Rattle.go_package_defs.specs.Bodies.{Portion, scope_of};
ghost use Rattle.go_package_defs.specs.Checked.{Typing, surroundings_of, sources_answer};
ghost use Rattle.go_package_defs.specs.Knowledge.{State};
ghost use Rattle.go_package_defs.specs.Sources.{Source, package_of, unit_of};
ghost use Rattle.go_package_settled.specs.Read.{IsFaultless};
ghost use Rattle.go_stmts_final_types.specs.Placed.{ObjectsAreGood};
ghost use Rattle.go_package_checked.specs.Names.{NamesStand};
ghost use Rattle.go_package_checked.specs.Objects.{ObjectsAreKnown};

use go_package_checked::laws::{checked_packages_settle, objects_of_checked_packages_are_known};
use go_package_settled::laws::faultless_packages_are_resolved;

/// In a package whose files have trees and whose names are free of faults each object is by one of the names of its specification, which declares
/// a variable where it is one; and the names that stand in specifications mean objects of the package, what is predeclared, or `fmt` in front of
/// a member that is called, and no locals. So it is whatever is known of the objects (Go specification: Declarations and scope, Qualified
/// identifiers).
pub fn names_of_faultless_packages_stand()
    ensures { (ss : List Source) → IsFaultless ss → (found : List State) → NamesStand (package_of ss (uses (map unit_of ss))) (specifications 0 ss) found }
{
    faultless_packages_are_resolved();
}

/// In every package that type-checks each object stands for something known, a constant for a value of its type's family, and a variable has a
/// type. So it is around each function, under right sides that keep those of the package (Go specification: Constant declarations, Variable
/// declarations, Function declarations).
pub fn objects_of_checked_packages_are_good()
    ensures objects { (ss : List Source) (t : Typing) → AllByRecursion (λ s. IsFile (kinds s.tokens.tokens) s.tree) ss → sources_answer ss ≡ Ok t
        → ObjectsAreKnown (package_of ss (uses (map unit_of ss))) t.environment }
    ensures around { (ss : List Source) (t : Typing) → AllByRecursion (λ s. IsFile (kinds s.tokens.tokens) s.tree) ss → sources_answer ss ≡ Ok t
        → (rights : Rights) (o : Portion) → ((n : ℕ) (r : TypeTree) → HasRight t.environment.rights n r → HasRight rights n r)
        → ObjectsAreGood (length t.environment.objects) (scope_of (surroundings_of (uses (map unit_of ss)) t.environment) rights o) }
{
    checked_packages_settle();
    objects_of_checked_packages_are_known();
    names_of_faultless_packages_stand();
}
