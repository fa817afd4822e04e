//! Laws, for the crates above. The functions do nothing: their contracts are the laws.

ghost use Rattle.std.specs.Prelude.{◌≡◌, Ok, ℕ, List, map, Option};
ghost use Rattle.go_tree.specs.Declarations.{Found};
ghost use Rattle.go_tree.specs.Uses.{uses, UsesView};
ghost use Rattle.go_package_defs.specs.Answer.{specifications, Environment, environment_of, package_answer};
ghost use Rattle.go_package_defs.specs.Knowledge.{Outline, outlines, rights_of};
ghost use Rattle.go_package_defs.specs.Verdicts.{known};
ghost use Rattle.go_exprs_rules.specs.Scopes.{Scope};
ghost use Rattle.go_stmts_limits.specs.Limits.{RightsAreWithin};
ghost use Rattle.go_stmts_limits.specs.Packages.{EnvironmentIsWithin};
ghost use Rattle.go_package_defs.specs.Sources.{Package, Source, package_of, rounds, unit_of};
ghost use Rattle.go_package_settled.specs.Closure.{AreNeeding};
ghost use Rattle.go_package_settled.specs.Examples.{Examples};
ghost use Rattle.go_package_settled.specs.Heights.{Needing};
ghost use Rattle.go_package_settled.specs.Ordered.{NeedsAreOrdered, IsSettled};
ghost use Rattle.go_package_settled.specs.Read.{IsFaultless};
ghost use Rattle.go_package_settled.specs.Resolved.{AreResolved, NeedsAreNamed, SpecificationsTell, declared_in};

use go_package_defs::laws::resolved_packages_have_an_order;
use go_package_laws::laws::{expressions_agree, types_agree};
use go_scopes_events::laws::{
    files_are_orderly, locals_stand_inside_functions, names_are_in_order,
};
use go_stmts_limits::laws::ordered_objects_are_within_limits;

/// Where what is needed by what is needed is needed, no declaration needs itself in part, and each declaration needs what it names, what the
/// objects of a package stand for is known by stages: after as many rounds as the package has, and further ones change nothing.
pub fn ordered_packages_settle()
    ensures { (p : Package) (os : List Outline) (x : Needing) → NeedsAreOrdered p os x → IsSettled p os }
{
    expressions_agree();
    types_agree();
}

/// Where the objects of a package have declarations that need what they name, and none of these needs itself, what the objects stand for is
/// known by stages.
pub fn declared_packages_settle()
    ensures { (p : Package) (os : List Outline) (declared : ℕ → Option Found) → AreNeeding p os declared → IsSettled p os }
{
    ordered_packages_settle();
}

/// In a package whose names are free of faults, and whose specifications tell what its objects are and what they need, what the objects
/// stand for is known by stages.
pub fn resolved_packages_settle()
    ensures { (ss : List Source) → let us = map unit_of ss in let p = package_of ss (uses us) in let os = outlines p (specifications 0 ss) in
        AreResolved us → SpecificationsTell p os (declared_in us) → IsSettled p os }
{
    declared_packages_settle();
}

/// The names of a package are resolved where each file has a tree and no rule on names fails.
pub fn faultless_packages_are_resolved()
    ensures { (ss : List Source) → IsFaultless ss → AreResolved (map unit_of ss) }
{
    files_are_orderly();
    names_are_in_order();
    locals_stand_inside_functions();
    resolved_packages_have_an_order();
}

/// In a package whose files have trees and whose names are free of faults each object needs what its specification names, as it is named there,
/// and one that is no type needs the same in full and in part.
pub fn faultless_packages_need_what_they_name()
    ensures { (ss : List Source) → let us = map unit_of ss in let p = package_of ss (uses us) in let os = outlines p (specifications 0 ss) in
        IsFaultless ss → NeedsAreNamed p os (declared_in us) }
{
    files_are_orderly();
    names_are_in_order();
    faultless_packages_are_resolved();
}

/// In a package whose files have trees and whose names are free of faults what the objects stand for is known by stages, and further rounds
/// change nothing.
pub fn faultless_packages_settle()
    ensures { (ss : List Source) → let us = map unit_of ss in let p = package_of ss (uses us) in let os = outlines p (specifications 0 ss) in
        IsFaultless ss → IsSettled p os }
{
    names_are_in_order();
    faultless_packages_are_resolved();
    faultless_packages_need_what_they_name();
    resolved_packages_settle();
}

/// Where what the objects of a package stand for is known by stages, and the right sides of its types are within the limit on scalars, so is
/// all that its objects stand for.
pub fn settled_packages_are_within_limits()
    ensures found { (limit : Scope) (p : Package) (os : List Outline) → IsSettled p os → let found = known p os (rounds p) in
        limit.rights ≡ rights_of p found → RightsAreWithin limit (rights_of p found) → EnvironmentIsWithin limit (environment_of p found) }
    ensures answer { (limit : Scope) (ss : List Source) (u : UsesView) (e : Environment) → let p = package_of ss u in IsSettled p (outlines p (specifications 0 ss)) → package_answer ss u ≡ Ok e
        → limit.rights ≡ e.rights → RightsAreWithin limit e.rights → EnvironmentIsWithin limit e }
{
    ordered_objects_are_within_limits();
}

/// Worked examples: the stages of small packages, and further rounds that change nothing.
pub fn examples()
    ensures { Examples }
{}
