//! Laws, for the crates above. The functions do nothing: their contracts are the laws.

ghost use Rattle.std.specs.Prelude.{◌≡◌, ℕ, List, length, map, Ok};
ghost use Rattle.std.specs.List.{AllByRecursion};
ghost use Rattle.go_base.specs.declared.bytes.FileText.{FileText};
ghost use Rattle.go_grammar.specs.Grammar.{IsFile};
ghost use Rattle.go_tokens.specs.Tokens.{kinds};
ghost use Rattle.go_types.specs.Trees.{TypeTree};
ghost use Rattle.go_types.specs.Relations.{Rights, HasRight};
ghost use Rattle.go_types_relations.specs.Renaming.{AreRenamed};
ghost use Rattle.go_typed.specs.Contents.{Content, content};
ghost use Rattle.go_typed.specs.Packages.{PackageView};
ghost use Rattle.go_exprs_rules.specs.Scopes.{Scope};
ghost use Rattle.go_tree.specs.Uses.{uses};
ghost use Rattle.go_package_defs.specs.Answer.{specifications, environment_of};
ghost use Rattle.go_package_defs.specs.Knowledge.{outlines};
ghost use Rattle.go_package_defs.specs.Verdicts.{known};
ghost use Rattle.go_package_defs.specs.Bodies.{Portion, scope_of};
ghost use Rattle.go_package_defs.specs.Checked.{Typing, surroundings_of, sources_answer, IsChecked, IsCheckedPackage};
ghost use Rattle.go_package_defs.specs.Sources.{Source, source_of, package_of, unit_of, rounds};
ghost use Rattle.go_stmts_final_types.specs.Placed.{ObjectsAreGood};
ghost use Rattle.go_stmts_limits.specs.Packages.{AllFunctionsWithin};
ghost use Rattle.go_package_checked.specs.Examples.{Examples};
ghost use Rattle.go_package_checked.specs.Checked.{HasSettled, PackageIsWithin};
ghost use Rattle.go_package_checked.specs.Names.{NamesStand};
ghost use Rattle.go_package_checked.specs.Objects.{ObjectsAreKnown};
ghost use Rattle.go_package_checked.specs.Rules.{AllRulesHold};

use go_package_settled::laws::{faultless_packages_settle, settled_packages_are_within_limits};
use go_stmts_final_types::laws::{derivations_are_shaped, less_known_types_are_the_same};
use go_stmts_limits::laws as limits;

/// In a package that type-checks what the objects stand for is known by stages after as many rounds as the definition has, and further
/// rounds change nothing.
pub fn checked_packages_settle()
    ensures sources { (ss : List Source) (t : Typing) → AllByRecursion (λ s. IsFile (kinds s.tokens.tokens) s.tree) ss → sources_answer ss ≡ Ok t → HasSettled ss }
    ensures checked { (texts : List FileText) (c : Content) (h : IsChecked texts c) → HasSettled (map source_of h.files) }
{
    faultless_packages_settle();
}

/// In a package that type-checks every rule of every specification holds, whether another one's fault could block it or not, and what its
/// objects stand for is what is answered (Go specification: Declarations and scope).
pub fn rules_of_checked_packages_hold()
    ensures { (ss : List Source) (t : Typing) → sources_answer ss ≡ Ok t → let p = package_of ss (uses (map unit_of ss)) in let ds = specifications 0 ss in let found = known p (outlines p ds) (rounds p) in
        AllRulesHold p (outlines p ds) found ds × (environment_of p found ≡ t.environment) }
{}

/// In a package that type-checks each object stands for something known, a constant for a value of its type's family, and a variable has a
/// type, where the names in its specifications stand as they may. So it is around each function, under right sides that keep those of the
/// package (Go specification: Constant declarations, Variable declarations, Function declarations).
pub fn objects_of_checked_packages_are_known()
    ensures objects { (ss : List Source) (t : Typing) → let p = package_of ss (uses (map unit_of ss)) in let ds = specifications 0 ss in
        AllByRecursion (λ s. IsFile (kinds s.tokens.tokens) s.tree) ss → sources_answer ss ≡ Ok t → NamesStand p ds (known p (outlines p ds) (rounds p)) → ObjectsAreKnown p t.environment }
    ensures around { (ss : List Source) (t : Typing) → let u = uses (map unit_of ss) in let p = package_of ss u in let ds = specifications 0 ss in
        AllByRecursion (λ s. IsFile (kinds s.tokens.tokens) s.tree) ss → sources_answer ss ≡ Ok t → NamesStand p ds (known p (outlines p ds) (rounds p))
        → (rights : Rights) (o : Portion) → ((n : ℕ) (r : TypeTree) → HasRight t.environment.rights n r → HasRight rights n r)
        → ObjectsAreGood (length t.environment.objects) (scope_of (surroundings_of u t.environment) rights o) }
{
    checked_packages_settle();
    derivations_are_shaped();
}

/// In every package that type-checks the right sides of its declared types, all that its objects stand for, and all that its functions stand for
/// are within the limit on scalars, also under other numbers of declared types.
pub fn checked_packages_are_within_limits()
    ensures checked { (limit : Scope) (texts : List FileText) (c : Content) (h : IsChecked texts c) (t : Typing) → sources_answer (map source_of h.files) ≡ Ok t
        → limit.rights ≡ t.environment.rights → PackageIsWithin limit t.environment c }
    ensures renamed { (p : PackageView) (h : IsCheckedPackage p) (limit other : Scope) (t : Typing) → sources_answer (map source_of h.checked.files) ≡ Ok t
        → limit.rights ≡ t.environment.rights → AreRenamed h.same.0 limit.rights other.rights → other.limits ≡ limit.limits → AllFunctionsWithin other (content p).functions }
{
    checked_packages_settle();
    settled_packages_are_within_limits();
    derivations_are_shaped();
    less_known_types_are_the_same();
    limits::unjudged_types_are_the_same();
    limits::written_types_are_within_limits();
    limits::checked_packages_are_within_limits();
}

/// Worked examples: specifications of constants that need one another in a ring. The fault of the first one is reported.
pub fn examples()
    ensures { Examples }
{}
