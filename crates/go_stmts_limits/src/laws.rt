//! Laws of the limit on scalars, for the crates above. The functions do nothing: their contracts are the laws.

ghost use Rattle.std.specs.Prelude.{◌≡◌, ℕ, ◌<◌, true, List, [], length, map, slice_get, Some, Ok};
ghost use Rattle.go_base.specs.declared.bytes.FileText.{FileText};
ghost use Rattle.go_grammar.specs.declared.kind.Category.TheVariants as category;
ghost use Rattle.go_grammar.specs.Trees.{Tree};
ghost use Rattle.go_tree.specs.Uses.{UsesView};
ghost use Rattle.go_types.specs.Trees.{TypeTree};
ghost use Rattle.go_types_relations.specs.Renaming.{AreRenamed};
ghost use Rattle.go_typed.specs.Contents.{FuncContent, Content, content};
ghost use Rattle.go_typed.specs.Packages.{PackageView};
ghost use Rattle.go_print_laws.specs.Reading.{IsWithin};
ghost use Rattle.go_exprs_rules.specs.declared.fault.TypeFault.{TypeFault};
ghost use Rattle.go_typed.specs.Trees.{sort_of};
ghost use Rattle.go_exprs_rules.specs.Faults.{joined};
ghost use Rattle.go_exprs_rules.specs.Scopes.{Scope, Hint};
ghost use Rattle.go_exprs_rules.specs.Sorts.{named_type};
ghost use Rattle.go_exprs_rules.specs.Typing.{typing, faults};
ghost use Rattle.go_stmts_final_types.specs.Shapes.{IsShaped};
ghost use Rattle.go_stmts_limits.specs.Written.{unjudged, TypeIsWithin, NamesTypesWithin};
ghost use Rattle.go_exprs_rules.specs.TypeNodes.{part_type};
ghost use Rattle.go_stmts_defs.specs.Bodies.{body_answer};
ghost use Rattle.go_package_defs.specs.Answer.{Environment, specifications, package_answer, environment_of};
ghost use Rattle.go_package_defs.specs.Checked.{Typing, sources_answer, IsChecked, IsCheckedPackage};
ghost use Rattle.go_package_defs.specs.Declarations.{Specification};
ghost use Rattle.go_package_defs.specs.Knowledge.{Outline, outlines, State, rights_of};
ghost use Rattle.go_package_defs.specs.Sources.{Source, Package, source_of, package_of, rounds};
ghost use Rattle.go_package_defs.specs.Verdicts.{typed_type, value_state};
ghost use Rattle.go_package_laws.specs.Ranks.{Ranks, AreFound, AreAtMost};
ghost use Rattle.go_stmts_limits.specs.Examples.{Examples};
ghost use Rattle.go_stmts_limits.specs.Limits.{StandsIsWithin, RightsAreWithin, ScopeIsWithin, AreBehind, FunctionIsWithin};
ghost use Rattle.go_stmts_limits.specs.Longer.{IsCounted};
ghost use Rattle.go_stmts_limits.specs.Packages.{EnvironmentIsWithin, AllFunctionsWithin};

use go_package_laws::laws::{expressions_agree, rounds_settle};
use go_types_relations::laws::functions_are_the_relations;

/// Where all that is known around a function is within the limit on scalars, so are its signature, its locals and all its nodes.
pub fn types_are_within_limits()
    ensures { (limit s : Scope) (number locals : ℕ) (types : ℕ → ℕ) (t : Tree) (f : FuncContent) →
        ScopeIsWithin limit s → AreBehind limit types → body_answer s number locals types t ≡ Ok f → FunctionIsWithin limit f }
{
    functions_are_the_relations();
}

/// The type of a declaration, and what its names are judged to stand for, are within the limit where all is that its scope knows.
pub fn declarations_are_within_limits()
    ensures own_type { (limit s : Scope) (d : Specification) (t : TypeTree) → ScopeIsWithin limit s → part_type (typed_type s d) ≡ Some t → IsWithin limit t }
    ensures stands { (limit s : Scope) (d : Specification) (column : ℕ) (fs : List TypeFault) → ScopeIsWithin limit s → StandsIsWithin limit (value_state s d column fs).stands }
{
    functions_are_the_relations();
}

/// Where the objects of a package are found one behind the other, each by those that it needs, and the right sides of its types are within
/// the limit, so is all that its objects stand for.
pub fn ordered_objects_are_within_limits()
    ensures found { (limit : Scope) (p : Package) (os : List Outline) (found : List State) (ranks : Ranks) → AreFound p os found ranks → limit.rights ≡ rights_of p found
        → RightsAreWithin limit (rights_of p found) → EnvironmentIsWithin limit (environment_of p found) }
    ensures answer { (limit : Scope) (ss : List Source) (u : UsesView) (e : Environment) (found : List State) (ranks : Ranks) → let p = package_of ss u in
        AreFound p (outlines p (specifications 0 ss)) found ranks → AreAtMost ranks (rounds p) → package_answer ss u ≡ Ok e → limit.rights ≡ e.rights
        → RightsAreWithin limit e.rights → EnvironmentIsWithin limit e }
{
    functions_are_the_relations();
    expressions_agree();
    rounds_settle();
}

/// Where the package block is within the limit, so are all functions of a package without faults, also under other numbers of declared
/// types.
pub fn checked_packages_are_within_limits()
    ensures sources { (limit : Scope) (ss : List Source) (t : Typing) → sources_answer ss ≡ Ok t → EnvironmentIsWithin limit t.environment
        → AllFunctionsWithin limit t.bodies.functions }
    ensures checked { (limit : Scope) (texts : List FileText) (c : Content) (h : IsChecked texts c) (t : Typing) → sources_answer (map source_of h.files) ≡ Ok t
        → EnvironmentIsWithin limit t.environment → AllFunctionsWithin limit c.functions }
    ensures renamed { (p : PackageView) (h : IsCheckedPackage p) (limit other : Scope) (t : Typing) → sources_answer (map source_of h.checked.files) ≡ Ok t
        → EnvironmentIsWithin limit t.environment → AreRenamed h.same.0 limit.rights other.rights → other.limits ≡ limit.limits
        → AllFunctionsWithin other (content p).functions }
{
    functions_are_the_relations();
}

/// Where no rule fails, a tree is typed the same where the limit on scalars isn't judged.
pub fn unjudged_types_are_the_same()
    ensures { (s : Scope) (h : Hint) (t : Tree) → s.limits ≡ true → joined (faults s h t) ≡ [] → typing (unjudged s) h t ≡ typing s h t }
{}

/// A type that is written where the limit on scalars is judged is within it, where the types are that its names stand for. Nothing is asked of
/// right sides, so it may be a right side itself.
pub fn written_types_are_within_limits()
    ensures { (limit s : Scope) (h : Hint) (t : Tree) → NamesTypesWithin limit s → IsShaped category.Type t → TypeIsWithin limit (named_type (sort_of (typing s h t))) }
{
    functions_are_the_relations();
}

/// A type whose array types are counted by the right sides by which the limit is judged stays within it where more right sides follow.
pub fn longer_right_sides_keep_limits()
    ensures { (limit s : Scope) (t : TypeTree) → limit.limits ≡ true → ((n : ℕ) → n < length limit.rights → slice_get s.rights n ≡ slice_get limit.rights n)
        → IsCounted limit.rights t → IsWithin limit t → IsWithin s t }
{
    functions_are_the_relations();
}

/// Worked examples: a scope that is within the limit, types that are and that are not, and a type above it where it is judged and where not.
pub fn examples()
    ensures { Examples }
{}
