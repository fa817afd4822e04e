//! Laws of final types, for the crates above. The functions do nothing: their contracts are the laws.

ghost use Rattle.std.specs.Prelude.{◌≡◌, ℕ, ◌⊎◌, true, false, List, None, map, Ok};
ghost use Rattle.go_tokens.specs.declared.token.TokenKind.{TokenKind};
ghost use Rattle.go_grammar.specs.declared.kind.Category.{Category};
ghost use Rattle.go_grammar.specs.declared.kind.Category.TheVariants as category;
ghost use Rattle.go_grammar.specs.Grammar.{Derives};
ghost use Rattle.go_grammar.specs.Trees.{Tree};
ghost use Rattle.go_tree.specs.declared.object.Object.{Object};
ghost use Rattle.go_typed.specs.Contents.{FuncContent, content};
ghost use Rattle.go_typed.specs.Trees.{sort_of};
ghost use Rattle.go_typed.specs.Packages.{PackageView};
ghost use Rattle.go_package_defs.specs.Checked.{IsCheckedPackage};
ghost use Rattle.go_package_defs.specs.Sources.{source_of};
ghost use Rattle.go_stmts_final_types.specs.Packages.{AllTyped};
ghost use Rattle.go_exprs_rules.specs.Scopes.{Needed, in_full, Scope, Hint, free};
ghost use Rattle.go_exprs_rules.specs.Sorts.{Stands, is_unknown};
ghost use Rattle.go_exprs_rules.specs.Faults.{reported};
ghost use Rattle.go_exprs_rules.specs.Typing.{typing, faults};
ghost use Rattle.go_stmts_final_types.specs.Fewer.{KnowsLess, knowing};
ghost use Rattle.go_stmts_defs.specs.Frames.{Locals};
ghost use Rattle.go_stmts_defs.specs.Bodies.{based, start, body_answer};
ghost use Rattle.go_stmts_final_types.specs.Examples.{Examples};
ghost use Rattle.go_stmts_final_types.specs.Holes.{HolesTyped};
ghost use Rattle.go_stmts_final_types.specs.Known.{IsKnown};
ghost use Rattle.go_stmts_final_types.specs.Names.{Standing, NamesAreKnown};
ghost use Rattle.go_stmts_final_types.specs.Placed.{ObjectsAreGood, LocalsAreGood, ExpressionIsPlaced};
ghost use Rattle.go_stmts_final_types.specs.PackageNames.{PackageIsNamed, AllFinal};
ghost use Rattle.go_stmts_final_types.specs.Shapes.{IsShaped};

/// A derivation has the kinds that its grammar gives it, wherever its tokens are counted from.
pub fn derivations_are_shaped()
    ensures here { (ts : List TokenKind) (c : Category) (t : Tree) → Derives ts c t → IsShaped c t }
    ensures based { (ts : List TokenKind) (c : Category) (b : ℕ) (t : Tree) → Derives ts c t → IsShaped c (based b t) }
{}

/// A type is typed the same in a scope in which less is known, or stands for nothing known there: what isn't known is not judged.
pub fn less_known_types_are_the_same()
    ensures { (s : Scope) (sorts : Needed → Object → Stands) (h : Hint) (t : Tree) → KnowsLess s sorts → IsShaped category.Type t
        → (typing s h t ≡ typing (knowing s sorts) h t) ⊎ (is_unknown (sort_of (typing s h t)) ≡ true) }
{}

/// In a function without faults whose names stand for something known each hole is a constant of a final type.
pub fn holes_have_types()
    ensures { (s : Scope) (number locals : ℕ) (types : ℕ → ℕ) (t : Tree) (f : FuncContent) →
        IsShaped category.Declaration t → body_answer s number locals types t ≡ Ok f → IsKnown f.tree → HolesTyped false f.tree }
{}

/// So it is in every function of a package that is told to be good, under whatever numbers of declared types.
pub fn checked_packages_have_types()
    ensures { (p : PackageView) → IsCheckedPackage p → AllTyped (content p).functions }
{}

/// In a function without faults no node stands for what isn't known, where each name stands for something known when it is read.
pub fn names_make_known()
    ensures { (s : Scope) (number locals : ℕ) (types : ℕ → ℕ) (t : Tree) (f : FuncContent) →
        IsShaped category.Declaration t → body_answer s number locals types t ≡ Ok f → NamesAreKnown (start s locals types) free t → IsKnown f.tree }
{}

/// So the holes of a package that is told to be good have final types, where its names stand for something known.
pub fn named_packages_have_types()
    ensures { (p : PackageView) (h : IsCheckedPackage p) → PackageIsNamed (map source_of h.checked.files) → AllFinal (content p).functions }
{}

/// An expression without faults stands for something known, and so do all its parts, where all does so that is around it, and what its names
/// mean is declared in front of them. Nothing is asked of what the names stand for (Go specification: Declarations and scope, Expressions).
pub fn placed_expressions_are_known()
    ensures { (count : ℕ) (ls : Locals) (r : Standing) (s : Scope) (h : Hint) (c : Category) (t : Tree) → IsShaped c t → s.needed ≡ in_full → ObjectsAreGood count s → LocalsAreGood ls s
        → ExpressionIsPlaced count ls r s h t → reported (faults s h t) ≡ None → IsKnown (typing s h t) }
{}

/// A function whose names stand for something known, and one that names a local which isn't declared.
pub fn examples()
    ensures { Examples }
{}
