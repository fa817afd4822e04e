//! Laws of the functions of types: they are the relations, and their answers stay.
ghost use Rattle.std.specs.Prelude.{◌≡◌, ◌↔◌, ◌<◌, ◌++◌, ◌∷◌, [], ℕ, Bool, List, Some, None, true, length, slice_set};
ghost use Rattle.std.specs.Option.{option_map};
ghost use Rattle.go_ints.specs.declared.kinds.Kind.{Kind};
ghost use Rattle.go_types.specs.declared.shape.Shape.TheVariants as shape;
ghost use Rattle.go_types.specs.Trees.{TypeTree, boolean, text, integer, array, slice, structure, function, declared, TypeRow, none, more, Identical};
ghost use Rattle.go_types.specs.Relations.{Rights, HasRight, Underlying, Assignable, Comparable, Scalars};
ghost use Rattle.go_types.specs.Tables.{Table, IsTable, HasShape, type_of, rights_of};
ghost use Rattle.go_types.specs.Changes.{IsDeclared, IsOpen, defined};
ghost use Rattle.go_types_relations.specs.Questions.{entry, on_both};
ghost use Rattle.go_types_relations.specs.Identity.{is_identical};
ghost use Rattle.go_types_relations.specs.Tests.{underlying_of, comparability_of, is_comparable, is_assignable};
ghost use Rattle.go_types_relations.specs.Sizes.{scalars_of};
ghost use Rattle.go_types_relations.specs.Zeros.{Zero, false_value, number_zero, empty_text, elements, fields, nil_slice, nil_function, no_zeros, more_zeros, zero_of, zeros_of};
ghost use Rattle.go_types_relations.specs.Extends.{Extends, Grows};
ghost use Rattle.go_types_relations.specs.Renaming.{renamed, IsOneToOne, AreRenamed};
ghost use Rattle.go_types_relations.specs.Examples.{Examples};

/// What the functions say of some types, worked out by hand.
pub fn examples()
    ensures { Examples }
{}

/// The functions are the relations, whatever the right sides.
pub fn functions_are_the_relations()
    ensures identical { (t u : TypeTree) → (is_identical t u ≡ true) ↔ Identical t u }
    ensures underlying { (rights : Rights) (t u : TypeTree) → (underlying_of rights t ≡ Some u) ↔ Underlying rights t u }
    ensures comparable { (rights : Rights) (t : TypeTree) → (is_comparable rights t ≡ true) ↔ Comparable rights t }
    ensures assignable { (rights : Rights) (t u : TypeTree) → (is_assignable rights t u ≡ true) ↔ Assignable rights t u }
    ensures scalars { (rights : Rights) (t : TypeTree) (n : ℕ) → (scalars_of rights t ≡ Some n) ↔ Scalars rights t n }
{}

/// Of a declared type without a right side nothing is told, and it is assignable where it is
/// identical.
pub fn types_without_right_sides()
    ensures underlying { (rights : Rights) (n : ℕ) → entry rights n ≡ None → underlying_of rights (declared n) ≡ None }
    ensures comparable { (rights : Rights) (n : ℕ) → entry rights n ≡ None → comparability_of rights (declared n) ≡ None }
    ensures scalars { (rights : Rights) (n : ℕ) → entry rights n ≡ None → scalars_of rights (declared n) ≡ None }
    ensures zero { (rights : Rights) (n : ℕ) → entry rights n ≡ None → zero_of rights (declared n) ≡ None }
    ensures from { (rights : Rights) (n : ℕ) (t : TypeTree) → entry rights n ≡ None → is_assignable rights (declared n) t ≡ is_identical (declared n) t }
    ensures to { (rights : Rights) (n : ℕ) (t : TypeTree) → entry rights n ≡ None → is_assignable rights t (declared n) ≡ is_identical t (declared n) }
{}

/// Zero values by the form of the type; that of a declared type is that of its right side.
pub fn zero_values()
    ensures booleans { (rights : Rights) → zero_of rights boolean ≡ Some false_value }
    ensures texts { (rights : Rights) → zero_of rights text ≡ Some empty_text }
    ensures integers { (rights : Rights) (k : Kind) → zero_of rights (integer k) ≡ Some number_zero }
    ensures arrays { (rights : Rights) (n : ℕ) (t : TypeTree) → zero_of rights (array n t) ≡ option_map (elements n) (zero_of rights t) }
    ensures slices { (rights : Rights) (t : TypeTree) → zero_of rights (slice t) ≡ Some nil_slice }
    ensures structures { (rights : Rights) (names : List (List ℕ)) (ts : TypeRow) → zero_of rights (structure names ts) ≡ option_map fields (zeros_of rights ts) }
    ensures no_types { (rights : Rights) → zeros_of rights none ≡ Some no_zeros }
    ensures more_types { (rights : Rights) (t : TypeTree) (ts : TypeRow) → zeros_of rights (more t ts) ≡ on_both more_zeros (zero_of rights t) (zeros_of rights ts) }
    ensures functions { (rights : Rights) (ps rs : TypeRow) → zero_of rights (function ps rs) ≡ Some nil_function }
    ensures declared { (rights : Rights) (n : ℕ) (r : TypeTree) → HasRight rights n r → zero_of rights (declared n) ≡ zero_of rights r }
    ensures underlying { (rights : Rights) (t u : TypeTree) → Underlying rights t u → zero_of rights t ≡ zero_of rights u }
{}

/// A type has a zero value exactly where it has a count of scalars.
pub fn counted_types_have_zero_values()
    ensures zero { (rights : Rights) (t : TypeTree) (n : ℕ) → scalars_of rights t ≡ Some n → (z : Zero) × (zero_of rights t ≡ Some z) }
    ensures count { (rights : Rights) (t : TypeTree) (z : Zero) → zero_of rights t ≡ Some z → (n : ℕ) × (scalars_of rights t ≡ Some n) }
{}

/// Tables extend themselves, what extends an extension extends the first, and tables that extend
/// each other are equal. So it is, but for the last, where nothing is declared or defined.
pub fn extending_is_an_order()
    ensures itself { (t : Table) → Extends t t }
    ensures both { (s t u : Table) → Extends s t → Extends t u → Extends s u }
    ensures same { (s t : Table) → IsTable s → IsTable t → Extends s t → Extends t s → s ≡ t }
    ensures grows_itself { (t : Table) → IsTable t → Grows t t }
    ensures grows_both { (s t u : Table) → Grows s t → Grows t u → Grows s u }
{}

/// A declaration and a definition extend the table. The one adds a declared type without a right
/// side, the other changes the one right side.
pub fn declarations_extend()
    ensures declared { (old new : Table) (i : ℕ) → IsDeclared old new i → Extends old new }
    ensures defined { (old : Table) (named right : ℕ) → IsOpen old named → Extends old (defined old named right) }
    ensures declared_rights { (old new : Table) (i : ℕ) → IsTable old → IsDeclared old new i → rights_of new ≡ rights_of old ++ None ∷ [] }
    ensures defined_rights { (old : Table) (named right n : ℕ) → HasShape old named (shape.Named n) → rights_of (defined old named right) ≡ slice_set (rights_of old) n (Some (type_of old.shapes right)) }
{}

/// The types of old numbers and the right sides stay when a table grows.
pub fn types_stay()
    ensures trees { (old new : Table) (i : ℕ) → IsTable old → Extends old new → i < length old.shapes → type_of new.shapes i ≡ type_of old.shapes i }
    ensures rights { (old new : Table) (n : ℕ) (r : TypeTree) → IsTable old → Extends old new → HasRight (rights_of old) n r → HasRight (rights_of new) n r }
{}

/// What is told stays when a table grows. What isn't assignable stays so where both types have
/// underlying types.
pub fn answers_stay()
    ensures underlying { (old new : Table) (t u : TypeTree) → IsTable old → Extends old new → underlying_of (rights_of old) t ≡ Some u → underlying_of (rights_of new) t ≡ Some u }
    ensures comparable { (old new : Table) (t : TypeTree) (b : Bool) → IsTable old → Extends old new → comparability_of (rights_of old) t ≡ Some b → comparability_of (rights_of new) t ≡ Some b }
    ensures assignable { (old new : Table) (t u : TypeTree) → IsTable old → Extends old new → is_assignable (rights_of old) t u ≡ true → is_assignable (rights_of new) t u ≡ true }
    ensures assignable_told { (old new : Table) (t u v w : TypeTree) → IsTable old → Extends old new → underlying_of (rights_of old) t ≡ Some v → underlying_of (rights_of old) u ≡ Some w →
        is_assignable (rights_of new) t u ≡ is_assignable (rights_of old) t u }
    ensures scalars { (old new : Table) (t : TypeTree) (n : ℕ) → IsTable old → Extends old new → scalars_of (rights_of old) t ≡ Some n → scalars_of (rights_of new) t ≡ Some n }
    ensures zero { (old new : Table) (t : TypeTree) (z : Zero) → IsTable old → Extends old new → zero_of (rights_of old) t ≡ Some z → zero_of (rights_of new) t ≡ Some z }
{}

/// What is told stays when the declared types get other numbers, each its own.
pub fn answers_are_renamed()
    ensures identical { (name : ℕ → ℕ) (t u : TypeTree) → IsOneToOne name → is_identical (renamed name t) (renamed name u) ≡ is_identical t u }
    ensures underlying { (name : ℕ → ℕ) (old new : Rights) (t : TypeTree) → AreRenamed name old new → underlying_of new (renamed name t) ≡ option_map (renamed name) (underlying_of old t) }
    ensures comparable { (name : ℕ → ℕ) (old new : Rights) (t : TypeTree) → AreRenamed name old new → comparability_of new (renamed name t) ≡ comparability_of old t }
    ensures assignable { (name : ℕ → ℕ) (old new : Rights) (t u : TypeTree) → IsOneToOne name → AreRenamed name old new → is_assignable new (renamed name t) (renamed name u) ≡ is_assignable old t u }
    ensures scalars { (name : ℕ → ℕ) (old new : Rights) (t : TypeTree) → AreRenamed name old new → scalars_of new (renamed name t) ≡ scalars_of old t }
    ensures zero { (name : ℕ → ℕ) (old new : Rights) (t : TypeTree) → AreRenamed name old new → zero_of new (renamed name t) ≡ zero_of old t }
{}
