//! Laws of types and of their tables.
ghost use Rattle.std.specs.Prelude.{◌≡◌, ◌↔◌, ◌<◌, ◌++◌, ◌∷◌, [], ℕ, List, length};
ghost use Rattle.go_types.specs.declared.shape.Shape.{Shape};
ghost use Rattle.go_types.specs.Examples.{Examples};
ghost use Rattle.go_types.specs.Trees.{TypeTree, Identical};
ghost use Rattle.go_types.specs.Relations.{Rights, Underlying, Assignable, Scalars};
ghost use Rattle.go_types.specs.Tables.{Table, IsTable, HasShape, Holds, IsSettled, NoneContainsItself, tree_of, type_of, rights_of};
ghost use Rattle.go_types.specs.Changes.{IsOpen, defined};

/// What the rules say of some types, worked out by hand.
pub fn examples()
    ensures { Examples }
{}

/// Identity is an equivalence.
pub fn identity_is_an_equivalence()
    ensures reflexive { (t : TypeTree) → Identical t t }
    ensures symmetric { (t u : TypeTree) → Identical t u → Identical u t }
    ensures transitive { (t u v : TypeTree) → Identical t u → Identical u v → Identical t v }
{}

/// Identical types are assignable both ways.
pub fn identical_types_are_assignable()
    ensures { (rights : Rights) (t u : TypeTree) → Identical t u → Assignable rights t u × Assignable rights u t }
{}

/// The underlying type of an underlying type is itself, and a type has no other one.
pub fn underlying_types_are_underlying()
    ensures itself { (rights : Rights) (t u : TypeTree) → Underlying rights t u → Underlying rights u u }
    ensures only { (rights : Rights) (t u v : TypeTree) → Underlying rights t u → Underlying rights t v → u ≡ v }
{}

/// A type has one count of scalars at most.
pub fn types_have_one_count()
    ensures { (rights : Rights) (t : TypeTree) (n m : ℕ) → Scalars rights t n → Scalars rights t m → n ≡ m }
{}

/// Numbers of a table are equal exactly where their types are identical.
pub fn equal_numbers_are_identical_types()
    ensures { (t : Table) (i j : ℕ) → IsTable t → i < length t.shapes → j < length t.shapes → (i ≡ j) ↔ Identical (type_of t.shapes i) (type_of t.shapes j) }
{}

/// Shapes of a table that have one form and identical parts have one number.
pub fn identical_parts_have_one_number()
    ensures { (t : Table) (i j : ℕ) (r s : Shape) → IsTable t → HasShape t i r → HasShape t j s → Identical (tree_of (type_of t.shapes) r) (tree_of (type_of t.shapes) s) → i ≡ j }
{}

/// The type of a number is that of its shape, whose parts are the types of their numbers.
pub fn types_have_their_shapes()
    ensures { (t : Table) (i : ℕ) (s : Shape) → IsTable t → HasShape t i s → type_of t.shapes i ≡ tree_of (type_of t.shapes) s }
{}

/// Numbers keep their types when the table grows.
pub fn types_keep_their_numbers()
    ensures { (t : Table) (i : ℕ) (more : List Shape) → IsTable t → i < length t.shapes → type_of (t.shapes ++ more) i ≡ type_of t.shapes i }
{}

/// A declared type gets the underlying type of its right side.
pub fn definitions_give_underlying_types()
    ensures { (t : Table) (named right : ℕ) (u : TypeTree) → IsTable t → IsOpen t named → Underlying (rights_of (defined t named right)) (type_of t.shapes right) u →
        Underlying (rights_of (defined t named right)) (type_of t.shapes named) u }
{}

/// No type contains itself where each type that is held is less by some measure.
pub fn measured_types_are_finite()
    ensures { (t : Table) (measure : ℕ → ℕ) → ((i j : ℕ) → Holds t i j → measure j < measure i) → NoneContainsItself t }
{}

/// A right side that is settled may be given to a declared type that has none.
pub fn settled_right_sides_are_finite()
    ensures { (t : Table) (named right : ℕ) → IsTable t → IsOpen t named → IsSettled t right → NoneContainsItself (defined t named right) }
{}
