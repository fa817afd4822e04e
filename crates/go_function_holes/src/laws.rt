//! Laws, for the crates above. The functions do nothing: their contracts are the laws.

ghost use Rattle.go_function_holes.specs.Holes.{ExpressionHolesStand};

/// A path leads from an expression, in which no rule fails, to each of its holes, which is an expression too. A name may stand in its place:
/// nothing but that it is looked up is then different (Go specification: Constant expressions).
///
/// A caller gives the kinds of the tree (`derivations_are_shaped`), that what its nodes stand for is known (`placed_expressions_are_known`), and
/// that no constant is called and no field of one is selected.
pub fn holes_of_expressions_stand()
    ensures { ExpressionHolesStand }
{}
