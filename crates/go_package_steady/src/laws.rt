//! Laws of the bodies of functions. The functions do nothing: their contracts are the laws.

ghost use Rattle.go_package_steady.specs.Begun.{BodiesAreOrdered};
ghost use Rattle.go_package_steady.specs.Declared.{DeclaredLocalsRise};
ghost use Rattle.go_package_steady.specs.Lying.{TypePlacesRise};
ghost use Rattle.go_package_steady.specs.Packages.{FunctionsAreOrdered};
ghost use Rattle.go_package_steady.specs.Rising.{StatementsAreOrdered};
ghost use Rattle.go_package_steady.specs.Told.{TypesAreTold};

use go_tree::laws::parts_lie_in_order;

/// No function is declared in a statement, and a statement is ordered where the types have numbers in order that are declared at its tokens,
/// one behind the other (Go specification: Statements, Type declarations).
pub fn statements_are_ordered()
    ensures { StatementsAreOrdered }
{}

/// The body of a function is ordered where the types that it declares are locals in order, and what surrounds it and the right sides in front
/// of it name no declared types but those in front.
pub fn bodies_are_ordered()
    ensures { BodiesAreOrdered }
{}

/// Where each token has its object, the locals of a function that are declared at rising tokens have numbers in order (Go specification:
/// Declarations and scope).
pub fn declared_locals_rise()
    ensures { DeclaredLocalsRise }
{}

/// The body of a function in a package is ordered where it declares its types as locals, at rising tokens of its own, and what surrounds it
/// and the right sides in front of it name no declared types but those in front (Go specification: Function declarations, Type declarations).
pub fn functions_are_ordered()
    ensures { FunctionsAreOrdered }
{}

/// In a derivation types are declared at rising tokens, which are among its own (Go specification: Type declarations).
pub fn type_places_rise()
    ensures { TypePlacesRise }
{
    parts_lie_in_order();
}

/// At each token at which a tree declares a type, it tells a declaration of it to the rules on names (Go specification: Type declarations).
pub fn types_are_told()
    ensures { TypesAreTold }
{}
