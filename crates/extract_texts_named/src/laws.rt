//! Laws of the locals that an extraction hands over, for the crates above. The functions do nothing: their contracts are the laws.

ghost use Rattle.extract_texts_named.specs.Chosen.{ChosenLocalsAreNamed};
ghost use Rattle.extract_texts_named.specs.Named.{DeclaredLocalsAreNamed};

/// What the template's own statements declare is named by nodes of them, outside holes: a name that is declared is a node, and no constant
/// expression (Go specification: Variable declarations, Short variable declarations). A caller gives that no specification is one either.
pub fn declared_locals_are_named()
    ensures { DeclaredLocalsAreNamed }
{}

/// What a template hands over, its free locals and its declared results, is named by nodes of its statements, outside holes, where the code 8
/// doesn't apply to it. A caller gives that each token of the template that names a variable has a node, but for those in types and in
/// declarations of constants and of types (`TokensHaveNodes`), and that no specification of variables is a constant expression.
pub fn chosen_locals_are_named()
    ensures { ChosenLocalsAreNamed }
{}
