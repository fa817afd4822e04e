//! Laws and worked examples of the definitions. These functions do nothing: their contracts are what holds.
ghost use Rattle.go_stmts_defs.specs.BodyExamples.{BodyExamples};
ghost use Rattle.go_stmts_defs.specs.BranchExamples.{BranchExamples};
ghost use Rattle.go_stmts_defs.specs.Examples.{AssignmentExamples, DeclarationExamples, StatementExamples};
ghost use Rattle.go_stmts_defs.specs.Moving.{PlaceSaysNothing};

/// What a function says with its types doesn't depend on where it stands in its file.
pub fn place_says_nothing()
    ensures { PlaceSaysNothing }
{}

/// Assignments: which rule fails where.
pub fn assignments()
    ensures { AssignmentExamples }
{}

/// Declarations: what names stand for behind them, or which rule fails where.
pub fn declarations()
    ensures { DeclarationExamples }
{}

/// Expression statements, branches, loops, returned values and terminating statements.
pub fn statements()
    ensures { StatementExamples }
{}

/// Typed trees of declarations and of a whole function.
pub fn bodies()
    ensures { BodyExamples }
{}

/// Headers, branches and further declarations.
pub fn branches()
    ensures { BranchExamples }
{}
