//! Worked examples of the definitions. These functions do nothing: their contracts are the examples.
ghost use Rattle.go_exprs_rules.specs.OperatorExamples.{OperatorExamples};
ghost use Rattle.go_exprs_rules.specs.ComparisonExamples.{ComparisonExamples};
ghost use Rattle.go_exprs_rules.specs.ShiftExamples.{ShiftExamples};
ghost use Rattle.go_exprs_rules.specs.IndexExamples.{IndexExamples};
ghost use Rattle.go_exprs_rules.specs.CallExamples.{CallExamples};
ghost use Rattle.go_exprs_rules.specs.LiteralExamples.{LiteralExamples};
ghost use Rattle.go_exprs_rules.specs.TypeExamples.{TypeExamples};

/// Unary and binary operators: what an expression stands for, or which rule fails where.
pub fn operators()
    ensures { OperatorExamples }
{}

/// Comparisons.
pub fn comparisons()
    ensures { ComparisonExamples }
{}

/// Shifts.
pub fn shifts()
    ensures { ShiftExamples }
{}

/// Selectors, index expressions and slice expressions.
pub fn indexes()
    ensures { IndexExamples }
{}

/// Calls, conversions and predeclared functions.
pub fn calls()
    ensures { CallExamples }
{}

/// Composite literals.
pub fn literals()
    ensures { LiteralExamples }
{}

/// Types, and expressions where they don't belong.
pub fn types()
    ensures { TypeExamples }
{}
