//! Laws of variables in place of constants, for the crates above. The functions do nothing: their contracts are the laws.

ghost use Rattle.go_exprs_variables.specs.Rules.{UnaryKept, BinaryKept, ShiftKept, ComparisonKept, IndexKept, SliceKept};
ghost use Rattle.go_exprs_variables.specs.Rules.{ConversionKept, LengthKept, OpenLengthKept, MakeKept, AppendKept, CopyKept, PrintedKept, ExtremeKept};
ghost use Rattle.go_exprs_variables.specs.Rules.{AssignmentKept, ElementsKept, OrderedKept, KeyedKept, PlaceKept};
ghost use Rattle.go_exprs_variables.specs.Trees.{HolesTyped, FreeTyped, ConstantsTyped, ConstantsAreQuiet};
ghost use Rattle.go_exprs_variables.specs.Variables.{ExpressionsTyped};
ghost use Rattle.go_exprs_variables.specs.WorkedExpressions.{WorkedExpressions};

/// An operation with one operand stands for what it stood for, or for a value of the type that it takes later.
pub fn unary_operators()
    ensures { UnaryKept }
{}

/// So does one with two operands that neither compares nor shifts: a constant divisor 0 and constants out of range become fewer.
pub fn binary_operators()
    ensures { BinaryKept }
{}

/// So does a shift; that a count isn't negative is asked of constants alone.
pub fn shifts()
    ensures { ShiftKept }
{}

/// Values are compared in the type in which they were, or in the default type of the kind in which they were.
pub fn comparisons()
    ensures { ComparisonKept }
{}

/// A variable has no bounds as an index, and a text that is none any more has no length.
pub fn index_expressions()
    ensures { IndexKept }
{}

/// Bounds become fewer, and a slice has the type that it had.
pub fn slice_expressions()
    ensures { SliceKept }
{}

/// A conversion that isn't constant converts the variable to its type too.
pub fn conversions()
    ensures { ConversionKept }
{}

/// What has a length has one.
pub fn lengths()
    ensures { LengthKept }
{}

/// A length that isn't constant isn't with variables.
pub fn open_lengths()
    ensures { OpenLengthKept }
{}

/// Sizes are as indexes.
pub fn made_slices()
    ensures { MakeKept }
{}

/// Elements are given to variables of the slice's type of elements.
pub fn appended_elements()
    ensures { AppendKept }
{}

/// What is copied is copied still.
pub fn copied_elements()
    ensures { CopyKept }
{}

/// What is printed is of its family still.
pub fn printed_values()
    ensures { PrintedKept }
{}

/// The least and the greatest of values meet in the type in which they met.
pub fn least_and_greatest()
    ensures { ExtremeKept }
{}

/// A variable of the type that a constant takes is given to what that was given to: to variables, arguments, elements and results.
pub fn given_values()
    ensures { AssignmentKept }
{}

/// Elements of arrays and slices.
pub fn elements()
    ensures { ElementsKept }
{}

/// Fields of a struct in their order.
pub fn ordered_fields()
    ensures { OrderedKept }
{}

/// Fields of a struct with their names.
pub fn named_fields()
    ensures { KeyedKept }
{}

/// A variable stands wherever a constant may.
pub fn places()
    ensures { PlaceKept }
{}

/// The name of a variable in place of a constant expression is typed as it stands in place of the hole.
pub fn variables_are_typed()
    ensures { HolesTyped }
{}

/// Trees without variables in them are typed the same.
pub fn other_trees_are_typed()
    ensures { FreeTyped }
{}

/// So are constant expressions in place of which no variable stands.
pub fn constants_are_typed()
    ensures { ConstantsTyped }
{}

/// A constant expression calls nothing.
pub fn constants_are_quiet()
    ensures { ConstantsAreQuiet }
{}

/// The law on expressions: with variables in place of holes an expression is typed the same, with that change alone, and no rule fails.
pub fn expressions_are_typed()
    ensures { ExpressionsTyped }
{}

/// Worked expressions, lexed and parsed.
pub fn worked_expressions()
    ensures { WorkedExpressions }
{}
