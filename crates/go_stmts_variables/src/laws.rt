//! Laws of variables in place of constants in statements, for the crates above. The functions do nothing: their contracts are the laws.

ghost use Rattle.go_stmts_variables.specs.Asked.{AskedIsMet};
ghost use Rattle.go_stmts_variables.specs.Rules.{ConditionKept, TagKept, CaseKept, ValuesKept, RangeKept};
ghost use Rattle.go_stmts_variables.specs.Law.{StatementsRead, BodiesRead};
ghost use Rattle.go_stmts_variables.specs.Steady.{TypelessAreSteady};
ghost use Rattle.go_stmts_variables.specs.Switchless.{SwitchlessAreTagged};
ghost use Rattle.go_stmts_variables.specs.Unsteady.{TagsNeedSteadyTypes};
ghost use Rattle.go_stmts_variables.specs.Untyped.{TagsNeedTypes};
ghost use Rattle.go_stmts_variables.specs.WorkedFunctions.{WorkedFunctions};

/// A condition is a truth value still.
pub fn conditions()
    ensures { ConditionKept }
{}

/// The tag of a switch is as it was, or a value in place of a constant.
pub fn tags()
    ensures { TagKept }
{}

/// A value of a case is compared with the tag; equal constants are accepted.
pub fn cases()
    ensures { CaseKept }
{}

/// Values are given to variables: in assignments, declarations and returns.
pub fn values()
    ensures { ValuesKept }
{}

/// What a range clause goes over it goes over still.
pub fn range_clauses()
    ensures { RangeKept }
{}

/// The law on statements: with variables in place of holes a statement is read the same, with that change alone, no rule fails, and it
/// terminates where it did.
pub fn statements_are_read()
    ensures { StatementsRead }
{}

/// So it is of the body of a function, which ends in a terminating statement where it did.
pub fn bodies_are_read()
    ensures { BodiesRead }
{}

/// Both laws ask that tags have types. So it is of each statement without a switch.
pub fn statements_without_switches_are_tagged()
    ensures { SwitchlessAreTagged }
{}

/// Both laws ask that types which are declared don't change what the types of tags are. So it is where switches that have a tag, and loops
/// that go over a value, declare none.
pub fn typeless_statements_are_steady()
    ensures { TypelessAreSteady }
{}

/// All that the law on bodies asks holds of a body with a switch, which so is read with a variable in place of the value of its case.
pub fn asked_is_met()
    ensures { AskedIsMet }
{}

/// The law asks that tags have types: where one has none, a rule may fail with a variable that failed with none.
pub fn tags_need_types()
    ensures { TagsNeedTypes }
{}

/// It asks that types which are declared leave those of tags as they are: where a clause declares the type of its tag, a rule may fail with
/// a variable that failed with none.
pub fn tags_need_steady_types()
    ensures { TagsNeedSteadyTypes }
{}

/// Worked functions, lexed and parsed.
pub fn worked_functions()
    ensures { WorkedFunctions }
{}
