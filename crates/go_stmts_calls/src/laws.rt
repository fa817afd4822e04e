//! Laws of calls that stand in place of statements, for the crates above. These functions do nothing: their contracts are what holds.

ghost use Rattle.go_stmts_calls.specs.Calls.{CallsAreTyped};
ghost use Rattle.go_stmts_calls.specs.Facts.{CallsAreReadInPlace};
ghost use Rattle.go_stmts_calls.specs.Taking.{CallsTakeThePlace};
ghost use Rattle.go_stmts_calls.specs.Worked.{WorkedCall, WorkedPlace};
ghost use Rattle.go_stmts_calls.specs.Written.{CallsAreReadAlike};

use go_print_laws::laws::{literals_read_back, types_read_back};
use go_stmts_elsewhere::laws::{
    declared_locals_stand, frames_stay_related_behind_statements, lists_are_read_alone,
    statements_leave_the_rest,
};
use go_types_relations::laws::functions_are_the_relations;

/// A call of a function of the package, with the variables that are declared in front of it and with the variables that its results are
/// given to, is read as the statements that are written down for it, and no rule fails; behind it the variables are declared. Its names
/// mean what they have to, its types are those that are printed, and each argument has, or takes, the type of its parameter.
pub fn calls_are_typed()
    ensures { CallsAreTyped }
{
    functions_are_the_relations();
    lists_are_read_alone();
    literals_read_back();
    types_read_back();
}

/// A call is read to be the same wherever its tokens mean the same, whatever right sides there are and whatever locals stand for: its typed trees
/// are written down from its names, its constants and its types alone.
pub fn calls_are_read_alike()
    ensures { CallsAreReadAlike }
{
    literals_read_back();
    types_read_back();
}

/// In front of the statements whose place it takes a call is read where its names mean locals that stand for their types there, or results that
/// it declares, and its constants and types are spelled as they have to be: so it is in all frames that are related.
pub fn calls_are_read_in_place()
    ensures { CallsAreReadInPlace }
{
    frames_stay_related_behind_statements();
}

/// A call takes the place of statements that declare no types, and of whose locals those that are needed behind them are just those that it
/// declares: where its names mean what they have to, no rule fails in it, and behind both what counts stands for the same.
pub fn calls_take_the_place()
    ensures { CallsTakeThePlace }
{
    calls_are_read_alike();
    calls_are_read_in_place();
    calls_are_typed();
    declared_locals_stand();
    frames_stay_related_behind_statements();
    statements_leave_the_rest();
}

/// A worked call: the one that takes the place of the first worked class, with the variable that is declared in front of it.
pub fn worked_call()
    ensures { WorkedCall }
{
    calls_are_typed();
}

/// A worked place: the call takes the place of a definition.
pub fn worked_place()
    ensures { WorkedPlace }
{}
