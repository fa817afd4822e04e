//! Laws of statements whose declared types have numbers in order. The functions do nothing: their contracts are the laws.

ghost use Rattle.go_stmts_steady.specs.Asked.{OrderIsMet};
ghost use Rattle.go_stmts_steady.specs.Ordered.{OrderedAreSteady};
ghost use Rattle.go_stmts_steady.specs.Read.{OrderedStatementsRead, OrderedBodiesRead};

use go_renumbering::laws::renumbered_statements_are_read_the_same;
use go_stmts_variables::laws::{asked_is_met, bodies_are_read, statements_are_read};

/// Where the types that a statement declares have numbers in order, behind those of all types that are known in front of it, they leave the
/// types of tags as they are.
pub fn ordered_statements_are_steady()
    ensures { OrderedAreSteady }
{
    renumbered_statements_are_read_the_same();
}

/// With variables in place of holes such a statement is read the same, with that change alone, no rule fails, and it terminates where it did.
pub fn ordered_statements_are_read()
    ensures { OrderedStatementsRead }
{
    renumbered_statements_are_read_the_same();
    statements_are_read();
}

/// So is the body of a function, which ends in a terminating statement where it did.
pub fn ordered_bodies_are_read()
    ensures { OrderedBodiesRead }
{
    renumbered_statements_are_read_the_same();
    bodies_are_read();
}

/// All that the law on ordered bodies asks holds of a body whose clause declares a type, in front of which five types are known.
pub fn order_is_met()
    ensures { OrderIsMet }
{
    renumbered_statements_are_read_the_same();
    bodies_are_read();
    asked_is_met();
}
