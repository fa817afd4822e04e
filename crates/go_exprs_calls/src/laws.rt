//! Laws of the definitions. These functions do nothing: their contracts are the laws.
ghost use Rattle.go_exprs_calls.specs.Meeting.{MeetAsOperands};

/// Two arguments of `min` or `max` are of one type after the conversion that binary operators do.
pub fn meet_as_operands()
    ensures { MeetAsOperands }
{}
