//! Laws of maximal classes, for the crates above. The functions do nothing: their contracts are the laws.

ghost use Rattle.std.specs.Prelude.{List};
ghost use Rattle.go_typed.specs.declared.window.Window.{Window as Member};
ghost use Rattle.clone_classes.specs.Classes.{Among};
ghost use Rattle.clone_report.specs.Examples.{Examples};
ghost use Rattle.clone_report.specs.Maximal.{IsWithinMaximal};

/// Maximal classes and covered statements, worked out by hand.
pub fn examples()
    ensures { Examples }
{}

/// Every member of every class lies within a member of a maximal class: a class that subsumes another one has longer members.
pub fn members_lie_within_maximal_classes()
    ensures { (classes : List (List Member)) (class : List Member) (w : Member) → Among classes class → Among class w → IsWithinMaximal classes w }
{}
