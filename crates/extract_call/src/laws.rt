//! Laws of calls in place of windows, for the crates above. The functions do nothing: their contracts are the laws.

ghost use Rattle.std.specs.Prelude.{ℕ};
ghost use Rattle.go_meaning.specs.Meaning.{Program};
ghost use Rattle.extract_call.specs.Alike.{AreAlike};
ghost use Rattle.extract_call.specs.Examples.{Examples};
ghost use Rattle.extract_call.specs.Extraction.{Extracts};
ghost use Rattle.extract_call.specs.Laws.{Gap, CallsOneTurnLater, StopsAtOnce, Tail, TailCallsOneTurnLater, CallDoesAsWindow, WindowDoesAsCall};

/// Packages with windows, and what they become, worked out by hand.
pub fn examples()
    ensures { Examples }
{}

/// A gap comes to what the statements of the new function come to in the frame of the call, one turn and one level later; their
/// return is written to the targets.
pub fn gaps_call_one_turn_later()
    ensures runs { (Q : Program) (x : Gap Q) → CallsOneTurnLater Q x }
    ensures stops { (Q : Program) (x : Gap Q) → StopsAtOnce Q x }
{}

/// A return of a call of a function comes to what the statements of that function come to, one turn and one level later; what they
/// return is returned.
pub fn tails_call_one_turn_later()
    ensures { (Q : Program) (x : Tail Q) → TailCallsOneTurnLater Q x }
{}

/// In a package in which windows became calls of a new function, each call does what the window does, and each window what the call
/// does.
pub fn calls_do_what_windows_do()
    ensures call { (s : ℕ → ℕ) (k : ℕ) (P Q : Program) (x : Extracts s k P Q) (member : ℕ) → CallDoesAsWindow s k P Q x member }
    ensures window { (s : ℕ → ℕ) (k : ℕ) (P Q : Program) (x : Extracts s k P Q) (member : ℕ) → WindowDoesAsCall s k P Q x member }
{}

/// Such a package runs as the old one does. With at most k windows in one function it ends, panics and prints alike, at k turns more
/// for each of the old ones and at twice the depth; and the old one runs as it does, at no more turns and no deeper.
pub fn extracted_packages_run_alike()
    ensures { (s : ℕ → ℕ) (k : ℕ) (P Q : Program) → Extracts s k P Q → AreAlike k P Q }
{}
