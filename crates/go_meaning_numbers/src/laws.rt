//! Laws of other numbers for functions, for the crates above. The functions do nothing: their contracts are the laws.

ghost use Rattle.std.specs.Prelude.{ℕ};
ghost use Rattle.go_meaning.specs.Meaning.{Program};
ghost use Rattle.go_meaning.specs.Operations.{Operation};
ghost use Rattle.go_meaning_simulation.specs.Laws.{HaveSameRuns};
ghost use Rattle.go_meaning_numbers.specs.Examples.{Examples};
ghost use Rattle.go_meaning_numbers.specs.Laws.{CommutesWith, AreNumberedAnew};

/// A package whose functions are numbered anew, worked out by hand.
pub fn examples()
    ensures { Examples }
{}

/// Operations don't see the numbers of functions.
pub fn operations_see_no_function_numbers()
    ensures { (s : ℕ → ℕ) (o : Operation) → CommutesWith s o }
{}

/// A package whose functions have other numbers has the same runs: they end, panic and print alike at equal turns and depth.
pub fn renumbered_packages_have_the_same_runs()
    ensures { (s : ℕ → ℕ) (P Q : Program) → AreNumberedAnew s P Q → HaveSameRuns P Q }
{}
