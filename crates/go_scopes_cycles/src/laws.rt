//! A law of rounds: how many of them show whether a declaration needs itself.

ghost use Rattle.std.specs.Prelude.{◌≡◌, ◌+◌, List, true, length};
ghost use Rattle.go_tree.specs.Declarations.{Found};
ghost use Rattle.go_tree.specs.Lookups.{Asked};
ghost use Rattle.go_scopes_cycles.specs.Closure.{rounds, any_itself, AreDeclared};

/// Where all that names call for is declared, a declaration that needs itself does so by way of at most twice as many others as
/// there are declarations.
pub fn declarations_bound_rounds()
    ensures { (asks : List Asked) (ds : List Found) → AreDeclared asks ds → any_itself asks (rounds asks) ds ≡ true → any_itself asks (length ds + length ds) ds ≡ true }
{}
