//! Laws of what names mean in packages, and of the places where names stand twice.

ghost use Rattle.std.specs.Prelude.{◌≡◌, ◌+◌, ◌++◌, ℕ, [], false, List, None, map};
ghost use Rattle.std.specs.Option.{option_map};
ghost use Rattle.go_tree.specs.Declarations.{found, declarations};
ghost use Rattle.go_tree.specs.Duplicates.{second_members};
ghost use Rattle.go_tree.specs.Failures.{of_files};
ghost use Rattle.go_tree.specs.Faults.{reported};
ghost use Rattle.go_tree.specs.File.{FileTree};
ghost use Rattle.go_tree.specs.Meanings.{Meaning, meaning_at};
ghost use Rattle.go_tree.specs.Objects.{object_at};
ghost use Rattle.go_tree.specs.Redeclared.{second_imports, none_new, redeclared};
ghost use Rattle.go_tree.specs.Repeated.{redeclared_names, repeated_parameters};
ghost use Rattle.go_tree.specs.Units as names;
ghost use Rattle.go_tree.specs.Uses.{functions_among, uses};
ghost use Rattle.go_scopes_events.specs.Moved.{moved_meaning};
ghost use Rattle.go_scopes.specs.Numbering.{spot_of, function_spots, AreFiles};
ghost use Rattle.go_scopes.specs.Resolve.{units_of};
ghost use Rattle.go_scopes.specs.SecondMembers.{is_parameter, any_member, second_among};

/// In a package without faults the functions are numbered as those of its files stand: the f-th function of what names mean is
/// the f-th of the files' functions, in order of files and places (Go specification: Function declarations).
pub fn functions_are_numbered_in_order()
    ensures { (fs : List FileTree) → AreFiles fs → reported (units_of fs) ≡ None → map spot_of (functions_among (uses (units_of fs)).package_level) ≡ function_spots 0 fs }
{}

/// Where the tokens of the file m stand n tokens further on, a name means at a token that stands so much further on what it
/// meant, moved in the same way; and the same object.
pub fn moved_names_mean_the_same()
    ensures meaning { (m n t : ℕ) (w : List ℕ) (ms : List Meaning) → meaning_at (map (moved_meaning m n) ms) m (n + t) w ≡ option_map (moved_meaning m n) (meaning_at ms m t w) }
    ensures object { (m n t : ℕ) (w : List ℕ) (ms : List Meaning) → object_at (map (moved_meaning m n) ms) m (n + t) w ≡ object_at ms m t w }
{}

/// The places of the rule on redeclared names are those of the redeclared names by their tokens, in order, and behind them those
/// of a second import and of a `:=` that declares no name.
pub fn redeclared_names_have_the_places_of_the_rule()
    ensures { (us : List names.Unit) → redeclared us (declarations us) ≡ map (λ p. p.place) (redeclared_names us) ++ of_files (second_imports false) 0 us ++ none_new (declarations us) (found us) }
{}

/// The places of parameters that are named twice are those of the rule on fields, keys and parameters at parameters, in order.
pub fn repeated_parameters_have_the_places_of_the_rule()
    ensures parameters { (us : List names.Unit) → map (λ p. p.place) (repeated_parameters us) ≡ of_files (second_among is_parameter []) 0 us }
    ensures rule { (us : List names.Unit) → of_files (second_among any_member []) 0 us ≡ of_files (second_members []) 0 us }
{}
