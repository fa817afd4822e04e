//! Laws of specifications as a whole. These functions do nothing: their contracts are what holds.
ghost use Rattle.std.specs.Prelude.{◌≡◌, ℕ, List};
ghost use Rattle.go_exprs_rules.specs.declared.fault.TypeFault.{TypeFault};
ghost use Rattle.go_package_defs.specs.Declarations.{Specification};
ghost use Rattle.go_package_defs.specs.Knowledge.{Outline, State, free_scope};
ghost use Rattle.go_package_defs.specs.Sources.{Package, tokens_in};
ghost use Rattle.go_package_defs.specs.Verdicts.{specification_faults, is_blocked};
ghost use Rattle.go_package_types.specs.SpecificationPlaces.{TokensRise, AllStandIn, KeepsLeast};
ghost use Rattle.go_package_types.specs.Whole.{failing_as_whole};

/// What fails at a specification of a package, by what is known of the objects: what fails in its own scope, where it is blocked or isn't.
pub fn known_faults()
    ensures { (p : Package) (os : List Outline) (known : List State) (d : Specification) →
        specification_faults p os known d ≡ failing_as_whole (is_blocked p os known d) (free_scope p os known d) d }
{}

/// Of faults in one file the least one by tokens and code is the least one by bytes and code, where the tokens rise.
pub fn least_keeps_its_place()
    ensures { (p : Package) (file : ℕ) (fs : List TypeFault) → TokensRise (tokens_in p file) → AllStandIn p file fs → KeepsLeast p file fs }
{}
