//! Laws of declarations. These functions do nothing: their contracts are what holds.
ghost use Rattle.std.specs.Prelude.{ℕ, List};
ghost use Rattle.std.specs.List.{AllByRecursion};
ghost use Rattle.go_grammar.specs.Trees.{Tree};
ghost use Rattle.go_exprs_engine.specs.Literals.{AllRead};
ghost use Rattle.go_package_defs.specs.Declarations.{in_file};
ghost use Rattle.go_declarations.specs.Reads.{SpecificationRead};

/// Where the literals of a file may be read, so may those of the types and values of its specifications.
#[tactic(auto, using(crate::proofs::Literals::in_file_read))]
pub fn literals_of_specifications_are_read()
    ensures { (texts : ℕ → List ℕ) (file : ℕ) (t : Tree) → AllRead texts t → AllByRecursion (SpecificationRead texts) (in_file file t) }
{}
