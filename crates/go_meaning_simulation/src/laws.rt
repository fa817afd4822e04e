//! Laws of trees that are kin, for the crates above. The functions do nothing: their contracts are the laws.

ghost use Rattle.std.specs.Prelude.{◌≡◌, ℕ, List};
ghost use Rattle.go_types.specs.Trees.{TypeTree};
ghost use Rattle.go_types.specs.Relations.{Rights};
ghost use Rattle.go_typed.specs.declared.form.Form.{Form};
ghost use Rattle.go_typed.specs.Trees.{Label, Typeds};
ghost use Rattle.go_meaning.specs.Planning.{plan};
ghost use Rattle.go_meaning.specs.Meaning.{Program};
ghost use Rattle.go_meaning_simulation.specs.Laws.{Matched, BodiesDoTheSame, WindowsDoTheSame, HaveSameRuns};
ghost use Rattle.go_meaning_simulation.specs.Seen.{seen};

/// In two packages whose functions are mates, statements that are kin do the same. In a body, frames in which linked locals hold
/// equal values are such frames again. In a window, that holds of the locals that are known, and what the window may not write
/// stays.
pub fn kin_statements_do_the_same()
    ensures body { (P Q : Program) → Matched P Q → BodiesDoTheSame P Q }
    ensures window { (P Q : Program) → Matched P Q → WindowsDoTheSame P Q }
{}

/// Packages whose functions are mates have the same runs.
pub fn matched_packages_have_the_same_runs()
    ensures { (P Q : Program) → Matched P Q → HaveSameRuns P Q }
{}

/// A plan sees of the parts of its node no more than which are there, their types, what sort of callee they are, whether they
/// call, and whether they are default clauses or keyed elements.
pub fn plans_see_little_of_parts()
    ensures { (rights : Rights) (f : Form) (l : Label TypeTree) (ps ps' : Typeds TypeTree) → seen ps ≡ seen ps' → plan rights f l ps ≡ plan rights f l ps' }
{}
