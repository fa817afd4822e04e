//! Laws, for the crates above. The functions do nothing: their contracts are the laws.

ghost use Rattle.std.specs.Prelude.{ℕ};
ghost use Rattle.go_grammar.specs.declared.kind.Kind.{Kind};
ghost use Rattle.go_grammar.specs.Trees.{Trees};
ghost use Rattle.go_exprs_rules.specs.Settling.{Part};
ghost use Rattle.go_exprs_rules.specs.Tables.{Parts};
ghost use Rattle.go_stmts_defs.specs.Frames.{Frame};
ghost use Rattle.go_stmts_defs.specs.Reading.{beginning, entering, back, leaving};
ghost use Rattle.go_stmts_placed.specs.Examples.{Examples};
ghost use Rattle.go_stmts_placed.specs.Frames.{FrameIsGood, DeclaresFine};
ghost use Rattle.go_stmts_placed.specs.Placed.{RightIsFree};

/// Where all that is known in front of a statement stands for something known, so does all that is known where it begins, before each of its
/// parts, and behind it, where the names that it declares stand for something known and a type that it declares has no right side so far (Go
/// specification: Statements, Declarations and scope).
pub fn what_is_known_stays_known()
    ensures beginning { (count : ℕ) (k : Kind) (i : ℕ) (s : Frame) → FrameIsGood count s → FrameIsGood count (beginning k i s) }
    ensures entering { (count : ℕ) (k : Kind) (xs : Parts) (s : Frame) → FrameIsGood count s → FrameIsGood count (entering k xs s) }
    ensures leaving { (count : ℕ) (k : Kind) (i : ℕ) (ps : Trees) (x : Part) (before s : Frame) → RightIsFree s k i → DeclaresFine k s.around.rights x → FrameIsGood count s
        → FrameIsGood count (leaving k i ps x (back before s)) }
{}

/// Worked functions whose names are placed, with a shadowed name and with a range clause, and two whose names aren't.
pub fn examples()
    ensures { Examples }
{}
