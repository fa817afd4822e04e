//! Laws of statements and functions elsewhere, for the crates above. These functions do nothing: their contracts are what holds.

ghost use Rattle.std.specs.Prelude.{ℕ, Bool, List};
ghost use Rattle.go_exprs_elsewhere.specs.Elsewhere.{Moves, KeepsSpelling};
ghost use Rattle.go_exprs_rules.specs.Scopes.{Hint, Scope};
ghost use Rattle.go_grammar.specs.Trees.{Tree, Trees, last, node};
ghost use Rattle.go_grammar.specs.declared.kind.Kind.TheVariants as kind;
ghost use Rattle.go_package_defs.specs.Bodies.{function_in};
ghost use Rattle.go_package_alike.specs.Scopes.{AllTokens};
ghost use Rattle.go_package_laws.specs.Reach.{HintWithin};
ghost use Rattle.go_rewriting.specs.Places.{carry};
ghost use Rattle.go_stmts_defs.specs.Bodies.{start};
ghost use Rattle.go_stmts_defs.specs.Frames.{Frame};
ghost use Rattle.go_stmts_defs.specs.Reading.{reading};
ghost use Rattle.go_stmts_elsewhere.specs.Above.{NodesAbove};
ghost use Rattle.go_stmts_elsewhere.specs.Declaring.{AllDeclareInOrder, DeclaredLocalsStand, LeaveTheRest, SharedAlong, RelatedBehind};
ghost use Rattle.go_stmts_elsewhere.specs.Ends.{FunctionsEnd, ListsEnd, NodesEnd, ReturnsEnd};
ghost use Rattle.go_stmts_elsewhere.specs.Frames.{AlongFrames, AlongReadings, KeepsPlaces};
ghost use Rattle.go_stmts_elsewhere.specs.Functions.{AlongFunctions, LocalsStand, Numbered, NumberedFunctions, only_objects, stays};
ghost use Rattle.go_stmts_elsewhere.specs.Gaps.{GapRead, ListsAreReadAlone, behind};
ghost use Rattle.go_stmts_elsewhere.specs.Marked.{AlongAt, AlongReadingsAt, AllKeepAt, KeepAt, RelatedAt, SameReadingsAt};
ghost use Rattle.go_stmts_elsewhere.specs.Reached.{AgreeFrames, ReadAlike, Reaches};
ghost use Rattle.go_stmts_elsewhere.specs.Replaced.{Changed, ChangedFunctions, ChangedReadings, EachTakesItsPlace, Gap, OldsRead, Related, StaysTerminating, function_tree, inside_function, unsourced};
ghost use Rattle.go_stmts_elsewhere.specs.Worked.{WorkedGaps};

use go_package_alike::laws::{
    expressions_follow_from_their_tokens, statements_follow_from_their_tokens,
};
use go_renumbering::laws::{
    renumbered_functions_are_typed_the_same, renumbered_statements_are_read_the_same,
};

/// Statements, declarations and bodies whose tokens stand elsewhere are read the same in frames that are related, under the new numbers; the
/// same rules fail in them at the new places, and what is known behind them is related again.
pub fn statements_are_read_elsewhere()
    ensures { (m : Moves) (l : ℕ → Bool) (f g : Frame) (h : Hint) (x : Tree) →
        AlongFrames m l f g → KeepsSpelling m x → KeepsPlaces m x → AlongReadings m l (reading f h x) (reading g h (carry m.token x)) }
{}

/// A function whose tokens stand elsewhere, in a scope that gives its locals and the objects of the package other numbers, is the same
/// function there; or a fault is reported of both, the same one where tokens stay in order.
pub fn functions_are_typed_elsewhere()
    ensures { (m : Moves) (l : ℕ → Bool) (s t : Scope) (count other : ℕ) (types others : ℕ → ℕ) (old number : ℕ) (x : Tree) →
        AlongFrames m l (start s count types) (start t other others) → LocalsStand s t → KeepsSpelling m x → KeepsPlaces m x →
        AlongFunctions m l (last x) number (function_in s old count types x) (function_in t number other others (carry m.token x)) }
{}

/// A function that stays as it is, in a package that numbers its objects, functions and declared types otherwise, is the same function
/// under these numbers, with the right sides behind it; or the same fault is reported of it.
pub fn unchanged_functions_are_numbered_anew()
    ensures { (constants types_of variables functions name : ℕ → ℕ) (s t : Scope) (count : ℕ) (types others : ℕ → ℕ) (old number : ℕ) (x : Tree) →
        Numbered (only_objects constants types_of variables functions) name s t count types others →
        NumberedFunctions (only_objects constants types_of variables functions) name number (function_in s old count types x) (function_in t number count others x) }
{
    renumbered_functions_are_typed_the_same();
}

/// Statements are read elsewhere where frames are related at their own tokens alone, where they stood and where they stand.
pub fn statements_are_read_at_their_tokens()
    ensures { (p q : ℕ → Bool) (m : Moves) (l : ℕ → Bool) (f g : Frame) (h : Hint) (x : Tree) →
        AlongAt p q m l f g → KeepAt p q m x → AlongReadingsAt p q m l (reading f h x) (reading g h (carry m.token x)) }
{
    statements_follow_from_their_tokens();
}

/// Frames that are related field by field, of what tokens say and mean at some tokens alone, are related at these.
pub fn frames_are_related_at_tokens()
    ensures { (p q : ℕ → Bool) (m : Moves) (l : ℕ → Bool) (f g : Frame) → RelatedAt p q m l f g → AlongAt p q m l f g }
{}

/// In a list of statements in which others take the place of a run, what stands in front and behind is read the same, given how the two
/// runs lead from related frames to related frames.
pub fn lists_are_read_around_a_gap()
    ensures { (p q p2 q2 : ℕ → Bool) (m : Moves) (l l2 : ℕ → Bool) (f g : Frame) (front old new rest : Trees) →
        AlongAt p q m l f g → AllKeepAt p q m front →
        ((a b : Frame) → AlongAt p q m l a b → AlongAt p2 q2 m l2 (behind a old) (behind b new)) → AllKeepAt p2 q2 m rest →
        GapRead m (AlongAt p2 q2 m l2) f g front old new rest }
{
    statements_follow_from_their_tokens();
}

/// Statements that stay where they are depend on what their own tokens say and mean and on the locals that these name, and on no other
/// tokens or locals.
pub fn statements_are_read_by_what_they_name()
    ensures { (p l : ℕ → Bool) (f g : Frame) (h : Hint) (x : Tree) → RelatedAt p p stays l f g → AllTokens p x → SameReadingsAt p l (reading f h x) (reading g h x) }
{
    statements_follow_from_their_tokens();
}

/// Statements depend on the right sides of the declared types that they reach, through what their tokens, their locals, the tag and the results
/// stand for, and on no other right sides, tokens or locals.
pub fn statements_are_read_by_what_they_reach()
    ensures { (p l r : ℕ → Bool) (bound : ℕ) (f g : Frame) (h : Hint) (x : Tree) →
        Reaches p l r bound f → AgreeFrames p l r f g → HintWithin r h → AllTokens p x → ReadAlike l (reading f h x) (reading g h x) }
{
    renumbered_statements_are_read_the_same();
    statements_follow_from_their_tokens();
}

/// The statements of a block or of a clause are read by themselves, so the law on lists with a gap holds of each.
pub fn lists_are_read_alone()
    ensures { ListsAreReadAlone }
{}

/// Nodes of one form are terminating alike where their parts are so; lists where their last statements are, whatever stands in front of
/// them.
pub fn nodes_end_alike()
    ensures nodes { NodesEnd }
    ensures lists { ListsEnd }
{}

/// Worked lists: the first worked class with a call in place of its window, a window at the end of a clause, and two windows in one list.
pub fn worked_gaps()
    ensures { WorkedGaps }
{}

/// Above a gap: a node whose parts are the same but for what stands in its blocks, statements and clauses has the same form, fails the same
/// rules and gives its parts the same.
pub fn nodes_above_a_gap_stay()
    ensures { NodesAbove }
{}

/// The end of a function: no return is missing where its block is terminating, as a block is that ends in `return`.
pub fn functions_end()
    ensures terminating { FunctionsEnd }
    ensures returning { ReturnsEnd }
{}

/// A statement in which other statements take the place of some, in lists of any depth, is read as what it was with these in their place:
/// no rule fails that didn't, and the frames behind it are related again, given that each run leads from related frames to related frames.
pub fn statements_are_read_around_gaps()
    ensures { (p q : ℕ → Bool) (m : Moves) (l : ℕ → Bool) (s t : Scope) (gaps : List Gap) (f g : Frame) (h : Hint) (x y : Tree) (d : Changed p q m gaps x y) →
        EachTakesItsPlace p q m l s t gaps → Related p q m l s t f g → OldsRead p q m gaps f x y d → ChangedReadings p q m l gaps (reading f h x) (reading g h y) }
{
    statements_follow_from_their_tokens();
}

/// A function without faults, in whose block other statements take the place of some, in lists of any depth, has no fault there, and is with
/// its types what it was with these in their place; where it has results, its block has to be terminating still.
pub fn functions_are_typed_around_gaps()
    ensures { (p q : ℕ → Bool) (m : Moves) (l : ℕ → Bool) (gaps : List Gap) (s t : Scope) (count other : ℕ) (types others : ℕ → ℕ) (old number a b i j n k : ℕ) (gs ts us : Trees)
        (d : Changed p q m gaps (node kind.Block n k ts) (node kind.Block (m.token n) (m.token k) us)) →
        EachTakesItsPlace p q m l s t gaps → RelatedAt p q m l (start s count types) (start t other others) → LocalsStand s t → KeepAt p q m (node kind.Signature a b gs) →
        OldsRead p q m gaps (inside_function s count types (node kind.Signature a b gs)) (node kind.Block n k ts) (node kind.Block (m.token n) (m.token k) us) d →
        StaysTerminating m l gaps (inside_function s count types (node kind.Signature a b gs)) (node kind.Block n k ts) →
        ChangedFunctions p q m l gaps j number (function_in s old count types (function_tree i j (node kind.Signature a b gs) (node kind.Block n k ts)))
        (function_in t number other others (function_tree (m.token i) (m.token j) (carry m.token (node kind.Signature a b gs)) (node kind.Block (m.token n) (m.token k) us))) }
{
    expressions_follow_from_their_tokens();
    statements_follow_from_their_tokens();
}

/// Behind statements, whether a rule fails in them or none, a local that they don't declare stands for what it stood for, and right sides are
/// as they were where no types are declared (Go specification: Declarations and scope). No local gets or loses its place.
pub fn statements_leave_the_rest()
    ensures { (f : Frame) (ts : Trees) → AllDeclareInOrder ts → LeaveTheRest f ts }
{}

/// A local that one of the statements declares itself as a variable of a type, and none behind it declares, is a variable of this type behind
/// them all, where it has a place among the locals.
pub fn declared_locals_stand()
    ensures { DeclaredLocalsStand }
{}

/// Frames that are related, whatever constants repeat, are related behind statements that declare no types in the first one, where the locals
/// that count stand for the same again; and they share right sides and those locals.
pub fn frames_stay_related_behind_statements()
    ensures behind { RelatedBehind }
    ensures shared { (p q : ℕ → Bool) (m : Moves) (l : ℕ → Bool) (f g : Frame) → AlongAt p q m l (unsourced f) (unsourced g) → SharedAlong m l f g }
{}
