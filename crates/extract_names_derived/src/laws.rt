//! Laws, for the crates above. The functions do nothing: their contracts are the laws.

ghost use Rattle.std.specs.Prelude.{◌≡◌, ℕ, false, ◌+◌, ◌≤◌, List, [], ◌∷◌, length, Some, slice_get};
ghost use Rattle.go_tokens.specs.declared.token.TokenKind.{TokenKind};
ghost use Rattle.go_grammar.specs.declared.kind.Category.TheVariants as category;
ghost use Rattle.go_grammar.specs.declared.kind.Kind.TheVariants as kind;
ghost use Rattle.go_grammar.specs.Grammar.{Derives};
ghost use Rattle.go_grammar.specs.Rules.{Items, item};
ghost use Rattle.go_grammar.specs.Trees.{Tree, Trees, kind_of, more, node, none, onto};
ghost use Rattle.go_rewriting.specs.Places.{Ascending, Change, Patch, changed, places, range};
ghost use Rattle.go_rewriting.specs.Replacing.{Run};
ghost use Rattle.go_rewriting.specs.Sites.{Site, patch_of, site_ranges};
ghost use Rattle.go_tree.specs.Contexts.{file_context};
ghost use Rattle.go_tree.specs.declared.event.Event.{Event};
ghost use Rattle.go_heads.specs.Functions.{Alone, AreRead, Function, all_functions, function_alone};
ghost use Rattle.go_heads.specs.Heads.{File};
ghost use Rattle.go_heads.specs.Locals.{AreNamed};
ghost use Rattle.go_scopes_bodies.specs.Meant.{Outer};
ghost use Rattle.extract_names.specs.Copies.{Copy, IsCopy};
ghost use Rattle.extract_names.specs.Gaps.{Gap, moved_by};
ghost use Rattle.extract_names.specs.Pieces.{pieces};
ghost use Rattle.extract_names.specs.Sites.{GapTells, IsSite};
ghost use Rattle.go_print_laws.specs.Calls.{Call};
ghost use Rattle.go_print_laws.specs.Headers.{Header};
ghost use Rattle.go_scopes_bodies.specs.Listed.{told_list};
ghost use Rattle.extract_names_derived.specs.Bodies.{BodySplits};
ghost use Rattle.extract_names_derived.specs.Calls.{CallStands};
ghost use Rattle.extract_names_derived.specs.CallSites.{CallInPlace, CallsAtSites, CallTreesAtSites, CallsMean, CallsAsked};
ghost use Rattle.extract_names_derived.specs.Copied.{CopyStands, CopyTold};
ghost use Rattle.extract_names_derived.specs.Copies.{SplitsAt, IsTaken, PlacesRun, RunPlaced};
ghost use Rattle.extract_names_derived.specs.Examples.{Examples};
ghost use Rattle.extract_names_derived.specs.Fields.{FieldsOnce};
ghost use Rattle.go_print_laws.specs.Trees.{type_tree};
ghost use Rattle.go_scopes_bodies.specs.Faults.{second_members_by};
ghost use Rattle.go_tree.specs.declared.context.Context.{Context};
ghost use Rattle.go_tree.specs.declared.context.Role.TheVariants as role;
ghost use Rattle.go_tree.specs.Events.{events};
ghost use Rattle.go_types.specs.Trees.{TypeTree};
ghost use Rattle.extract_names_derived.specs.Functions.{IsDerivedFunction, own_kinds};
ghost use Rattle.extract_names_derived.specs.News.{AreNewStatements, IsAskedFor, StatementsAsked};
ghost use Rattle.extract_names_derived.specs.Patches.{EachRun, InLists, ReplaceRuns, PatchesRuns};
ghost use Rattle.extract_names_derived.specs.PrintedCopies.{IsPrintedCopy};
ghost use Rattle.extract_names_derived.specs.Signatures.{SignatureStands, SignatureTells, ReturnStands, ReturnTells};
ghost use Rattle.extract_names_derived.specs.Sites.{AllTell, IsRewritten, IsChosen, IsChangedFunction, RewritesBySites, RunStands, TellsInPlace};

use extract_names::laws::replaced_runs_tell;
use go_rewriting::laws::{changed_sites, text_stands_elsewhere};
use go_scopes_bodies::laws::{lists_tell_each_statement, lists_tell_one_behind_the_other};

/// Each function of a package whose files are read is derived by itself, wherever it stands in its file (Go specification: Function
/// declarations).
pub fn functions_by_themselves_are_derived()
    ensures { (fs : List File) (k : ℕ) (f : Function) → AreRead fs → AreNamed fs → slice_get (all_functions fs) k ≡ Some f → IsDerivedFunction (own_kinds f) (function_alone f) }
{
    text_stands_elsewhere();
}

/// Runs of statements that paths lead to in a derived function, one behind the other, are replaced by one patch: it replaces runs in lists of
/// statements alone, and its places are those of the runs (Go specification: Blocks, Statement lists).
pub fn runs_at_paths_are_patched()
    ensures { (ts : List TokenKind) (t : Tree) (xs : List Site) (j : ℕ) → Derives ts category.Declaration t → kind_of t ≡ kind.FunctionDeclaration → ReplaceRuns t xs → Ascending 0 (site_ranges t xs) j → PatchesRuns t xs }
{}

/// Where the tokens of a derived function are changed at runs of its statements, each found by a path, and each new text is one of
/// statements there, the function with the tree that the changes make is rewritten by one patch, and it is derived too (Go specification:
/// Blocks, Statement lists).
pub fn changed_functions_are_rewritten()
    ensures { (ts : List TokenKind) (a : Alone) (gaps : List Gap) (xs : List Change) (ss : List Site) (new : Alone) → IsChangedFunction ts a gaps xs ss new → RewritesBySites ts (changed xs ts) a gaps ss new }
{
    changed_sites();
}

/// A run of statements is one statement at least, each derived by itself between the run's ends (Go specification: Statement lists).
pub fn runs_are_statements()
    ensures { (us : List TokenKind) (l : Items) (new : Trees) (i j : ℕ) → item l ≡ category.Statement → Run us l new i j → AreNewStatements us i j new }
{}

/// Gaps tell what they have to where the statements of each one do in its place. This is asked in the list of any block of a function in which
/// what the run declares is in scope up to the end of the run or of the block (Go specification: Blocks, Statement lists).
pub fn gaps_tell_one_by_one()
    ensures { (ts us : List TokenKind) (a : Alone) (gaps : List Gap) (new : Alone) → (h : IsRewritten ts us a gaps new) → EachRun (TellsInPlace a new gaps) a.tree h.patch
        → AllTell a new gaps gaps (pieces (moved_by gaps) (file_context 0) a.tree h.patch) }
{
    lists_tell_each_statement();
}

/// Derived statements that have the tokens of a gap tell what the gap has to, where each name that they look up has to mean something, and
/// what they declare is a variable of the run again (Go specification: Blocks, Declarations and scope).
pub fn statements_tell_their_gap()
    ensures { (us : List TokenKind) (v : ℕ → ℕ) (g : Gap) (old news : List Event) (x : RunStands v g old news) (a new : Alone) → v g.from + length g.texts ≤ v x.context.end → StatementsAsked us a new v g old news x
        → GapTells a new v g old news }
{}

/// Where no field of a struct type is blank or stands twice, none does in what a printed type tells, wherever it stands (Go specification:
/// Struct types).
pub fn printed_types_tell_members_once()
    ensures { (w : ℕ → List ℕ) (c : Context) (i : ℕ) (t : TypeTree) → c.role ≡ role.Operand → FieldsOnce w i t → second_members_by w [] (events c (type_tree i t)) ≡ [] }
{}

/// The statements of a call, with the variables that are declared in front of it, tell what is asked where they stand in the place of a run:
/// the names of types mean what no local is, those of the function, the arguments and the results mean what may be named anywhere, and each
/// declared variable is one of the run again (Go specification: Calls, Assignment statements, Variable declarations).
pub fn calls_are_asked_for()
    ensures { (us : List TokenKind) (v : ℕ → ℕ) (g : Gap) (old news : List Event) (x : RunStands v g old news) (a new : Alone) (call : Call) → CallStands us a new v g old news x call → StatementsAsked us a new v g old news x }
{}

/// A derived function with statements in the place of runs is a site: what stays and what is replaced stand apart, blocks and scopes begin
/// and end in no run, names stand in the order of their tokens, and the function declares itself and its locals. What is left to ask is
/// what depends on the choice of the statements: what they tell and name, and what they declare (Go specification: Blocks, Declarations and
/// scope, Function declarations).
pub fn sites_are_derived()
    ensures { (ts us : List TokenKind) (a new : Alone) (outer : Outer) (gaps : List Gap) → (h : IsRewritten ts us a gaps new) → IsChosen a outer gaps new h.patch → IsSite a outer gaps new }
{
    lists_tell_each_statement();
}

/// So a derived function with derived statements in the place of runs is a site, where what is asked of these statements holds, and of what
/// they name and declare (Go specification: Blocks, Declarations and scope).
pub fn statements_make_sites()
    ensures { (ts us : List TokenKind) (a : Alone) (outer : Outer) (gaps : List Gap) (new : Alone) → (h : IsRewritten ts us a gaps new) → IsAskedFor us a outer gaps new h.patch → IsSite a outer gaps new }
{
    lists_tell_each_statement();
}

/// Where the statements of calls stand in place of runs that paths lead to, they do in place of each run of the one patch (Go specification:
/// Statement lists).
pub fn calls_stand_at_sites()
    ensures { (us : List TokenKind) (gaps : List Gap) (calls : Gap → Call) (t : Tree) (xs : List Site) → ReplaceRuns t xs → CallsAtSites us gaps calls t xs → EachRun (CallInPlace us gaps calls) t (patch_of xs) }
{}

/// Where the tokens of a derived function are changed at runs of its statements, and the new statements are those of calls, these are derived
/// over the tokens of their gaps (Go specification: Statement lists).
pub fn calls_are_derived_at_sites()
    ensures { (ts : List TokenKind) (a : Alone) (gaps : List Gap) (xs : List Change) (ss : List Site) (new : Alone) (calls : Gap → Call) → IsChangedFunction ts a gaps xs ss new → CallTreesAtSites gaps calls a.tree ss
        → CallsAtSites (changed xs ts) gaps calls a.tree ss }
{}

/// So a derived function with calls in the place of runs is a site, where each name of a call says what it has to, the locals of a run that
/// are named elsewhere are the variables that its call declares, and variables stay used (Go specification: Blocks, Calls).
pub fn calls_make_sites()
    ensures { (ts us : List TokenKind) (a : Alone) (outer : Outer) (gaps : List Gap) (new : Alone) → (h : IsRewritten ts us a gaps new) → (calls : Gap → Call) → CallsAsked us a outer gaps new h.patch calls → IsSite a outer gaps new }
{
    lists_tell_each_statement();
    replaced_runs_tell();
}

/// So a derived function whose tokens are changed at runs to those of printed calls is a site, where each name of a call says what it has to,
/// the locals of a run that are named elsewhere are the variables that its call declares, and variables stay used (Go specification: Blocks,
/// Calls).
pub fn printed_calls_make_sites()
    ensures { (ts : List TokenKind) (a : Alone) (outer : Outer) (gaps : List Gap) (xs : List Change) (ss : List Site) (new : Alone) (calls : Gap → Call) → IsChangedFunction ts a gaps xs ss new
        → CallTreesAtSites gaps calls a.tree ss → CallsMean a outer gaps new calls → IsSite a outer gaps new }
{
    lists_tell_each_statement();
    replaced_runs_tell();
    changed_sites();
}

/// What a derived function tells of names falls in three parts: what stands in front of a run of its statements, what the run tells, and what
/// stands behind the run. What is declared in front is so in blocks that begin in front, and is in scope from a token in front on (Go
/// specification: Blocks, Declarations and scope).
pub fn runs_split_functions()
    ensures { (ts : List TokenKind) (a : Alone) (c : Copy) (q : Patch) → IsDerivedFunction ts a → InLists a.tree q → places a.tree q ≡ range c.from c.upto ∷ [] → SplitsAt a c }
{
    lists_tell_each_statement();
    replaced_runs_tell();
}

/// A derived function that begins with a copy of a run of a derived one is such a copy: what the old one tells falls in three parts, names
/// stand in the order of their tokens, the run's tokens keep their order and their texts, and both functions declare themselves and their
/// locals. What is left to ask is what the new function tells in the run and around it, and what depends on the choice (Go specification:
/// Blocks, Declarations and scope).
pub fn copies_are_derived()
    ensures { (ts us : List TokenKind) (a : Alone) (outer : Outer) (c : Copy) (new : Alone) → IsDerivedFunction ts a → IsDerivedFunction us new → (s : SplitsAt a c) → IsTaken a outer c new s → IsCopy a outer c new }
{
    lists_tell_each_statement();
}

/// A function whose body has the statements of a run of another one, with names in place of some expressions, tells in its body what the run
/// tells, at other tokens, and of each such name that it is looked up; and then what the statements behind them tell. Where no expression is
/// replaced, all that the run tells is copied. Where names stand in place of holes that declare none, and what tells where names are declared
/// stays, all outside the holes is copied, and in place of each hole one name is looked up (Go specification: Statement lists, Operands).
pub fn copied_runs_tell_in_bodies()
    ensures { (a new : Alone) (c : Copy) (s : SplitsAt a c) → (x : CopyStands a new c s) → CopyTold a new c s x }
{}

/// The printed signature of a function declares it and its parameters, and names types, which mean what no local is (Go specification:
/// Function declarations).
pub fn printed_signatures_tell()
    ensures { (new : Alone) (outer : Outer) (c : Copy) (e : ℕ) (xs ys : Trees) (split : BodySplits new c.body e xs ys) (h : Header) → SignatureStands new outer c e xs ys split h → SignatureTells new outer c e xs ys split }
{}

/// The printed return behind a copied run names parameters, and what the list of the run declares (Go specification: Return statements).
pub fn printed_returns_tell()
    ensures { (a new : Alone) (c : Copy) (run : List Event) (e : ℕ) (xs ys : Trees) (split : BodySplits new c.body e xs ys) (i : ℕ) (names : List (List ℕ)) → ReturnStands a new c run e xs ys split i names
        → ReturnTells a new c run (told_list split.context false ys) }
{}

/// So a derived function with the printed signature and return around a copied run, names in place of its holes, is such a copy. What is left
/// to ask depends on the choice: where its holes lie, which names its parameters have, what the names of the run mean, and that variables are
/// used (Go specification: Function declarations, Blocks).
pub fn printed_copies_are_derived()
    ensures { (ts us : List TokenKind) (a : Alone) (outer : Outer) (c : Copy) (new : Alone) → IsDerivedFunction ts a → IsDerivedFunction us new → (s : SplitsAt a c) (x : CopyStands a new c s) → IsPrintedCopy a outer c new s x
        → IsCopy a outer c new }
{
    lists_tell_each_statement();
}

/// Where a function has the texts of a run of another one, with one token in the place of each hole, the tokens of the run keep their order
/// and their texts, and in the place of a hole stands the text of its parameter.
pub fn copied_runs_are_placed()
    ensures { (a new : Alone) (c : Copy) → PlacesRun a new c → RunPlaced a new c }
{}

/// A derived function whose body has statements and others behind them tells what stands in front of the body, what the first statements
/// tell, and what the others tell (Go specification: Function declarations, Statement lists).
pub fn bodies_split_functions()
    ensures { (ts : List TokenKind) (a : Alone) (i j k e : ℕ) (s : Tree) (xs ys : Trees) → a.tree ≡ node kind.FunctionDeclaration i j (more s (more (node kind.Block k e (onto xs ys)) none)) → IsDerivedFunction ts a
        → BodySplits a k e xs ys }
{
    lists_tell_each_statement();
    lists_tell_one_behind_the_other();
}

/// A run that is replaced by a declaration and a call, and the copy of the run, worked out by hand; and what names mean where a run reuses a
/// variable that `:=` behind it reuses too, and where a field is spelled like a parameter.
pub fn examples()
    ensures { Examples }
{}
