//! Laws of a package with one function more, for the crates above. The functions do nothing: their contracts are the laws.

ghost use Rattle.std.specs.Prelude.{◌≡◌, ℕ, suc, ◌<◌, ◌≤◌, false, List, ◌∷◌, ◌++◌, length, map, None};
ghost use Rattle.std.specs.List.{AllByRecursion};
ghost use Rattle.go_tokens.specs.Tokens.{TokenList};
ghost use Rattle.go_tokens.specs.declared.token.TokenKind.{TokenKind};
ghost use Rattle.go_grammar.specs.declared.kind.Category.TheVariants as category;
ghost use Rattle.go_grammar.specs.declared.kind.Kind.TheVariants as kind;
ghost use Rattle.go_grammar.specs.Grammar.{IsFile, Derives};
ghost use Rattle.go_grammar.specs.Trees.{Tree, Trees, node, first, last};
ghost use Rattle.go_rewriting.specs.Places.{with_declaration};
ghost use Rattle.go_tree.specs.declared.event.Event.{Event};
ghost use Rattle.go_tree.specs.Contexts.{file_context};
ghost use Rattle.go_tree.specs.Events.{events, function_declared};
ghost use Rattle.go_tree.specs.Faults.{reported};
ghost use Rattle.go_tree.specs.Imports.{imports_fmt};
ghost use Rattle.go_tree.specs.Lookups.{asked_in};
ghost use Rattle.go_tree.specs.Meanings.{meanings};
ghost use Rattle.go_tokens.specs.Spellings.{same_text};
ghost use Rattle.go_scopes_events.specs.Orders.{EachDeclared};
ghost use Rattle.go_tree.specs.Units.{Unit, word, is_blank};
ghost use Rattle.go_heads_added.specs.Added.{IsAdded, LiesIn, NoneSays, KeepsAll, KeepsDeclared, AreEarlier, BlockWithin, gap_in, reaching};
ghost use Rattle.go_heads_added.specs.Appended.{AreAdded, HasNames, IsFront, IsParameterOf, IsParsed, TellsMore, context_behind, empty_function, unit_of};
ghost use Rattle.go_heads_added.specs.Examples.{Examples};
ghost use Rattle.go_heads_added.specs.Faults.{FunctionIsFine, FileIsWithin, MayBeAdded, MeansOuter};
ghost use Rattle.go_heads_added.specs.Kept.{KeepsPackage};
ghost use Rattle.go_heads_added.specs.Within.{EventWithin, IsOfFunction};
ghost use Rattle.go_heads_added.specs.Reported.{IsDerived, KeepsBytes, MayJoin, StaysPlaced};

use go_scopes_cycles::laws::declarations_bound_rounds;
use go_scopes_events::laws::{files_are_orderly, locals_stand_in_functions};

/// Behind a function that is appended to a file, and the name of which no token says, each token of the package means what it meant: the
/// objects of the package behind the function, and the functions behind it, have the next numbers; and the objects of the package are those
/// that there were, with the function between.
pub fn added_names()
    ensures objects { (k n : ℕ) (name : List ℕ) (old new : List Unit) (h : IsAdded k n name old new) → LiesIn k n name old new h → NoneSays name old
        → KeepsAll k n (gap_in k n name old new h) old new }
    ensures declared { (k n : ℕ) (name : List ℕ) (old new : List Unit) (h : IsAdded k n name old new) → LiesIn k n name old new h → NoneSays name old
        → KeepsDeclared k h.longer.end (gap_in k n name old new h) old new }
{}

/// Behind an appended function whose name no token says, and at which no rule fails, no rule on names fails that did not.
pub fn added_functions_fail_no_rule()
    ensures { (k n : ℕ) (name : List ℕ) (old new : List Unit) (h : IsAdded k n name old new) → LiesIn k n name old new h → NoneSays name old
        → FileIsWithin k n name old new h → FunctionIsFine k n name old new h → reported old ≡ None → reported new ≡ None }
{
    declarations_bound_rounds();
}

/// Behind an appended function whose name no token says, and at which no rule fails, the rules on names fail at the places where they failed,
/// so that the same fault is reported, or none: of clauses, of names declared twice, looked up or not used, of imports, of the limit on
/// statements, and of declarations that need themselves.
pub fn faults_of_names_stay()
    ensures { (k n : ℕ) (name : List ℕ) (old new : List Unit) (h : IsAdded k n name old new) → LiesIn k n name old new h → NoneSays name old
        → FileIsWithin k n name old new h → FunctionIsFine k n name old new h → StaysPlaced k n name old new h → reported new ≡ reported old }
{}

/// A file with a declaration behind all others tells what it told, to its own end, and then what that declaration tells. This holds of any
/// tree.
pub fn longer_files_tell_more()
    ensures { (i j end : ℕ) (ps : Trees) (d : Tree) → events (file_context end) (with_declaration (node kind.File i j ps) d end)
        ≡ map (reaching end) (events (file_context j) (node kind.File i j ps)) ++ events (context_behind end ps d) d }
{}

/// A function with an empty body tells that it is declared, and then nothing that declares anything but its parameters.
pub fn empty_functions_declare_parameters()
    ensures { (ts : List TokenKind) (end i j a b : ℕ) (s : Tree) (ps : Trees) → let d = empty_function i j s a b in Derives ts category.Declaration d
        → (es : List Event) × (events (context_behind end ps d) d ≡ function_declared i j ∷ es) × EachDeclared (IsParameterOf (last s)) es }
{}

/// What a function with an empty body tells, it tells of itself: names that it declares, names of its signature, and members of groups of it,
/// all of whose specifications and groups begin where it does or behind that.
pub fn empty_functions_tell_of_themselves()
    ensures { (ts : List TokenKind) (n end i j a b : ℕ) (s : Tree) (ps : Trees) → let d = empty_function i j s a b in Derives ts category.Declaration d → n ≤ i
        → AllByRecursion (IsOfFunction n) (events (context_behind end ps d) d) }
{}

/// Where a function with an empty body stands behind all declarations of a file, and the tokens in front of it say what they said, the file
/// tells what it told, to another end, and behind that what the function tells, which is its own declaration and those of its parameters.
pub fn appended_functions_make_files_longer()
    ensures { (k n i j end x y u v : ℕ) (a b : TokenList) (ts : List TokenKind) (ps : Trees) (s : Tree) → let d = empty_function x y s u v in let t = node kind.File i j ps in
        IsFront n a b → Derives ts category.Declaration d → n ≤ x → TellsMore k n (word b (suc x)) (unit_of a t) (unit_of b (with_declaration t d end)) }
{}

/// The names that a file declares or looks up stand in front of its end.
pub fn names_stand_in_files()
    ensures { (ts : List TokenKind) (t : Tree) (n : ℕ) → IsFile ts t → last t ≡ n → AreEarlier n (events (file_context (last t)) t) }
{}

/// The blocks in which a file declares names begin in front of its end.
pub fn blocks_begin_in_files()
    ensures { (ts : List TokenKind) (t : Tree) (n : ℕ) → IsFile ts t → last t ≤ n → EachDeclared (λ d. BlockWithin n d.block) (events (file_context (last t)) t) }
{}

/// What a file tells of names, imports, members and missing bodies is of tokens in front of its end.
pub fn events_stand_in_files()
    ensures { (ts : List TokenKind) (t : Tree) (n : ℕ) → IsFile ts t → last t ≤ n → AllByRecursion (EventWithin n) (events (file_context (last t)) t) }
{}

/// A file with a declaration behind all others, the tokens in front of which say what they said, imports what it imported.
pub fn longer_files_import_the_same()
    ensures { (ts us : List TokenKind) (i j n end : ℕ) (a b : TokenList) (ps : Trees) (d : Tree) → let t = node kind.File i j ps in
        IsFile ts t → last t ≤ n → Derives us category.Declaration d → IsFront n a b
        → imports_fmt b (events (file_context end) (with_declaration t d end)) ≡ imports_fmt a (events (file_context j) t) }
{}

/// A package in which a function with an empty body and a name stands behind all declarations of a file, and the other files are as they
/// were, is one with a function more, whose names, blocks and locals lie so that names mean what they meant.
pub fn appended_functions_are_added()
    ensures { (k j end x y u v : ℕ) (a b : TokenList) (ts us : List TokenKind) (ps : Trees) (s : Tree) (before behind : List Unit) → let d = empty_function x y s u v in
        let t = node kind.File 0 j ps in length before ≡ k → AllByRecursion IsParsed before → AllByRecursion IsParsed behind → IsFile ts t → HasNames (unit_of a t)
        → IsFront j a b → Derives us category.Declaration d → j ≤ x → is_blank (word b (suc x)) ≡ false
        → AreAdded k j (word b (suc x)) (before ++ unit_of a t ∷ behind) (before ++ unit_of b (with_declaration t d end) ∷ behind) }
{
    locals_stand_in_functions();
    longer_files_import_the_same();
}

/// Where the files of a package are derived, and no rule on names fails, none fails behind a function with an empty body that is appended to
/// one of them, whose name no token says, and at which no rule fails.
pub fn appended_functions_fail_no_rule()
    ensures { (k j end x y u v : ℕ) (a b : TokenList) (ts us : List TokenKind) (ps : Trees) (s : Tree) (before behind : List Unit) → let d = empty_function x y s u v in
        let t = node kind.File 0 j ps in let old = before ++ unit_of a t ∷ behind in let new = before ++ unit_of b (with_declaration t d end) ∷ behind in
        let name = word b (suc x) in length before ≡ k → AllByRecursion IsParsed before → AllByRecursion IsParsed behind → IsFile ts t → HasNames (unit_of a t)
        → IsFront j a b → Derives us category.Declaration d → j ≤ x → is_blank name ≡ false
        → NoneSays name old → MayBeAdded k j name b (events (context_behind end ps d) d) new → reported old ≡ None → reported new ≡ None }
{
    locals_stand_in_functions();
    longer_files_import_the_same();
    declarations_bound_rounds();
}

/// Where the files of a package are derived, the same fault of names is reported behind such a function as before, or none, where the names of
/// its signature mean objects of the package or predeclared ones; and the tokens in front of it stand at the bytes where they stood.
pub fn appended_functions_keep_the_reported_fault()
    ensures { (k j end x y u v : ℕ) (a b : TokenList) (ts us : List TokenKind) (ps : Trees) (s : Tree) (before behind : List Unit) → let d = empty_function x y s u v in
        let t = node kind.File 0 j ps in let old = before ++ unit_of a t ∷ behind in let new = before ++ unit_of b (with_declaration t d end) ∷ behind in
        let name = word b (suc x) in let told = events (context_behind end ps d) d in length before ≡ k → AllByRecursion IsDerived before → AllByRecursion IsDerived behind → IsFile ts t
        → IsFront j a b → KeepsBytes j a b → Derives us category.Declaration d → j ≤ x → is_blank name ≡ false
        → NoneSays name old → MayJoin k name s b told new → reported new ≡ reported old }
{
    locals_stand_in_functions();
    longer_files_import_the_same();
    declarations_bound_rounds();
    files_are_orderly();
}

/// Where the files of a package are derived, and a function with an empty body is appended to one of them whose name no token says, each token
/// means what it meant, and the declarations need what they needed, with the function between.
pub fn appended_functions_keep_the_package()
    ensures { (k j end x y u v : ℕ) (a b : TokenList) (ts us : List TokenKind) (ps : Trees) (s : Tree) (before behind : List Unit) → let d = empty_function x y s u v in
        let t = node kind.File 0 j ps in let old = before ++ unit_of a t ∷ behind in let new = before ++ unit_of b (with_declaration t d end) ∷ behind in
        length before ≡ k → AllByRecursion IsParsed before → AllByRecursion IsParsed behind → IsFile ts t → HasNames (unit_of a t)
        → IsFront j a b → Derives us category.Declaration d → j ≤ x → is_blank (word b (suc x)) ≡ false
        → NoneSays (word b (suc x)) old → KeepsPackage k j (suc x) old new }
{
    locals_stand_in_functions();
    longer_files_import_the_same();
}

/// The names of the signature of such a function mean what is declared elsewhere, where no token of the signature says the function's name:
/// the scopes of its parameters begin behind them (Go specification: Declarations and scope).
pub fn signatures_mean_what_is_declared_elsewhere()
    ensures { (k j end x y u v : ℕ) (a b : TokenList) (ts us : List TokenKind) (ps : Trees) (s : Tree) (before behind : List Unit) → let d = empty_function x y s u v in
        let t = node kind.File 0 j ps in let old = before ++ unit_of a t ∷ behind in let new = before ++ unit_of b (with_declaration t d end) ∷ behind in
        let name = word b (suc x) in length before ≡ k → AllByRecursion IsParsed before → AllByRecursion IsParsed behind → IsFile ts t → HasNames (unit_of a t)
        → IsFront j a b → Derives us category.Declaration d → j ≤ x → is_blank name ≡ false → NoneSays name old
        → ((i : ℕ) → first s ≤ i → i < last s → same_text name (word b i) ≡ false)
        → AllByRecursion (λ o. MeansOuter k j o.meaning) (asked_in (meanings new) k b (events (context_behind end ps d) d)) }
{
    locals_stand_in_functions();
    longer_files_import_the_same();
}

/// A worked example: a file with a function more, its tree, and what it tells.
pub fn examples()
    ensures { Examples }
{}
