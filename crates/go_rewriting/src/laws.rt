//! Laws, for the crates above. The functions do nothing: their contracts are the laws.

ghost use Rattle.std.specs.Prelude.{◌≡◌, ◌+◌, ◌≤◌, ℕ, true, List, ◌++◌, Some, slice_get, length};
ghost use Rattle.go_tokens.specs.declared.token.TokenKind.{TokenKind};
ghost use Rattle.go_grammar.specs.declared.kind.Category.{Category};
ghost use Rattle.go_grammar.specs.Grammar.{Derives, IsFile};
ghost use Rattle.go_grammar.specs.Rules.{Items, item};
ghost use Rattle.go_grammar.specs.Trees.{Tree, Trees, first, last, depth};
ghost use Rattle.go_grammar.specs.declared.kind.Level.{Level};
ghost use Rattle.go_grammar.specs.Categories.{place_of};
ghost use Rattle.go_rewriting.specs.Replacing.{subtree_at, takes_level, moved, Run};
ghost use Rattle.go_rewriting.specs.Endings.{ends_well, Ending};
ghost use Rattle.go_rewriting.specs.Lists.{Subtree, NewRun, NewRunFits, IsRun, RunStands, no_clause, Elsewhere, in_block, in_clause, AllAlike};
ghost use Rattle.go_rewriting.specs.Sites.{Site, patch_of, with_sites, AllWithin, all_clear, AreSites, IsChange, NewText, NewTextFits};
ghost use Rattle.go_rewriting.specs.Places.{carry, carries, become, Outside, Ascending, Stays, agreed, Change, changed, moved_by, ranges, Stand, with_declaration, IsDeclaration};
ghost use Rattle.go_rewriting.specs.DerivationExamples.{DerivationExamples};
ghost use Rattle.go_tokens.specs.declared.token.Token.{Token};
ghost use Rattle.go_tokens.specs.Spellings.{ends_statement_kind};
ghost use Rattle.go_tokens.specs.Tokens.{kinds};
ghost use Rattle.go_tokens.specs.Lexing.{Lexes};
ghost use Rattle.go_rewriting.specs.Excerpts.{Part, IsPart, ExcerptOf, ItemsInside, TextInside, ItemsStand, TextStands};
ghost use Rattle.go_rewriting.specs.Rewriting.{Rewrite, IsRange, sites_alone, new_tree, agreeing, Rewriting, before, HasTexts, HasTail, IsWellFormed, HasNewTokens, HasNewTree, IsDeclarationRewriting, NewDeclaration, FileRewriting, IsFileWellFormed, HasNewFile};
ghost use Rattle.go_rewriting.specs.TextExamples.{Examples};

/// Trees of two texts in which parts were replaced, worked out by hand.
pub fn derivation_examples()
    ensures { DerivationExamples }
{}

/// Where places of a tree are replaced at once, each found by a path, and each new text is one of what is asked for there, the new
/// tokens have the tree with these texts in their places and all else moved.
///
/// A caller gives, for each change, the path to the subtree or to the node with the run, in the order of the tokens, and that
/// its new text fits there, by `a_new_text_fits` and `a_new_run_fits`. That the nodes on the way agree with their parts is told
/// by `clear_sites_agree` and `alike_sites_agree`.
pub fn changed_sites()
    ensures { (ts : List TokenKind) (xs : List Change) (c : Category) (t : Tree) (ss : List Site) → Derives ts c t → AreSites ts xs c t ss → Derives (changed xs ts) c (with_sites xs ss t) }
{}

/// The same for a file; `extended_file` puts a declaration behind it.
pub fn changed_sites_of_a_file()
    ensures { (ts : List TokenKind) (xs : List Change) (t : Tree) (ss : List Site) → IsFile ts t → AreSites ts xs Category.File t ss → depth (with_sites xs ss t) ≤ 101 → IsFile (changed xs ts) (with_sites xs ss t) }
{}

/// A file gets one more declaration at its end, of which the words are `ws`, a semicolon behind it included.
pub fn extended_file()
    ensures { (ts ws : List TokenKind) (t d : Tree) → IsFile ts t → IsDeclaration ws d → IsFile (ts ++ ws) (with_declaration t (carry (λ n. length ts + n) d) (length (ts ++ ws))) }
{}

/// A new text fits that is one of what is asked for over its own words, with `ws` behind them.
pub fn a_new_text_fits()
    ensures { (ts : List TokenKind) (xs : List Change) (n : ℕ) (x : Change) (ws : List TokenKind) → IsChange ts xs n x ws → (c : Category) (t u : Tree) → NewText x ws c t u → NewTextFits ts xs x c t u }
{}

/// The same for a new run of items, behind so many parts of a node in place of one and so many more.
pub fn a_new_run_fits()
    ensures { (ts : List TokenKind) (xs : List Change) (n : ℕ) (x : Change) (ws : List TokenKind) → IsChange ts xs n x ws → (c : Category) (t : Tree) (f m : ℕ) (new : Trees) → NewRun x ws c t f m new → NewRunFits ts xs x c t f m new }
{}

/// An expression of a level is one of each looser level, and stands where expressions of the same place may stand; so an
/// operand may replace any expression.
pub fn operands_stand_for_expressions()
    ensures { (ts : List TokenKind) (l : Level) (c : Category) (t : Tree) → Derives ts (Category.Expression l (place_of c)) t → takes_level l c ≡ true → Derives ts c t }
{}

/// The nodes on the way agree with their parts where none of them is of a kind of which more is asked, or only a part changes of
/// which it is not.
pub fn clear_sites_agree()
    ensures { (ts : List TokenKind) (m : ℕ → ℕ) (c : Category) (t : Tree) (ss : List Site) → Derives ts c t → all_clear t ss ≡ true → agreed m t (patch_of ss) ≡ true }
{}

/// They also do where each tree that is replaced gets an alike one, as a name another name.
pub fn alike_sites_agree()
    ensures { (ts : List TokenKind) (m : ℕ → ℕ) (c : Category) (t : Tree) (ss : List Site) → Derives ts c t → AllAlike t ss → agreed m t (patch_of ss) ≡ true }
{}

/// The new tree has at most `d` levels where the old one does and each new text does, with the nodes above it.
pub fn changed_sites_keep_a_depth()
    ensures { (m : ℕ → ℕ) (t : Tree) (ss : List Site) (d : ℕ) → depth t ≤ d → AllWithin d t ss → depth (become m t (patch_of ss)) ≤ d }
{}

/// After changes that lie one behind the other, each token outside them stays.
pub fn unchanged_tokens_stay()
    ensures { (ts : List TokenKind) (xs : List Change) (n : ℕ) → Ascending 0 (ranges xs) (length ts) → Outside n (ranges xs) → Stays ts (changed xs ts) (moved_by xs) n }
{}

/// And the words of each change stand at its moved place, up to the moved place of its end.
pub fn new_words_stand()
    ensures { (ts : List TokenKind) (xs : List Change) (n : ℕ) (x : Change) → Ascending 0 (ranges xs) (length ts) → slice_get xs n ≡ Some x → Stand (changed xs ts) (moved_by xs) x }
{}

/// What stands at the end of a path is a derivation of the category that is asked for there, and lies inside the tree with its
/// parts one behind the other; so each node of a tree at whatever depth has a token at least, and trees tile their tokens.
pub fn subtrees_stand()
    ensures { (ts : List TokenKind) (c : Category) (t s : Tree) (path : List ℕ) → Derives ts c t → subtree_at path t ≡ Some s → Subtree ts c t path s }
{}

/// Adjoining items of a list are a run, from the first token of the first up to behind the last one of the last.
pub fn items_stand()
    ensures { (ts : List TokenKind) (c : Category) (t : Tree) (f n : ℕ) (list : Items) → IsRun ts c t f n list → RunStands ts t f n list }
{}

/// A text that is no clause stands also where the same tokens stand and another one is behind them, but for an opening brace and
/// what a result begins with.
pub fn text_stands_elsewhere()
    ensures { (ts us : List TokenKind) (i j to : ℕ) → Elsewhere ts us i j to → (c : Category) (t : Tree) → no_clause c ≡ true → i ≤ first t → last t ≤ j → Derives ts c t → Derives us c (carry (moved i to) t) }
{}

/// The same for a run of items: so statements with a closing brace behind them stand before a semicolon too.
pub fn run_stands_elsewhere()
    ensures { (ts us : List TokenKind) (i j to : ℕ) → Elsewhere ts us i j to → (l : Items) (new : Trees) → no_clause (item l) ≡ true → Run ts l new i j → Run us l (carries (moved i to) new) to (moved i to j) }
{}

/// Statements of a block are statements of a clause, and the other way round.
pub fn statements_stand_in_both()
    ensures clause { (ts : List TokenKind) (new : Trees) (a b : ℕ) → Run ts in_block new a b → Run ts in_clause new a b }
    ensures block { (ts : List TokenKind) (new : Trees) (a b : ℕ) → Run ts in_clause new a b → Run ts in_block new a b }
{}

/// A statement, an expression and the like end with a token behind which a semicolon is inserted at a line's end; and so does a
/// run of statements. So one may take the place of another at a line's end.
pub fn texts_end_well()
    ensures text { (ts : List TokenKind) (c : Category) (t : Tree) → ends_well c ≡ true → Derives ts c t → Ending ts (last t) }
    ensures run { (ts : List TokenKind) (l : Items) (new : Trees) (a b : ℕ) → ends_well (item l) ≡ true → Run ts l new a b → Ending ts b }
{}

/// Texts, tokens and trees of eight worked examples: calls in place of statements, excerpts, new functions, holes, names, a
/// parameter, a switch, and windows.
pub fn examples()
    ensures { Examples }
{}

/// Where ranges of a file are replaced and nothing or a declaration is appended, the new bytes have the lexing and the tree that
/// the new texts make of the old ones. What is asked is asked of each new text by itself and of its neighbours
/// (`IsFileRewriting`).
pub fn rewritten_file()
    ensures { (f : FileRewriting) → IsFileWellFormed f → HasNewFile f }
{}

/// The same of the text of a declaration: the new text is that of a declaration too, and may be appended to a file.
pub fn rewritten_declaration()
    ensures { (w : Rewriting) → IsDeclarationRewriting w → NewDeclaration w.file w.tokens w.tree w.ranges w.rest }
{}

/// The same of any text with a tree.
pub fn rewritten_text()
    ensures { (c : Category) (w : Rewriting) → IsWellFormed c w → HasTail w → HasNewTokens w × HasNewTree c w }
{}

/// And of tokens alone: the new ones are the old ones with the ranges replaced by the tokens that the new texts have alone, and
/// behind them those of what is appended.
pub fn rewritten_tokens()
    ensures { (w : Rewriting) → Lexes w.file (before w) w.tokens w.comments → HasTexts w → HasTail w → HasNewTokens w }
{}

/// Nodes on the way agree with their parts where each new text is below nodes of which no more is asked, or below a part of
/// which it is not.
pub fn clear_rewrites_agree()
    ensures { (ts : List TokenKind) (c : Category) (t : Tree) (rs : List Rewrite) → Derives ts c t → all_clear t (sites_alone rs) ≡ true → agreeing rs t ≡ true }
{}

/// They also do where each range gets an alike tree, as where names are replaced by names.
pub fn alike_rewrites_agree()
    ensures { (ts : List TokenKind) (c : Category) (t : Tree) (rs : List Rewrite) → Derives ts c t → AllAlike t (sites_alone rs) → agreeing rs t ≡ true }
{}

/// The new tree has at most `d` levels where the old one does and each new text does, with the nodes above it.
pub fn rewrites_keep_a_depth()
    ensures { (t : Tree) (rs : List Rewrite) (d : ℕ) → depth t ≤ d → AllWithin d t (sites_alone rs) → depth (new_tree rs t) ≤ d }
{}

/// A range that is all of a statement, a run of statements, an expression or the like (`texts_end_well`) ends with a token behind
/// which a semicolon is inserted at a line's end.
pub fn ranges_end_well()
    ensures { (ts : List Token) (from upto start end : ℕ) (r : IsRange ts from upto start end) → Ending (kinds ts) upto → ends_statement_kind r.last.kind ≡ true }
{}

/// The text from a token of a text up to the end of a later one has these tokens when it stands alone, comments inside
/// included, and a semicolon at its end where its last token ends a statement; so it may be copied into another text.
pub fn excerpts_stand()
    ensures { (p : Part) (h : IsPart p) → ExcerptOf p h.range.last }
{}

/// Items of a list, as statements, that an excerpt holds are items over the excerpt alone, before whatever token is none of
/// those that could change them; so they may be copied into another list.
pub fn copied_items_stand()
    ensures { (p : Part) (last : Token) (e : ExcerptOf p last) (l : Items) (new : Trees) (next : List TokenKind) → ItemsInside p l new next → ItemsStand p last e l new next }
{}

/// The same for a text that is no clause, as an expression.
pub fn copied_texts_stand()
    ensures { (p : Part) (last : Token) (e : ExcerptOf p last) (c : Category) (t : Tree) (next : List TokenKind) → TextInside p c t next → TextStands p last e c t next }
{}
