//! Laws of lexing, for the crates above.

ghost use Rattle.std.specs.Prelude.{◌≡◌, ℕ, List, [], true, slice_get, slice_range};
ghost use Rattle.std.specs.Str.{IsUtf8, chars, encode_utf8_all};
ghost use Rattle.std.specs.List.{list_all};
ghost use Rattle.go_base.specs.declared.Span.{Span};
ghost use Rattle.go_base.specs.declared.Fault.{Fault};
ghost use Rattle.go_tokens.specs.declared.token.Token.{Token};
ghost use Rattle.go_tokens.specs.Literals.{is_integer, is_one, rune_elements};
ghost use Rattle.go_tokens.specs.Pieces.{is_piece, is_good};
ghost use Rattle.go_tokens.specs.Lexing.{join, Cut, tokens, comments, Lexes};
ghost use Rattle.go_tokens.specs.Files.{IsLexing, IsFault, HasToken};
ghost use Rattle.go_tokens.specs.Replacing.{Part, Fits, NewLexing, old_pieces};
ghost use Rattle.go_tokens.specs.Examples.{Examples};
ghost use Rattle.go_tokens.specs.Editing.{Edits, old_text, Allows, EditedLexing, AreFileEdits, all_apart, has_no_line};

use crate::token::TokenKind;

/// What lexing says of some texts, worked out by hand.
pub fn examples()
    ensures { Examples }
{}

/// A file has at most one lexing.
pub fn one_lexing()
    ensures { (file : ℕ) (bytes : List ℕ) (ts us : List Token) (cs ds : List Span) → IsLexing file bytes ts cs → IsLexing file bytes us ds → (ts ≡ us) × (cs ≡ ds) }
{}

/// A file with a lexing has no fault, and each file has at most one.
pub fn one_fault()
    ensures same { (file : ℕ) (bytes : List ℕ) (f g : Fault) → IsFault file bytes f → IsFault file bytes g → f ≡ g }
    ensures none { (file : ℕ) (bytes : List ℕ) (ts : List Token) (cs : List Span) (f : Fault) → IsLexing file bytes ts cs → IsFault file bytes f → ⊥ }
{}

/// Where ranges of pieces are replaced, and text is appended, the tokens are the old ones with those ranges replaced.
pub fn replaced_ranges()
    ensures { (file : ℕ) (parts : List Part) (tail : List (List ℕ)) (ts : List Token) (cs : List Span) → Lexes file (join (old_pieces parts)) ts cs → Cut (old_pieces parts) [] → Fits parts tail → NewLexing file parts tail ts }
{}

/// The same by the places of tokens: a text with a lexing, of which ranges from a token to a token are replaced by texts
/// that stand alone.
pub fn edited_text()
    ensures { (file : ℕ) (edits : Edits) (tail : List ℕ) (ts : List Token) (cs : List Span) → Lexes file (old_text edits) ts cs → Allows file ts 0 edits tail → EditedLexing file edits tail ts }
{}

/// The same for the bytes of a file.
pub fn edited_file()
    ensures { (file : ℕ) (edits : Edits) (tail old new : List ℕ) (ts : List Token) (cs : List Span) → AreFileEdits file edits tail old new ts cs → (e : EditedLexing file edits tail ts) × IsLexing file new e.tokens e.comments }
{}

/// Pieces without a defect of which no neighbours join, and none is a line comment, are read again as those pieces.
pub fn assembled_text()
    ensures { (file : ℕ) (ps : List (List ℕ)) → list_all is_piece ps ≡ true → list_all is_good ps ≡ true → has_no_line ps ≡ true → all_apart ps ≡ true → Lexes file (join ps) (tokens file 0 ps true) (comments file 0 ps) }
{}

/// What the texts of literals are, so that the contracts of `value` tell their values: an integer's bytes are its
/// characters and an integer literal, a rune's and a string's are UTF-8, and a rune has one character or escape.
pub fn literals()
    ensures integer { (bytes spelled : List ℕ) → HasToken bytes TokenKind.Integer spelled → is_integer spelled ≡ true }
    ensures rune { (bytes spelled : List ℕ) → HasToken bytes TokenKind.Rune spelled → IsUtf8 spelled × (is_one (rune_elements (chars spelled)) ≡ true) }
    ensures text { (bytes spelled : List ℕ) → HasToken bytes TokenKind.Text spelled → IsUtf8 spelled }
    ensures ascii { (text : List ℕ) → is_integer text ≡ true → encode_utf8_all text ≡ text }
{}
