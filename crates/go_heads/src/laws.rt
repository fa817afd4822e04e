//! Laws, for the crates above. The functions do nothing: their contracts are the laws.

ghost use Rattle.std.specs.Prelude.{◌≡◌, ℕ, ◌⊎◌, true, List, Some, is_some, slice_get, None};
ghost use Rattle.go_heads.specs.Heads.{File, IsRead, body_of, heads, head_of};
ghost use Rattle.go_heads.specs.Functions.{Function, AreRead, HasOutline, KeepsFunctions, IsTouched, IsUntouched, all_declarations, all_functions, outlines, body_texts};
ghost use Rattle.go_heads.specs.Objects.{KeepsObjects, units_of};
ghost use Rattle.go_heads.specs.Told.{told_outside};
ghost use Rattle.go_heads.specs.Lookups.{KeepsLookups};
ghost use Rattle.go_heads.specs.Meanings.{KeepsMeanings};
ghost use Rattle.go_grammar.specs.Trees.{Tree, parts};
ghost use Rattle.go_tree.specs.Lists.{functions};
ghost use Rattle.go_heads.specs.Bodies.{TellsByItself};
ghost use Rattle.go_heads.specs.Names.{DeclaresByItself};
ghost use Rattle.go_tree.specs.Uses.{uses};
ghost use Rattle.go_heads.specs.Locals.{AreNamed, SameLocals, all_locals};
ghost use Rattle.go_tree.specs.Faults.{reported};
ghost use Rattle.go_heads.specs.FunctionNames.{function_name};
ghost use Rattle.go_heads.specs.Tokens.{KeepsTokens};

use go_scopes_events::laws::functions_are_told_in_order;

/// The tokens outside the bodies of functions are a file, whose tree is the old one without the bodies.
pub fn files_have_outlines()
    ensures { (f : File) → IsRead f → HasOutline f }
{}

/// Files with equal heads have the same tree without the bodies.
pub fn heads_tell_outlines()
    ensures { (old new : List File) → AreRead old → AreRead new → heads old ≡ heads new → outlines new ≡ outlines old }
{}

/// Packages with equal heads have the same functions under the same numbers.
pub fn functions_keep_their_numbers()
    ensures { (old new : List File) → AreRead old → AreRead new → heads old ≡ heads new → KeepsFunctions old new }
{}

/// A function with a body is touched, or it is the same by itself, under its old number.
pub fn functions_are_touched_or_the_same()
    ensures { (old new : List File) → AreRead old → AreRead new → (n : ℕ) (g : Function) → slice_get (all_functions new) n ≡ Some g → is_some (body_of g.tree) ≡ true → IsTouched (Some old) new n ⊎ IsUntouched old new n }
{}

/// In packages with equal heads the imports and the declarations are the same, each by itself and without its body.
pub fn declarations_stay()
    ensures { (old new : List File) → AreRead old → AreRead new → heads old ≡ heads new → all_declarations new ≡ all_declarations old }
{}

/// Files with equal heads tell the same of names outside the bodies of functions, at the places of the head.
pub fn heads_tell_names()
    ensures { (old new : File) → IsRead old → IsRead new → head_of old ≡ head_of new → told_outside new ≡ told_outside old }
{}

/// Packages with equal heads have the same objects under the same numbers: each is declared as the same, at the same place of the
/// head, and by the same name.
pub fn objects_keep_their_numbers()
    ensures { (old new : List File) → AreRead old → AreRead new → heads old ≡ heads new → KeepsObjects old new }
{}

/// In packages with equal heads tokens outside the bodies of functions, at one place of the heads, have the same text, and as a name
/// it means the same there: the object of the package of the same number, the same predeclared name, fmt, or nothing (Go
/// specification: Declarations and scope).
pub fn names_keep_their_meanings()
    ensures { (old new : List File) → AreRead old → AreRead new → heads old ≡ heads new → KeepsMeanings old new }
{}

/// In packages with equal heads the names that are looked up outside the bodies of functions are the same, and each has the same
/// object: that of the package of the same number, the same predeclared name, fmt, or none.
pub fn names_keep_their_objects()
    ensures { (old new : List File) → AreRead old → AreRead new → heads old ≡ heads new → KeepsLookups old new }
{
    heads_tell_names();
}

/// What a function has to do with names in its file follows from its own tokens: it is what it has to do with them by itself, so many
/// tokens further on.
pub fn functions_tell_by_themselves()
    ensures { (fs : List File) → AreRead fs → (n : ℕ) (f : Function) → slice_get (all_functions fs) n ≡ Some f → TellsByItself f }
{}

/// Of the names of a function those that its package declares are those that the function declares by itself: which names before `:=`
/// are new follows from its own tokens (Go specification: Short variable declarations).
pub fn functions_declare_by_themselves()
    ensures { (fs : List File) → AreRead fs → (n : ℕ) (f : File) → slice_get fs n ≡ Some f → (i : ℕ) (t : Tree) → slice_get (functions (parts f.tree)) i ≡ Some t → DeclaresByItself fs n f t }
{}

/// The locals of a package are, function by function, those that each function declares by itself, so many tokens further on.
pub fn locals_follow_from_functions()
    ensures { (fs : List File) → AreRead fs → AreNamed fs → (uses (units_of fs)).locals ≡ all_locals 0 fs }
{}

/// In packages with equal heads the functions of one number whose bodies have the same texts have the same locals, counted from the
/// functions' first tokens.
pub fn locals_stay()
    ensures { (old new : List File) → AreRead old → AreRead new → AreNamed old → AreNamed new → heads old ≡ heads new → (k : ℕ) (f g : Function)
        → slice_get (all_functions old) k ≡ Some f → slice_get (all_functions new) k ≡ Some g → body_texts g ≡ body_texts f → SameLocals old new k f g }
{
    functions_keep_their_numbers();
}

/// Where no fault of names is reported, no function has the blank name (Go specification: Blank identifier).
pub fn functions_have_names()
    ensures { (fs : List File) → AreRead fs → reported (units_of fs) ≡ None → AreNamed fs }
{
    functions_are_told_in_order();
}

/// Where no fault of names is reported, functions of one name are one (Go specification: Declarations and scope).
pub fn functions_have_their_own_names()
    ensures { (fs : List File) → AreRead fs → reported (units_of fs) ≡ None → (k l : ℕ) (f g : Function)
        → slice_get (all_functions fs) k ≡ Some f → slice_get (all_functions fs) l ≡ Some g → function_name g ≡ function_name f → k ≡ l }
{
    functions_are_told_in_order();
    functions_have_names();
    locals_follow_from_functions();
}

/// In packages with equal heads, where no fault of names is reported of the first, functions of one name have one number.
pub fn names_tell_the_numbers_of_functions()
    ensures { (old new : List File) → AreRead old → AreRead new → heads old ≡ heads new → reported (units_of old) ≡ None → (k l : ℕ) (f g : Function)
        → slice_get (all_functions old) k ≡ Some f → slice_get (all_functions new) l ≡ Some g → function_name g ≡ function_name f → k ≡ l }
{
    functions_keep_their_numbers();
    functions_have_their_own_names();
}

/// In packages with equal heads, where the texts of a function's body are the same, each token of the function means the same, counted
/// from its first one: the object of the package of the same number, the same predeclared name, fmt, the local of the same number of the
/// function of the same number, or nothing (Go specification: Declarations and scope).
pub fn tokens_keep_their_objects()
    ensures { (old new : List File) → AreRead old → AreRead new → AreNamed old → AreNamed new → heads old ≡ heads new → (k : ℕ) (f g : Function)
        → slice_get (all_functions old) k ≡ Some f → slice_get (all_functions new) k ≡ Some g → body_texts g ≡ body_texts f → KeepsTokens old new k f g }
{
    functions_keep_their_numbers();
}
