//! Laws of what is read of scopes. These functions do nothing: their contracts are what holds.
ghost use Rattle.std.specs.Prelude.{◌≡◌, ℕ, ◌<◌, ◌++◌, Bool, true, List, Option, Some, None, length, replicate};
ghost use Rattle.std.specs.List.{AllByRecursion};
ghost use Rattle.go_grammar.specs.Trees.{Tree, last};
ghost use Rattle.go_tree.specs.declared.context.Entity.{Entity};
ghost use Rattle.go_tree.specs.declared.object.Object.{Object};
ghost use Rattle.go_types.specs.Relations.{Rights};
ghost use Rattle.go_exprs_rules.specs.Scopes.{Scope, Hint};
ghost use Rattle.go_stmts_defs.specs.Bodies.{body_answer};
ghost use Rattle.go_stmts_defs.specs.Frames.{Frame};
ghost use Rattle.go_stmts_defs.specs.Reading.{reading};
ghost use Rattle.go_package_defs.specs.Answer.{specifications};
ghost use Rattle.go_package_defs.specs.Bodies.{Surroundings, based_tree, count_types, function_in, function_over, local_type, own_object, portion_of, those_of, typed_function, types_in, variable_of, variables_by};
ghost use Rattle.go_package_defs.specs.Declarations.{Specification};
ghost use Rattle.go_package_defs.specs.Sources.{Package, Source};
ghost use Rattle.go_package_alike.specs.Frames.{MaybeTokens, SameFrames, SameReadings};
ghost use Rattle.go_package_alike.specs.Portions.{IsDerived, IsOver, IsWhole, SaysPortion, width};
ghost use Rattle.go_package_alike.specs.Scopes.{AllTokens, IsTypedSame, MeanSame, SaySame, StandSame, said};

/// Where objects stand for the same, equal ones mean the same, whichever function a local is of.
pub fn equal_objects_mean_the_same()
    ensures { (s t : Scope) → StandSame s t → (o q : Option Object) → own_object q ≡ own_object o → MeanSame (said s) (said t) o q }
{}

/// In two scopes that say the same at the tokens of an expression or a type it is typed the same, and the same rules fail in it.
pub fn expressions_follow_from_their_tokens()
    ensures { (p : ℕ → Bool) (s t : Scope) (h : Hint) (x : Tree) → SaySame p s t → AllTokens p x → IsTypedSame s t h x }
{}

/// The same of statements, declarations and bodies, and of what is known behind them.
pub fn statements_follow_from_their_tokens()
    ensures { (p : ℕ → Bool) (f g : Frame) (h : Hint) (x : Tree) → SameFrames p f g → AllTokens p x → SameReadings p (reading f h x) (reading g h x) }
{}

/// In two scopes that say the same at the tokens of a function it is the same with its types, or the same fault is reported.
pub fn functions_follow_from_their_tokens()
    ensures function { (p : ℕ → Bool) (s t : Scope) (number count : ℕ) (types : ℕ → ℕ) (x : Tree) →
        SaySame p s t → ((i : ℕ) → i < last x → p i ≡ true) → AllTokens p x → function_in t number count types x ≡ function_in s number count types x }
    ensures body { (p : ℕ → Bool) (s t : Scope) (number count : ℕ) (types : ℕ → ℕ) (x : Tree) →
        SaySame p s t → ((i : ℕ) → i < last x → p i ≡ true) → AllTokens p x → body_answer t number count types x ≡ body_answer s number count types x }
    ensures variables { (p : ℕ → Bool) (s t : Scope) (x : Option Tree) → SaySame p s t → MaybeTokens p x → variables_by t x ≡ variables_by s x }
{}

/// Functions and variables are with their types what the definition makes of the texts and objects of their own tokens, in each scope
/// that says the same as the package at these.
pub fn portions_say_what_scopes_say()
    ensures function { (p : Package) (a : Surroundings) (rights : Rights) (number : ℕ) (which : List Bool) (d : Specification) (s : Scope) (x : Tree) →
        SaysPortion p a (rights ++ replicate (count_types which) None) d s → IsOver (width d) (Some x) →
        function_over a rights number which (portion_of p d) x ≡ function_in s number (length which) (local_type (length rights) which) x }
    ensures typed { (p : Package) (a : Surroundings) (rights : Rights) (number : ℕ) (d : Specification) (s : Scope) (x : Tree) →
        SaysPortion p a (rights ++ replicate (count_types (types_in p number)) None) d s → IsWhole d → based_tree d.first d.tree ≡ Some x →
        typed_function p a rights number d ≡ function_in s number (length (types_in p number)) (local_type (length rights) (types_in p number)) x }
    ensures variable { (p : Package) (a : Surroundings) (rights : Rights) (d : Specification) (s : Scope) →
        SaysPortion p a rights d s → IsWhole d → variable_of a rights (portion_of p d) ≡ variables_by s (based_tree d.first d.tree) }
{}

/// The declarations of files that are derivations over their tokens are read by their own tokens.
pub fn declarations_have_their_tokens()
    ensures { (n : ℕ) (ss : List Source) (e : Entity) → AllByRecursion IsDerived ss → AllByRecursion IsWhole (those_of e (specifications n ss)) }
{}
