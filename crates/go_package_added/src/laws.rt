//! Laws of packages with one function more.

ghost use Rattle.std.specs.List.{AllByRecursion};
ghost use Rattle.std.specs.Prelude.{◌≡◌, ℕ, suc, Bool, true, false, Ok, Err, List, ◌∷◌, ◌++◌, length, map, Option, None, codes};
ghost use Rattle.std.specs.Option.{option_map};
ghost use Rattle.go_grammar.specs.Grammar.{IsFile};
ghost use Rattle.go_tokens.specs.Spellings.{same_text};
ghost use Rattle.go_tokens.specs.Tokens.{kinds};
ghost use Rattle.go_tree.specs.Failures.{Failure};
ghost use Rattle.go_tree.specs.Faults.{reported};
ghost use Rattle.go_tree.specs.declared.object.Object.{Object};
ghost use Rattle.go_tree.specs.Uses.{functions_among, object_of, uses};
ghost use Rattle.go_types.specs.Relations.{Rights};
ghost use Rattle.go_tree.specs.declared.context.Entity.TheVariants as entity;
ghost use Rattle.go_package_defs.specs.Bodies.{Behind, Functions, functions_from, placed, those_of, typed_function};
ghost use Rattle.go_package_defs.specs.Checked.{names_answer, sources_answer, surroundings_of};
ghost use Rattle.go_heads_added.specs.Kept.{KeepsPackage};
ghost use Rattle.go_heads_added.specs.Reported.{KeepsBytes};
ghost use Rattle.go_package_added.specs.Reported.{KeepsBodies, KeepsFaults, answered_with, declared_spot, specified_spot};
ghost use Rattle.go_package_added.specs.Closed.{DeclaresShared, NeedsStayShared};
ghost use Rattle.go_package_added.specs.Unchanged.{StaysTyped};
ghost use Rattle.go_exprs_rules.specs.Sorts.{Stands};
ghost use Rattle.go_heads_added.specs.Added.{Gap, NoneSays, shifted};
ghost use Rattle.go_package_defs.specs.Answer.{Environment, answer_by, package_answer, specifications};
ghost use Rattle.go_package_defs.specs.Declarations.{Specification};
ghost use Rattle.go_package_defs.specs.Knowledge.{outlines};
ghost use Rattle.go_package_defs.specs.Sources.{Package, Source, rounds, text_at, unit_of};
ghost use Rattle.go_package_defs.specs.Verdicts.{known};
ghost use Rattle.go_package_added.specs.Appended.{AnswersWith, AreClosed, FitsNames, IsAppended, IsClosed, SharesNames, found_in, function_name, function_specification, outlines_in, package_in};
ghost use Rattle.go_package_added.specs.Examples.{ClosedExamples, Examples};
ghost use Rattle.go_package_settled.specs.Read.{IsFaultless};
ghost use Rattle.go_package_added.specs.OneMore.{IsOneMore, IsSignature, IsSignatureBefore, MaybeReadAt, Settles, with_function};

use go_exprs_elsewhere::laws::{expressions_are_typed_elsewhere, trees_spelled_the_same_keep_it};
use go_heads_added::laws::{
    appended_functions_fail_no_rule, appended_functions_keep_the_package,
    appended_functions_keep_the_reported_fault, signatures_mean_what_is_declared_elsewhere,
};
use go_package_alike::laws::expressions_follow_from_their_tokens;
use go_package_settled::laws::faultless_packages_settle;
use go_scopes_events::laws::files_are_orderly;
use go_stmts_elsewhere::laws::functions_are_typed_elsewhere;

/// Worked examples: the package of two functions with a third, at the end of its one file and of the first of two; and a package that is
/// closed.
pub fn examples()
    ensures answers { Examples }
    ensures closed { ClosedExamples }
{}

/// Where a package declares what another one does and one function between, and nothing names that, its objects stand for the same, and the
/// function for its type: no rule fails that did not, and none that did stops failing (Go specification: Declarations and scope, Function
/// declarations).
pub fn one_more_function_has_its_answer()
    ensures after { (p q : Package) (ds es : List Specification) (g : Gap) (h : IsOneMore p q ds es g) (s : Stands) → Settles p (outlines p ds)
        → IsSignature q (outlines q es) g.shared h.function.specification h.function.column (known p (outlines p ds) (rounds p)) s
        → (x : Environment) → answer_by p ds ≡ Ok x → answer_by q es ≡ Ok (with_function g.shared s x) }
    ensures before { (p q : Package) (ds es : List Specification) (g : Gap) (h : IsOneMore p q ds es g) (s : Stands) → Settles p (outlines p ds)
        → IsSignature q (outlines q es) g.shared h.function.specification h.function.column (known p (outlines p ds) (rounds p)) s
        → (z : Environment) → answer_by q es ≡ Ok z → (x : Environment) × (answer_by p ds ≡ Ok x) × (z ≡ with_function g.shared s x) }
{
    expressions_are_typed_elsewhere();
    trees_spelled_the_same_keep_it();
    expressions_follow_from_their_tokens();
}

/// Whether a rule fails in the signature of such a function, and what the function stands for, follows from what the tokens of the signature
/// say and mean by the numbers of the package without it, whatever is known of the function itself.
pub fn signatures_follow_from_their_names()
    ensures { (p q : Package) (ds es : List Specification) (g : Gap) (h : IsOneMore p q ds es g) → let f = h.function.specification in let found = known p (outlines p ds) (rounds p) in
        (test : ℕ → Bool) (meant : ℕ → Option Object) → ((i : ℕ) → test i ≡ true → object_of q.uses f.file i ≡ option_map (shifted g) (meant i)) → MaybeReadAt test f.type_tree
        → (s : Stands) → IsSignatureBefore p (outlines p ds) f h.function.column (text_at q f.file) meant found s
        → IsSignature q (outlines q es) g.shared f h.function.column found s }
{
    expressions_are_typed_elsewhere();
    trees_spelled_the_same_keep_it();
    expressions_follow_from_their_tokens();
}

/// The tokens that declare the objects of a package without faults of names declare nothing else (Go specification: Declarations and scope).
pub fn objects_are_declared_once()
    ensures { (ss : List Source) → IsFaultless ss → AllByRecursion (λ d. DeclaresShared (map unit_of ss) d.file d.name) (uses (map unit_of ss)).package_level }
{
    files_are_orderly();
}

/// What a declaration of the package block needs at once is declared in the package block, where the names of the package are free of faults:
/// outside of the bodies of functions no local is in scope (Go specification: Declarations and scope, Package initialization).
pub fn shared_declarations_need_no_locals()
    ensures { (ss : List Source) → IsFaultless ss → NeedsStayShared (map unit_of ss) }
{}

/// Where the declarations of the package block need no others at once, as many rounds as there are of them, twice, find all that they need; and
/// so they do in each package without faults of names.
pub fn shared_needs_are_closed()
    ensures token { (ss : List Source) → NeedsStayShared (map unit_of ss) → (m t : ℕ) → DeclaresShared (map unit_of ss) m t → IsClosed (package_in ss) m t }
    ensures all { (ss : List Source) → IsFaultless ss → AreClosed (package_in ss) }
{
    objects_are_declared_once();
    shared_declarations_need_no_locals();
}

/// Behind a function with an empty body that is appended to a file, and whose name no token says, the declarations of a package without faults
/// of names need what they needed; and if it has an answer, the longer package has it too, with the function's type at its number, and no other.
pub fn appended_functions_have_their_answer()
    ensures { (k : ℕ) (ss us : List Source) (h : IsAppended k ss us) → IsFaultless ss → NoneSays (function_name k ss us h) (map unit_of ss) → AnswersWith k ss us h }
{
    appended_functions_keep_the_package();
    shared_needs_are_closed();
    faultless_packages_settle();
    one_more_function_has_its_answer();
    signatures_follow_from_their_names();
}

/// Where a package declares what another one does and one function between, and nothing names that, it has the same answer, with the function's
/// type at its number; or the same fault is reported of its declarations, at the bytes where it stood.
pub fn one_more_function_has_its_fault()
    ensures { (p q : Package) (ds es : List Specification) (g : Gap) (h : IsOneMore p q ds es g) (s : Stands) → KeepsFaults p q ds es g h → Settles p (outlines p ds)
        → IsSignature q (outlines q es) g.shared h.function.specification h.function.column (known p (outlines p ds) (rounds p)) s
        → answer_by q es ≡ answered_with g.shared s (answer_by p ds) }
{
    expressions_are_typed_elsewhere();
    trees_spelled_the_same_keep_it();
    expressions_follow_from_their_tokens();
}

/// Behind a function with an empty body that is appended to a file, and whose name no token says, the declarations of a package without faults
/// of names have the answer that they had, with the function's type at its number, or the same fault is reported of them: that of `main`, too.
pub fn appended_functions_keep_the_fault_of_declarations()
    ensures { (k : ℕ) (ss us : List Source) (h : IsAppended k ss us) (keeps : KeepsPackage k h.count (suc h.first) (map unit_of ss) (map unit_of us)) → IsFaultless ss
        → KeepsBytes h.count h.old_tokens h.new_tokens → same_text (function_name k ss us h) (codes "main") ≡ false → (s : Stands)
        → IsSignature (package_in us) (outlines_in us) keeps.gap.shared (function_specification k ss us h) 0 (found_in ss) s
        → package_answer us (uses (map unit_of us)) ≡ answered_with keeps.gap.shared s (package_answer ss (uses (map unit_of ss))) }
{
    files_are_orderly();
    shared_declarations_need_no_locals();
    shared_needs_are_closed();
    faultless_packages_settle();
    one_more_function_has_its_fault();
}

/// Behind a function with an empty body that is appended to a file, and whose name no token says, the names of the package are free of faults as
/// they were, where no rule fails at the function itself.
pub fn names_stay_free_of_faults()
    ensures { (k : ℕ) (ss us : List Source) (h : IsAppended k ss us) → IsFaultless ss → NoneSays (function_name k ss us h) (map unit_of ss) → FitsNames k ss us h
        → reported (map unit_of us) ≡ None }
{
    appended_functions_fail_no_rule();
    signatures_mean_what_is_declared_elsewhere();
}

/// Behind a function with an empty body that is appended to a file, and whose name no token says, the same fault of names is reported as before,
/// or none, where no rule fails at the function itself, and the names of its signature mean objects of the package or predeclared ones; and the
/// tokens in front of it stand at the bytes where they stood.
pub fn appended_functions_keep_the_fault_of_names()
    ensures { (k : ℕ) (ss us : List Source) (h : IsAppended k ss us) → AllByRecursion (λ s. IsFile (kinds s.tokens.tokens) s.tree) ss → KeepsBytes h.count h.old_tokens h.new_tokens
        → NoneSays (function_name k ss us h) (map unit_of ss) → FitsNames k ss us h → SharesNames k ss us h → reported (map unit_of us) ≡ reported (map unit_of ss) }
{
    appended_functions_keep_the_reported_fault();
}

/// In such a package the functions that stay as they are have the same types under their new numbers, behind the same right sides and where
/// the objects of the package stand for the same; or the same fault is reported of them.
pub fn unchanged_functions_keep_their_types()
    ensures { (k : ℕ) (ss us : List Source) (h : IsAppended k ss us) (keeps : KeepsPackage k h.count (suc h.first) (map unit_of ss) (map unit_of us)) → IsFaultless ss
        → (x : Environment) → package_answer ss (uses (map unit_of ss)) ≡ Ok x → (s : Stands) → let a = surroundings_of (uses (map unit_of ss)) x in
        let b = surroundings_of (uses (map unit_of us)) (with_function keeps.gap.shared s x) in
        AllByRecursion (λ d. (rights : Rights) (number : ℕ) → StaysTyped (package_in ss) (package_in us) keeps.gap a b rights number d) (specifications 0 ss) }
{
    functions_are_typed_elsewhere();
    trees_spelled_the_same_keep_it();
}

/// In such a package the functions in front of the appended one, and those behind it under the next numbers, have their types, or the same fault
/// is reported of the first of them that has one, at the bytes where it stood. Of the appended function itself nothing is said: with results and
/// an empty body it lacks a return (Go specification: Terminating statements).
pub fn unchanged_functions_keep_their_fault()
    ensures { (k : ℕ) (ss us : List Source) (h : IsAppended k ss us) (keeps : KeepsPackage k h.count (suc h.first) (map unit_of ss) (map unit_of us)) → IsFaultless ss
        → KeepsBytes h.count h.old_tokens h.new_tokens → (x : Environment) → package_answer ss (uses (map unit_of ss)) ≡ Ok x → (s : Stands) → let a = surroundings_of (uses (map unit_of ss)) x in
        let b = surroundings_of (uses (map unit_of us)) (with_function keeps.gap.shared s x) in
        KeepsBodies (package_in ss) (package_in us) keeps.gap a b (function_specification k ss us h) (those_of entity.Function (specifications 0 ss)) (those_of entity.Function (specifications 0 us)) }
{
    functions_are_typed_elsewhere();
    trees_spelled_the_same_keep_it();
    unchanged_functions_keep_their_types();
    files_are_orderly();
    shared_declarations_need_no_locals();
    shared_needs_are_closed();
}

/// In a package without faults of names the functions are numbered as its files specify them, in order (Go specification: Function declarations).
pub fn functions_are_specified_in_order()
    ensures { (ss : List Source) → IsFaultless ss → map declared_spot (functions_among (uses (map unit_of ss)).package_level) ≡ map specified_spot (those_of entity.Function (specifications 0 ss)) }
{}

/// So the appended function has the number of the functions in front of it, where the names of both packages are free of faults.
pub fn functions_in_front_are_counted()
    ensures { (k : ℕ) (ss us : List Source) (h : IsAppended k ss us) (keeps : KeepsPackage k h.count (suc h.first) (map unit_of ss) (map unit_of us)) → IsFaultless ss → IsFaultless us
        → (front rest : List Specification) → those_of entity.Function (specifications 0 ss) ≡ front ++ rest → those_of entity.Function (specifications 0 us) ≡ front ++ function_specification k ss us h ∷ rest
        → length front ≡ keeps.gap.functions }
{
    functions_are_specified_in_order();
}

/// So the reported fault of the longer package is the one of the package without the function: that of its names, that of its declarations where
/// its names are free of faults, and that of a function in front of the appended one, or of one behind it where that has a type itself.
pub fn the_same_fault_is_reported()
    ensures names { (k : ℕ) (ss us : List Source) (h : IsAppended k ss us) → AllByRecursion (λ s. IsFile (kinds s.tokens.tokens) s.tree) ss → KeepsBytes h.count h.old_tokens h.new_tokens
        → NoneSays (function_name k ss us h) (map unit_of ss) → FitsNames k ss us h → SharesNames k ss us h → (f : Failure) → names_answer (map unit_of ss) ≡ Err f → sources_answer us ≡ Err f }
    ensures declarations { (k : ℕ) (ss us : List Source) (h : IsAppended k ss us) (keeps : KeepsPackage k h.count (suc h.first) (map unit_of ss) (map unit_of us)) → IsFaultless ss
        → KeepsBytes h.count h.old_tokens h.new_tokens → NoneSays (function_name k ss us h) (map unit_of ss) → FitsNames k ss us h → same_text (function_name k ss us h) (codes "main") ≡ false → (s : Stands)
        → IsSignature (package_in us) (outlines_in us) keeps.gap.shared (function_specification k ss us h) 0 (found_in ss) s
        → (f : Failure) → package_answer ss (uses (map unit_of ss)) ≡ Err f → sources_answer us ≡ Err f }
    ensures in_front { (k : ℕ) (ss us : List Source) (h : IsAppended k ss us) (keeps : KeepsPackage k h.count (suc h.first) (map unit_of ss) (map unit_of us)) → IsFaultless ss → IsFaultless us
        → (x : Environment) (s : Stands) → package_answer us (uses (map unit_of us)) ≡ Ok (with_function keeps.gap.shared s x) → let a = surroundings_of (uses (map unit_of ss)) x in
        let b = surroundings_of (uses (map unit_of us)) (with_function keeps.gap.shared s x) in
        (kept : KeepsBodies (package_in ss) (package_in us) keeps.gap a b (function_specification k ss us h) (those_of entity.Function (specifications 0 ss)) (those_of entity.Function (specifications 0 us)))
        → (f : Failure) → functions_from (package_in ss) a x.rights 0 kept.front ≡ Err f → sources_answer us ≡ Err f }
    ensures behind { (k : ℕ) (ss us : List Source) (h : IsAppended k ss us) (keeps : KeepsPackage k h.count (suc h.first) (map unit_of ss) (map unit_of us)) → IsFaultless ss → IsFaultless us
        → (x : Environment) (s : Stands) → package_answer us (uses (map unit_of us)) ≡ Ok (with_function keeps.gap.shared s x) → let a = surroundings_of (uses (map unit_of ss)) x in
        let b = surroundings_of (uses (map unit_of us)) (with_function keeps.gap.shared s x) in
        (kept : KeepsBodies (package_in ss) (package_in us) keeps.gap a b (function_specification k ss us h) (those_of entity.Function (specifications 0 ss)) (those_of entity.Function (specifications 0 us)))
        → (y : Functions) → functions_from (package_in ss) a x.rights 0 kept.front ≡ Ok y
        → (c : Behind) → placed (package_in us) (function_specification k ss us h) (typed_function (package_in us) b y.rights keeps.gap.functions (function_specification k ss us h)) ≡ Ok c → c.rights ≡ y.rights
        → (f : Failure) → functions_from (package_in ss) a y.rights keeps.gap.functions kept.rest ≡ Err f → sources_answer us ≡ Err f }
{
    appended_functions_keep_the_fault_of_names();
    names_stay_free_of_faults();
    appended_functions_keep_the_fault_of_declarations();
    functions_are_specified_in_order();
}
