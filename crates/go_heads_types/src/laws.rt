//! Laws, for the crates above. The functions do nothing: their contracts are the laws.

ghost use Rattle.std.specs.Prelude.{◌≡◌, ℕ, List, Ok, length, map, true, None, slice_get};
ghost use Rattle.go_heads.specs.Functions.{AreRead};
ghost use Rattle.go_heads.specs.Heads.{heads, File};
ghost use Rattle.go_package_defs.specs.Sources.{Package, Source, unit_of, package_of};
ghost use Rattle.go_heads_types.specs.Portions.{files_of, AreNamed, KeepsPortions};
ghost use Rattle.go_package_defs.specs.Answer.{Environment, package_answer, specifications};
ghost use Rattle.go_package_defs.specs.Checked.{surroundings_of, Typing, sources_answer, IsCheckedPackage};
ghost use Rattle.go_renumbering.specs.Functions.{AreBelow};
ghost use Rattle.go_tree.specs.Uses.{UsesView, uses};
ghost use Rattle.go_heads_types.specs.HeadPortions.{IsFaultless, KeepsTypedFunctions};
ghost use Rattle.go_heads_types.specs.Answers.{KeepsAnswer};
ghost use Rattle.go_typed.specs.declared.window.Window.{Window as Run};
ghost use Rattle.go_typed.specs.Packages.{PackageView};
ghost use Rattle.alpha_hash_defs.specs.Sharing.{IsLawful, ShareNames};
ghost use Rattle.clone_classes.specs.Heads.{identical_between, same_between};
ghost use Rattle.go_heads_types.specs.Names.{AreNamedAlike};
ghost use Rattle.go_heads_types.specs.Needs.{KeepsNeeds};
ghost use Rattle.go_tree.specs.Faults.{reported};
ghost use Rattle.go_heads.specs.Objects.{units_of};
ghost use Rattle.go_heads.specs.Locals.{AreNamed as AreNamedLocals};
ghost use Rattle.go_heads_types.specs.Outside.{KeepsOutside};
ghost use Rattle.go_heads_types.specs.Packages.{IsResolved, KeepsNames};
ghost use Rattle.go_heads_types.specs.Typings.{KeepsBody, AddsRights, KeepsTypes};
ghost use Rattle.go_heads_types.specs.Renumbered.{AreOne};
ghost use Rattle.go_heads_types.specs.Specifications.{AreOne as AreOneSpecification};
ghost use Rattle.go_package_defs.specs.Declarations.{Specification};
ghost use Rattle.go_heads_types.specs.Same.{SameDeclarations};
ghost use Rattle.go_heads_types.specs.States.{SameKnowledge};
ghost use Rattle.go_package_defs.specs.Bodies.{Behind, Surroundings, count_types, typed_function, types_in};
ghost use Rattle.go_types.specs.Relations.{Rights};
ghost use Rattle.alpha_hash_defs.specs.Packages.{window_hash};
ghost use Rattle.go_heads_types.specs.WindowPackages.{package_read, package_files, package_head};

use alpha_hash_defs::window_hash::WindowHash;
use go_elsewhere::laws::{moved_expressions_are_typed_the_same, trees_further_on_keep_their_names};
use go_heads::laws::{
    functions_declare_by_themselves, functions_have_names, functions_keep_their_numbers,
    heads_tell_names, locals_follow_from_functions, locals_stay, names_keep_their_meanings,
    names_keep_their_objects, names_tell_the_numbers_of_functions, objects_keep_their_numbers,
    tokens_keep_their_objects,
};
use go_package_alike::laws::{equal_objects_mean_the_same, expressions_follow_from_their_tokens};
use go_scopes_events::laws::{files_are_orderly, names_are_in_order};

/// In packages with equal heads the function specifications of one number are those of the same function; where the texts of its body
/// are the same, its portion has the same texts and the same tree, and it is with its types the same where its tokens mean the same.
pub fn portions_follow_from_functions()
    ensures { (p q : Package) (names others : List (List ℕ)) → AreNamed names p.sources → AreNamed others q.sources → AreRead (files_of names p.sources) → AreRead (files_of others q.sources)
        → heads (files_of names p.sources) ≡ heads (files_of others q.sources) → KeepsPortions p q names others }
{
    functions_keep_their_numbers();
}

/// Where the declarations of a package are free of faults, what its objects stand for and the right sides of its declared types name no
/// declared types but those of the package.
pub fn objects_name_types_of_the_package()
    ensures { (ss : List Source) (names : List (List ℕ)) → AreNamed names ss → AreRead (files_of names ss)
        → (u : UsesView) (e : Environment) → u ≡ uses (map unit_of ss) → package_answer ss u ≡ Ok e → AreBelow (length e.rights) (surroundings_of u e) e.rights }
{
    names_are_in_order();
}

/// In packages with equal heads, whose names are free of faults, the declarations of the package block are free of faults in both or in
/// neither, and then what their objects stand for is the same.
pub fn answers_stay()
    ensures { (ss us : List Source) (u v : UsesView) (names others : List (List ℕ)) → IsFaultless (package_of ss u) names → IsFaultless (package_of us v) others
        → heads (files_of names ss) ≡ heads (files_of others us) → KeepsAnswer ss us u v }
{
    files_are_orderly();
    names_are_in_order();
    functions_have_names();
    names_keep_their_meanings();
    needs_stay();
    objects_keep_their_numbers();
    outside_tokens_stay();
    specifications_stay();
    same_declarations_have_one_answer();
}

/// Packages whose declared types and objects are named alike share the texts of identical types, and windows of theirs that are the
/// same have one number under every lawful hash.
pub fn windows_between_packages_have_one_number()
    ensures names { (p q : PackageView) → AreNamedAlike p q → ShareNames (identical_between p q) p q }
    ensures numbers { (number : PackageView → Run → ℕ) → IsLawful number → (p q : PackageView) → AreNamedAlike p q → (w v : Run) → same_between p q w v ≡ true → number p w ≡ number q v }
{}

/// In packages with equal heads, whose names are resolved, the names that are declared outside the bodies of functions need the same
/// objects, at once and through others, in part and in full (Go specification: Declarations and scope, Package initialization).
pub fn needs_stay()
    ensures { (ss us : List Source) (names others : List (List ℕ)) → AreNamed names ss → AreNamed others us → AreRead (files_of names ss) → AreRead (files_of others us)
        → heads (files_of names ss) ≡ heads (files_of others us)
        → KeepsNeeds (package_of ss (uses (map unit_of ss))) (package_of us (uses (map unit_of us))) (files_of names ss) (files_of others us) }
{
    files_are_orderly();
    names_are_in_order();
    heads_tell_names();
    objects_keep_their_numbers();
    names_keep_their_meanings();
}

/// In packages with equal heads, whose names are free of faults, tokens outside of bodies at one place of the heads have the same object,
/// whether they are looked up or declare it; a parameter is the local of the same number of its function.
pub fn outside_tokens_stay()
    ensures { (old new : List File) → AreRead old → AreRead new → AreNamedLocals old → AreNamedLocals new
        → reported (units_of old) ≡ None → reported (units_of new) ≡ None → heads old ≡ heads new
        → KeepsOutside old new }
{
    files_are_orderly();
    names_are_in_order();
    functions_declare_by_themselves();
    locals_follow_from_functions();
    names_keep_their_meanings();
    names_keep_their_objects();
}

/// In packages with equal heads, whose names are resolved, the objects are the same under the same numbers, each name that is looked
/// up outside the bodies of functions has the same object, and of a function whose body has the same texts the same locals are types.
pub fn checked_names_stay()
    ensures { (p q : Package) (names others : List (List ℕ)) → IsResolved p names → IsResolved q others → heads (files_of names p.sources) ≡ heads (files_of others q.sources) → KeepsNames p q names others }
{
    objects_keep_their_numbers();
    names_keep_their_objects();
    locals_stay();
}

/// In packages with equal heads, whose names are free of faults, a function whose body has the same texts is the same by itself, with
/// what its tokens mean; and with its types it is the same where what surrounds all bodies is the same.
pub fn typed_functions_stay()
    ensures { (p q : Package) (names others : List (List ℕ)) → IsFaultless p names → IsFaultless q others → heads (files_of names p.sources) ≡ heads (files_of others q.sources)
        → KeepsTypedFunctions p q names others }
{
    functions_have_names();
    tokens_keep_their_objects();
    portions_follow_from_functions();
    checked_names_stay();
}

/// In packages with equal heads, both free of faults, a function whose body has the same texts is with its types the same, but for the
/// numbers of its own declared types: these stand behind the ones of the bodies in front of it.
pub fn functions_keep_their_types_but_for_numbers()
    ensures { (ss us : List Source) (names others : List (List ℕ)) → AreNamed names ss → AreNamed others us
        → AreRead (files_of names ss) → AreRead (files_of others us)
        → heads (files_of names ss) ≡ heads (files_of others us) → (t z : Typing)
        → sources_answer ss ≡ Ok t → sources_answer us ≡ Ok z
        → (k : ℕ) → KeepsBody (package_of ss t.uses) (package_of us z.uses) names others k
        → AreOne (length t.environment.rights) (slice_get t.bodies.functions k) (slice_get z.bodies.functions k) }
{
    answers_stay();
    objects_keep_their_numbers();
    typed_functions_stay();
    objects_name_types_of_the_package();
}

/// In packages with equal heads the specifications are one by one the same, counted from the first tokens of their declarations: with the
/// same names, types and values, whose tokens stand at one place of the heads.
pub fn specifications_stay()
    ensures { (ss us : List Source) (names others : List (List ℕ)) → AreNamed names ss → AreNamed others us → AreRead (files_of names ss) → AreRead (files_of others us)
        → heads (files_of names ss) ≡ heads (files_of others us) → AreOneSpecification (files_of names ss) (files_of others us) (specifications 0 ss) (specifications 0 us) }
{}

/// Where the declarations of two packages are the same but for where they stand, the same is known of their objects after each number of
/// rounds; and the packages have the same answer, where one has an answer that is no fault.
pub fn same_declarations_have_one_answer()
    ensures { (p q : Package) (ds es : List Specification) → SameDeclarations p q ds es → SameKnowledge p q ds es }
{
    equal_objects_mean_the_same();
    expressions_follow_from_their_tokens();
    moved_expressions_are_typed_the_same();
    trees_further_on_keep_their_names();
}

/// Behind a function the right sides are those in front of it, and then as many as it declares types.
pub fn functions_add_right_sides()
    ensures { (p : Package) (a : Surroundings) (rights : Rights) (n : ℕ) (d : Specification) (b : Behind) → typed_function p a rights n d ≡ Ok b
        → AddsRights rights (count_types (types_in p n)) b.rights }
{}

/// In packages with equal heads, both free of faults, the objects of the package stand for the same; a function whose body has the same
/// texts has the same types behind the same right sides, and so behind functions that have the same texts too or declare no types.
pub fn functions_keep_their_types()
    ensures { (ss us : List Source) (names others : List (List ℕ)) → AreNamed names ss → AreNamed others us
        → AreRead (files_of names ss) → AreRead (files_of others us)
        → heads (files_of names ss) ≡ heads (files_of others us) → (t z : Typing)
        → sources_answer ss ≡ Ok t → sources_answer us ≡ Ok z → KeepsTypes ss us names others t z }
{
    answers_stay();
    objects_keep_their_numbers();
    typed_functions_stay();
}

/// The files of a package that type-checks are read, its functions have names, and its names mean what they mean in its files, where
/// no fault of names is reported.
pub fn checked_packages_are_resolved()
    ensures resolved { (p : PackageView) → IsCheckedPackage p → IsResolved (package_read p) p.names }
    ensures faultless { (p : PackageView) → IsCheckedPackage p → reported (units_of (package_files p)) ≡ None }
{
    functions_have_names();
}

/// In packages that type-check and have equal heads the objects of one number have one name, and so have declared types that
/// correspond: those of the package block, and those that are declared at the same token of a function of the same name whose body
/// has equal token texts.
pub fn checked_packages_are_named_alike()
    ensures { (p q : PackageView) → IsCheckedPackage p → IsCheckedPackage q → package_head p ≡ package_head q → AreNamedAlike p q }
{
    checked_packages_are_resolved();
    checked_names_stay();
    functions_declare_by_themselves();
    functions_keep_their_numbers();
    locals_follow_from_functions();
    names_tell_the_numbers_of_functions();
}

/// Windows of two packages that type-check and have equal heads have one number under every lawful hash where they are the same; so
/// it is for the number that `AlphaHash` gives.
pub fn windows_under_equal_heads_have_one_number()
    ensures lawful { (number : PackageView → Run → ℕ) → IsLawful number → (p q : PackageView) → IsCheckedPackage p → IsCheckedPackage q → package_head p ≡ package_head q
        → (w v : Run) → same_between p q w v ≡ true → number p w ≡ number q v }
    ensures alpha { (p q : PackageView) → IsCheckedPackage p → IsCheckedPackage q → package_head p ≡ package_head q
        → (w v : Run) → same_between p q w v ≡ true → window_hash p w ≡ window_hash q v }
{
    checked_packages_are_named_alike();
    windows_between_packages_have_one_number();
}

/// Under every hash of windows the windows of two packages that type-check and have equal heads have equal numbers where they are the
/// same.
pub fn hashes_under_equal_heads_are_equal<H: WindowHash>(hash: &H)
    ensures { (p q : PackageView) → IsCheckedPackage p → IsCheckedPackage q → package_head p ≡ package_head q
        → (w v : Run) → same_between p q w v ≡ true → H.number hash.now p w ≡ H.number hash.now q v }
{
    windows_under_equal_heads_have_one_number();
}
