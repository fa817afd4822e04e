//! Laws of windows in packages with one function more. The functions do nothing: their contracts are the laws.

ghost use Rattle.std.specs.List.{AllByRecursion};
ghost use Rattle.std.specs.Prelude.{◌≡◌, ◌<◌, ℕ, suc, Bool, List, Ok, length, map, slice_get};
ghost use Rattle.go_tree.specs.Uses.{uses};
ghost use Rattle.go_types.specs.Trees.{TypeTree};
ghost use Rattle.go_typed.specs.Trees.{Typed};
ghost use Rattle.go_typed.specs.declared.form.Referent.{Referent as Named};
ghost use Rattle.go_typed.specs.declared.window.Window.{Window as Run};
ghost use Rattle.clone_window.specs.declared.bounds.Bounds.{Bounds as Limits};
ghost use Rattle.clone_window.specs.Bodies.{Body, are_same};
ghost use Rattle.clone_window.specs.Fields.{FieldNames};
ghost use Rattle.clone_window.specs.Windows.{window_mass, windows};
ghost use Rattle.clone_classes.specs.Classes.{classes};
ghost use Rattle.go_exprs_rules.specs.Sorts.{Stands};
ghost use Rattle.go_tree.specs.declared.context.Entity.TheVariants as entity;
ghost use Rattle.go_heads_added.specs.Reported.{KeepsBytes};
ghost use Rattle.go_package_defs.specs.Bodies.{Functions, Surroundings, count_types, functions_from, those_of, types_in};
ghost use Rattle.go_heads_added.specs.Added.{Gap, beyond};
ghost use Rattle.go_heads_types.specs.Portions.{function_specifications};
ghost use Rattle.go_heads_types.specs.Typings.{rights_before};
ghost use Rattle.go_heads_added.specs.Kept.{KeepsPackage};
ghost use Rattle.go_package_defs.specs.Answer.{Environment, package_answer, specifications};
ghost use Rattle.go_package_defs.specs.Checked.{Typing, surroundings_of};
ghost use Rattle.go_package_defs.specs.Sources.{Source, unit_of};
ghost use Rattle.go_package_settled.specs.Read.{IsFaultless};
ghost use Rattle.go_package_added.specs.Appended.{IsAppended, function_specification, package_in};
ghost use Rattle.go_package_added.specs.OneMore.{with_function};
ghost use Rattle.clone_window_added.specs.Extended.{IsExtended, KeepsClasses, KeepsFunction, KeepsRights, KeepsTypes, MovesNoRights, StaysAsItIs};
ghost use Rattle.clone_window_added.specs.Reworded.{IsRewording, StaysThere, reworded, window_in};
ghost use Rattle.clone_window_added.specs.Unchanged.{AddsNoRights, KeepsBody, KeepsWindows, StaysBetween};

use go_heads::laws::objects_keep_their_numbers;
use go_heads_added::laws::{
    empty_functions_declare_parameters, longer_files_tell_more, names_stand_in_files,
};
use go_heads_types::laws::{
    answers_stay, functions_add_right_sides, objects_name_types_of_the_package,
    portions_follow_from_functions, typed_functions_stay,
};
use go_package_added::laws::{
    functions_in_front_are_counted, unchanged_functions_keep_their_fault,
    unchanged_functions_keep_their_types,
};
use go_package_settled::laws::faultless_packages_are_resolved;
use go_renumbering::laws::functions_stand_behind_more_right_sides;

/// A function has the same windows with the same masses where its types have other words, the objects of the package other numbers, and it
/// has another number itself.
pub fn reworded_functions_have_the_same_windows()
    ensures windows { (g : TypeTree → TypeTree) (r : Named → Named) (to : ℕ → ℕ) (bounds : Limits) (n : ℕ) (root : Typed TypeTree)
        → windows bounds (to n) (reworded g r root) ≡ map (window_in to) (windows bounds n root) }
    ensures masses { (g : TypeTree → TypeTree) (r : Named → Named) (root : Typed TypeTree) (w : Run) → window_mass (reworded g r root) w ≡ window_mass root w }
{}

/// Windows of such functions are the same with one another exactly where they were, so that they make the same classes.
pub fn reworded_windows_make_the_same_classes()
    ensures same { (g : TypeTree → TypeTree) (r : Named → Named) (identical other : TypeTree → TypeTree → Bool) (fields names : FieldNames TypeTree) → IsRewording g r identical other fields names
        → (to : ℕ → ℕ) (old new : List (Body TypeTree)) (w v : Run) → StaysThere g r to old new w → StaysThere g r to old new v
        → are_same other names names new new (window_in to w) (window_in to v) ≡ are_same identical fields fields old old w v }
    ensures classes { (g : TypeTree → TypeTree) (r : Named → Named) (identical other : TypeTree → TypeTree → Bool) (fields names : FieldNames TypeTree) → IsRewording g r identical other fields names
        → (to : ℕ → ℕ) (old new : List (Body TypeTree)) (ws : List Run) → AllByRecursion (StaysThere g r to old new) ws
        → classes (are_same other names names new new) (map (window_in to) ws) ≡ map (map (window_in to)) (classes (are_same identical fields fields old old) ws) }
{}

/// Where a function is put between others, and these are the same under their new numbers, their windows are the same ones, with the same
/// masses, and make the same classes among themselves.
pub fn windows_stay_beside_another_function()
    ensures { (g : Gap) (f : Body TypeTree) (front rest : List (Body TypeTree)) → length front ≡ g.functions → KeepsWindows g f front rest }
{}

/// Behind a function with an empty body that is appended to a file, the functions that stay as they are have the bodies that they had, with the
/// new numbers of functions in them; or the same fault is reported of them.
pub fn unchanged_functions_keep_their_bodies()
    ensures { (k : ℕ) (ss us : List Source) (h : IsAppended k ss us) (keeps : KeepsPackage k h.count (suc h.first) (map unit_of ss) (map unit_of us)) → IsFaultless ss
        → (x : Environment) → package_answer ss (uses (map unit_of ss)) ≡ Ok x → (s : Stands)
        → AllByRecursion (KeepsBody (package_in ss) (package_in us) keeps.gap (surroundings_of (uses (map unit_of ss)) x) (surroundings_of (uses (map unit_of us)) (with_function keeps.gap.shared s x))) (specifications 0 ss) }
{
    unchanged_functions_keep_their_types();
}

/// A function with an empty body declares no types, whatever its signature says, so that the right sides of declared types behind it are those in
/// front of it (Go specification: Type declarations).
pub fn appended_functions_add_no_right_sides()
    ensures { (k : ℕ) (ss us : List Source) (h : IsAppended k ss us) (keeps : KeepsPackage k h.count (suc h.first) (map unit_of ss) (map unit_of us)) → IsFaultless ss → IsFaultless us
        → (a : Surroundings) → AddsNoRights (package_in us) a keeps.gap.functions (function_specification k ss us h) }
{
    longer_files_tell_more();
    names_stand_in_files();
    empty_functions_declare_parameters();
    faultless_packages_are_resolved();
    functions_add_right_sides();
}

/// So the functions of the longer package are those that there were, under their new numbers, and the appended one between them, where all have
/// their types in both packages: the windows of the others are the same ones, with the same masses, and make the same classes among themselves.
pub fn windows_of_appended_packages_stay()
    ensures { (k : ℕ) (ss us : List Source) (h : IsAppended k ss us) (keeps : KeepsPackage k h.count (suc h.first) (map unit_of ss) (map unit_of us)) → IsFaultless ss → IsFaultless us
        → KeepsBytes h.count h.old_tokens h.new_tokens → (x : Environment) → package_answer ss (uses (map unit_of ss)) ≡ Ok x → (s : Stands) → let a = surroundings_of (uses (map unit_of ss)) x in
        let b = surroundings_of (uses (map unit_of us)) (with_function keeps.gap.shared s x) in
        (y : Functions) → functions_from (package_in ss) a x.rights 0 (those_of entity.Function (specifications 0 ss)) ≡ Ok y
        → (z : Functions) → functions_from (package_in us) b x.rights 0 (those_of entity.Function (specifications 0 us)) ≡ Ok z
        → StaysBetween keeps.gap y.functions z.functions }
{
    functions_in_front_are_counted();
    unchanged_functions_keep_their_fault();
    appended_functions_add_no_right_sides();
}

/// In a package with one function more, of whatever body, in which other bodies may have changed too, a function whose body is still the same
/// text is there under its new number: with its own declared types behind those of other bodies, and the new numbers of functions. Its windows
/// are the same ones, with the same masses. Where the right sides of declared types stand in front of it that stood there, it is the same with
/// all its types; and where they stand so everywhere, windows of such functions are the same with one another exactly where they were, so that
/// they make the same classes. They stand so where each function stays as it is, declares no types or leaves the right sides that it left, and the
/// new one declares none. And where all stay as they are, the functions are those that there were, with the new one between them.
pub fn windows_of_unchanged_functions_stay()
    ensures windows { (k : ℕ) (ss ms us : List Source) (names others : List (List ℕ)) (t z : Typing) (h : IsExtended k ss ms us names others t z) → (n : ℕ) → StaysAsItIs k ss ms us names others t z h n
        → KeepsFunction h.keeps.gap (length t.environment.rights) n (slice_get t.bodies.functions n) (slice_get z.bodies.functions (beyond h.keeps.gap.functions n)) }
    ensures types { (k : ℕ) (ss ms us : List Source) (names others : List (List ℕ)) (t z : Typing) (h : IsExtended k ss ms us names others t z) → (n : ℕ) → StaysAsItIs k ss ms us names others t z h n
        → rights_before us z (beyond h.keeps.gap.functions n) ≡ rights_before ss t n → KeepsTypes h.keeps.gap n ss us t z }
    ensures classes { (k : ℕ) (ss ms us : List Source) (names others : List (List ℕ)) (t z : Typing) (h : IsExtended k ss ms us names others t z) → KeepsRights k ss ms us names others t z h
        → KeepsClasses k ss ms us names others t z h }
    ensures between { (k : ℕ) (ss ms us : List Source) (names others : List (List ℕ)) (t z : Typing) (h : IsExtended k ss ms us names others t z)
        → count_types (types_in (package_in us) h.keeps.gap.functions) ≡ 0
        → ((n : ℕ) → n < length (function_specifications (package_in ss)) → StaysAsItIs k ss ms us names others t z h n) → StaysBetween h.keeps.gap t.bodies.functions z.bodies.functions }
    ensures rights { (k : ℕ) (ss ms us : List Source) (names others : List (List ℕ)) (t z : Typing) (h : IsExtended k ss ms us names others t z)
        → count_types (types_in (package_in us) h.keeps.gap.functions) ≡ 0
        → ((n : ℕ) → n < length (function_specifications (package_in ss)) → MovesNoRights k ss ms us names others t z h n) → KeepsRights k ss ms us names others t z h }
{
    answers_stay();
    objects_keep_their_numbers();
    typed_functions_stay();
    portions_follow_from_functions();
    objects_name_types_of_the_package();
    functions_add_right_sides();
    functions_stand_behind_more_right_sides();
    unchanged_functions_keep_their_bodies();
    unchanged_functions_keep_their_fault();
    functions_in_front_are_counted();
}
