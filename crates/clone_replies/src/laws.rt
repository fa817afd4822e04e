//! Laws, for the crates above. The functions do nothing: their contracts are the laws.

ghost use Rattle.std.specs.Prelude.{◌≡◌, nat_eq, List, length, count_by, map, ℕ};
ghost use Rattle.go_types_relations.specs.Identity.{is_identical};
ghost use Rattle.go_types.specs.Tables.{IsTable};
ghost use Rattle.go_typed.specs.declared.window.Window.{Window as Member};
ghost use Rattle.go_typed.specs.Contents.{Content, content, IsPackageOf};
ghost use Rattle.go_typed.specs.Packages.{PackageView as Package, IsPackage};
ghost use Rattle.clone_window.specs.declared.bounds.Bounds.{Bounds as Limits};
ghost use Rattle.clone_window.specs.Bodies.{bodies_of};
ghost use Rattle.clone_classes.specs.Listing.{listing_in};
ghost use Rattle.clone_report.specs.Covered.{coverage};
ghost use Rattle.clone_replies.specs.Classes.{body_in, classes_in, listed_package};
ghost use Rattle.clone_replies.specs.Listing.{listing_by, listing_reply};
ghost use Rattle.clone_replies.specs.Maximal.{maximal_by, maximal_reply};
ghost use Rattle.go_base.specs.declared.bytes.FileText.{FileText as Text};
ghost use Rattle.go_typed.specs.Funcs.{tree_of};
ghost use Rattle.go_package_defs.specs.Checked.{IsChecked, IsCheckedPackage, origins, texts_of};
ghost use Rattle.clone_replies.specs.Names.{hashes_of};
ghost use Rattle.clone_replies.specs.Numbers.{has_body, hashes_in, numbers_in};
ghost use Rattle.go_meaning.specs.Meaning.{run};
ghost use Rattle.go_eval_plans.specs.Programs.{program_of};
ghost use Rattle.clone_replies.specs.RunContents.{program_in};
ghost use Rattle.go_tree.specs.File.{FileTree};
ghost use Rattle.go_eval.specs.Runs.{run_package};
ghost use Rattle.clone_replies.specs.ReplyContents.{run_in, tokens_of};

use go_grammar::laws::one_tree_of_a_file;
use go_package_defs::laws::packages_have_one_answer;
use go_tokens::laws::one_lexing;
use go_types::laws::equal_numbers_are_identical_types;
use go_types_relations::laws::{answers_are_renamed, functions_are_the_relations};

/// A package that the program holds has the clone classes and the listing of the package over the types themselves, by the numbers
/// of types that a table gives and by any numbers of declared types.
pub fn listings_are_of_the_types()
    ensures classes { (bounds : Limits) (p : Package) (c : Content) → IsPackage p → IsTable p.types → IsPackageOf c (content p) → listing_in bounds p ≡ classes_in bounds c }
    ensures listing { (bounds : Limits) (p : Package) (c : Content) → IsPackage p → IsTable p.types → IsPackageOf c (content p) → listing_by nat_eq bounds (listed_package p) ≡ listing_reply bounds c }
{
    equal_numbers_are_identical_types();
    functions_are_the_relations();
    answers_are_renamed();
}

/// A package that the program holds has the covered statements and the reply to `maximal` of the package over the types themselves, by
/// the numbers of types that a table gives and by any numbers of declared types.
pub fn reports_are_of_the_types()
    ensures covered { (classes : List (List Member)) (p : Package) (c : Content) (file : ℕ) → IsPackageOf c (content p) → coverage classes p.files (bodies_of p.functions) file ≡ coverage classes c.files (map body_in c.functions) file }
    ensures reply { (bounds : Limits) (p : Package) (c : Content) → IsPackage p → IsTable p.types → IsPackageOf c (content p) → maximal_by nat_eq bounds (listed_package p) ≡ maximal_reply bounds c }
{
    equal_numbers_are_identical_types();
    functions_are_the_relations();
    answers_are_renamed();
}

/// The hashes of the windows of a package that the program holds, whose declared types all have a place, and its functions with a
/// body are those that follow from its bytes alone. So are all its numbers.
pub fn numbers_follow_from_the_texts()
    ensures hashes { (bounds : Limits) (p : Package) (c : Content) → IsCheckedPackage p → length p.origins ≡ length (origins p.uses) → IsChecked (texts_of p) c → hashes_in bounds p ≡ hashes_of bounds c }
    ensures functions { (p : Package) (c : Content) → IsCheckedPackage p → IsChecked (texts_of p) c → count_by (λ f. has_body (tree_of f)) p.functions ≡ count_by (λ f. has_body f.tree) c.functions }
    ensures one { (bounds : Limits) (texts : List Text) (c d : Content) → IsChecked texts c → IsChecked texts d → numbers_in bounds texts c ≡ numbers_in bounds texts d }
{
    answers_are_renamed();
    packages_have_one_answer();
    one_lexing();
    one_tree_of_a_file();
}

/// A package that the program holds runs as the package over the types themselves, whatever numbers its declared types have.
pub fn runs_are_of_the_types()
    ensures { (p : Package) (c : Content) (main : ℕ) (input : List ℕ) (turns depth : ℕ) → IsPackageOf c (content p) → run (program_of p main) input turns depth ≡ run (program_in c main) input turns depth }
{
    answers_are_renamed();
}

/// A package that the program holds runs as the package over the types themselves, by any numbers of declared types. Of its files a
/// run takes the tokens alone.
pub fn runs_are_of_the_content()
    ensures package { (p : Package) (c : Content) (input : List ℕ) (turns : ℕ) → IsPackageOf c (content p) → run_package p input turns ≡ run_in c input turns }
    ensures files { (c : Content) (files : List FileTree) (input : List ℕ) (turns : ℕ) → tokens_of c.files ≡ tokens_of files → run_in c input turns ≡ run_in (record c { files = files }) input turns }
{
    runs_are_of_the_types();
}
