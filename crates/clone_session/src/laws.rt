//! Laws, for the crates above. The functions do nothing: their contracts are the laws.

ghost use Rattle.std.specs.Prelude.{◌≡◌, ℕ, List, map, nat_eq};
ghost use Rattle.go_base.specs.declared.bytes.FileText.{FileText as Text};
ghost use Rattle.go_types.specs.Tables.{IsTable};
ghost use Rattle.go_typed.specs.declared.window.Window.{Window as Member};
ghost use Rattle.go_typed.specs.Contents.{Content};
ghost use Rattle.go_typed.specs.Packages.{PackageView as Package};
ghost use Rattle.go_package_defs.specs.Checked.{IsChecked, IsCheckedPackage, texts_of};
ghost use Rattle.clone_window.specs.declared.bounds.Bounds.{Bounds as Limits};
ghost use Rattle.clone_window.specs.Bodies.{bodies_of};
ghost use Rattle.clone_classes.specs.Listing.{listing_in};
ghost use Rattle.clone_report.specs.Covered.{coverage};
ghost use Rattle.clone_replies.specs.Classes.{body_in, classes_in, listed_package};
ghost use Rattle.clone_replies.specs.Listing.{listing_by, listing_reply};
ghost use Rattle.clone_replies.specs.Maximal.{maximal_by, maximal_reply};
ghost use Rattle.go_eval.specs.Runs.{run_package};
ghost use Rattle.clone_replies.specs.ReplyContents.{run_in};
ghost use Rattle.clone_script.specs.declared.command.Command.{Command as Line};
ghost use Rattle.clone_server.specs.Session.{Settings};
ghost use Rattle.clone_session.specs.Answers.{Answers, IsNoExtraction};

use clone_replies::laws::{
    listings_are_of_the_types, numbers_follow_from_the_texts, reports_are_of_the_types,
    runs_are_of_the_content,
};
use go_grammar::laws::one_tree_of_a_file;
use go_package_defs::laws::packages_have_one_answer;
use go_tokens::laws::one_lexing;

/// The clone classes and the listing of a package that the program holds are those that follow from its bytes alone.
pub fn listings_follow_from_the_texts()
    ensures classes { (bounds : Limits) (p : Package) (c : Content) → IsCheckedPackage p → IsTable p.types → IsChecked (texts_of p) c → listing_in bounds p ≡ classes_in bounds c }
    ensures listing { (bounds : Limits) (p : Package) (c : Content) → IsCheckedPackage p → IsTable p.types → IsChecked (texts_of p) c → listing_by nat_eq bounds (listed_package p) ≡ listing_reply bounds c }
    ensures one { (bounds : Limits) (texts : List Text) (c d : Content) → IsChecked texts c → IsChecked texts d → listing_reply bounds c ≡ listing_reply bounds d }
{
    listings_are_of_the_types();
    packages_have_one_answer();
    one_lexing();
    one_tree_of_a_file();
}

/// The covered statements and the reply to `maximal` of a package that the program holds are those that follow from its bytes alone.
pub fn reports_follow_from_the_texts()
    ensures covered { (classes : List (List Member)) (p : Package) (c : Content) (file : ℕ) → IsCheckedPackage p → IsChecked (texts_of p) c → coverage classes p.files (bodies_of p.functions) file ≡ coverage classes c.files (map body_in c.functions) file }
    ensures reply { (bounds : Limits) (p : Package) (c : Content) → IsCheckedPackage p → IsTable p.types → IsChecked (texts_of p) c → maximal_by nat_eq bounds (listed_package p) ≡ maximal_reply bounds c }
    ensures one { (bounds : Limits) (texts : List Text) (c d : Content) → IsChecked texts c → IsChecked texts d → maximal_reply bounds c ≡ maximal_reply bounds d }
{
    reports_are_of_the_types();
    packages_have_one_answer();
    one_lexing();
    one_tree_of_a_file();
}

/// The run of a package that the program holds is the one that follows from its bytes alone.
pub fn runs_follow_from_the_texts()
    ensures run { (p : Package) (c : Content) (input : List ℕ) (turns : ℕ) → IsCheckedPackage p → IsChecked (texts_of p) c → run_package p input turns ≡ run_in c input turns }
    ensures one { (texts : List Text) (c d : Content) (input : List ℕ) (turns : ℕ) → IsChecked texts c → IsChecked texts d → run_in c input turns ≡ run_in d input turns }
{
    runs_are_of_the_content();
    packages_have_one_answer();
    one_lexing();
    one_tree_of_a_file();
}

/// At given files a command but `extract` has one reply, and leaves one package.
pub fn one_reply()
    ensures { (settings : Settings) (texts : List Text) (command : Line) (reply other : List ℕ) (after later : List Text)
        → IsNoExtraction command → Answers settings texts command reply after → Answers settings texts command other later → (reply ≡ other) × (after ≡ later) }
{
    listings_follow_from_the_texts();
    reports_follow_from_the_texts();
    numbers_follow_from_the_texts();
    runs_follow_from_the_texts();
    packages_have_one_answer();
}
