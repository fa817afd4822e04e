//! Laws, for the crates above. The functions do nothing: their contracts are the laws.

ghost use Rattle.go_package.specs.Reading.{FileFaultsAreReported};
ghost use Rattle.std.specs.Prelude.{List, map};
ghost use Rattle.std.specs.List.{AllByRecursion};
ghost use Rattle.go_tree.specs.declared.context.Entity.{Entity};
ghost use Rattle.go_tree.specs.File.{FileTree};
ghost use Rattle.go_tree.specs.Uses.{UsesView};
ghost use Rattle.go_package_defs.specs.Bodies.{those_of};
ghost use Rattle.go_package_defs.specs.Sources.{source_of};
ghost use Rattle.go_package_alike.specs.Portions.{IsDerived, IsWhole};
ghost use Rattle.go_package.specs.Functions.{AreFiles, package_in, AreStanding, ArePlainVariables, specified};

/// The fault of a file by itself that `read_files` answers is the one that is reported of the package.
pub fn file_faults_are_reported()
    ensures { FileFaultsAreReported }
{}

/// The declarations of files stand by themselves: where they are read by their own tokens alone, their literals can be read too. The
/// specifications of variables have no statements.
pub fn declarations_stand()
    ensures derived { (files : List FileTree) → AreFiles files → AllByRecursion IsDerived (map source_of files) }
    ensures standing { (files : List FileTree) (uses : UsesView) → AreFiles files → (e : Entity) → AllByRecursion IsWhole (those_of e (specified files)) → AreStanding (package_in files uses) e (specified files) }
    ensures plain { (files : List FileTree) (uses : UsesView) → AreFiles files → ArePlainVariables (specified files) }
{}
