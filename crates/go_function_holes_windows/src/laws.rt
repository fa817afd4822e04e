//! Laws, for the crates above. The functions do nothing: their contracts are the laws.

ghost use Rattle.go_function_holes_windows.specs.Statements.{StatementHolesStand};
ghost use Rattle.go_function_holes_windows.specs.Windows.{WindowHolesStand};

use go_rewriting::laws::subtrees_stand;
use go_stmts_final_types::laws::derivations_are_shaped;

/// A path leads from a statement, in which no rule fails, to each of its holes, which is an expression. A name may stand in its place (Go
/// specification: Statements, Constant expressions).
///
/// A caller gives the kinds of the tree (`derivations_are_shaped`), that what its nodes stand for is known, and that no constant is called and
/// no field of one is selected.
pub fn holes_of_statements_stand()
    ensures { StatementHolesStand }
{}

/// So each hole of a window stands in one of its statements, in the tree of its file.
///
/// A caller gives where the window stands (`windows_stand`), that what the nodes of its function stand for is known, and that no constant is
/// called there and no field of one is selected.
pub fn holes_of_windows_stand()
    ensures { WindowHolesStand }
{
    subtrees_stand();
    derivations_are_shaped();
}
