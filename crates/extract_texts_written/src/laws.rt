//! Laws of what an extraction writes, for the crates above. The functions do nothing: their contracts are the laws.

ghost use Rattle.extract_texts_written.specs.Written.{AllCallsCanBeWritten, FunctionsCanBeWritten};

use go_heads_types::laws::functions_add_right_sides;
use go_package_checked::laws::checked_packages_are_within_limits;
use go_print_laws::laws::names_are_names;
use go_stmts_written::laws::checked_packages_are_named;

/// The header of an extracted function, with its fresh names, and the names that it returns can be written: locals have the names that
/// declare them, types name what is declared in the package, and the new name is one identifier.
pub fn functions_can_be_written()
    ensures { FunctionsCanBeWritten }
{
    checked_packages_are_named();
    checked_packages_are_within_limits();
    functions_add_right_sides();
    names_are_names();
}

/// The call that stands at each window can be written.
///
/// A caller gives besides that what the template hands over is named by nodes of its statements, and that constants are such as the
/// program holds.
pub fn calls_can_be_written()
    ensures { AllCallsCanBeWritten }
{
    checked_packages_are_named();
    checked_packages_are_within_limits();
    functions_add_right_sides();
    names_are_names();
}
