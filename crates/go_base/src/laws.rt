//! Laws of the constants.
ghost use Rattle.std.specs.Prelude.{◌≡◌};
ghost use Rattle.go_base.specs.Package.{most_files, most_bytes};

use crate::package::{MAX_BYTES, MAX_FILES};

/// The limits that the code reads are those of a package.
pub fn limits()
    ensures files { MAX_FILES ≡ most_files }
    ensures bytes { MAX_BYTES ≡ most_bytes }
{}
