/// The most files of a package.
pub const MAX_FILES: u32 = 256;

/// The most bytes of the files of a package together.
pub const MAX_BYTES: u32 = 1_048_576;
