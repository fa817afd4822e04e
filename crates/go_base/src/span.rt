ghost use Rattle.std.specs.Prelude.{◌≤◌};

/// A piece of a file: the bytes from `start` to before `end` of the file with the number `file`, in
/// the order of the names of the package's files. Offsets count every byte of the file.
#[derive(Clone, Copy, Debug, PartialEq, Eq, Hash)]
pub struct Span {
    pub file: u32,
    pub start: u32,
    pub end: u32,
    pub ghost ordered: { start ≤ end },
}
