//! Where declared types stand.

/// Where a declared type is declared (Go specification: Type definitions).
#[derive(Clone, Copy, PartialEq, Eq, Debug)]
pub enum Origin {
    /// In the package block: the object of this number.
    Package(u32),
    /// In a function: the local of this number.
    Local { func: u32, local: u32 },
}
