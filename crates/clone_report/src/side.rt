//! The two sides of a window.

/// The side of a window on which an extension has one statement more.
#[derive(Clone, Copy, Debug, PartialEq, Eq)]
pub enum Side {
    /// In front of its first statement.
    Before,
    /// Behind its last one.
    After,
}
