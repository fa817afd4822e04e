//! Which runs of statements are windows.

/// Which runs of statements are windows.
#[derive(Clone, Copy, Debug, PartialEq, Eq)]
pub struct Bounds {
    /// The fewest statements, 1 to 32.
    pub fewest: u32,
    /// The least mass, 1 to 1000.
    pub least: u32,
}
