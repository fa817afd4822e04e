//! How items go on.

/// What stands where items may begin.
#[derive(Clone, Copy, Debug, PartialEq, Eq)]
pub enum Turn {
    /// The end of the items.
    Stop,
    /// A separator alone.
    Pass,
    /// An item.
    Item,
}

/// What stands behind an item.
#[derive(Clone, Copy, Debug, PartialEq, Eq)]
pub enum Next {
    /// Items may begin here.
    On(u32),
    /// The items end here.
    Done(u32),
    /// Neither a separator nor the end.
    Wrong,
}
