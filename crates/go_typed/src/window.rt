//! Windows and classes of windows.

ghost use Rattle.std.specs.Prelude.{◌≡◌};

use std::marker::Model;

/// A run of statements of one statement list of a function.
#[derive(Clone, Copy, PartialEq, Eq, Debug)]
pub struct Window {
    /// The number of the function in its package.
    pub func: u32,
    /// The number of the statement list in the function: each list stands before those within it, and otherwise they stand in
    /// order of place.
    pub list: u32,
    /// The place of the first statement in the list, from 0.
    pub first: u32,
    /// How many statements there are.
    pub count: u32,
}

/// Windows in order.
#[derive(Clone, Debug, Drop)]
pub struct Windows {
    items: Vec<Window>,
}

impl Model for Windows {
    ghost use Rattle.std.specs.Prelude.{List};
    ghost use Rattle.go_typed.specs.declared.window.Window.{Window};

    ghost Value = { List Window };

    ghost view = { λ w. w.items.items };
}

impl Windows {
    /// The windows of a `Vec`, which is kept.
    pub fn of(items: Vec<Window>) -> Windows
        ensures { result ≡ items.items }
    {
        Windows { items }
    }

    /// All the windows.
    pub fn as_slice(&self) -> &[Window]
        ensures { result.now ≡ self.now }
    {
        self.items.as_slice()
    }
}

/// Windows that are the same but for names of locals and constants.
#[derive(Clone, Debug, Drop)]
pub struct Class {
    pub members: Windows,
}
