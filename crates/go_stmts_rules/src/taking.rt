//! What a part takes of its place.

use go_exprs_rules::Take;
use go_typed::Sort;

/// What a part takes of its place.
#[derive(Debug, Drop)]
pub enum Taking {
    /// A type, as an expression does.
    Takes(Take),
    /// What it stands for, of a name that is declared.
    Stands(Sort),
}
