//! Laws from bytes to trees: what becomes of the tokens and the tree of a file where ranges of its text are replaced and a
//! declaration is appended.
//!
//! Its contract is the laws in `laws`, of which `rewritten_file` is the one that callers cite. Below it, on derivations: where disjoint
//! subtrees and runs of items are replaced by others of the same categories, over other tokens, the new tokens have the tree with
//! those parts replaced.
#![tactic(auto)]

pub mod laws;
