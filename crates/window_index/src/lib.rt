//! The index of windows: groups of windows that are the same, kept while functions come and go.
//!
//! An index finds the group of a window by its hash, and compares it with the first member of each group under that hash. So it is
//! right under every lawful hash, and costs little where hashes tell windows apart. Its contract: what it holds after `enter` is
//! what it held and the windows of the function, in groups by sameness; `leave` takes out those of one function. The counts of windows
//! that were put in and of comparisons are part of the contract.
//!
//! `index_of` puts all windows of a package into a new index, each once; `classes` lists its groups of two or more, in order. By
//! `laws` these are exactly the clone classes that comparing every window with every other gives, under every lawful hash; and the
//! windows of a package that type-checks lie one after the other, each at bytes of its file.
#![tactic(auto)]

pub mod classes;
mod groups;
pub mod index;
pub mod laws;
pub mod package;
