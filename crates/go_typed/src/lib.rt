//! Typed trees of Go functions, the packages that they stand in, and windows of their statements.
//!
//! A typed tree is made of one type of node: a form, a range of tokens, a label, and parts in order. Types are numbers of a
//! table in the program and trees in definitions (specs/Trees.antt is over what stands for them, specs/Views.antt says what a
//! node shows in a table). `TypedFunc` keeps that parts lie one after the other, that tokens are counted from the function's
//! first one, and that all numbers are in range; `Checked` keeps the same of a package. The contracts: `walk_locals` gives the
//! locals that are named in a window, and `node_at` the innermost node over a token, by the definitions in specs/Windows.antt and
//! specs/Places.antt, whose meaning is told in `laws`.
#![tactic(auto)]

pub mod checked;
pub mod constant;
pub mod constant_type;
pub mod env;
pub mod form;
pub mod func;
pub mod laws;
pub mod lists;
pub mod locals;
pub mod named_local;
pub mod node;
pub mod node_table;
pub mod operators;
pub mod origin;
pub mod sort;
pub mod walk;
pub mod window;

pub use checked::Checked;
pub use constant::SharedConst;
pub use constant_type::ConstantType;
pub use env::Env;
pub use form::{Form, Referent};
pub use func::TypedFunc;
pub use lists::StatementLists;
pub use locals::Locals;
pub use named_local::NamedLocal;
pub use node::TypedNode;
pub use node_table::{NodeTable, PartPlace};
pub use origin::Origin;
pub use sort::{Label, Sort, Untyped};
pub use walk::{LocalUse, node_at, walk_locals};
pub use window::{Class, Window, Windows};
