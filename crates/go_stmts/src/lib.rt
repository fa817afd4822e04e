//! Functions with their types: the signature, the parameters, the locals, and the body by a walk over its statements.
//!
//! The contract of `type_body`: it answers exactly `body_answer_at` of the definition (specs/Bodies.antt of go_stmts_defs), the typed
//! function where no rule fails in it and else the fault that is reported, by the tokens of the function; or else memory ran out. The
//! function's own types are declared first, so they get the next numbers of declared types. `type_variables` answers the same of a
//! specification of variables of the package block. The table of types only grows, and by `laws` a typed function stays what it is as
//! the table does.
//!
//! `statements::walk` types statements and declarations from left to right, each in what is known where it begins (`reading` of
//! specs/Reading.antt of go_stmts_defs); of the nodes in post-order the first one that has a rule that fails decides. What is known
//! between two statements is the state of specs/State.antt: `entering`, `beginning`, `leaving` and `building` change it as the
//! definitions of their names do, `declare`, `parameters` and `tag` are its parts. `held` types nodes that only hold names and
//! expressions, `node` makes the typed node of a statement over its parts, and `counted` is the tree of a function with its tokens
//! counted from the function's first one.
#![tactic(auto)]

pub mod beginning;
pub mod body;
pub mod building;
pub mod content;
mod counted;
pub mod declare;
pub mod entering;
mod finish;
mod give;
mod held;
mod held_nodes;
pub mod laws;
pub mod leaving;
mod node;
pub mod own;
pub mod parameters;
mod row;
pub mod signature;
pub mod signature_parts;
pub mod state;
mod statements;
pub mod tag;
mod type_specification;
pub mod variables;

pub use body::type_body;
pub use counted::based;
pub use held::hold;
pub use node::statement;
pub use state::{Enclosing, State, Surroundings};
pub use statements::walk;
pub use variables::type_variables;
