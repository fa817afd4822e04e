//! The rounds in which the declarations of a package are judged.
//!
//! In each round every declaration is judged by what the round before knew of the objects that it names. The contract of `rounds`: it
//! answers what is known after as many rounds as the definition has (`known` of specs/Verdicts.antt of go_package_defs), of the faults of
//! each object the least ones, and the table has the right sides of the declared types. It stops as soon as a round changes nothing
//! that a further one reads.
#![tactic(auto)]

pub mod held;
pub mod judge;
pub mod rights;
pub mod round;
pub mod scope;
pub mod standing;
pub mod start;
pub mod world;

pub use held::Held;
pub use round::rounds;
pub use start::first;
pub use world::World;
