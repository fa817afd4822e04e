//! Compares packages with tables of cases whose answers come from outside: the types and values of their variables and constants, and
//! the clone classes that are listed under a hash that tells no windows apart.
//!
//! The answers of `types_of` come from another reading of the language, made apart from these crates. The rows of `worked_types` and
//! `collisions` were worked out by hand. In `read_back` the texts that such answers print stand in a further file of their package, as
//! the type of a variable or as a constant: lexed, parsed and typed, they are printed as they were.
//!
//! The tables lie in the folder that the program is run in, each as a file `NAME.tsv`. A table that is not there is passed over.
//! Each difference is printed, and for each table a line, as `types_of 522 of 522`: how many of its cases agree.
#![tactic(auto)]

mod collisions;
mod declared_names;
mod packages;
mod types_of;

use case_tables::table::run;
use collisions::Collisions;
use types_of::TypesOf;

fn main(rt: HostRuntime) -> anyhow::Result<()> {
    run(
        &rt,
        &TypesOf {
            name: "worked_types",
            of_last: false,
        },
    )?;
    run(
        &rt,
        &TypesOf {
            name: "types_of",
            of_last: false,
        },
    )?;
    run(
        &rt,
        &TypesOf {
            name: "read_back",
            of_last: true,
        },
    )?;
    run(&rt, &Collisions)
}
