//! Compares the crates with tables of cases whose answers come from outside.
//!
//! The answers of `arith`, `lexing`, `grammar` and `types` are those of Go's own compiler and packages. Those of `names` come
//! from another reading of the language, made apart from these crates, since Go has other codes for its faults. The rows of
//! `worked_files` and `worked_packages` were worked out by hand.
//!
//! The tables lie in the folder that the program is run in, each as a file `NAME.tsv`. A table that
//! is not there is passed over. Each difference is printed, and for each table a line, as
//! `arith 3625 of 3625`: how many of its cases agree.
#![tactic(auto)]

mod arithmetic;
mod lexing;
mod names;
mod parsing;
mod types;

use arithmetic::Arithmetic;
use case_tables::table::run;
use lexing::Lexing;
use names::Names;
use parsing::Parsing;
use types::TypeRelations;

fn main(rt: HostRuntime) -> anyhow::Result<()> {
    run(&rt, &Arithmetic)?;
    run(&rt, &Lexing)?;
    run(&rt, &Parsing { name: "grammar" })?;
    run(
        &rt,
        &Parsing {
            name: "worked_files",
        },
    )?;
    run(&rt, &TypeRelations)?;
    run(&rt, &Names { name: "names" })?;
    run(
        &rt,
        &Names {
            name: "worked_packages",
        },
    )
}
