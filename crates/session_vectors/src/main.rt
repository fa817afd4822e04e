//! Compares whole sessions of the program with tables of cases whose answers come from outside.
//!
//! The answers of `typing`, `listings`, `maximal`, `scripts`, `extracts` and `runs` come from another reading of the language and of the
//! commands, made apart from these crates; so do those of `typing_go122` and `runs_go122`, of `min`, `max` and `range` over integers. The
//! rows of `worked_typing` and `worked_sessions` were worked out by hand. The packages of `made` have no answers: their clone classes are
//! listed from two indexes and by comparing every window with every other, and so are those of `listings`. The rows of `make` have the
//! sums of what is written where a package is made from a number.
//!
//! The tables lie in the folder that the program is run in, each as a file `NAME.tsv`. A table that is not there is passed over.
//! Each difference is printed, and for each table a line, as `typing 372 of 372`: how many of its cases agree.
#![tactic(auto)]

mod agreement;
mod listings;
mod made;
mod make;
mod maximal;
mod runs;
mod scripts;
mod sessions;
mod typing;

use case_tables::table::run;
use listings::Listings;
use made::Made;
use make::Make;
use maximal::Maximal;
use runs::Runs;
use scripts::Scripts;
use typing::Typing;

fn main(rt: HostRuntime) -> anyhow::Result<()> {
    run(&rt, &Typing { name: "typing" })?;
    run(
        &rt,
        &Typing {
            name: "typing_go122",
        },
    )?;
    run(
        &rt,
        &Typing {
            name: "worked_typing",
        },
    )?;
    run(&rt, &Listings)?;
    run(&rt, &Maximal)?;
    run(&rt, &Made)?;
    run(&rt, &Make)?;
    run(
        &rt,
        &Scripts {
            name: "worked_sessions",
        },
    )?;
    run(&rt, &Scripts { name: "scripts" })?;
    run(&rt, &Scripts { name: "extracts" })?;
    run(&rt, &Runs { name: "runs" })?;
    run(&rt, &Runs { name: "runs_go122" })
}
