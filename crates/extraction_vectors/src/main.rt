//! Compares what an extraction hands over, and whether it is refused, with tables of cases whose answers come from outside.
//!
//! The answers of `choices` and `refusals` come from another reading of the language, made apart from these crates. The rows of
//! `worked_choices`, `worked_refusals` and `chosen` were worked out by hand.
//!
//! The tables lie in the folder that the program is run in, each as a file `NAME.tsv`. A table that is not there is passed over.
//! Each difference is printed, and for each table a line, as `choices 980 of 980`: how many of its cases agree.
#![tactic(auto)]

mod choices;
mod chosen;
mod dropped;
mod items;
mod names;
mod nodes;
mod packages;
mod plans;
mod refusals;
mod staying;
mod windows;

use case_tables::table::run;
use choices::Choices;
use chosen::Chosen;
use refusals::Refusals;

fn main(rt: HostRuntime) -> anyhow::Result<()> {
    run(
        &rt,
        &Choices {
            name: "worked_choices",
        },
    )?;
    run(&rt, &Choices { name: "choices" })?;
    run(&rt, &Chosen)?;
    run(
        &rt,
        &Refusals {
            name: "worked_refusals",
        },
    )?;
    run(&rt, &Refusals { name: "refusals" })
}
