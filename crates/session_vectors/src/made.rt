//! The table `made`: a number, a seed, and the two options. From the seed a package is made, which type-checks; its clone classes
//! are listed in three ways, and the listings are compared.
use crate::agreement::{Case, listed_thrice};
use case_tables::table::Table;
use go_base::{Memory, Name};
use port_io::MemFolder;
use std::alloc::Global;

pub struct Made;

impl Table for Made {
    fn name(&self) -> &'static str {
        "made"
    }

    fn difference(&self, alloc: Global, fields: &[&str]) -> Result<Option<String>, Memory> {
        let [_, seed, min, mass, ..] = fields else {
            return Ok(Some(String::from_str(alloc, "not four fields")?));
        };
        let text = package(alloc, seed.parse::<u64>().unwrap_or(0))?;
        let mut folder = MemFolder::new(alloc, Vec::new(alloc));
        match Name::of(alloc, b"a.go") {
            Ok(name) => folder.add("d", &name, text.as_bytes())?,
            Err(_) => return Err(Memory),
        }
        let mut case = Case {
            folder,
            dir: String::from_str(alloc, "d")?,
            min: min.parse::<u32>().unwrap_or(0),
            mass: mass.parse::<u32>().unwrap_or(0),
        };
        match listed_thrice(alloc, &mut case)? {
            Some(listings) if listings.agree() => Ok(None),
            Some(_) => Ok(Some(format!(in alloc; "three listings of {:?}", text.as_str())?)),
            None => Ok(Some(format!(in alloc; "a fault in {:?}", text.as_str())?)),
        }
    }
}

/// Numbers that follow from a seed.
#[derive(Drop)]
struct Numbers {
    state: u64,
}

impl Numbers {
    /// The next number, below a limit.
    fn below(&mut self, limit: u64) -> u64 {
        self.state = self
            .state
            .wrapping_mul(6_364_136_223_846_793_005)
            .wrapping_add(1_442_695_040_888_963_407);
        (self.state >> 33).checked_rem(limit).unwrap_or(0)
    }
}

/// A package of some functions over numbers and two structs.
fn package(alloc: Global, seed: u64) -> Result<String, Memory> {
    let mut numbers = Numbers { state: seed };
    let mut text = String::from_str(
        alloc,
        "package p\n\ntype pair struct {\n\tx, y int\n}\n\ntype triple struct {\n\tu, v, w int\n}\n",
    )?;
    let functions = numbers.below(5).saturating_add(2);
    for function in 0..functions {
        let head = format!(in alloc; "\nfunc f{function}(a, b int, p pair, q triple) {{\n")?;
        text.push_str(head.as_str())?;
        let statements = numbers.below(6).saturating_add(2);
        for statement in 0..statements {
            push_statement(alloc, &mut numbers, function, statement, &mut text)?;
        }
        text.push_str("}\n")?;
    }
    Ok(text)
}

/// Puts a statement behind the text, which may hold others.
fn push_statement(
    alloc: Global,
    numbers: &mut Numbers,
    function: u64,
    statement: u64,
    text: &mut String,
) -> Result<(), Memory> {
    let kind = numbers.below(9);
    match kind {
        6 => text.push_str("\tif a > b {\n")?,
        7 => text.push_str("\tfor a < 10 {\n")?,
        8 => {
            let line = format!(in alloc;
                "\tn{statement} := a + {}\n\tb = n{statement}\n",
                numbers.below(3)
            )?;
            text.push_str(line.as_str())?;
        }
        _ => push_simple(alloc, numbers, function, text)?,
    }
    if kind == 6 || kind == 7 {
        for _ in 0..numbers.below(3).saturating_add(1) {
            push_simple(alloc, numbers, function, text)?;
        }
        text.push_str("\t}\n")?;
    }
    Ok(())
}

/// Puts a statement behind the text that holds no others.
fn push_simple(
    alloc: Global,
    numbers: &mut Numbers,
    function: u64,
    text: &mut String,
) -> Result<(), Memory> {
    let names = ["a", "b", "p.x", "p.y", "q.u", "q.w"];
    let target = name(&names, numbers);
    let value = name(&names, numbers);
    let line = match numbers.below(4) {
        0 => format!(in alloc; "\t{target} = {value}\n")?,
        1 => format!(in alloc; "\t{target} = {value} + {}\n", numbers.below(3))?,
        2 => format!(in alloc; "\t{target} = {value} * {}\n", name(&names, numbers))?,
        _ => format!(in alloc; "\tf{function}({value}, {}, p, q)\n", numbers.below(2))?,
    };
    text.push_str(line.as_str())?;
    Ok(())
}

/// One of the names.
fn name(names: &[&'static str; 6], numbers: &mut Numbers) -> &'static str {
    let index = numbers.below(6) as usize;
    names.get(index).copied().unwrap_or("a")
}
