//! The table `chosen`: a number, the two options, the files, the number of a class of the listing, `all` or numbers of members, divided
//! by blanks, and the numbers of the members that are chosen, or `NoMember` with the number of none.

ghost use Rattle.std.specs.Prelude.{◌≡◌, ◌≤◌};

use crate::packages::package_of;
use case_tables::table::Table;
use clone_classes::choose::{Choice, ChooseError, Numbers, chosen};
use clone_classes::pairwise::pairwise;
use go_base::{Memory, Steps};
use go_typed::checked::Checked;
use go_typed::window::Class;
use std::alloc::{AllocError, Global};
use std::marker::Brand;
use std::sync::ledger::{Blank, Ledger};

pub struct Chosen;

impl Table for Chosen {
    fn name(&self) -> &'static str {
        "chosen"
    }

    fn difference(&self, alloc: Global, fields: &[&str]) -> Result<Option<String>, Memory> {
        let [_, min, mass, folder, class, choice, wanted, ..] = fields else {
            return Ok(Some(String::from_str(alloc, "not seven fields")?));
        };
        let said = match package_of(alloc, folder)? {
            Some(package) => {
                let classes = classes_of(alloc, package.package(), number(min), number(mass))?;
                said_of(alloc, package.package(), &classes, number(class), choice)?
            }
            None => String::from_str(alloc, "a fault")?,
        };
        Ok(if said.as_str() == *wanted {
            None
        } else {
            Some(said)
        })
    }
}

/// The number that a text is, and 0 where it is none.
fn number(text: &str) -> u32 {
    text.parse::<u32>().unwrap_or(0)
}

/// The classes of a package in the order of its listing; none where an option is out of range.
fn classes_of(alloc: Global, package: &Checked, min: u32, mass: u32) -> Result<Vec<Class>, Memory> {
    counted::<Brand>(alloc, package, min, mass, Blank::new(3))
}

/// The same, with a counter.
fn counted<L: Ledger>(
    alloc: Global,
    package: &Checked,
    min: u32,
    mass: u32,
    blank: Blank,
) -> Result<Vec<Class>, Memory>
    requires name { blank.name ≡ L.name }
    requires parts { blank.parts ≡ L.parts }
    requires room { 3 ≤ blank.parts }
{
    let mut steps = Steps::<L>::new(blank);
    if min < 1 || min > 32 || mass < 1 || mass > 1000 {
        return Ok(Vec::new(alloc));
    }
    pairwise(alloc, package, min, mass, &mut steps)
}

/// What is chosen of the class of this number.
fn said_of(
    alloc: Global,
    package: &Checked,
    classes: &[Class],
    class: u32,
    choice: &str,
) -> Result<String, Memory> {
    let Some(class) = classes.get((class as usize).wrapping_sub(1)) else {
        return Ok(String::from_str(alloc, "NoClass")?);
    };
    if class.members.as_slice().len() > 1_000_000 {
        return Ok(String::from_str(alloc, "too many members")?);
    }
    let choice = choice_of(alloc, choice)?;
    match chosen(alloc, package, class, &choice) {
        Ok(numbers) => listed(alloc, &numbers),
        Err(ChooseError::NoMember(number)) => Ok(format!(in alloc; "NoMember {number}")?),
        Err(ChooseError::Memory) => Err(Memory),
    }
}

/// The choice that a text writes.
fn choice_of(alloc: Global, text: &str) -> Result<Choice, AllocError> {
    let mut numbers = Vec::new(alloc);
    if text != "all" {
        for member in text.split(' ') {
            numbers.push(number(member))?;
        }
    }
    Ok(if numbers.is_empty() {
        Choice::All
    } else {
        Choice::Members(Numbers::of(numbers))
    })
}

/// Numbers with blanks between them.
fn listed(alloc: Global, numbers: &[u32]) -> Result<String, Memory> {
    let mut text = String::new(alloc);
    for number in numbers {
        if !text.is_empty() {
            text.push_str(" ")?;
        }
        let digits = format!(in alloc; "{number}")?;
        text.push_str(digits.as_str())?;
    }
    Ok(text)
}
