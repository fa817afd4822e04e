//! The members of a class that are chosen.

ghost use Rattle.std.specs.Prelude.{◌≡◌, ◌≤◌, ◌<◌, ◌^◌, [], length, map, Ok, IfOk, IfErr};
ghost use Rattle.clone_window.specs.Bodies.{bodies_of};
ghost use Rattle.clone_classes.specs.Choices.{apart, chosen, first_other, numbers_unless, place_of, IsRefused};

use crate::place::{Place, places_of};
use crate::taken::Taken;
use go_base::Memory;
use go_typed::checked::Checked;
use go_typed::window::Class;
use std::alloc::{AllocError, Global};
use std::marker::Model;
use thiserror::Error;

/// Numbers of members, one or more; the first member of a class has the number 1.
#[derive(Debug, Drop)]
pub struct Numbers {
    items: Vec<u32>,
}

impl Model for Numbers {
    ghost use Rattle.std.specs.Prelude.{List, ℕ, ◌≤◌, length};

    ghost Value = { List ℕ };

    ghost view = { λ n. n.items.items };

    ghost invariant = { λ n. 1 ≤ length n.items.items };
}

impl Numbers {
    /// The numbers of a `Vec`, which is kept.
    pub fn of(items: Vec<u32>) -> Numbers
        requires { 1 ≤ length items.items }
        ensures { result ≡ items.items }
    {
        Numbers { items }
    }

    /// All the numbers.
    pub fn as_slice(&self) -> &[u32]
        ensures { result.now ≡ self.now }
    {
        self.items.as_slice()
    }
}

/// Which members of a class are chosen.
#[derive(Debug, Drop)]
pub enum Choice {
    /// Each that overlaps no earlier chosen one.
    All,
    /// Those of these numbers, in this order.
    Members(Numbers),
}

/// Why no members are chosen.
#[derive(Debug, Drop, Error)]
pub enum ChooseError {
    /// There is no member of this number.
    #[error("the class has no member {0}")]
    NoMember(u32),
    /// There was too little memory.
    #[error("out of memory")]
    Memory,
}

impl From<Memory> for ChooseError {
    ghost use Rattle.std.specs.Prelude.{◌≡◌};
    ghost use Rattle.clone_classes.specs.declared.choose.ChooseError.TheVariants as error;

    ghost from_gives = { λ _ e. e ≡ error.Memory };

    fn from(_error: Memory) -> ChooseError {
        ChooseError::Memory
    }
}

impl From<AllocError> for ChooseError {
    ghost use Rattle.std.specs.Prelude.{◌≡◌};
    ghost use Rattle.clone_classes.specs.declared.choose.ChooseError.TheVariants as error;

    ghost from_gives = { λ _ e. e ≡ error.Memory };

    fn from(_error: AllocError) -> ChooseError {
        ChooseError::Memory
    }
}

/// The numbers of the chosen members of a class, in the order in which they are chosen.
///
/// # Errors
///
/// `NoMember` of the first number that is no member's, and want of memory.
pub fn chosen(
    alloc: Global,
    checked: &Checked,
    class: &Class,
    choice: &Choice,
) -> Result<Vec<u32>, ChooseError>
    requires { length class.now.members < 2 ^ 32 }
    ensures chosen { IfOk result (λ v. chosen (map (place_of (bodies_of checked.now.functions)) class.now.members) choice.now ≡ Ok v.items) }
    ensures refused { IfErr result (IsRefused (chosen (map (place_of (bodies_of checked.now.functions)) class.now.members) choice.now)) }
{
    let places = places_of(alloc, checked, class.members.as_slice())?;
    match choice {
        Choice::All => Ok(apart(alloc, &places)?),
        Choice::Members(numbers) => known(alloc, &places, numbers.as_slice()),
    }
}

/// Numbers, if all are those of members at these places.
fn known(alloc: Global, places: &[Place], numbers: &[u32]) -> Result<Vec<u32>, ChooseError>
    ensures chosen { IfOk result (λ v. numbers_unless numbers.now (first_other (length places.now) numbers.now) ≡ Ok v.items) }
    ensures refused { IfErr result (IsRefused (numbers_unless numbers.now (first_other (length places.now) numbers.now))) }
{
    if let Some(number) = first_other(places.len(), numbers) {
        return Err(ChooseError::NoMember(number));
    }
    let items = Vec::from_slice(alloc, numbers)?;
    Ok(items)
}

/// The first number that is none of so many members.
fn first_other(count: usize, numbers: &[u32]) -> Option<u32>
    ensures { result ≡ first_other count numbers.now }
{
    for number in numbers {
        if *number == 0 || count < *number as usize {
            return Some(*number);
        }
    }
    None
}

/// The numbers of the members at these places that overlap no earlier chosen one.
fn apart(alloc: Global, places: &[Place]) -> Result<Vec<u32>, Memory>
    requires { length places.now < 2 ^ 32 }
    ensures { IfOk result (λ v. v.items ≡ apart [] 1 places.now) }
{
    let mut taken = Taken::new(alloc);
    let mut numbers = Vec::new(alloc);
    let mut number: u32 = 0;
    for place in places {
        number += 1;
        if !taken.meets(*place) {
            taken.push(*place)?;
            numbers.push(number)?;
        }
    }
    Ok(numbers)
}
