//! The items of range clauses (Go specification, "For statements with range clause").

ghost use Rattle.std.specs.Prelude.{◌≡◌, ◌+◌, ◌<◌, ℕ, IfOk, None, length, pos};
ghost use Rattle.std.specs.Option.{option_map};
ghost use Rattle.go_meaning.specs.Operations.{item, item_count, numbers_below, rune_at};
ghost use Rattle.go_meaning.specs.Texts.{runes_of};
ghost use Rattle.go_meaning.specs.Values.{Whole};
ghost use Rattle.go_eval_plans.specs.Views.{items_view};
ghost use Rattle.go_values.specs.Views.{view};
ghost use Rattle.go_values.specs.Worlds.{world_view};
ghost use Rattle.go_eval_operations.specs.Places.{IsPlace, IsRunePlace, item_values};

use crate::runes::{first_rune, rune_count};
use go_base::Memory;
use go_eval_plans::plan::Items;
use go_values::{Value, World, copy_part, length};
use std::alloc::Global;

/// An item of a range clause.
#[derive(Debug, Drop)]
pub struct Item {
    /// Its number, or of a rune the place of its first byte.
    pub first: Value,
    pub second: Option<Value>,
    /// The place of the item behind it.
    pub next: usize,
}

/// How many whole numbers from 0 on are below an integer.
fn numbers_below(bound: i128) -> u128
    ensures { result ≡ numbers_below bound }
{
    if bound < 0 { 0 } else { bound as u128 }
}

/// How many items there are, at the start.
pub fn item_count(items: Items, operand: &Value) -> u128
    ensures { result ≡ item_count (items_view items) (view operand.now) }
{
    match items {
        Items::Fixed(count) => u128::from(count),
        Items::Elements => operand.parts().len() as u128,
        Items::Cells => length(operand) as u128,
        Items::Runes => rune_count(operand.text()) as u128,
        Items::Numbers => numbers_below(operand.whole()),
    }
}

/// A number below a length, as a place.
fn place_below(number: u128, length: usize) -> usize
    requires { number < length }
    ensures { result ≡ number }
{
    number as usize
}

/// An item that begins at no place.
fn counted(number: usize, second: Option<Value>) -> Item
    ensures first { view result.first ≡ Whole (pos number) }
    ensures second { result.second ≡ second }
{
    Item {
        first: Value::Whole(number as i128),
        second,
        next: 0,
    }
}

/// A number below an integer, as an item.
fn number_item(number: u128, bound: i128) -> Item
    requires { number < numbers_below bound }
    ensures first { view result.first ≡ Whole (pos number) }
    ensures second { result.second ≡ None }
{
    Item {
        first: Value::Whole(number as i128),
        second: None,
        next: 0,
    }
}

/// The rune that begins at a place.
fn rune_item(bytes: &[u8], place: usize) -> Item
    requires { place < length bytes.now }
    ensures values { (n : ℕ) → IsRunePlace bytes.now n place → item_values (view result.first) (option_map view result.second) ≡ rune_at (runes_of bytes.now) n }
    ensures next { (n : ℕ) → IsRunePlace bytes.now n place → IsRunePlace bytes.now (n + 1) result.next }
{
    let (rune, width) = first_rune(&bytes[place..]);
    let code = u32::from(rune);
    Item {
        first: Value::Whole(place as i128),
        second: Some(Value::Whole(i128::from(code))),
        next: place + width,
    }
}

/// The item of a number, which begins at a place. An element of an array or a slice is copied.
///
/// # Errors
///
/// Want of memory.
pub fn item_at(
    alloc: Global,
    items: Items,
    number: u128,
    place: usize,
    operand: &Value,
    world: &World,
) -> Result<Item, Memory>
    requires place { IsPlace (items_view items) (view operand.now) number place }
    requires within { number < item_count (items_view items) (view operand.now) }
    ensures values { IfOk result (λ i. item_values (view i.first) (option_map view i.second) ≡ item (items_view items) number (view operand.now) (world_view world.now)) }
    ensures next { IfOk result (λ i. IsPlace (items_view items) (view operand.now) (number + 1) i.next) }
{
    match items {
        Items::Fixed(count) => Ok(counted(place_below(number, count as usize), None)),
        Items::Elements => {
            let index = place_below(number, operand.parts().len());
            Ok(counted(index, Some(copy_part(alloc, operand, index)?)))
        }
        Items::Cells => {
            let index = place_below(number, length(operand));
            Ok(counted(index, Some(world.copy_cell(alloc, operand, index)?)))
        }
        Items::Runes => Ok(rune_item(operand.text(), place)),
        Items::Numbers => Ok(number_item(number, operand.whole())),
    }
}
