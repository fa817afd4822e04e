//! Where the values of places lie.

ghost use Rattle.std.specs.Prelude.{ℕ, length};
ghost use Rattle.go_typed.specs.Views.{AllKnown};
ghost use Rattle.go_meaning.specs.Values.{index_below, nth, whole_of};
ghost use Rattle.go_meaning.specs.Doings.{Doing, at, cell_place};
ghost use Rattle.go_values.specs.Views.{views};
ghost use Rattle.go_eval_plans.specs.Programs.{doings};
ghost use Rattle.go_eval_plans.specs.declared.machine.Machine.{Machine};
ghost use Rattle.go_eval_plans.specs.Targets.{IsIndex, IsReached};

use crate::exit::Exit;
use crate::parts::part;
use crate::places::{Place, as_place, operand, rest};
use go_base::Memory;
use go_typed::checked::Checked;
use go_typed::node::TypedNode;
use go_values::{Value, length, place_of};
use std::alloc::Global;

/// What is assigned where something is assigned to a part of it.
#[derive(Debug, Drop)]
pub enum Root {
    Local(u32),
    Variable(u32),
    /// An element of a slice: the slice, and the index.
    Cell(Value, Value),
    /// What is assigned is dropped.
    Nothing,
}

/// A part of a root, by the path of places that leads to it: each is a place in the array or struct before.
#[derive(Debug, Drop)]
pub struct Target {
    pub root: Root,
    pub path: Vec<usize>,
}

impl Target {
    ghost use Rattle.std.specs.Prelude.{◌≡◌, [], ◌∷◌, ◌++◌, IfOk};

    /// A whole root.
    fn whole(alloc: Global, root: Root) -> Target
        ensures root { result.root ≡ root }
        ensures path { result.path.items ≡ [] }
    {
        Target {
            root,
            path: Vec::new(alloc),
        }
    }

    /// A part of it.
    ///
    /// # Errors
    ///
    /// Want of memory.
    pub fn inner(self, place: usize) -> Result<Target, Memory>
        ensures { IfOk result (λ t. (t.root ≡ self.root) × (t.path.items ≡ self.path.items ++ place ∷ [])) }
    {
        let Target { root, path } = self;
        let mut path = path;
        path.push(place)?;
        Ok(Target { root, path })
    }
}

/// The place that the first operand tells in an array of this length.
///
/// # Errors
///
/// An index out of range.
pub fn place_in(length: u32, operands: &[Value]) -> Result<usize, Exit>
    ensures { IsIndex (index_below length (whole_of (nth (views operands.now) 0))) result }
{
    let nil = Value::NilFunction;
    Ok(place_of(operand(operands, 0, &nil), length as usize)?)
}

/// The element of a slice that the two operands tell.
///
/// # Errors
///
/// An index out of range; want of memory.
fn cell(alloc: Global, operands: &[Value]) -> Result<Target, Exit>
    ensures { (x i : Doing) (d : ℕ) (m : Machine) → IsReached (cell_place x i) (views operands.now) d m result }
{
    let nil = Value::NilFunction;
    let slice = operand(operands, 0, &nil);
    let index = operand(operands, 1, &nil);
    place_of(index, length(slice))?;
    let array = slice.copy_of(alloc)?;
    let place = index.copy_of(alloc)?;
    Ok(Target::whole(alloc, Root::Cell(array, place)))
}

/// Where the value of the place that a part is lies, with these operands. Each index on the way there is tested.
///
/// # Errors
///
/// The panic of an index; it is undecided where the part is no place; want of memory.
pub fn reach(
    alloc: Global,
    checked: &Checked,
    parts: &[Option<TypedNode>],
    number: usize,
    operands: &[Value],
) -> Result<Target, Exit>
    requires { AllKnown (length checked.now.types.shapes) parts.now }
    ensures { (n d : ℕ) (m : Machine) → IsReached (at (doings checked.now n parts.now) number) (views operands.now) d m result }
{
    let Some(node) = part(parts, number) else {
        return Err(Exit::Undecided);
    };
    match as_place(checked, node) {
        Place::Local(local) => Ok(Target::whole(alloc, Root::Local(local))),
        Place::Name(local) => Ok(Target::whole(alloc, Root::Local(local))),
        Place::Variable(variable) => Ok(Target::whole(alloc, Root::Variable(variable))),
        Place::Blank => Ok(Target::whole(alloc, Root::Nothing)),
        Place::Inner => reach(alloc, checked, &node.parts, 0, operands),
        Place::Field(field) => {
            let whole = reach(alloc, checked, &node.parts, 0, operands)?;
            Ok(whole.inner(field as usize)?)
        }
        Place::Element(length) => {
            let array = reach(alloc, checked, &node.parts, 0, rest(operands))?;
            let place = place_in(length, operands)?;
            Ok(array.inner(place)?)
        }
        Place::Cell => cell(alloc, operands),
        Place::Case(_) => Err(Exit::Undecided),
        Place::Otherwise => Err(Exit::Undecided),
        Place::Nothing => Err(Exit::Undecided),
    }
}
