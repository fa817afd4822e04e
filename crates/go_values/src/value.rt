//! Values, and what is read of them.

use go_base::Memory;
use go_constants::{Const, SharedBytes};
use std::alloc::Global;
use std::rc::Rc;

/// Where a slice lies: the number of its array, its first place there, its length and its capacity (Go specification,
/// "Slice types").
#[derive(Clone, Copy, Debug, PartialEq, Eq)]
pub struct Segment {
    pub array: usize,
    pub start: usize,
    pub length: usize,
    pub capacity: usize,
}

/// A value of a running program. It doesn't tell its type.
#[derive(Debug, Drop)]
pub enum Value {
    Truth(bool),
    Whole(i128),
    /// A string, by its bytes.
    Text(SharedBytes),
    /// An array or a struct: its elements, or the values of its fields, in order. Copies share them until one is written.
    Parts(Rc<Vec<Value>>),
    Slice(Segment),
    NilSlice,
    /// A function of the package, by its number.
    Function(u32),
    NilFunction,
}

impl Value {
    ghost use Rattle.std.specs.Prelude.{◌≡◌, IfOk};
    ghost use Rattle.go_meaning.specs.Values as meant;
    ghost use Rattle.go_meaning.specs.Values.{const_value, is_true, whole_of, text_of, parts_of, valued};
    ghost use Rattle.go_values.specs.Views.{view, views};

    /// The value of a constant. The bytes of a string are shared.
    ///
    /// # Errors
    ///
    /// Want of memory.
    pub fn of_constant(constant: &Const) -> Result<Value, Memory>
        ensures { IfOk result (λ v. view v ≡ const_value constant.now) }
    {
        match constant {
            Const::Bool(b) => Ok(Value::Truth(*b)),
            Const::Int { value, .. } => Ok(Value::Whole(*value)),
            Const::Text(bytes) => Ok(Value::Text(bytes.shared()?)),
        }
    }

    /// An array or a struct of these parts.
    ///
    /// # Errors
    ///
    /// Want of memory.
    pub fn of_parts(alloc: Global, parts: Vec<Value>) -> Result<Value, Memory>
        ensures { IfOk result (λ v. view v ≡ meant.Parts (valued (views parts.items))) }
    {
        Ok(Value::Parts(Rc::new(alloc, parts)?))
    }

    /// Whether it is true; false for what is no boolean.
    pub fn is_true(&self) -> bool
        ensures { result ≡ is_true (view self.now) }
    {
        match self {
            Value::Truth(b) => *b,
            _ => false,
        }
    }

    /// Its number; 0 for what is no integer.
    pub fn whole(&self) -> i128
        ensures { result ≡ whole_of (view self.now) }
    {
        match self {
            Value::Whole(z) => *z,
            _ => 0,
        }
    }

    /// The bytes of a string; none for what is no string.
    pub fn text(&self) -> &[u8]
        ensures { result.now ≡ text_of (view self.now) }
    {
        match self {
            Value::Text(bytes) => bytes.as_slice(),
            _ => &[],
        }
    }

    /// The parts of an array or a struct; none for what is neither.
    pub fn parts(&self) -> &[Value]
        ensures { views result.now ≡ parts_of (view self.now) }
    {
        match self {
            Value::Parts(parts) => parts.as_ref().as_slice(),
            _ => &[],
        }
    }

    /// The parts of an array or a struct; none of what is neither. They are copied where others share them.
    ///
    /// # Errors
    ///
    /// Want of memory.
    pub fn into_parts(self, alloc: Global) -> Result<Vec<Value>, Memory>
        ensures { IfOk result (λ vs. views vs.items ≡ parts_of (view self)) }
    {
        match self {
            Value::Parts(parts) => sole(alloc, parts),
            _ => Ok(Vec::new(alloc)),
        }
    }

    /// A copy (Go specification, "Assignment statements"). Of an array or a struct it shares the parts, which are copied when one
    /// of the two is written; a slice shares its array with the copy, and a string its bytes.
    ///
    /// # Errors
    ///
    /// Want of memory.
    pub fn copy_of(&self, alloc: Global) -> Result<Value, Memory>
        ensures { IfOk result (λ v. view v ≡ view self.now) }
    {
        match self {
            Value::Truth(b) => Ok(Value::Truth(*b)),
            Value::Whole(z) => Ok(Value::Whole(*z)),
            Value::Text(bytes) => Ok(Value::Text(bytes.shared()?)),
            Value::Parts(parts) => Ok(Value::Parts(parts.clone()?)),
            Value::Slice(segment) => Ok(Value::Slice(*segment)),
            Value::NilSlice => Ok(Value::NilSlice),
            Value::Function(number) => Ok(Value::Function(*number)),
            Value::NilFunction => Ok(Value::NilFunction),
        }
    }
}

ghost use Rattle.std.specs.Prelude.{◌≡◌, IfOk};
ghost use Rattle.go_values.specs.Views.{views};

/// A copy of each value.
///
/// # Errors
///
/// Want of memory.
pub fn copies_of(alloc: Global, values: &[Value]) -> Result<Vec<Value>, Memory>
    ensures { IfOk result (λ vs. views vs.items ≡ views values.now) }
{
    let mut copies = Vec::with_capacity(alloc, values.len())?;
    for value in values {
        copies.push(value.copy_of(alloc)?)?;
    }
    Ok(copies)
}

/// The parts, which are copied where others share them.
fn sole(alloc: Global, parts: Rc<Vec<Value>>) -> Result<Vec<Value>, Memory>
    ensures { IfOk result (λ vs. views vs.items ≡ views parts.value.items) }
{
    match Rc::try_unwrap(parts) {
        Ok(parts) => Ok(parts),
        Err(shared) => copies_of(alloc, shared.as_ref().as_slice()),
    }
}
