//! The table of types.
ghost use Rattle.std.specs.Prelude.{List, ◌≡◌, ◌↔◌, ◌<◌, ◌≤◌, ◌^◌, ◌-◌, ◌++◌, ◌∷◌, ℕ, [], None, Some, IsTrue, IfOk, OnOk, OnErr, IfSome, IfNone, length, slice_get, count_by, take, min};
ghost use Rattle.go_types.specs.declared.shape.Field.{Field};
ghost use Rattle.go_types.specs.declared.shape.Shape.{Shape};
ghost use Rattle.go_types.specs.declared.shape.Shape.TheVariants as shapes;
ghost use Rattle.go_types.specs.FieldPlaces.{field_place};
ghost use Rattle.go_types.specs.Trees.{Identical, is_named};
ghost use Rattle.go_types.specs.Relations.{Underlying, Assignable, Comparable, Scalars};
ghost use Rattle.go_types.specs.Tables.{Table, IsTable, HasShape, HasRightId, HasPartsBelow, WasDeclared, IsDefined, IsSettled, NoneContainsItself, is_declaration, type_of, rights_of};
ghost use Rattle.go_types.specs.Changes.{empty, IsDeclared, IsOpen, defined, IsInternedIn, IsClosedBelow, first_types, declaration, Leads};
ghost use Rattle.go_types.specs.Shapes.{IsInterned};
ghost use Rattle.go_types.specs.Verdicts.{IsVerdict};
ghost use Rattle.go_types.specs.Findings.{verdict_of, awaited_by};

use crate::finding::{Finding, find_out, known};
use crate::index::Index;
use crate::shape::{Shape, TypeId};
use crate::verdict::Verdict;
use crate::waits::Waits;
use crate::waking::learn;
use go_base::Memory;
use std::alloc::Global;
use std::marker::Model;

/// A table of types.
#[derive(Drop)]
pub struct Types {
    alloc: Global,
    shapes: Index,
    definitions: Vec<Option<Definition>>,
    /// What is known of each type, exactly for settled types.
    verdicts: Vec<Option<Verdict>>,
    /// What the others wait for.
    waits: Waits,
}

/// What a declared type was given.
#[derive(Clone, Copy, Debug)]
pub struct Definition {
    pub right: TypeId,
    pub underlying: TypeId,
}

impl Model for Types {
    ghost use Rattle.std.specs.Prelude.{map};
    ghost use Rattle.std.specs.Option.{option_map};
    ghost use Rattle.go_types.specs.Tables.{Table, IsTable};

    ghost Value = { Table };

    ghost use Rattle.go_types.specs.Changes.{table_of};
    ghost use Rattle.go_types.specs.Kept.{IsComplete};

    ghost view = { λ t. table_of t.shapes t.definitions.items };

    ghost invariant = { λ t. IsComplete t.shapes t.definitions.items t.verdicts.items t.waits };
}

// `let _table` reads the table before its numbers are compared: what is true of every table is then
// known.
impl Types {
    /// A table without types.
    pub fn new(alloc: Global) -> Types
        ensures { result ≡ empty }
    {
        Types {
            alloc,
            shapes: Index::new(alloc),
            definitions: Vec::new(alloc),
            verdicts: Vec::new(alloc),
            waits: Waits::new(alloc),
        }
    }

    /// The number of types in the table.
    pub fn count(&self) -> u64
        ensures count { result ≡ length self.now.shapes }
        ensures table { IsTable self.now }
    {
        self.shapes.len() as u64
    }

    /// The shape of a type of the table.
    pub fn shape(&self, a: TypeId) -> &Shape
        requires { a < length self.now.shapes }
        ensures { HasShape self.now a result.now }
    {
        self.shapes.get(a as usize)
    }

    /// The number of the first field of a name in the type `of`; `None` where it has no such field,
    /// or is no struct (Go specification, "Struct types").
    pub fn field_place(&self, of: TypeId, name: &[u8]) -> Option<usize>
        requires { of < length self.now.shapes }
        ensures place { (s : Shape) → HasShape self.now of s → result ≡ field_place s name.now }
        ensures within { (fs : List Field) → HasShape self.now of (shapes.Struct fs) → IfSome result (λ n. n < length fs) }
    {
        self.shapes.place(of as usize, name)
    }

    /// Adds a new declared type that has no right side yet (Go specification, "Type declarations").
    /// Declared types are numbered from 0 in the order of these calls. After `Memory` the table is
    /// unchanged.
    pub fn declare(&mut self) -> Result<TypeId, Memory>
        ensures answer { IfOk result (IsDeclared self.old self.new) }
        ensures err { OnErr result (self.new ≡ self.old) }
    {
        let number = self.definitions.len() as u64;
        self.definitions.push(None)?;
        let shape = Shape::Named { number };
        match add(
            self.alloc,
            &mut self.shapes,
            &mut self.verdicts,
            &mut self.waits,
            &shape,
            Finding::Open,
        ) {
            Ok(place) => Ok(place as u64),
            Err(error) => {
                self.definitions.pop();
                Err(error)
            }
        }
    }

    /// Gives a declared type its right side.
    pub fn define(&mut self, named: TypeId, right: TypeId)
        requires open { IsOpen self.old named }
        requires right_known { right < length self.old.shapes }
        requires right_defined { IsDefined self.old right }
        requires finite { NoneContainsItself (defined self.old named right) }
        ensures { self.new ≡ defined self.old named right }
    {
        let underlying = self.underlying_id(right);
        if let Some(number) = self.number_of(named) {
            self.definitions[number] = Some(Definition { right, underlying });
            match known(&self.verdicts, right) {
                None => self.waits.wait(named, right, 0),
                Some(verdict) => learn(
                    &self.shapes,
                    &self.definitions,
                    &mut self.verdicts,
                    &mut self.waits,
                    named,
                    verdict,
                ),
            }
        }
    }

    /// Whether the one type is a declared one without a right side, and the other one and all that
    /// it contains have theirs. Then the one may be defined by the other.
    pub fn can_define(&self, named: TypeId, right: TypeId) -> bool
        requires named_known { named < length self.now.shapes }
        requires right_known { right < length self.now.shapes }
        ensures test { IsTrue result ↔ IsOpen self.now named × IsSettled self.now right }
        ensures defined { IsTrue result → IsDefined self.now right }
        ensures finite { IsTrue result → NoneContainsItself (defined self.now named right) }
    {
        let _table = &self.shapes;
        self.is_open(named) && self.is_settled(right)
    }

    /// The number of the type of a shape, which is added if the table lacks it. After `Memory` the
    /// table is unchanged.
    pub fn intern(&mut self, shape: &Shape) -> Result<TypeId, Memory>
        requires parts { HasPartsBelow (length self.old.shapes) shape.now }
        requires declared { WasDeclared self.old shape.now }
        ensures answer { IfOk result (IsInternedIn self.old self.new shape.now) }
        ensures err { OnErr result (self.new ≡ self.old) }
    {
        let found = find_out(&self.definitions, &self.verdicts, shape, 0);
        let place = add(
            self.alloc,
            &mut self.shapes,
            &mut self.verdicts,
            &mut self.waits,
            shape,
            found,
        )?;
        Ok(place as u64)
    }

    /// Whether the parts of the shape are of the table, and a declared type in it was declared.
    pub fn can_intern(&self, shape: &Shape) -> bool
        ensures { IsTrue result ↔ HasPartsBelow (length self.now.shapes) shape.now × WasDeclared self.now shape.now }
    {
        shape.has_parts_below(self.count()) && self.was_declared(shape)
    }

    /// Whether the shape isn't that of a declared type, or of one that was declared.
    fn was_declared(&self, shape: &Shape) -> bool
        ensures { IsTrue result ↔ WasDeclared self.now shape.now }
    {
        match shape {
            Shape::Named { number } => *number < self.definitions.len() as u64,
            _ => true,
        }
    }

    /// Takes away the types from the number `count` on. No declared type below that number has a
    /// right side from there on.
    pub fn cut(&mut self, count: u64)
        requires within { count ≤ length self.old.shapes }
        requires closed { IsClosedBelow count self.old }
        ensures { self.new ≡ first_types count self.old }
    {
        let declared = self.declared_below(count);
        self.shapes.truncate(count as usize);
        self.definitions.truncate(declared);
        self.verdicts.truncate(count as usize);
        self.waits.truncate(count as usize);
    }

    /// Whether two types are identical (Go specification, "Type identity").
    pub fn identical(&self, a: TypeId, b: TypeId) -> bool
        requires left { a < length self.now.shapes }
        requires right { b < length self.now.shapes }
        ensures { IsTrue result ↔ Identical (type_of self.now.shapes a) (type_of self.now.shapes b) }
    {
        let _table = &self.shapes;
        a == b
    }

    /// The underlying type of a type (Go specification, "Underlying types").
    pub fn underlying(&self, a: TypeId) -> TypeId
        requires known { a < length self.now.shapes }
        requires defined { IsDefined self.now a }
        ensures within { result < length self.now.shapes }
        ensures underlying { Underlying (rights_of self.now) (type_of self.now.shapes a) (type_of self.now.shapes result) }
    {
        let _table = &self.shapes;
        self.underlying_id(a)
    }

    /// Whether a value of the type `from` is assignable to the type `to` (Go specification,
    /// "Assignability").
    pub fn assignable(&self, from: TypeId, to: TypeId) -> bool
        requires from_known { from < length self.now.shapes }
        requires to_known { to < length self.now.shapes }
        requires from_defined { IsDefined self.now from }
        requires to_defined { IsDefined self.now to }
        ensures { IsTrue result ↔ Assignable (rights_of self.now) (type_of self.now.shapes from) (type_of self.now.shapes to) }
    {
        let _table = &self.shapes;
        from == to
            || self.underlying_id(from) == self.underlying_id(to)
                && !(self.is_named(from) && self.is_named(to))
    }

    /// Whether values of the type are comparable (Go specification, "Comparison operators").
    pub fn comparable(&self, a: TypeId) -> bool
        requires known { a < length self.now.shapes }
        requires settled { IsSettled self.now a }
        ensures { IsTrue result ↔ Comparable (rights_of self.now) (type_of self.now.shapes a) }
    {
        let _table = &self.shapes;
        match self.verdict(a) {
            Some(verdict) => verdict.comparable(),
            None => unreachable!(),
        }
    }

    /// How many scalars a value of the type has. The Go specification has no such count: it is this
    /// program's measure of how large a value is. An array has its length times those of its element,
    /// or its length where those are 0; a struct the sum over its fields, and at least 1; a declared
    /// type those of its right side; every other type 1. A count above 2^64 - 1 is answered as
    /// 2^64 - 1.
    pub fn scalars(&self, a: TypeId) -> u64
        requires known { a < length self.now.shapes }
        requires settled { IsSettled self.now a }
        ensures one { (n : ℕ) × Scalars (rights_of self.now) (type_of self.now.shapes a) n }
        ensures count { (n : ℕ) → Scalars (rights_of self.now) (type_of self.now.shapes a) n → result ≡ min n (2 ^ 64 - 1) }
    {
        let _table = &self.shapes;
        match self.verdict(a) {
            Some(verdict) => verdict.scalars(),
            None => unreachable!(),
        }
    }

    /// Whether the type and all that it contains through array elements, struct fields and right
    /// sides have their right sides.
    pub fn is_settled(&self, a: TypeId) -> bool
        requires { a < length self.now.shapes }
        ensures { IsTrue result ↔ IsSettled self.now a }
    {
        let _table = &self.shapes;
        match self.verdict(a) {
            Some(_) => true,
            None => false,
        }
    }

    /// What is to be said of a type, if it is settled.
    fn verdict(&self, a: TypeId) -> Option<Verdict>
        requires { a < length self.now.shapes }
        ensures found { IfSome result (IsVerdict self.now a) }
        ensures unsettled { IfNone result (IsSettled self.now a → ⊥) }
    {
        known(&self.verdicts, a)
    }

    /// Whether the type is a declared one that has no right side.
    pub fn is_open(&self, a: TypeId) -> bool
        requires { a < length self.now.shapes }
        ensures { IsTrue result ↔ IsOpen self.now a }
    {
        let _table = &self.shapes;
        match self.number_of(a) {
            Some(number) => self.right_of(number).is_none(),
            None => false,
        }
    }

    /// The right side of the declared type of this number.
    fn right_of(&self, number: usize) -> Option<TypeId>
        requires { number < length self.now.rights }
        ensures { slice_get self.now.rights number ≡ Some result }
    {
        match self.definitions[number] {
            Some(definition) => Some(definition.right),
            None => None,
        }
    }

    /// The number that a declared type was given when it was declared, as an index.
    fn number_of(&self, a: TypeId) -> Option<usize>
        requires { a < length self.now.shapes }
        ensures { result ≡ declaration (slice_get self.now.shapes a) }
    {
        match self.shape(a) {
            Shape::Named { number } => Some(*number as usize),
            _ => None,
        }
    }

    /// Whether the type is a declared or a predeclared one.
    fn is_named(&self, a: TypeId) -> bool
        requires { a < length self.now.shapes }
        ensures { result ≡ is_named (type_of self.now.shapes a) }
    {
        let _table = &self.shapes;
        self.shape(a).is_named()
    }

    /// The number of the underlying type.
    fn underlying_id(&self, a: TypeId) -> TypeId
        requires known { a < length self.now.shapes }
        requires defined { IsDefined self.now a }
        ensures within { result < length self.now.shapes }
        ensures leads { Leads self.now a result }
    {
        match self.number_of(a) {
            None => a,
            Some(number) => match self.definitions[number] {
                Some(definition) => definition.underlying,
                None => unreachable!(),
            },
        }
    }

    /// How many of the types below a number are declared ones.
    fn declared_below(&self, count: u64) -> usize
        requires { count ≤ length self.now.shapes }
        ensures { result ≡ count_by is_declaration (take count self.now.shapes) }
    {
        for i in count..self.count() {
            if let Some(number) = self.number_of(i) {
                return number;
            }
        }
        self.definitions.len()
    }
}

/// Gives a shape its number, and keeps what is found out about its type if it wasn't there. After
/// `Memory` all are unchanged.
fn add(
    alloc: Global,
    shapes: &mut Index,
    verdicts: &mut Vec<Option<Verdict>>,
    waits: &mut Waits,
    shape: &Shape,
    found: Finding,
) -> Result<usize, Memory>
    requires verdicts { length verdicts.old.items ≡ length shapes.old }
    requires waits { length waits.old ≡ length shapes.old }
    requires within { (i p : ℕ) → slice_get waits.old i ≡ Some (Some p) → p < length waits.old }
    requires part { (p : ℕ) → awaited_by found ≡ Some p → p < length waits.old }
    ensures number { IfOk result (IsInterned shapes.old shapes.new shape.now) }
    ensures verdicts { OnOk result (verdicts.new.items ≡ take (length shapes.new) (verdicts.old.items ++ verdict_of found ∷ [])) }
    ensures waits { OnOk result (waits.new ≡ take (length shapes.new) (waits.old ++ awaited_by found ∷ [])) }
    ensures err { OnErr result ((shapes.new ≡ shapes.old) × (verdicts.new.items ≡ verdicts.old.items) × (waits.new ≡ waits.old)) }
{
    push(verdicts, waits, found)?;
    let place = shapes.intern(alloc, shape);
    verdicts.truncate(shapes.len());
    waits.truncate(shapes.len());
    place
}

/// Keeps what is found out about one more type. After `Memory` both are unchanged.
fn push(
    verdicts: &mut Vec<Option<Verdict>>,
    waits: &mut Waits,
    found: Finding,
) -> Result<(), Memory>
    requires part { (p : ℕ) → awaited_by found ≡ Some p → p < length waits.old }
    ensures verdicts { OnOk result (verdicts.new.items ≡ verdicts.old.items ++ verdict_of found ∷ []) }
    ensures waits { OnOk result (waits.new ≡ waits.old ++ awaited_by found ∷ []) }
    ensures err { OnErr result ((verdicts.new.items ≡ verdicts.old.items) × (waits.new ≡ waits.old)) }
{
    let last = waits.len();
    verdicts.push(found.verdict())?;
    match waits.push() {
        Ok(()) => {
            if let Finding::Waits { part, place } = found {
                waits.wait(last, part, place);
            }
            Ok(())
        }
        Err(error) => {
            verdicts.pop();
            Err(error)
        }
    }
}
