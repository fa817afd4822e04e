//! The objects of a package, each sort counted by itself.
ghost use Rattle.std.specs.Prelude.{◌≡◌, ◌+◌, ◌^◌, ℕ, Some, IsTrue};
ghost use Rattle.go_typed.specs.Packages as specs;
ghost use Rattle.go_typed.specs.Packages.{counted, counts_from, no_counts, referent_of, referents};
ghost use Rattle.go_typed_parts.specs.Shown.{counts_view, AreAtMost};

use go_tree::context::Entity;
use go_tree::object::Declared;
use go_typed::{Env, Form, Referent};

/// How many objects of each sort there are.
#[derive(Clone, Copy, Debug, PartialEq, Eq)]
pub struct Counts {
    pub constants: u64,
    pub types: u64,
    pub variables: u64,
    pub functions: u64,
}

/// No object.
const NONE: Counts = Counts {
    constants: 0,
    types: 0,
    variables: 0,
    functions: 0,
};

impl Counts {
    /// The counts with one object more.
    fn with(self, entity: Entity) -> Counts
        requires { AreAtMost (2 ^ 63) self }
        ensures counts { counts_view result ≡ counted (counts_view self) entity }
        ensures most { (n : ℕ) → AreAtMost n self → AreAtMost (n + 1) result }
    {
        let mut counts = self;
        match entity {
            Entity::Constant => counts.constants += 1,
            Entity::Type => counts.types += 1,
            Entity::Variable | Entity::Parameter => counts.variables += 1,
            Entity::Function => counts.functions += 1,
        }
        counts
    }

    /// Whether there is such an object.
    fn has(self, referent: Referent) -> bool
        ensures { result ≡ specs.exists_in (counts_view self) referent }
    {
        match referent {
            Referent::Constant(number) => u64::from(number) < self.constants,
            Referent::Type(number) => u64::from(number) < self.types,
            Referent::Variable(number) => u64::from(number) < self.variables,
            Referent::Function(number) => u64::from(number) < self.functions,
            _ => true,
        }
    }

    /// Whether what a node of this form names is there.
    pub(crate) fn has_named(self, form: Form) -> bool
        ensures { result ≡ specs.refers_to (counts_view self) form }
    {
        match form {
            Form::Object(referent) => self.has(referent),
            _ => true,
        }
    }

    /// Whether the next object, of this sort, has this number.
    fn is_next(self, entity: Entity, referent: Option<Referent>) -> bool
        ensures { IsTrue result → referent ≡ Some (referent_of (counts_view self) entity) }
    {
        match (entity, referent) {
            (Entity::Constant, Some(Referent::Constant(number))) => u64::from(number)
                == self.constants,
            (Entity::Type, Some(Referent::Type(number))) => u64::from(number) == self.types,
            (Entity::Variable, Some(Referent::Variable(number))) => u64::from(number)
                == self.variables,
            (Entity::Parameter, Some(Referent::Variable(number))) => u64::from(number)
                == self.variables,
            (Entity::Function, Some(Referent::Function(number))) => u64::from(number)
                == self.functions,
            _ => false,
        }
    }
}

/// How many objects of each sort there are.
pub(crate) fn counts_of(objects: &[Declared]) -> Counts
    ensures { counts_view result ≡ counts_from no_counts objects.now }
{
    let mut counts = NONE;
    for object in objects {
        counts = counts.with(object.entity);
    }
    counts
}

/// Whether the objects have their numbers by sort.
pub(crate) fn are_numbered(objects: &[Declared], env: &Env) -> bool
    ensures { IsTrue result → env.now.referents ≡ referents objects.now }
{
    let mut counts = NONE;
    let mut number: usize = 0;
    for object in objects {
        if !counts.is_next(object.entity, env.referent(number)) {
            return false;
        }
        counts = counts.with(object.entity);
        number += 1;
    }
    match env.referent(number) {
        Some(_) => false,
        None => true,
    }
}
