//! The declared types of a package, and the numbers of its objects by sort.
ghost use Rattle.std.specs.Prelude.{◌≡◌, ◌++◌, [], suc, IfOk, OnOk, length};
ghost use Rattle.go_types.specs.Tables.{IsTable, rights_of};
ghost use Rattle.go_types_relations.specs.Extends.{Extends};
ghost use Rattle.go_typed.specs.Packages.{counted, referent_of, referents};
ghost use Rattle.go_package_types.specs.Numbers.{counts_view, open_right, open_rights};
ghost use Rattle.go_package_defs.specs.Knowledge.{is_type};
ghost use Rattle.go_package_rounds.specs.World.{AreNamed};

use go_base::Memory;
use go_tree::context::Entity;
use go_tree::object::Declared;
use go_typed::Referent;
use go_types::{TypeId, Types};
use std::alloc::Global;

/// How many objects of each sort there were.
#[derive(Clone, Copy, Debug)]
pub struct Counts {
    pub constants: u32,
    pub types: u32,
    pub variables: u32,
    pub functions: u32,
}

const NONE: Counts = Counts {
    constants: 0,
    types: 0,
    variables: 0,
    functions: 0,
};

fn next(count: u32) -> Result<u32, Memory>
    ensures { IfOk result (λ n. n ≡ suc count) }
{
    match count.checked_add(1) {
        Some(next) => Ok(next),
        None => Err(Memory),
    }
}

impl Counts {
    /// The number of the next object among those of its sort.
    fn referent(self, entity: Entity) -> Referent
        ensures { result ≡ referent_of (counts_view self) entity }
    {
        match entity {
            Entity::Constant => Referent::Constant(self.constants),
            Entity::Type => Referent::Type(self.types),
            Entity::Variable | Entity::Parameter => Referent::Variable(self.variables),
            Entity::Function => Referent::Function(self.functions),
        }
    }

    /// The counts with one object more.
    fn with(self, entity: Entity) -> Result<Counts, Memory>
        ensures { IfOk result (λ c. counts_view c ≡ counted (counts_view self) entity) }
    {
        let mut counts = self;
        match entity {
            Entity::Constant => counts.constants = next(self.constants)?,
            Entity::Type => counts.types = next(self.types)?,
            Entity::Variable | Entity::Parameter => counts.variables = next(self.variables)?,
            Entity::Function => counts.functions = next(self.functions)?,
        }
        Ok(counts)
    }
}

/// The numbers of the objects of a package, each sort counted by itself.
///
/// # Errors
///
/// Want of memory.
pub fn referents(alloc: Global, objects: &[Declared]) -> Result<Vec<Referent>, Memory>
    ensures { IfOk result (λ v. v.items ≡ referents objects.now) }
{
    let mut numbers = Vec::new(alloc);
    let mut counts = NONE;
    for object in objects {
        numbers.push(counts.referent(object.entity))?;
        counts = counts.with(object.entity)?;
    }
    Ok(numbers)
}

/// Declares the next object, if it is a type.
fn declare_one(types: &mut Types, entity: Entity, named: &mut Vec<TypeId>) -> Result<(), Memory>
    requires named { AreNamed types.old named.old.items }
    requires count { length named.old.items ≡ length types.old.rights }
    ensures table { IsTable types.old }
    ensures extends { Extends types.old types.new }
    ensures named { OnOk result (AreNamed types.new named.new.items) }
    ensures count { OnOk result (length named.new.items ≡ length types.new.rights) }
    ensures rights { OnOk result (rights_of types.new ≡ rights_of types.old ++ open_right (is_type entity)) }
{
    types.count();
    match entity {
        Entity::Type => {
            let of = types.declare()?;
            types.count();
            named.push(of)?;
            Ok(())
        }
        _ => Ok(()),
    }
}

/// Declares the types of a package, of which the table has none, and answers their numbers in the table.
///
/// # Errors
///
/// Want of memory.
pub fn declare_types(
    alloc: Global,
    types: &mut Types,
    objects: &[Declared],
) -> Result<Vec<TypeId>, Memory>
    requires { types.old.rights ≡ [] }
    ensures extends { Extends types.old types.new }
    ensures named { IfOk result (λ v. AreNamed types.new v.items) }
    ensures rights { OnOk result (rights_of types.new ≡ open_rights objects.now) }
{
    types.count();
    let mut named = Vec::new(alloc);
    for object in objects {
        declare_one(types, object.entity, &mut named)?;
    }
    Ok(named)
}
