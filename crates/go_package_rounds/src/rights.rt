//! The right sides that a round finds.
ghost use Rattle.std.specs.Prelude.{◌≡◌, ◌<◌, ◌++◌, ◌∷◌, [], List, Some, IfOk, IsTrue, OnOk, length, map, slice_get};
ghost use Rattle.std.specs.Option.{option_map};
ghost use Rattle.go_types.specs.Trees.{declared};
ghost use Rattle.go_types.specs.Tables.{IsTable, type_of, rights_of};
ghost use Rattle.go_types.specs.Relations.{Rights};
ghost use Rattle.go_types_relations.specs.Extends.{Extends};
ghost use Rattle.go_package_defs.specs.Knowledge as knowledge;
ghost use Rattle.go_package_defs.specs.Knowledge.{State};
ghost use Rattle.go_package_rounds.specs.Held.{KnownRight, AllHeld, all_seen, summary};
ghost use Rattle.go_package_rounds.specs.World.{package_in, AreNamed};
ghost use Rattle.go_package_defs.specs.Knowledge.{is_type};
ghost use Rattle.go_package_rounds.specs.Rights.{behind, rights_held};

use crate::held::Held;
use crate::world::{World, named_type};
use go_base::Memory;
use go_stmts_parts::rights::give_right;
use go_tree::context::Entity;
use go_tree::object::Declared;
use go_types::{TypeId, Types};

/// Whether two right sides are the same, or there are none.
fn same_right(old: Option<TypeId>, new: Option<TypeId>) -> bool
    ensures { IsTrue result → old ≡ new }
{
    match (old, new) {
        (None, None) => true,
        (Some(a), Some(b)) => a == b,
        _ => false,
    }
}

/// A declared type that had this right side, or none, takes this one.
fn take_right(
    types: &mut Types,
    named: TypeId,
    old: Option<TypeId>,
    new: Option<TypeId>,
) -> Result<(), Memory>
    requires named { named < length types.old.shapes }
    requires right { KnownRight (length types.old.shapes) new }
    ensures extends { Extends types.old types.new }
    ensures shapes { types.new.shapes ≡ types.old.shapes }
    ensures rights { let f = option_map (type_of types.old.shapes) in (before after : Rights) → type_of types.old.shapes named ≡ declared (length before) → rights_of types.old ≡ before ++ f old ∷ after → OnOk result (rights_of types.new ≡ before ++ f new ∷ after) }
{
    types.count();
    if same_right(old, new) {
        return Ok(());
    }
    match old {
        None => give_right(types, named, new),
        Some(_) => Err(Memory),
    }
}

/// The next object had this right side, or none, and takes this one, if it is a type: that of the number `place`, which goes on then.
fn take_one(
    types: &mut Types,
    named: &[TypeId],
    place: usize,
    entity: Entity,
    old: Option<TypeId>,
    new: Option<TypeId>,
) -> Result<usize, Memory>
    requires named { AreNamed types.old named.now }
    requires right { KnownRight (length types.old.shapes) new }
    ensures table { IsTable types.old }
    ensures extends { Extends types.old types.new }
    ensures shapes { types.new.shapes ≡ types.old.shapes }
    ensures rights { let f = option_map (type_of types.old.shapes) in let b = is_type entity in (before after : Rights) → length before ≡ place → rights_of types.old ≡ before ++ behind b (f old) after
        → IfOk result (λ m. (length (before ++ behind b (f new) []) ≡ m) × (rights_of types.new ≡ before ++ behind b (f new) after)) }
{
    types.count();
    match entity {
        Entity::Type => {
            let Some(type_id) = named_type(named, place) else {
                return Err(Memory);
            };
            take_right(types, type_id, old, new)?;
            match place.checked_add(1) {
                Some(next) => Ok(next),
                None => Err(Memory),
            }
        }
        _ => Ok(place),
    }
}

/// What the object of this number is declared as.
pub fn entity_at(objects: &[Declared], number: usize) -> Result<Entity, Memory>
    ensures { IfOk result (λ e. option_map (λ d. d.entity) (slice_get objects.now number) ≡ Some e) }
{
    match objects.get(number) {
        Some(object) => Ok(object.entity),
        None => Err(Memory),
    }
}

/// The right side that is held of the object of this number.
pub fn right_at(all: &[Held], number: usize) -> Result<Option<TypeId>, Memory>
    ensures { IfOk result (λ r. option_map (λ h. h.right) (slice_get all.now number) ≡ Some r) }
{
    match all.get(number) {
        Some(known) => Ok(known.right),
        None => Err(Memory),
    }
}

/// The declared types take the right sides that are found of the objects behind those that were.
fn take_all(
    types: &mut Types,
    named: &[TypeId],
    objects: &[Declared],
    old: &[Held],
    new: &[Held],
) -> Result<(), Memory>
    requires named { AreNamed types.old named.now }
    requires known { AllHeld (length types.old.shapes) new.now }
    ensures extends { Extends types.old types.new }
    ensures shapes { types.new.shapes ≡ types.old.shapes }
    ensures rights { rights_of types.old ≡ rights_held types.old objects.now old.now → OnOk result (rights_of types.new ≡ rights_held types.old objects.now new.now) }
{
    types.count();
    let mut place: usize = 0;
    for number in 0..objects.len() {
        let entity = entity_at(objects, number)?;
        let before = right_at(old, number)?;
        let after = right_at(new, number)?;
        place = take_one(types, named, place, entity, before, after)?;
    }
    Ok(())
}

/// The declared types take the right sides that a round finds.
///
/// # Errors
///
/// `Memory`, also where a right side is found anew that was known, or contains a type without one: neither arises.
pub fn take_rights(
    types: &mut Types,
    world: &World<'_>,
    old: &[Held],
    new: &[Held],
) -> Result<(), Memory>
    requires named { AreNamed types.old world.now.named.now }
    requires known { AllHeld (length types.old.shapes) new.now }
    ensures extends { Extends types.old types.new }
    ensures shapes { types.new.shapes ≡ types.old.shapes }
    ensures rights { (ss zs : List State) → all_seen types.old old.now ≡ map summary ss → all_seen types.old new.now ≡ map summary zs → rights_of types.old ≡ knowledge.rights_of (package_in world.now) ss
        → OnOk result (rights_of types.new ≡ knowledge.rights_of (package_in world.now) zs) }
{
    take_all(types, world.named, world.uses.package_objects(), old, new)
}
