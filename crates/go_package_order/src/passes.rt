//! Objects are judged one behind the other, each by what is found so far.
ghost use Rattle.std.specs.Prelude.{OnOk};
ghost use Rattle.go_types.specs.Tables.{IsTable};
ghost use Rattle.go_types_relations.specs.Extends.{Extends};
ghost use Rattle.go_package_rounds.specs.World.{Fits};
ghost use Rattle.go_package_order.specs.Progress.{IsFoundIn};

use crate::progress::{Progress, put_held, put_standing};
use crate::settle::settle;
use crate::sides::give;
use crate::standing::standing_in;
use go_base::Memory;
use go_package_rounds::World;
use go_package_rounds::held::{is_sound, is_told};
use go_package_rounds::judge::judge;
use go_package_stages::{Group, Plan};
use go_types::Types;
use std::alloc::Global;

/// The objects that the object of this number names.
fn named_by(naming: &[Vec<usize>], number: usize) -> &[usize] {
    match naming.get(number) {
        Some(named) => named.as_slice(),
        None => &[],
    }
}

/// Judges one object, which names these.
fn judge_next(
    alloc: Global,
    types: &mut Types,
    world: &World<'_>,
    progress: &mut Progress,
    named: &[usize],
    number: usize,
) -> Result<(), Memory>
    requires fits { Fits types.old world.now }
    requires found { IsFoundIn types.old progress.old }
    ensures table { IsTable types.old }
    ensures extends { Extends types.old types.new }
    ensures found { OnOk result (IsFoundIn types.new progress.new) }
{
    types.count();
    let known = judge(alloc, types, world, &progress.sound, &progress.told, number)?;
    let sound = standing_in(&progress.sound, named, &known, is_sound(&known))?;
    let told = standing_in(&progress.told, named, &known, is_told(&known))?;
    give(types, world, &mut progress.rights, number, known.right)?;
    put_standing(&mut progress.sound, number, sound);
    put_standing(&mut progress.told, number, told);
    put_held(&mut progress.all, number, known);
    Ok(())
}

/// Judges objects in this order.
fn pass(
    alloc: Global,
    types: &mut Types,
    world: &World<'_>,
    progress: &mut Progress,
    naming: &[Vec<usize>],
    order: &[usize],
) -> Result<(), Memory>
    requires fits { Fits types.old world.now }
    requires found { IsFoundIn types.old progress.old }
    ensures table { IsTable types.old }
    ensures extends { Extends types.old types.new }
    ensures found { OnOk result (IsFoundIn types.new progress.new) }
{
    types.count();
    for number in order {
        judge_next(
            alloc,
            types,
            world,
            progress,
            named_by(naming, *number),
            *number,
        )?;
    }
    Ok(())
}

/// Judges types that name one another in this order, and once more where all their right sides are found.
fn pass_types(
    alloc: Global,
    types: &mut Types,
    world: &World<'_>,
    progress: &mut Progress,
    naming: &[Vec<usize>],
    group: &Group,
) -> Result<(), Memory>
    requires fits { Fits types.old world.now }
    requires found { IsFoundIn types.old progress.old }
    ensures table { IsTable types.old }
    ensures extends { Extends types.old types.new }
    ensures found { OnOk result (IsFoundIn types.new progress.new) }
{
    types.count();
    pass(alloc, types, world, progress, naming, &group.members)?;
    pass(alloc, types, world, progress, naming, &group.members)?;
    settle(progress, group)?;
    Ok(())
}

/// Judges the objects of a group.
fn pass_group(
    alloc: Global,
    types: &mut Types,
    world: &World<'_>,
    progress: &mut Progress,
    naming: &[Vec<usize>],
    group: &Group,
) -> Result<(), Memory>
    requires fits { Fits types.old world.now }
    requires found { IsFoundIn types.old progress.old }
    ensures table { IsTable types.old }
    ensures extends { Extends types.old types.new }
    ensures found { OnOk result (IsFoundIn types.new progress.new) }
{
    if group.are_types {
        pass_types(alloc, types, world, progress, naming, group)
    } else {
        pass(alloc, types, world, progress, naming, &group.members)
    }
}

/// Judges all objects of a plan in its order.
pub fn pass_all(
    alloc: Global,
    types: &mut Types,
    world: &World<'_>,
    progress: &mut Progress,
    plan: &Plan,
) -> Result<(), Memory>
    requires fits { Fits types.old world.now }
    requires found { IsFoundIn types.old progress.old }
    ensures table { IsTable types.old }
    ensures extends { Extends types.old types.new }
    ensures found { OnOk result (IsFoundIn types.new progress.new) }
{
    types.count();
    let naming = plan.naming.as_slice();
    for group in &plan.groups {
        pass_group(alloc, types, world, progress, naming, group)?;
    }
    Ok(())
}
