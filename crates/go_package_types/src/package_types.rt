//! The declarations of a package, typed.
ghost use Rattle.std.specs.Prelude.{◌≡◌, ◌≤◌, true, None, [], IfOk, length, map, count_by, take};
ghost use Rattle.std.specs.List.{list_all};
ghost use Rattle.go_base.specs.Gives.{Gives};
ghost use Rattle.go_tree.specs.Faults.{reported};
ghost use Rattle.go_tree.specs.Uses as names;
ghost use Rattle.go_scopes_events.specs.Scopes.{AreOrderly};
ghost use Rattle.go_scopes_lookup.specs.Views.{units_view};
ghost use Rattle.go_scopes.specs.Resolve.{units_of};
ghost use Rattle.go_types_relations.specs.Extends.{Extends};
ghost use Rattle.go_typed.specs.Packages.{referents, is_there};
ghost use Rattle.go_exprs.specs.Expressions.{failure_named};
ghost use Rattle.go_types.specs.Changes.{first_types};
ghost use Rattle.go_types.specs.Tables.{Table, rights_of, is_declaration};
ghost use Rattle.go_package_defs.specs.Answer.{answer_with, package_answer};
ghost use Rattle.go_package_defs.specs.Sources.{source_of};
ghost use Rattle.go_package_rounds.specs.World.{package_in, outlines_in, specifications_in, Fits};
ghost use Rattle.go_package_types.specs.Numbers.{open_rights};
ghost use Rattle.go_package_types.specs.Answers.{AreLexedFiles, environment_seen, KnownObjects};

use crate::answer::answer;
use crate::declare::{declare_types, referents};
use go_declarations::laws::literals_of_specifications_are_read;
use go_declarations::specifications;
use go_exprs::TypeError;
use go_exprs::laws::literals_read;
use go_exprs_types::predeclared::basics;
use go_needs::needs_of;
use go_package_order::judge_in_order;
use go_package_rounds::{World, first, rounds};
use go_scopes_lookup::unit::Unit;
use go_tree::file::File;
use go_tree::uses::Uses;
use go_typed::Env;
use go_types::Types;
use std::alloc::Global;

/// What the objects of a package stand for, whose declared types have no right sides yet; or the fault that is reported. All of them are
/// judged in each round.
///
/// # Errors
///
/// The fault, or want of memory.
fn judged_in_rounds(alloc: Global, types: &mut Types, world: &World<'_>) -> Result<Env, TypeError>
    requires fits { Fits types.old world.now }
    requires fresh { rights_of types.old ≡ open_rights world.now.uses.now.package_level }
    ensures extends { Extends types.old types.new }
    ensures exact { Gives (environment_seen types.new) failure_named result (answer_with (package_in world.now) (specifications_in world.now) (outlines_in world.now)) }
    ensures defined { IfOk result (λ _. list_all is_there types.new.rights ≡ true) }
    ensures referents { IfOk result (λ e. e.referents ≡ referents world.now.uses.now.package_level) }
    ensures known { IfOk result (KnownObjects (length types.new.shapes)) }
{
    types.count();
    let start = first(alloc, types, world)?;
    let all = rounds(alloc, types, world, start)?;
    answer(alloc, types, world, &all)
}

/// The same of a package whose types are not declared in this table.
fn judged_anew(alloc: Global, types: &mut Types, world: &World<'_>) -> Result<Env, TypeError>
    requires fits { (t : Table) × Fits t world.now }
    requires fresh { types.old.rights ≡ [] }
    ensures extends { Extends types.old types.new }
    ensures exact { Gives (environment_seen types.new) failure_named result (answer_with (package_in world.now) (specifications_in world.now) (outlines_in world.now)) }
    ensures defined { IfOk result (λ _. list_all is_there types.new.rights ≡ true) }
    ensures referents { IfOk result (λ e. e.referents ≡ referents world.now.uses.now.package_level) }
    ensures known { IfOk result (KnownObjects (length types.new.shapes)) }
{
    types.count();
    let named = declare_types(alloc, types, world.uses.package_objects())?;
    types.count();
    let basics = basics(alloc, types)?;
    let anew = World {
        files: world.files,
        uses: world.uses,
        specifications: world.specifications,
        needs: world.needs,
        env: world.env,
        named: &named,
        basics,
    };
    judged_in_rounds(alloc, types, &anew)
}

/// The same, where the package's types are declared in the table behind the first `size` ones. Each object is judged behind those that it
/// needs, if that comes to what all rounds do.
fn judged(alloc: Global, types: &mut Types, world: &World<'_>, size: u64) -> Result<Env, TypeError>
    requires fits { Fits types.old world.now }
    requires fresh { rights_of types.old ≡ open_rights world.now.uses.now.package_level }
    requires within { size ≤ length types.old.shapes }
    requires bare { count_by is_declaration (take size types.old.shapes) ≡ 0 }
    ensures extends { Extends (first_types size types.old) types.new }
    ensures exact { Gives (environment_seen types.new) failure_named result (answer_with (package_in world.now) (specifications_in world.now) (outlines_in world.now)) }
    ensures defined { IfOk result (λ _. list_all is_there types.new.rights ≡ true) }
    ensures referents { IfOk result (λ e. e.referents ≡ referents world.now.uses.now.package_level) }
    ensures known { IfOk result (KnownObjects (length types.new.shapes)) }
{
    types.count();
    let start = first(alloc, types, world)?;
    match judge_in_order(alloc, types, world, start)? {
        Some(all) => answer(alloc, types, world, &all),
        None => {
            types.cut(size);
            judged_anew(alloc, types, world)
        }
    }
}

/// The types, constants, variables and functions of a package with these files and units, by what its names mean (Go specification,
/// "Constant declarations", "Type declarations", "Variable declarations", "Function declarations"). Its declared types are added to the
/// table in the order of files and places, which has none before; each has its right side afterwards.
///
/// # Errors
///
/// `Fault` where a rule fails in the declarations: of all that fail the one at the least place, and of several there that with the
/// least code. `Memory` where memory ran out.
pub fn type_package<'a>(
    alloc: Global,
    files: &[File],
    units: &'a [Unit<'a>],
    uses: &Uses,
    types: &mut Types,
) -> Result<Env, TypeError>
    requires few { length files.now ≤ 256 }
    requires lexed { AreLexedFiles 0 files.now }
    requires units { units_view units.now ≡ units_of files.now }
    requires orderly { AreOrderly (units_view units.now) }
    requires sound { reported (units_of files.now) ≡ None }
    requires uses { uses.now ≡ names.uses (units_of files.now) }
    requires fresh { types.old.rights ≡ [] }
    ensures extends { Extends types.old types.new }
    ensures exact { Gives (environment_seen types.new) failure_named result (package_answer (map source_of files.now) uses.now) }
    ensures defined { IfOk result (λ _. list_all is_there types.new.rights ≡ true) }
    ensures referents { IfOk result (λ e. e.referents ≡ referents uses.now.package_level) }
    ensures known { IfOk result (KnownObjects (length types.new.shapes)) }
{
    let size = types.count();
    literals_read();
    literals_of_specifications_are_read();
    let specifications = specifications(alloc, files)?;
    let needs = needs_of(alloc, units, uses, &specifications)?;
    let objects = uses.package_objects();
    let numbers = referents(alloc, objects)?;
    let nothing = Vec::new(alloc);
    let counted = Env::new(nothing, numbers);
    let named = declare_types(alloc, types, objects)?;
    types.count();
    let basics = basics(alloc, types)?;
    let world = World {
        files,
        uses,
        specifications: &specifications,
        needs: &needs,
        env: &counted,
        named: &named,
        basics,
    };
    judged(alloc, types, &world, size)
}
