//! What windows hand over, by the numbers of the template.

ghost use Rattle.std.specs.Prelude.{◌≡◌, ◌-◌, ◌&&◌, ◌++◌, ℕ, not, nat_lt, map, slice_get, IfOk, OnOk};
ghost use Rattle.std.specs.List.{list_any};
ghost use Rattle.go_typed.specs.declared.walk.LocalUse.{LocalUse as Use};
ghost use Rattle.go_typed.specs.Funcs.{tree_of};
ghost use Rattle.go_typed.specs.Views.{sort_view};
ghost use Rattle.go_typed.specs.Windows.{uses_from};
ghost use Rattle.clone_window.specs.Sameness.{sort_at, standing};
ghost use Rattle.param_choose.specs.Choosing.{choice, parameter_of, type_in};
ghost use Rattle.param_choose.specs.Handed.{choice_shown, handed, handed_hole, hole_shown};
ghost use Rattle.param_choose.specs.Holes.{Hole as Constant};
ghost use Rattle.param_choose.specs.Marks.{parameters_by, variables_by};
ghost use Rattle.param_choose.specs.Members.{declared_between, member_over, members_in};
ghost use Rattle.param_choose.specs.Shown.{array_in, hole_view, holes_view, variable_view};

use crate::assigned::assigned_of;
use crate::differ::{differing, mark_at};
use crate::holes::{Hole, holes_of, names_outer};
use crate::later::needed;
use crate::names::names_declared;
use crate::numbers::{behind, start_of};
use crate::template::{declared_in, extent_of};
use crate::variables::{Extent, Variable, free_locals, push_variable};
use clone_window::run::statements;
use go_base::Memory;
use go_tree::object::Declared;
use go_typed::checked::Checked;
use go_typed::func::TypedFunc;
use go_typed::sort::Sort;
use go_typed::window::Window;
use go_types::TypeId;
use std::alloc::{AllocError, Global};

/// A hole that is a parameter.
#[derive(Clone, Copy, Debug)]
pub struct HoleParameter {
    /// Its number among the holes of the template, which is that of the hole at its place in each window.
    pub number: u32,
    /// The number of its node in its function.
    pub node: u32,
    pub ty: TypeId,
}

/// The parameters and the results of windows that are the same.
#[derive(Debug, Drop)]
pub struct Choice {
    pub free: Vec<Variable>,
    pub holes: Vec<HoleParameter>,
    pub assigned: Vec<Variable>,
    pub declared: Vec<Variable>,
}

/// What is handed over of windows, one of which, of this function, is the template.
///
/// # Errors
///
/// Want of memory.
pub fn choice_of(
    alloc: Global,
    checked: &Checked,
    func: &TypedFunc,
    template: &Window,
    members: &[Window],
) -> Result<Choice, Memory>
    ensures { IfOk result (λ c. choice_shown c ≡ handed (choice (array_in checked.now.types) (members_in checked.now members.now)
        (member_over checked.now.uses template.now func.now.locals func.now.tokens (tree_of func.now)))) }
{
    let run = statements(func, template);
    let locals = declared_in(checked.uses(), template.func);
    let start = start_of(alloc, func, template)?;
    let extent = extent_of(checked.uses(), template.func, run, start);
    let free = free_locals(alloc, func, locals, extent)?;
    let found = holes_of(alloc, run)?;
    let marks = differing(alloc, checked, &found, members)?;
    let holes = hole_parameters(alloc, func, locals, extent, &found, &marks)?;
    let assigned = assigned_of(alloc, checked.types(), run, &free)?;
    let names = names_declared(alloc, run)?;
    let later = needed(alloc, checked, run, &names, members)?;
    let declared = variables_by(alloc, func, &names, &later)?;
    Ok(Choice {
        free,
        holes,
        assigned,
        declared,
    })
}

/// The holes that are marked, or name a constant or a type that is declared outside the window.
fn hole_parameters(
    alloc: Global,
    func: &TypedFunc,
    declared: &[Declared],
    extent: Extent,
    holes: &[Hole<'_>],
    marks: &[bool],
) -> Result<Vec<HoleParameter>, AllocError>
    ensures { IfOk result (λ v. map hole_shown v.items ≡ map handed_hole (parameters_by (λ (h : Constant ℕ). list_any (λ (u : Use).
        nat_lt 1 (standing (sort_at func.now.locals u.local)) && not (declared_between extent.first extent.from extent.upto (slice_get declared.now u.local)))
        (uses_from func.now.tokens h.from (h.upto - h.from))) extent.start marks.now 0 (holes_view holes.now))) }
{
    let mut out = Vec::new(alloc);
    let mut index: usize = 0;
    for hole in holes {
        if mark_at(marks, index) || names_outer(func, declared, extent, hole.from, hole.upto) {
            push_hole(extent.start, index, hole, &mut out)?;
        }
        index += 1;
    }
    Ok(out)
}

/// Puts the hole of a number, of a window whose first statement has a number among the nodes of its function, behind the others.
fn push_hole(
    start: u32,
    index: usize,
    hole: &Hole<'_>,
    out: &mut Vec<HoleParameter>,
) -> Result<(), AllocError>
    ensures { OnOk result (map hole_shown out.new.items ≡ map hole_shown out.old.items ++ map handed_hole (parameter_of start index (hole_view hole.now))) }
{
    if let Some(ty) = constant_type(hole.sort) {
        let Ok(number) = u32::try_from(index) else {
            return Err(AllocError);
        };
        let node = behind(start, u64::from(hole.node))?;
        out.push(HoleParameter { number, node, ty })?;
    }
    Ok(())
}

/// The type of a constant that has one (Go specification: Constants).
fn constant_type(sort: &Sort) -> Option<TypeId>
    ensures { result ≡ type_in (sort_view sort.now) }
{
    match sort {
        Sort::Constant(ty, _) => Some(ty.id()),
        _ => None,
    }
}

/// The variables among marked locals.
fn variables_by(
    alloc: Global,
    func: &TypedFunc,
    locals: &[u32],
    marks: &[bool],
) -> Result<Vec<Variable>, AllocError>
    ensures { IfOk result (λ v. map variable_view v.items ≡ variables_by func.now.locals marks.now 0 locals.now) }
{
    let mut out = Vec::new(alloc);
    let mut index: usize = 0;
    for local in locals {
        if mark_at(marks, index) {
            push_variable(func, *local, &mut out)?;
        }
        index += 1;
    }
    Ok(out)
}
