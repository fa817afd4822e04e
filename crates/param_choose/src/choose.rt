//! The parameters and the results.

ghost use Rattle.std.specs.Prelude.{◌≡◌, ◌++◌, map, IfOk, OnOk};
ghost use Rattle.go_typed.specs.Contents.{content};
ghost use Rattle.go_typed.specs.Funcs.{tree_of};
ghost use Rattle.param_choose.specs.Choosing.{choice, chosen_of};
ghost use Rattle.param_choose.specs.Handed.{handed_parameter, hole_shown};
ghost use Rattle.param_choose.specs.Members.{member_over, members_in};
ghost use Rattle.param_choose.specs.Plans.{assigned_result, declared_result, free_parameter, param_view, plan_seen, plan_view, result_view};
ghost use Rattle.param_choose.specs.Plans as plans;
ghost use Rattle.param_choose.specs.Shown.{array_in, variable_view};

use crate::choice::{HoleParameter, choice_of};
use crate::plan::{Param, Params, Plan, PlanResult, Results};
use crate::variables::Variable;
use go_base::Memory;
use go_typed::checked::Checked;
use go_typed::func::TypedFunc;
use go_typed::window::Window;
use std::alloc::{AllocError, Global};

/// What an extraction of windows that are the same hands over, where the first window is the template. Parameters are its free
/// locals, by first occurrence, and then those of its holes whose values differ among the windows, or which name a constant or a
/// type of its function that is declared outside it. Results are the free locals that it assigns, and then the variables that it
/// declares and that occur behind some window. All numbers are the template's. Where the package doesn't have the first window's
/// function there is nothing.
///
/// It looks once at each window and at each function of the package.
///
/// # Errors
///
/// Want of memory.
#[tactic(auto, using(crate::proofs::Mapped::choice_seen, crate::proofs::Mapped::nothing_seen))]
pub fn choose(alloc: Global, checked: &Checked, members: &[Window]) -> Result<Plan, Memory>
    ensures { IfOk result (λ plan. plan_seen checked.now.types plan ≡ plans.planned (chosen_of (content checked.now) members.now)) }
{
    if let [template, ..] = members {
        if let Some(func) = checked.function(template.func) {
            return planned(alloc, checked, func, template, members);
        }
    }
    Ok(Plan {
        params: Params::of(Vec::new(alloc)),
        results: Results::of(Vec::new(alloc)),
    })
}

/// What is handed over of windows, one of which, of this function, is the template.
fn planned(
    alloc: Global,
    checked: &Checked,
    func: &TypedFunc,
    template: &Window,
    members: &[Window],
) -> Result<Plan, Memory>
    ensures { IfOk result (λ plan. plan_view plan ≡ plans.planned (choice (array_in checked.now.types) (members_in checked.now members.now)
        (member_over checked.now.uses template.now func.now.locals func.now.tokens (tree_of func.now)))) }
{
    let choice = choice_of(alloc, checked, func, template, members)?;
    let mut params = Vec::new(alloc);
    push_free(&choice.free, &mut params)?;
    push_holes(&choice.holes, &mut params)?;
    let mut results = Vec::new(alloc);
    push_assigned(&choice.assigned, &mut results)?;
    push_declared(&choice.declared, &mut results)?;
    Ok(Plan {
        params: Params::of(params),
        results: Results::of(results),
    })
}

/// Puts free locals behind the other parameters.
fn push_free(free: &[Variable], out: &mut Vec<Param>) -> Result<(), AllocError>
    ensures { OnOk result (map param_view out.new.items ≡ map param_view out.old.items ++ map free_parameter (map variable_view free.now)) }
{
    for variable in free {
        out.push(Param::Free {
            local: variable.local,
            ty: variable.ty,
        })?;
    }
    Ok(())
}

/// Puts holes behind the other parameters.
fn push_holes(holes: &[HoleParameter], out: &mut Vec<Param>) -> Result<(), AllocError>
    ensures { OnOk result (map param_view out.new.items ≡ map param_view out.old.items ++ map handed_parameter (map hole_shown holes.now)) }
{
    for hole in holes {
        out.push(Param::Hole {
            node: hole.node,
            ty: hole.ty,
        })?;
    }
    Ok(())
}

/// Puts assigned free locals behind the other results.
fn push_assigned(assigned: &[Variable], out: &mut Vec<PlanResult>) -> Result<(), AllocError>
    ensures { OnOk result (map result_view out.new.items ≡ map result_view out.old.items ++ map assigned_result (map variable_view assigned.now)) }
{
    for variable in assigned {
        out.push(PlanResult::Assigned {
            local: variable.local,
            ty: variable.ty,
        })?;
    }
    Ok(())
}

/// Puts declared variables behind the other results.
fn push_declared(declared: &[Variable], out: &mut Vec<PlanResult>) -> Result<(), AllocError>
    ensures { OnOk result (map result_view out.new.items ≡ map result_view out.old.items ++ map declared_result (map variable_view declared.now)) }
{
    for variable in declared {
        out.push(PlanResult::Declared {
            local: variable.local,
            ty: variable.ty,
        })?;
    }
    Ok(())
}
