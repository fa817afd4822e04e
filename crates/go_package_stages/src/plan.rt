//! In which order the objects of a package can be judged.

use crate::groups::{Group, groups};
use crate::naming::naming;
use crate::numbering::numbers_for;
use crate::numbers::Numbers;
use crate::order::order;
use go_base::Memory;
use go_declarations::Specification;
use go_needs::Needs;
use go_tree::uses::Uses;
use std::alloc::Global;

/// An order that is proposed: groups of objects, each behind those that its objects need; what each object names, of types as far as
/// their right sides need it; and the numbers that go with the order.
#[derive(Drop)]
pub struct Plan {
    pub groups: Vec<Group>,
    pub naming: Vec<Vec<usize>>,
    pub numbers: Numbers,
}

/// An order in which each object stands behind those that it needs, and numbers by it. Nothing is promised of either.
///
/// # Errors
///
/// Want of memory.
pub fn plan_of(
    alloc: Global,
    uses: &Uses,
    specifications: &[Specification<'_>],
    needs: &Needs,
) -> Result<Plan, Memory> {
    let objects = uses.package_objects();
    let all = naming(alloc, uses, specifications, needs, true)?;
    let at_once = naming(alloc, uses, specifications, needs, false)?;
    let order = order(alloc, &at_once)?;
    let groups = groups(alloc, objects, &all, &order)?;
    let numbers = numbers_for(alloc, objects, &groups)?;
    Ok(Plan {
        groups,
        naming: at_once,
        numbers,
    })
}
