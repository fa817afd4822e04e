//! Marks of objects, and which declarations they show to stand behind what they name.

ghost use Rattle.std.specs.Prelude.{◌≡◌, ℕ, ◌<◌, Some, IfOk, IfSome, IsTrue, slice_get};
ghost use Rattle.std.specs.Option.{option_map};
ghost use Rattle.go_tree.specs.Views.{view};
ghost use Rattle.go_declarations.specs.Views.{specification_view, seen_all};
ghost use Rattle.go_needs.specs.Tells.{TellsNeeds};
ghost use Rattle.go_package_defs.specs.Knowledge.{Outline, outlines, is_type};
ghost use Rattle.go_package_defs.specs.Sources.{Package};
ghost use Rattle.go_package_stages.specs.Marked as specs;
ghost use Rattle.go_package_stages.specs.Marked.{marks_from, NamesMarked, TypeMarked, IsMarked, IsMarkedType, IsMarkedAs};

use crate::numbers::{Numbers, number_at};
use crate::types::TypeMarks;
use crate::{Mark, Marks, are_before, are_before_type};
use go_declarations::Specification;
use go_declarations::judging::own_value;
use go_needs::{Bound, Needs};
use go_tree::context::Entity;
use go_tree::node::Node;
use go_tree::uses::Uses;
use std::alloc::{AllocError, Global};

/// What names mean, the numbers that are tried, and by them the marks of objects: for all that is found of one, for right sides, and for
/// the lengths of arrays in right sides.
#[derive(Clone, Copy)]
pub struct Trial<'a> {
    pub uses: &'a Uses,
    pub numbers: &'a Numbers,
    pub own: &'a [Mark],
    pub told: &'a [Mark],
    pub counted: &'a [Mark],
}

/// The mark of an object.
fn mark_at(stands: &[usize], reaches: &[usize], number: usize, bound: &Bound) -> Mark
    ensures { result ≡ specs.mark_at stands.now reaches.now number bound.now }
{
    let reach = number_at(reaches, number);
    Mark {
        loosely: number_at(stands, number).max(reach),
        at_once: bound.at_once.max(reach),
        in_full: bound.in_full.max(reach),
    }
}

/// The marks of all objects, by when it is known what they stand for and the types in that, and by the bounds of what they need.
pub fn marks_of(
    alloc: Global,
    stands: &[usize],
    reaches: &[usize],
    bounds: &[Bound],
) -> Result<Vec<Mark>, AllocError>
    ensures { IfOk result (λ v. v.items ≡ marks_from stands.now reaches.now 0 bounds.now) }
{
    let mut marks = Vec::new(alloc);
    for (number, bound) in bounds.iter().enumerate() {
        marks.push(mark_at(stands, reaches, number, bound))?;
    }
    Ok(marks)
}

/// Whether the names of an expression are marked as known before a stage.
fn are_names_marked(trial: &Trial<'_>, file: usize, stage: usize, node: Option<&Node>) -> bool
    ensures { IsTrue result → NamesMarked trial.now file stage (option_map (λ n. view n.now) node.entry) }
{
    match node {
        None => true,
        Some(node) => {
            let marks = Marks {
                uses: trial.uses,
                marks: trial.own,
            };
            are_before(&marks, file, stage, node)
        }
    }
}

/// Whether those of a type are, and those in the lengths of its arrays.
fn is_type_marked(
    trial: &Trial<'_>,
    named: &[Mark],
    counted: &[Mark],
    file: usize,
    stage: usize,
    node: Option<&Node>,
) -> bool
    ensures { IsTrue result → TypeMarked trial.now named.now counted.now file stage (option_map (λ n. view n.now) node.entry) }
{
    match node {
        None => true,
        Some(node) => {
            let uses = trial.uses;
            let marks = TypeMarks {
                named: Marks { uses, marks: named },
                counted: Marks {
                    uses,
                    marks: counted,
                },
                file,
                stage,
            };
            are_before_type(&marks, node)
        }
    }
}

/// Whether a constant, a variable or a function is found behind what it names.
fn is_value_behind(
    trial: &Trial<'_>,
    specification: &Specification<'_>,
    column: usize,
    number: usize,
) -> bool
    ensures { IsTrue result → IsMarked trial.now number (specification_view specification.now) column }
{
    let own = number_at(&trial.numbers.own, number);
    let stands = number_at(&trial.numbers.stands, number);
    let told = number_at(&trial.numbers.told, number);
    if own == 0 {
        return false;
    }
    if own > stands {
        return false;
    }
    if own > told {
        return false;
    }
    if !are_names_marked(trial, specification.file, own, specification.of) {
        return false;
    }
    are_names_marked(
        trial,
        specification.file,
        own,
        own_value(specification, column),
    )
}

/// Whether a type is.
fn is_type_behind(trial: &Trial<'_>, specification: &Specification<'_>, number: usize) -> bool
    ensures { IsTrue result → IsMarkedType trial.now number (specification_view specification.now) }
{
    let own = number_at(&trial.numbers.own, number);
    let stands = number_at(&trial.numbers.stands, number);
    let told = number_at(&trial.numbers.told, number);
    if told == 0 {
        return false;
    }
    if stands > told {
        return false;
    }
    if told > own {
        return false;
    }
    let file = specification.file;
    let of = specification.of;
    if !is_type_marked(trial, trial.told, trial.counted, file, told, of) {
        return false;
    }
    is_type_marked(trial, trial.own, trial.own, file, own, of)
}

/// The specification of this number, if there are so many.
fn specification_at<'a, 'b>(
    specifications: &'a [Specification<'b>],
    number: usize,
) -> Option<&'a Specification<'b>>
    ensures { IfSome result (λ s. slice_get specifications.now number ≡ Some s.now) }
{
    specifications.get(number)
}

/// Whether the object of this number is.
fn is_behind(
    trial: &Trial<'_>,
    specifications: &[Specification<'_>],
    needs: &Needs,
    number: usize,
) -> bool
    ensures { IsTrue result → (p : Package) (o : Outline) → TellsNeeds needs.now p (seen_all specifications.now) → slice_get (outlines p (seen_all specifications.now)) number ≡ Some o
        → IsMarkedAs trial.now number o (is_type o.specification.entity) }
{
    let Some(place) = needs.declaring(number) else {
        return false;
    };
    let Some(specification) = specification_at(specifications, place.specification) else {
        return false;
    };
    match specification.entity {
        Entity::Type => is_type_behind(trial, specification, number),
        _ => is_value_behind(trial, specification, place.column, number),
    }
}

/// Whether so many objects are.
pub fn are_behind(
    trial: &Trial<'_>,
    specifications: &[Specification<'_>],
    needs: &Needs,
    count: usize,
) -> bool
    ensures { IsTrue result → (p : Package) (n : ℕ) (o : Outline) → n < count → TellsNeeds needs.now p (seen_all specifications.now) → slice_get (outlines p (seen_all specifications.now)) n ≡ Some o
        → IsMarkedAs trial.now n o (is_type o.specification.entity) }
{
    for number in 0..count {
        if !is_behind(trial, specifications, needs, number) {
            return false;
        }
    }
    true
}
