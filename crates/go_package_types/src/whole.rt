//! A specification and its expressions.
ghost use Rattle.std.specs.Prelude.{◌≡◌, ◌<◌, List, IfOk, IfSome, length};
ghost use Rattle.std.specs.Option.{option_map};
ghost use Rattle.go_types.specs.Tables.{type_of, rights_of};
ghost use Rattle.go_types_relations.specs.Extends.{Grows};
ghost use Rattle.go_typed.specs.Views.{seen, AllKnown};
ghost use Rattle.go_exprs_rules.specs.declared.fault.TypeFault as faults;
ghost use Rattle.go_exprs_rules.specs.Faults.{least, earlier};
ghost use Rattle.go_exprs_rules.specs.Seen.{AreBasics};
ghost use Rattle.go_exprs_rules.specs.TypeNodes.{part_type};
ghost use Rattle.go_exprs_types.specs.Naming.{names, text_in, KnownScope};
ghost use Rattle.go_stmts_rules.specs.Seen.{KnownWanted};
ghost use Rattle.go_package_defs.specs.Verdicts.{value_hint, values_faults, typed_values, specification_failing};
ghost use Rattle.go_declarations.specs.Judged.{fault_in, KnownPart};
ghost use Rattle.go_declarations.specs.Reads.{SpecificationRead};
ghost use Rattle.go_declarations.specs.Views.{specification_view};
ghost use Rattle.go_package_types.specs.Whole.{unless_failing, failing_as_whole, values_seen};

use crate::rules::own_rule;
use go_base::Memory;
use go_declarations::Specification;
use go_declarations::judging::{survey_part, type_hint, value_hint};
use go_exprs_calls::arguments::present;
use go_exprs_engine::{Survey, survey};
use go_exprs_rules::fault::earlier;
use go_exprs_rules::{Basics, TypeFault};
use go_exprs_types::Scope;
use go_exprs_types::sequence::part_type;
use go_typed::TypedNode;
use go_types::{TypeId, Types};
use std::alloc::Global;

/// The values of a specification, typed, and the least of the faults in them.
#[derive(Debug, Drop)]
pub struct Values {
    pub parts: Vec<Option<TypedNode>>,
    pub fault: Option<TypeFault>,
}

/// The values of a specification, typed in the scope.
///
/// # Errors
///
/// Want of memory.
pub fn survey_values(
    alloc: Global,
    types: &mut Types,
    scope: &Scope<'_>,
    specification: &Specification<'_>,
) -> Result<Values, Memory>
    requires scope { KnownScope (length types.old.shapes) scope.now }
    requires basics { AreBasics types.old scope.now.basics }
    requires literals { SpecificationRead (text_in scope.now) (specification_view specification.now) }
    ensures grows { Grows types.old types.new }
    ensures parts { IfOk result (λ v. values_seen types.new v.parts.items ≡ typed_values (names types.old scope.now) (specification_view specification.now)) }
    ensures fault { let d = specification_view specification.now in IfOk result (λ v. v.fault ≡ least (values_faults (names types.old scope.now) (value_hint d) d.values)) }
    ensures known { IfOk result (λ v. AllKnown (length types.new.shapes) v.parts.items) }
{
    types.count();
    let hint = value_hint(specification);
    let mut parts = Vec::new(alloc);
    let mut fault = None;
    for place in specification.values {
        let Some(node) = place else { continue };
        let one = survey(alloc, types, scope, hint, node)?;
        fault = earlier(fault, one.fault);
        parts.push(Some(one.node))?;
    }
    Ok(Values { parts, fault })
}

/// The type of a specification, if it has one.
fn type_in(types: &Types, of: &Option<Survey>) -> Option<TypeId>
    requires { KnownPart (length types.now.shapes) of.now }
    ensures tree { option_map (type_of types.now.shapes) result ≡ part_type (option_map (λ w. seen types.now w.node) of.now) }
    ensures known { KnownWanted (length types.now.shapes) result }
{
    match of {
        Some(survey) => part_type(types, Some(&survey.node)),
        None => None,
    }
}

fn fault_in(of: &Option<Survey>) -> Option<TypeFault>
    ensures { result ≡ fault_in of.now }
{
    match of {
        Some(survey) => survey.fault,
        None => None,
    }
}

/// The least of the rules of a specification itself that fail, by its type and its values.
fn rule_over(
    alloc: Global,
    types: &Types,
    basics: Basics,
    specification: &Specification<'_>,
    of: &Option<Survey>,
    parts: &[Option<TypedNode>],
) -> Result<Option<TypeFault>, Memory>
    requires basics { AreBasics types.now basics }
    requires of { KnownPart (length types.now.shapes) of.now }
    requires parts { AllKnown (length types.now.shapes) parts.now }
    ensures { let d = specification_view specification.now in let t = part_type (option_map (λ w. seen types.now w.node) of.now) in
        IfOk result (λ o. o ≡ least (specification_failing d.entity (rights_of types.now) d t (values_seen types.now parts.now))) }
{
    let values = present(alloc, types, parts)?;
    own_rule(
        alloc,
        types,
        basics,
        specification,
        type_in(types, of),
        &values,
    )
}

/// The least of the rules that fail in the type and the values, or else of those of the specification itself.
fn least_over(
    alloc: Global,
    types: &Types,
    basics: Basics,
    specification: &Specification<'_>,
    blocked: bool,
    of: &Option<Survey>,
    values: &Values,
) -> Result<Option<TypeFault>, Memory>
    requires basics { AreBasics types.now basics }
    requires of { KnownPart (length types.now.shapes) of.now }
    requires values { AllKnown (length types.now.shapes) values.now.parts.items }
    ensures { let d = specification_view specification.now in let t = part_type (option_map (λ w. seen types.now w.node) of.now) in
        (fs : List faults.TypeFault) → earlier (fault_in of.now) values.now.fault ≡ least fs →
        IfOk result (λ o. o ≡ least (unless_failing blocked (specification_failing d.entity (rights_of types.now) d t (values_seen types.now values.now.parts.items)) fs)) }
{
    let fault = earlier(fault_in(of), values.fault);
    if fault.is_some() || blocked {
        return Ok(fault);
    }
    rule_over(alloc, types, basics, specification, of, &values.parts)
}

/// The least of the rules that fail at a specification: those of its type and its values; and where none of these does and it isn't
/// blocked by the fault of another declaration that it needs, its own (Go specification, "Constant declarations", "Variable
/// declarations").
///
/// # Errors
///
/// Want of memory.
pub fn specification_fault(
    alloc: Global,
    types: &mut Types,
    scope: &Scope<'_>,
    specification: &Specification<'_>,
    blocked: bool,
) -> Result<Option<TypeFault>, Memory>
    requires scope { KnownScope (length types.old.shapes) scope.now }
    requires basics { AreBasics types.old scope.now.basics }
    requires literals { SpecificationRead (text_in scope.now) (specification_view specification.now) }
    ensures grows { Grows types.old types.new }
    ensures fault { IfOk result (λ o. o ≡ least (failing_as_whole blocked (names types.old scope.now) (specification_view specification.now))) }
{
    types.count();
    let hint = type_hint(specification.entity);
    let of = survey_part(alloc, types, scope, hint, specification.of)?;
    let values = survey_values(alloc, types, scope, specification)?;
    least_over(
        alloc,
        types,
        scope.basics,
        specification,
        blocked,
        &of,
        &values,
    )
}
