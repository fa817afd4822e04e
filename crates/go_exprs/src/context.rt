//! What the context of an expression gives it, and what it refuses.

ghost use Rattle.std.specs.Prelude.{◌≡◌, ◌<◌, length};
ghost use Rattle.go_types.specs.Tables.{rights_of};
ghost use Rattle.go_typed.specs.Views.{seen, Known};
ghost use Rattle.go_exprs_rules.specs.Faults.{least};
ghost use Rattle.go_exprs_rules.specs.Seen.{AreBasics};
ghost use Rattle.go_exprs_rules.specs.Takes.{take_seen, KnownTake};
ghost use Rattle.go_exprs.specs.Contexts.{index, count, taken, refusing, context_seen, KnownContext};

use go_base::FaultCode;
use go_exprs_rules::assign::{unassignable, undefaulted};
use go_exprs_rules::index::bound;
use go_exprs_rules::nodes::{fault_at, sort_of, unrepresented};
use go_exprs_rules::shift::{is_count, is_whole};
use go_exprs_rules::{Basics, Take, TypeFault};
use go_typed::TypedNode;
use go_types::{TypeId, Types};

/// Where an expression stands.
#[derive(Clone, Copy, Debug, PartialEq, Eq)]
pub enum Context {
    /// Nothing is wanted of it: what is untyped takes its default type (Go specification, "Constants").
    None,
    /// It is given to a variable of this type (Go specification, "Assignability").
    Wanted(TypeId),
    /// It is an index, or a length of `make` (Go specification, "Index expressions").
    Index,
    /// It is the count of a shift (Go specification, "Operators").
    Count,
}

/// What an untyped value takes of its context.
pub fn taken(types: &Types, basics: Basics, context: Context) -> Take
    requires basics { AreBasics types.now basics }
    requires context { KnownContext (length types.now.shapes) context }
    ensures tree { take_seen types.now result ≡ taken (context_seen types.now context) }
    ensures known { KnownTake (length types.now.shapes) result }
{
    let _types = types;
    match context {
        Context::None => Take::Default,
        Context::Wanted(of) => Take::As(of),
        Context::Index => Take::As(basics.int),
        Context::Count => Take::As(basics.uint),
    }
}

/// The fault of an index: `Operands` where it is no integer, else that of a constant that `int` doesn't have or that is negative.
fn index_fault(types: &Types, basics: Basics, node: &TypedNode) -> Option<TypeFault>
    requires basics { AreBasics types.now basics }
    requires node { Known (length types.now.shapes) node.now }
    ensures { result ≡ least (refusing (rights_of types.now) index (seen types.now node.now)) }
{
    if is_whole(types, sort_of(types, node)) {
        bound(types, basics, None, node)
    } else {
        Some(fault_at(types, node, FaultCode::Operands))
    }
}

/// The fault of a shift's count: `Operands` where it is none, else that of an untyped constant that `uint` doesn't have.
fn count_fault(types: &Types, basics: Basics, node: &TypedNode) -> Option<TypeFault>
    requires basics { AreBasics types.now basics }
    requires node { Known (length types.now.shapes) node.now }
    ensures { result ≡ least (refusing (rights_of types.now) count (seen types.now node.now)) }
{
    if is_count(types, sort_of(types, node)) {
        unrepresented(types, basics.uint, node)
    } else {
        Some(fault_at(types, node, FaultCode::Operands))
    }
}

/// The first fault of the rules of the context at a value.
pub fn refused(
    types: &Types,
    basics: Basics,
    context: Context,
    node: &TypedNode,
) -> Option<TypeFault>
    requires basics { AreBasics types.now basics }
    requires context { KnownContext (length types.now.shapes) context }
    requires node { Known (length types.now.shapes) node.now }
    ensures { result ≡ least (refusing (rights_of types.now) (context_seen types.now context) (seen types.now node.now)) }
{
    match context {
        Context::None => undefaulted(types, basics, node),
        Context::Wanted(of) => unassignable(types, of, node),
        Context::Index => index_fault(types, basics, node),
        Context::Count => count_fault(types, basics, node),
    }
}
