//! What the parts of a node are told.
ghost use Rattle.std.specs.Prelude.{◌≡◌, ℕ, ◌<◌, ◌∷◌, [], IfSome, length, map};
ghost use Rattle.std.specs.Option.{option_map};
ghost use Rattle.go_grammar.specs.Grammar.{ends_named, is_name};
ghost use Rattle.go_tree.specs.Views.{views, parameter_at};
ghost use Rattle.go_types.specs.Tables.{type_of, rights_of};
ghost use Rattle.go_typed.specs.Views.{seen, sort_seen, AllKnown, KnownSort};
ghost use Rattle.go_exprs_rules.specs.Hints.{hint_seen, KnownHint};
ghost use Rattle.go_exprs_rules.specs.TypeNodes.{part_type};
ghost use Rattle.go_exprs_rules.specs.Tables.{in_parentheses, as_type_place, element_told, told_type, is_make, call_told, composite_told, keyed_told, skips_first, sequence_told, names_told, parameter_told, hint, part_scope};
ghost use Rattle.go_exprs_rules.specs.Scopes as rules;
ghost use Rattle.go_exprs_types.specs.Naming.{names, text_in, KnownScope};

use go_exprs_rules::Hint;
use go_exprs_rules::nodes::sort_of;
use go_exprs_types::{Needed, Scope};
use go_grammar::kind::Kind;
use go_tree::node::Node;
use go_tree::object::Predeclared;
use go_typed::{Sort, TypedNode};
use go_types::{Shape, TypeId, Types};
use go_types_relations::underlying;

fn in_parentheses(types: &Types, hint: Hint) -> Hint
    ensures known { KnownHint (length types.now.shapes) result }
    ensures tree { hint_seen types.now result ≡ in_parentheses (hint_seen types.now hint) }
{
    match hint {
        Hint::Loose | Hint::LooseInside => Hint::LooseInside,
        Hint::Several
        | Hint::TypePlace
        | Hint::Inside
        | Hint::Statement
        | Hint::Declares
        | Hint::Free => Hint::Inside,
        _ => Hint::OneInside,
    }
}

fn as_type_place(types: &Types, hint: Hint) -> Hint
    ensures known { KnownHint (length types.now.shapes) result }
    ensures tree { hint_seen types.now result ≡ as_type_place (hint_seen types.now hint) }
{
    match hint {
        Hint::Loose | Hint::LooseInside => Hint::Loose,
        _ => Hint::TypePlace,
    }
}

/// What an element of a literal of this type is told, by its underlying type.
fn element_told(types: &Types, of: Option<TypeId>) -> Hint
    requires { IfSome of (λ t. t < length types.now.shapes) }
    ensures known { KnownHint (length types.now.shapes) result }
    ensures tree { hint_seen types.now result ≡ element_told (rights_of types.now) (option_map (type_of types.now.shapes) of) }
{
    let Some(of) = of else {
        return Hint::Elided;
    };
    match underlying(types, of) {
        Some(Shape::Array { elem, .. }) => Hint::Element(*elem),
        Some(Shape::Slice { elem }) => Hint::Element(*elem),
        Some(Shape::Struct { .. }) => Hint::Member(of),
        _ => Hint::Elided,
    }
}

/// The type that a literal without a type of its own has.
fn told_type(types: &Types, hint: Hint) -> Option<TypeId>
    requires { KnownHint (length types.now.shapes) hint }
    ensures known { IfSome result (λ t. t < length types.now.shapes) }
    ensures tree { option_map (type_of types.now.shapes) result ≡ told_type (hint_seen types.now hint) }
{
    match hint {
        Hint::Element(of) => Some(of),
        _ => None,
    }
}

/// The type that a part stands for.
fn part_type(types: &Types, part: &Option<TypedNode>) -> Option<TypeId>
    requires { AllKnown (length types.now.shapes) (part.now ∷ []) }
    ensures known { IfSome result (λ t. t < length types.now.shapes) }
    ensures tree { option_map (type_of types.now.shapes) result ≡ part_type (option_map (seen types.now) part.now) }
{
    let Some(part) = part else { return None };
    match sort_of(types, part) {
        Sort::Type(of) => Some(*of),
        _ => None,
    }
}

/// Whether it is the predeclared function `make`.
pub fn is_make(types: &Types, sort: &Sort) -> bool
    ensures { result ≡ is_make (sort_seen types.now sort.now) }
{
    matches!(sort, Sort::Builtin(Predeclared::Make))
}

/// What the next part of a call is told: the callee, and the type that stands first among the arguments of `make`.
fn call_told(types: &Types, elders: &[Option<TypedNode>]) -> Hint
    requires { AllKnown (length types.now.shapes) elders.now }
    ensures known { KnownHint (length types.now.shapes) result }
    ensures tree { hint_seen types.now result ≡ call_told (map (option_map (seen types.now)) elders.now) }
{
    match elders {
        [] => Hint::Callee,
        [Some(callee)] => if is_make(types, sort_of(types, callee)) {
            Hint::TypePlace
        } else {
            Hint::Value
        },
        _ => Hint::Value,
    }
}

/// What the next part of a composite literal is told: the type, and each element.
fn composite_told(types: &Types, elders: &[Option<TypedNode>]) -> Hint
    requires { AllKnown (length types.now.shapes) elders.now }
    ensures known { KnownHint (length types.now.shapes) result }
    ensures tree { hint_seen types.now result ≡ composite_told (rights_of types.now) (map (option_map (seen types.now)) elders.now) }
{
    match elders {
        [] => Hint::TypePlace,
        [of, ..] => element_told(types, part_type(types, of)),
    }
}

fn keyed_told(types: &Types, hint: Hint, elders: &[Option<TypedNode>]) -> Hint
    requires { KnownHint (length types.now.shapes) hint }
    ensures known { KnownHint (length types.now.shapes) result }
    ensures tree { hint_seen types.now result ≡ keyed_told (hint_seen types.now hint) (map (option_map (seen types.now)) elders.now) }
{
    match elders {
        [] => Hint::Free,
        _ => hint,
    }
}

fn skips_first(written: &[Option<Node>]) -> bool
    ensures { result ≡ skips_first (views written.now) }
{
    matches!(written, [None, ..])
}

/// What the next part of an array or slice type is told: the length, and the type of the elements.
fn sequence_told(
    types: &Types,
    hint: Hint,
    written: &[Option<Node>],
    elders: &[Option<TypedNode>],
) -> Hint
    ensures known { KnownHint (length types.now.shapes) result }
    ensures tree { hint_seen types.now result ≡ sequence_told (hint_seen types.now hint) (views written.now) (map (option_map (seen types.now)) elders.now) }
{
    match elders {
        [] => Hint::Value,
        _ => if skips_first(written) {
            Hint::Loose
        } else {
            as_type_place(types, hint)
        },
    }
}

fn names_told(types: &Types, hint: Hint, elders: &[Option<TypedNode>]) -> Hint
    ensures known { KnownHint (length types.now.shapes) result }
    ensures tree { hint_seen types.now result ≡ names_told (hint_seen types.now hint) (map (option_map (seen types.now)) elders.now) }
{
    match elders {
        [] => Hint::Declares,
        _ => as_type_place(types, hint),
    }
}

/// Whether a part is a parameter that has a name.
fn is_parameter(part: &Option<Node>) -> bool
    ensures { result ≡ parameter_at part.now }
{
    match part {
        Some(node) => matches!(node.kind(), Kind::Parameter),
        None => false,
    }
}

/// Whether the last part is a parameter that has a name.
#[tactic(auto, using(crate::proofs::Layouts::ends_last))]
fn ends_named(written: &[Option<Node>]) -> bool
    ensures { result ≡ ends_named (views written.now) }
{
    match written.split_last() {
        Some((last, _)) => is_parameter(last),
        None => false,
    }
}

fn is_name(kind: Kind) -> bool
    ensures { result ≡ is_name kind }
{
    matches!(kind, Kind::Name)
}

/// What a part of a list of parameters is told: a name in front of a named parameter shares its type.
fn parameter_told(types: &Types, hint: Hint, written: &[Option<Node>], next: Kind) -> Hint
    requires { KnownHint (length types.now.shapes) hint }
    ensures known { KnownHint (length types.now.shapes) result }
    ensures tree { hint_seen types.now result ≡ parameter_told (hint_seen types.now hint) (views written.now) next }
{
    if !ends_named(written) {
        return as_type_place(types, hint);
    }
    if is_name(next) { Hint::Declares } else { hint }
}

/// What the next part of a node of this kind is told: from what the node was told, from all its parts as they are written, from
/// those in front of the next one, typed, and from the next one's kind.
pub fn hint(
    types: &Types,
    kind: Kind,
    outer: Hint,
    written: &[Option<Node>],
    elders: &[Option<TypedNode>],
    next: Kind,
) -> Hint
    requires outer { KnownHint (length types.now.shapes) outer }
    requires elders { AllKnown (length types.now.shapes) elders.now }
    ensures known { KnownHint (length types.now.shapes) result }
    ensures tree { (s : rules.Scope) → s.rights ≡ rights_of types.now → hint_seen types.now result ≡ hint s kind (hint_seen types.now outer) (views written.now) (map (option_map (seen types.now)) elders.now) next }
{
    match kind {
        Kind::Parenthesized => in_parentheses(types, outer),
        Kind::ParenthesizedType => in_parentheses(types, outer),
        Kind::Call => call_told(types, elders),
        Kind::Composite => composite_told(types, elders),
        Kind::LiteralValue => element_told(types, told_type(types, outer)),
        Kind::Keyed => keyed_told(types, outer, elders),
        Kind::SequenceType => sequence_told(types, outer, written, elders),
        Kind::FunctionType => Hint::Loose,
        Kind::StructType => as_type_place(types, outer),
        Kind::Signature => as_type_place(types, outer),
        Kind::Results => as_type_place(types, outer),
        Kind::NameList => Hint::Declares,
        Kind::Parameters => parameter_told(types, outer, written, next),
        Kind::Parameter => names_told(types, outer, elders),
        Kind::Fields => names_told(types, outer, elders),
        _ => Hint::Value,
    }
}

/// The scope of the next part of a node behind its elder ones: what the length of an array type names is needed in full (Go
/// specification, "Type declarations").
pub fn part_scope<'a>(
    types: &Types,
    scope: &Scope<'a>,
    kind: Kind,
    elders: &[Option<TypedNode>],
) -> Scope<'a>
    ensures names { names types.now result ≡ part_scope (names types.now scope.now) kind (map (option_map (seen types.now)) elders.now) }
    ensures known { (n : ℕ) → KnownScope n scope.now → KnownScope n result }
    ensures texts { text_in result ≡ text_in scope.now }
    ensures basics { result.basics ≡ scope.now.basics }
{
    match (kind, elders) {
        (Kind::SequenceType, []) => Scope {
            needed: Needed::InFull,
            ..*scope
        },
        _ => *scope,
    }
}
