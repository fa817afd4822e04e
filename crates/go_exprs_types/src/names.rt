//! What names stand for.
ghost use Rattle.std.specs.Prelude.{◌≡◌, ◌<◌, IfOk, IfSome, length};
ghost use Rattle.std.specs.Option.{option_map};
ghost use Rattle.go_tree.specs.Uses.{object_of};
ghost use Rattle.go_types.specs.Tables.{HasPartsBelow, WasDeclared, tree_of, type_of};
ghost use Rattle.go_types_relations.specs.Extends.{Grows};
ghost use Rattle.go_typed.specs.Trees.{IsType, OpenConstant};
ghost use Rattle.go_typed.specs.Views.{sort_seen, KnownSort};
ghost use Rattle.go_exprs_rules.specs.Hints.{hint_seen};
ghost use Rattle.go_exprs_rules.specs.Names.{predeclared_sort, object_sort, need_of, name_sort};
ghost use Rattle.go_exprs_rules.specs.Sorts.{known};
ghost use Rattle.go_exprs_types.specs.Naming.{names, need_seen, stands_for, KnownScope};

use crate::scope::{Scope, local_sort, package_sort};
use crate::standing::Needed;
use go_base::Memory;
use go_constants::Const;
use go_exprs_rules::Hint;
use go_ints::Kind;
use go_tree::object::{Object, Predeclared};
use go_typed::{SharedConst, Sort};
use go_types::{Shape, Types};
use go_types_relations::intern;
use std::alloc::Global;

/// The type of a shape, as what a node stands for.
pub fn shape_sort(types: &mut Types, shape: &Shape) -> Result<Sort, Memory>
    requires parts { HasPartsBelow (length types.old.shapes) shape.now }
    requires declared { WasDeclared types.old shape.now }
    ensures grows { Grows types.old types.new }
    ensures sort { IfOk result (λ s. sort_seen types.new s ≡ IsType (tree_of (type_of types.old.shapes) shape.now)) }
    ensures known { IfOk result (KnownSort (length types.new.shapes)) }
{
    Ok(Sort::Type(intern(types, shape)?))
}

/// An untyped constant.
fn open_constant(alloc: Global, types: &Types, constant: Const) -> Result<Sort, Memory>
    ensures tree { IfOk result (λ s. sort_seen types.now s ≡ OpenConstant constant) }
    ensures known { IfOk result (KnownSort (length types.now.shapes)) }
{
    let _types = types;
    Ok(Sort::OpenConstant(SharedConst::of(alloc, constant)?))
}

/// What a predeclared name stands for (Go specification, "Predeclared identifiers").
///
/// # Errors
///
/// Want of memory.
pub fn predeclared_sort(
    alloc: Global,
    types: &mut Types,
    iota: u32,
    name: Predeclared,
) -> Result<Sort, Memory>
    ensures grows { Grows types.old types.new }
    ensures sort { IfOk result (λ s. sort_seen types.new s ≡ predeclared_sort iota name) }
    ensures known { IfOk result (KnownSort (length types.new.shapes)) }
{
    types.count();
    match name {
        Predeclared::Bool => shape_sort(types, &Shape::Bool),
        Predeclared::String => shape_sort(types, &Shape::Text),
        Predeclared::Int => shape_sort(types, &Shape::Int(Kind::Int)),
        Predeclared::Int8 => shape_sort(types, &Shape::Int(Kind::Int8)),
        Predeclared::Int16 => shape_sort(types, &Shape::Int(Kind::Int16)),
        Predeclared::Int32 => shape_sort(types, &Shape::Int(Kind::Int32)),
        Predeclared::Int64 => shape_sort(types, &Shape::Int(Kind::Int64)),
        Predeclared::Uint => shape_sort(types, &Shape::Int(Kind::Uint)),
        Predeclared::Uint8 => shape_sort(types, &Shape::Int(Kind::Uint8)),
        Predeclared::Uint16 => shape_sort(types, &Shape::Int(Kind::Uint16)),
        Predeclared::Uint32 => shape_sort(types, &Shape::Int(Kind::Uint32)),
        Predeclared::Uint64 => shape_sort(types, &Shape::Int(Kind::Uint64)),
        Predeclared::Byte => shape_sort(types, &Shape::Int(Kind::Uint8)),
        Predeclared::Rune => shape_sort(types, &Shape::Int(Kind::Int32)),
        Predeclared::True => open_constant(alloc, types, Const::Bool(true)),
        Predeclared::False => open_constant(alloc, types, Const::Bool(false)),
        Predeclared::Iota => open_constant(
            alloc,
            types,
            Const::Int {
                value: i128::from(iota),
                rune: false,
            },
        ),
        Predeclared::Nil => Ok(Sort::Nil),
        Predeclared::Append
        | Predeclared::Cap
        | Predeclared::Copy
        | Predeclared::Len
        | Predeclared::Make
        | Predeclared::Max
        | Predeclared::Min
        | Predeclared::Panic => Ok(Sort::Builtin(name)),
    }
}

/// What a name stands for that is declared in a file, where it is needed so.
fn declared_sort(
    types: &Types,
    scope: &Scope<'_>,
    need: Needed,
    object: Object,
) -> Result<Sort, Memory>
    requires { KnownScope (length types.now.shapes) scope.now }
    ensures sort { IfOk result (λ s. sort_seen types.now s ≡ stands_for types.now scope.now (need_seen need) object) }
    ensures known { IfOk result (KnownSort (length types.now.shapes)) }
{
    match object {
        Object::Package(number) => shared(types, package_sort(types, scope, need, number)),
        Object::Local { function, number } => shared(
            types,
            local_sort(types, scope, function, number),
        ),
        Object::Import | Object::Predeclared(_) => Ok(Sort::Unknown),
    }
}

/// A sort once more, if there is one.
fn shared(types: &Types, sort: Option<&Sort>) -> Result<Sort, Memory>
    requires { IfSome sort (λ s. KnownSort (length types.now.shapes) s.now) }
    ensures sort { IfOk result (λ s. sort_seen types.now s ≡ known (option_map (λ s. sort_seen types.now s.now) sort.entry)) }
    ensures known { IfOk result (KnownSort (length types.now.shapes)) }
{
    match sort {
        Some(sort) => sort.shared(),
        None => Ok(Sort::Unknown),
    }
}

/// What an object stands for where it is needed so, or the blank identifier where there is none.
///
/// # Errors
///
/// Want of memory.
pub fn object_sort(
    alloc: Global,
    types: &mut Types,
    scope: &Scope<'_>,
    need: Needed,
    object: Option<Object>,
) -> Result<Sort, Memory>
    requires { KnownScope (length types.old.shapes) scope.now }
    ensures grows { Grows types.old types.new }
    ensures sort { IfOk result (λ s. sort_seen types.new s ≡ object_sort (names types.old scope.now) (need_seen need) object) }
    ensures known { IfOk result (KnownSort (length types.new.shapes)) }
{
    types.count();
    match object {
        None => Ok(Sort::Blank),
        Some(Object::Import) => Ok(Sort::Package),
        Some(Object::Predeclared(name)) => predeclared_sort(
            alloc,
            types,
            scope.locals.iota(),
            name,
        ),
        Some(object) => declared_sort(types, scope, need, object),
    }
}

/// How a name is needed that is told this: in a slice's element and in a function type of a type declaration it needs nothing.
pub fn need_of(types: &Types, scope: &Scope<'_>, hint: Hint) -> Needed
    ensures { need_seen result ≡ need_of (need_seen scope.now.needed) (hint_seen types.now hint) }
{
    match (scope.needed, hint) {
        (Needed::AtOnce, Hint::Loose) => Needed::Loosely,
        (Needed::AtOnce, Hint::LooseInside) => Needed::Loosely,
        (needed, _) => needed,
    }
}

/// What a name stands for where it is told this (Go specification, "Declarations and scope"). A name that is declared stands for
/// nothing here.
///
/// # Errors
///
/// Want of memory.
pub fn name_sort(
    alloc: Global,
    types: &mut Types,
    scope: &Scope<'_>,
    hint: Hint,
    token: u32,
) -> Result<Sort, Memory>
    requires { KnownScope (length types.old.shapes) scope.now }
    ensures grows { Grows types.old types.new }
    ensures sort { IfOk result (λ s. sort_seen types.new s ≡ name_sort (names types.old scope.now) (hint_seen types.old hint) token) }
    ensures known { IfOk result (KnownSort (length types.new.shapes)) }
{
    types.count();
    match hint {
        Hint::Declares | Hint::Free => Ok(Sort::Nothing),
        _ => object_sort(
            alloc,
            types,
            scope,
            need_of(types, scope, hint),
            scope.object(token),
        ),
    }
}
