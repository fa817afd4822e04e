//! Tests: long chains of types, and types that hold another one many times over, are told of at
//! once, whether or not they are settled, and in whichever order they are defined.
use go_base::Bytes;
use go_ints::Kind;
use go_types::{Field, Fields, Shape, TypeId, Types};
use std::alloc::Global;
use std::process::Abort;
use std::test::Fail;

/// The number of a shape whose parts are there.
fn number(rt: &impl Abort, types: &mut Types, shape: Shape) -> Result<TypeId, Fail> {
    assert!(rt; types.can_intern(&shape));
    Ok(types.intern(&shape)?)
}

/// The type `[length]elem`.
fn array(rt: &impl Abort, types: &mut Types, length: u32, elem: TypeId) -> Result<TypeId, Fail> {
    number(rt, types, Shape::Array { length, elem })
}

/// A struct type with a field of each of two types.
fn pair(
    rt: &impl Abort,
    alloc: Global,
    types: &mut Types,
    a: TypeId,
    b: TypeId,
) -> Result<TypeId, Fail> {
    let a = Field {
        name: Bytes::from_slice(alloc, b"a")?,
        ty: a,
    };
    let b = Field {
        name: Bytes::from_slice(alloc, b"b")?,
        ty: b,
    };
    let fields = Fields::of(vec![in alloc; a, b]?);
    number(rt, types, Shape::Struct { fields })
}

/// Gives a declared type a settled right side.
fn define(rt: &impl Abort, types: &mut Types, named: TypeId, right: TypeId) {
    assert!(rt; named < types.count());
    assert!(rt; right < types.count());
    assert!(rt; types.can_define(named, right));
    types.define(named, right);
}

/// Whether a type is settled.
fn is_settled(rt: &impl Abort, types: &Types, a: TypeId) -> bool {
    assert!(rt; a < types.count());
    types.is_settled(a)
}

/// The scalars of a settled type.
fn scalars(rt: &impl Abort, types: &Types, a: TypeId) -> u64 {
    assert!(rt; a < types.count());
    assert!(rt; types.is_settled(a));
    types.scalars(a)
}

/// Whether a settled type is comparable.
fn comparable(rt: &impl Abort, types: &Types, a: TypeId) -> bool {
    assert!(rt; a < types.count());
    assert!(rt; types.is_settled(a));
    types.comparable(a)
}

/// Structs that each hold the one before twice, 60 deep, the first of which holds this type.
fn doubled(
    rt: &impl Abort,
    alloc: Global,
    types: &mut Types,
    first: TypeId,
) -> Result<TypeId, Fail> {
    let mut last = first;
    for _ in 0..60 {
        last = pair(rt, alloc, types, last, last)?;
    }
    Ok(last)
}

#[test]
fn doubled_structs_of_a_type_that_is_defined_last(rt: HostRuntime) -> Result<(), Fail> {
    let alloc = rt.alloc();
    let mut types = Types::new(alloc);
    let int = number(&rt, &mut types, Shape::Int(Kind::Int))?;
    let numbers = array(&rt, &mut types, 17, int)?;
    let named = types.declare()?;
    let last = doubled(&rt, alloc, &mut types, named)?;
    assert!(rt; !is_settled(&rt, &types, last));
    define(&rt, &mut types, named, numbers);
    assert!(rt; comparable(&rt, &types, last));
    assert_eq!(rt; scalars(&rt, &types, last), u64::MAX);
    Ok(())
}

/// The number of types of a chain.
const MANY: u64 = 20_000;

/// Declared types, and the array types that are to be the right sides of those before them.
#[derive(Drop)]
struct Chain {
    named: Vec<TypeId>,
    arrays: Vec<TypeId>,
}

fn declared_before(rt: &impl Abort, alloc: Global, types: &mut Types) -> Result<Chain, Fail> {
    let mut chain = Chain {
        named: Vec::new(alloc),
        arrays: Vec::new(alloc),
    };
    for _ in 0..MANY {
        let named = types.declare()?;
        chain.named.push(named)?;
        chain.arrays.push(array(rt, types, 1, named)?)?;
    }
    Ok(chain)
}

/// Defines the types of a chain from the last on, and answers the array type of the first.
fn define_backwards(rt: &impl Abort, types: &mut Types, chain: &Chain, last: TypeId) -> TypeId {
    let mut right = last;
    for (named, array) in chain.named.iter().zip(chain.arrays.iter()).rev() {
        define(rt, types, *named, right);
        right = *array;
    }
    right
}

#[test]
fn a_chain_of_declared_types_backwards(rt: HostRuntime) -> Result<(), Fail> {
    let alloc = rt.alloc();
    let mut types = Types::new(alloc);
    let int = number(&rt, &mut types, Shape::Int(Kind::Int))?;
    let chain = declared_before(&rt, alloc, &mut types)?;
    let first = define_backwards(&rt, &mut types, &chain, int);
    assert_eq!(rt; scalars(&rt, &types, first), 1);
    Ok(())
}

/// Array types that each hold the one before.
fn arrays_of(rt: &impl Abort, types: &mut Types, first: TypeId) -> Result<TypeId, Fail> {
    let mut last = first;
    for _ in 0..MANY {
        last = array(rt, types, 1, last)?;
    }
    Ok(last)
}

#[test]
fn a_chain_of_arrays_of_a_type_that_is_defined_last(rt: HostRuntime) -> Result<(), Fail> {
    let mut types = Types::new(rt.alloc());
    let int = number(&rt, &mut types, Shape::Int(Kind::Int))?;
    let named = types.declare()?;
    let last = arrays_of(&rt, &mut types, named)?;
    assert!(rt; !is_settled(&rt, &types, last));
    define(&rt, &mut types, named, int);
    assert_eq!(rt; scalars(&rt, &types, last), 1);
    Ok(())
}

/// Declared types.
fn declare_many(alloc: Global, types: &mut Types) -> Result<Vec<TypeId>, Fail> {
    let mut named = Vec::new(alloc);
    for _ in 0..MANY {
        named.push(types.declare()?)?;
    }
    Ok(named)
}

/// A struct type with a field of each of these types.
fn wide(
    rt: &impl Abort,
    alloc: Global,
    types: &mut Types,
    named: &[TypeId],
) -> Result<TypeId, Fail> {
    let mut fields = Vec::new(alloc);
    for ty in named {
        let name = Bytes::from_slice(alloc, &ty.to_le_bytes())?;
        fields.push(Field { name, ty: *ty })?;
    }
    let fields = Fields::of(fields);
    number(rt, types, Shape::Struct { fields })
}

#[test]
fn a_wide_struct_of_types_that_are_defined_later(rt: HostRuntime) -> Result<(), Fail> {
    let alloc = rt.alloc();
    let mut types = Types::new(alloc);
    let int = number(&rt, &mut types, Shape::Int(Kind::Int))?;
    let named = declare_many(alloc, &mut types)?;
    let all = wide(&rt, alloc, &mut types, &named)?;
    assert!(rt; !is_settled(&rt, &types, all));
    for ty in &named {
        define(&rt, &mut types, *ty, int);
    }
    assert_eq!(rt; scalars(&rt, &types, all), MANY);
    Ok(())
}
