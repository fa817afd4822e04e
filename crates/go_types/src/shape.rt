//! Shapes of types.
ghost use Rattle.std.specs.Prelude.{◌≡◌, ℕ, nat_lt, map};
ghost use Rattle.std.specs.List.{list_all};

use go_base::Bytes;
use go_ints::Kind;
use std::marker::Model;

/// The number of a type in a table.
pub type TypeId = u64;

/// A field of a struct: its name and its type.
#[derive(Clone, Debug, Drop)]
pub struct Field {
    pub name: Bytes,
    pub ty: TypeId,
}

/// The fields of a struct, in order.
#[derive(Clone, Debug, Drop)]
pub struct Fields {
    items: Vec<Field>,
}

impl Model for Fields {
    ghost use Rattle.std.specs.Prelude.{List};
    ghost use Rattle.go_types.specs.declared.shape.Field.{Field};

    ghost Value = { List Field };

    ghost view = { λ f. f.items.items };
}

impl Fields {
    /// The fields of a `Vec`, which is kept.
    pub fn of(items: Vec<Field>) -> Fields
        ensures { result ≡ items.items }
    {
        Fields { items }
    }

    /// All the fields.
    pub fn as_slice(&self) -> &[Field]
        ensures { result.now ≡ self.now }
    {
        self.items.as_slice()
    }
}

/// Types in order.
#[derive(Clone, Debug, Drop)]
pub struct TypeIds {
    items: Vec<TypeId>,
}

impl Model for TypeIds {
    ghost use Rattle.std.specs.Prelude.{List, ℕ};

    ghost Value = { List ℕ };

    ghost view = { λ t. t.items.items };
}

impl TypeIds {
    /// The types of a `Vec`, which is kept.
    pub fn of(items: Vec<TypeId>) -> TypeIds
        ensures { result ≡ items.items }
    {
        TypeIds { items }
    }

    /// All the types.
    pub fn as_slice(&self) -> &[TypeId]
        ensures { result.now ≡ self.now }
    {
        self.items.as_slice()
    }
}

/// The shape of a type: its form, with the numbers of its parts (Go specification, "Types").
#[derive(Clone, Debug, Drop)]
pub enum Shape {
    /// `bool`
    Bool,
    /// `string`
    Text,
    /// An integer type.
    Int(Kind),
    /// `[length]elem`
    Array { length: u32, elem: TypeId },
    /// `[]elem`
    Slice { elem: TypeId },
    /// `struct { .. }`
    Struct { fields: Fields },
    /// `func(..) ..`
    Func { params: TypeIds, results: TypeIds },
    /// The declared type of this number.
    Named { number: u64 },
}

impl Shape {
    ghost use Rattle.go_types.specs.Trees.{TypeTree, is_named};
    ghost use Rattle.go_types.specs.Tables.{tree_of, parts};
    ghost use Rattle.go_types.specs.Verdicts.{plain};

    /// Whether a type of this shape is a declared or a predeclared one.
    pub fn is_named(&self) -> bool
        ensures { (type_of : ℕ → TypeTree) → result ≡ is_named (tree_of type_of self.now) }
    {
        match self {
            Shape::Bool | Shape::Text | Shape::Int(_) | Shape::Named { .. } => true,
            Shape::Array { .. } | Shape::Slice { .. } | Shape::Struct { .. } | Shape::Func { .. } =>
                false,
        }
    }

    /// Whether types of this shape are comparable, where the shape alone tells it; they have one
    /// scalar each then.
    pub(crate) fn plain(&self) -> Option<bool>
        ensures { result ≡ plain self.now }
    {
        match self {
            Shape::Bool | Shape::Text | Shape::Int(_) => Some(true),
            Shape::Slice { .. } | Shape::Func { .. } => Some(false),
            Shape::Array { .. } | Shape::Struct { .. } | Shape::Named { .. } => None,
        }
    }

    /// Whether its parts have numbers below this.
    pub(crate) fn has_parts_below(&self, count: u64) -> bool
        ensures { result ≡ list_all (λ p. nat_lt p count) (parts self.now) }
    {
        match self {
            Shape::Array { elem, .. } | Shape::Slice { elem } => *elem < count,
            Shape::Struct { fields } => fields_below(fields.as_slice(), count),
            Shape::Func { params, results } => {
                all_below(params.as_slice(), count) && all_below(results.as_slice(), count)
            }
            Shape::Bool | Shape::Text | Shape::Int(_) | Shape::Named { .. } => true,
        }
    }
}

/// Whether all the numbers are below one.
fn all_below(ids: &[TypeId], count: u64) -> bool
    ensures { result ≡ list_all (λ p. nat_lt p count) ids.now }
{
    ids.iter().all(|id| *id < count)
}

/// Whether the types of all the fields have numbers below one.
fn fields_below(fields: &[Field], count: u64) -> bool
    ensures { result ≡ list_all (λ p. nat_lt p count) (map (λ f. f.ty) fields.now) }
{
    fields.iter().map(|field| field.ty).all(|ty| ty < count)
}
