//! Declarations by name and block, and by statement.

ghost use Rattle.std.specs.Prelude.{◌≡◌, ◌++◌, ◌||◌, not, false, [], ◌∷◌, List, unwrap_or, IfOk, OnOk, map};
ghost use Rattle.go_tree.specs.Declarations as rules;
ghost use Rattle.go_scopes_lookup.specs.Views.{found_view};
ghost use Rattle.go_scopes_lookup.specs.Keys.{block_of, first_of, statement_of, is_parameter, IsKey, KnowsVariables, KnowsNames, KnowsStatements};

use crate::found::{Found, is_variable};
use crate::kinds::is_by_define;
use go_base::Memory;
use go_tree::context::{Block, Entity};
use indexmap::{IndexMap, IndexSet};

/// A name in a block of a package.
#[derive(Clone, Copy, Debug, PartialEq, Eq, Hash)]
pub struct Key<'a> {
    /// The file and the first token of the block, if it isn't the package's.
    block: Option<(u32, u32)>,
    name: &'a [u8],
}

/// A statement of a package.
#[derive(Clone, Copy, Debug, PartialEq, Eq, Hash)]
pub struct Statement {
    file: u32,
    /// Its first token.
    first: u32,
}

fn block_of(file: u32, block: Block) -> Option<(u32, u32)>
    ensures { result ≡ block_of file block }
{
    match block {
        Block::Package => None,
        Block::Local(first) => Some((file, first)),
    }
}

/// The name and block of a declaration.
pub fn key_of<'a>(d: &Found<'a>) -> Key<'a>
    ensures { IsKey (found_view d.now) result }
{
    Key {
        block: block_of(d.file, d.declaration.block),
        name: d.name(),
    }
}

/// The statement of a declaration.
pub fn statement_of(d: &Found<'_>) -> Statement
    ensures { result ≡ statement_of d.now }
{
    Statement {
        file: d.file,
        first: d.declaration.statement,
    }
}

/// The first of a token and one that may be there.
fn first_of(name: u32, other: Option<u32>) -> u32
    ensures { result ≡ first_of name other }
{
    match other {
        None => name,
        Some(other) => name.min(other),
    }
}

/// Notes a variable: the map has the first token of those of a name and block.
pub fn add_variable<'a>(variables: &mut IndexMap<Key<'a>, u32>, d: &Found<'a>) -> Result<(), Memory>
    ensures { OnOk result ((xs : List rules.Found) → KnowsVariables variables.old xs → KnowsVariables variables.new (xs ++ found_view d.now ∷ [])) }
{
    if !is_variable(d.declaration.entity) {
        return Ok(());
    }
    let key = key_of(d);
    let first = first_of(d.declaration.name, variables.get(&key).copied());
    variables.insert(key, first)?;
    Ok(())
}

/// Whether it is a parameter.
pub fn is_parameter(entity: Entity) -> bool
    ensures { result ≡ is_parameter entity }
{
    match entity {
        Entity::Parameter => true,
        Entity::Constant | Entity::Type | Entity::Variable | Entity::Function => false,
    }
}

/// Whether the entity is none of the parameters, or `had` says that of one before it.
fn is_other(had: Option<bool>, entity: Entity) -> bool
    ensures { result ≡ (unwrap_or had false || not (is_parameter entity)) }
{
    had.unwrap_or(false) || !is_parameter(entity)
}

/// Notes a name: the map says of each name and block whether an entity other than a parameter has it.
pub fn add_name<'a>(names: &mut IndexMap<Key<'a>, bool>, d: &Found<'a>) -> Result<(), Memory>
    ensures { OnOk result ((xs : List rules.Found) → KnowsNames names.old xs → KnowsNames names.new (xs ++ found_view d.now ∷ [])) }
{
    let key = key_of(d);
    let other = is_other(names.get(&key).copied(), d.declaration.entity);
    names.insert(key, other)?;
    Ok(())
}

/// Notes a statement that declares a name by `:=`.
pub fn add_statement(statements: &mut IndexSet<Statement>, d: &Found<'_>) -> Result<(), Memory>
    ensures { OnOk result ((xs : List rules.Found) → KnowsStatements statements.old xs → KnowsStatements statements.new (xs ++ found_view d.now ∷ [])) }
{
    if is_by_define(d.declaration.manner) {
        statements.insert(statement_of(d))?;
    }
    Ok(())
}
