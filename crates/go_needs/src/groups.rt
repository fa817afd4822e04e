//! What is held of each specification.

ghost use Rattle.std.specs.Prelude.{◌≡◌, ◌++◌, IfOk, length, map, slice_get};
ghost use Rattle.std.specs.Option.{option_map};
ghost use Rattle.go_declarations.specs.Views.{specification_view, seen_all};
ghost use Rattle.go_package_defs.specs.Declarations.{trees_of};
ghost use Rattle.go_package_defs.specs.Verdicts.{first_name};
ghost use Rattle.go_tree.specs.Views.{views};
ghost use Rattle.go_needs.specs.Groups.{group_view, group_by, numbers_in, roots};

use crate::objects::Owned;
use crate::owners::Owner;
use go_declarations::Specification;
use go_tree::node::Node;
use go_tree::object::Object;
use go_tree::uses::Uses;
use std::alloc::{AllocError, Global};

/// What is held of a specification.
#[derive(Debug, Drop)]
pub struct Group {
    /// The numbers of the objects that it declares.
    pub numbers: Vec<usize>,
    /// The number of its names or of its values, whichever is greater.
    pub columns: usize,
    /// The specification as which its first name is declared.
    pub root: Option<Owner>,
}

/// The numbers of the objects of the package that tokens of a file name.
fn numbers_in(
    alloc: Global,
    uses: &Uses,
    file: usize,
    tokens: &[usize],
) -> Result<Vec<usize>, AllocError>
    ensures { IfOk result (λ v. v.items ≡ numbers_in uses.now file tokens.now) }
{
    let mut numbers = Vec::new(alloc);
    for token in tokens {
        if let Some(Object::Package(number)) = uses.object(file, *token) {
            numbers.push(number)?;
        }
    }
    Ok(numbers)
}

/// How many values there are.
fn count_values(values: &[Option<Node>]) -> usize
    ensures { result ≡ length (trees_of (views values.now)) }
{
    let mut count = 0;
    for value in values {
        if value.is_some() {
            count += 1;
        }
    }
    count
}

/// The first name; 0 where there is none.
fn first_name(names: &[usize]) -> usize
    ensures { result ≡ first_name names.now }
{
    match names {
        [name, ..] => *name,
        [] => 0,
    }
}

/// What is held of a specification.
fn group_of(
    alloc: Global,
    uses: &Uses,
    owned: &Owned,
    s: &Specification<'_>,
) -> Result<Group, AllocError>
    ensures { IfOk result (λ g. group_view g ≡ group_by uses.now owned.now (specification_view s.now)) }
{
    let numbers = numbers_in(alloc, uses, s.file, &s.names)?;
    let columns = s.names.len().max(count_values(s.values));
    let root = owned.get(&(s.file, first_name(&s.names))).copied();
    Ok(Group {
        numbers,
        columns,
        root,
    })
}

/// What is held of each specification.
pub fn groups_of(
    alloc: Global,
    uses: &Uses,
    owned: &Owned,
    specifications: &[Specification<'_>],
) -> Result<Vec<Group>, AllocError>
    ensures { IfOk result (λ v. map group_view v.items ≡ map (group_by uses.now owned.now) (seen_all specifications.now)) }
{
    let mut groups = Vec::new(alloc);
    for s in specifications {
        groups.push(group_of(alloc, uses, owned, s)?)?;
    }
    Ok(groups)
}

/// What is held of the specification of this number.
pub fn group_at<'a>(groups: &'a [Group], number: usize) -> Option<&'a Group>
    ensures { option_map (λ g. g.now) result ≡ slice_get groups.now number }
{
    groups.get(number)
}

/// The specifications of objects, and those as which first names are declared.
pub fn all_of(alloc: Global, owners: &[Owner], groups: &[Group]) -> Result<Vec<Owner>, AllocError>
    ensures { IfOk result (λ v. v.items ≡ owners.now ++ roots groups.now) }
{
    let mut all = Vec::from_slice(alloc, owners)?;
    for group in groups {
        if let Some(root) = group.root {
            all.push(root)?;
        }
    }
    Ok(all)
}
