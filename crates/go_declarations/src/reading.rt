//! The specifications of the package block, read from the trees of its files.
ghost use Rattle.std.specs.Prelude.{◌≡◌, ◌++◌, ◌∷◌, [], None, IfOk, OnOk, map};
ghost use Rattle.std.specs.Option.{option_map};
ghost use Rattle.go_tree.specs.Contexts.{entity_of};
ghost use Rattle.go_tree.specs.Views.{view, views};
ghost use Rattle.go_stmts_defs.specs.Reading.{part_source};
ghost use Rattle.go_package_defs.specs.Declarations.{trees_of, first_tokens, name_tokens, listed_values, type_behind, values_behind, first_part, specification_of, declaration, declarations, declared, grouped};
ghost use Rattle.go_package_defs.specs.Answer.{specifications};
ghost use Rattle.go_package_defs.specs.Sources.{source_of};
ghost use Rattle.go_declarations.specs.Views.{specification_view, seen_all, named_specified, type_specified, function_specified, only_part, group_in};

use crate::specification::Specification;
use go_base::Memory;
use go_grammar::kind::{Kind, Sort};
use go_tree::context::Entity;
use go_tree::file::File;
use go_tree::node::Node;
use std::alloc::Global;

/// What a declaration declares.
fn entity_of(sort: Sort) -> Entity
    ensures { result ≡ entity_of sort }
{
    match sort {
        Sort::Constant => Entity::Constant,
        Sort::Type => Entity::Type,
        Sort::Variable => Entity::Variable,
    }
}

/// The first tokens of parts.
fn first_tokens(alloc: Global, parts: &[Option<Node>]) -> Result<Vec<usize>, Memory>
    ensures { IfOk result (λ v. v.items ≡ first_tokens (views parts.now)) }
{
    let mut tokens = Vec::new(alloc);
    for part in parts {
        if let Some(part) = part {
            tokens.push(part.first() as usize)?;
        }
    }
    Ok(tokens)
}

/// The tokens of the names that stand first in a specification.
fn name_tokens(alloc: Global, parts: &[Option<Node>]) -> Result<Vec<usize>, Memory>
    ensures { IfOk result (λ v. v.items ≡ name_tokens (views parts.now)) }
{
    match parts {
        [Some(names), ..] => first_tokens(alloc, names.parts()),
        _ => Ok(Vec::new(alloc)),
    }
}

/// The parts of the first part, which is a list of values.
fn listed_values<'a>(parts: &'a [Option<Node>]) -> &'a [Option<Node>]
    ensures { trees_of (views result.now) ≡ listed_values (views parts.now) }
{
    match parts {
        [Some(values), ..] => values.parts(),
        _ => &[],
    }
}

/// The type in what stands behind the names of a specification.
fn type_behind<'a>(source: Option<&'a Node>) -> Option<&'a Node>
    ensures { option_map (λ n. view n.now) result ≡ type_behind (option_map (λ n. view n.now) source.entry) }
{
    let node = source?;
    match node.kind() {
        Kind::Values => None,
        Kind::TypedValues => match node.parts() {
            [Some(of), ..] => Some(of),
            _ => Some(node),
        },
        _ => Some(node),
    }
}

/// The values in it.
fn values_behind<'a>(source: Option<&'a Node>) -> &'a [Option<Node>]
    ensures { trees_of (views result.now) ≡ values_behind (option_map (λ n. view n.now) source.entry) }
{
    let Some(node) = source else {
        return &[];
    };
    match node.kind() {
        Kind::Values => listed_values(node.parts()),
        Kind::TypedValues => match node.parts() {
            [Some(_), rest @ ..] => listed_values(rest),
            _ => &[],
        },
        _ => &[],
    }
}

/// What stands behind the names of a specification of these parts, or what it repeats.
fn part_source<'a>(parts: &'a [Option<Node>], repeated: Option<&'a Node>) -> Option<&'a Node>
    ensures { option_map (λ n. view n.now) result ≡ part_source (views parts.now) (option_map (λ n. view n.now) repeated.entry) }
{
    match parts {
        [Some(_), Some(source)] => Some(source),
        _ => repeated,
    }
}

/// The first part.
fn first_part<'a>(parts: &'a [Option<Node>]) -> Option<&'a Node>
    ensures { option_map (λ n. view n.now) result ≡ first_part (views parts.now) }
{
    match parts {
        [Some(part), ..] => Some(part),
        _ => None,
    }
}

/// One token.
fn one_token(alloc: Global, token: usize) -> Result<Vec<usize>, Memory>
    ensures { IfOk result (λ v. v.items ≡ token ∷ []) }
{
    let mut tokens = Vec::new(alloc);
    tokens.push(token)?;
    Ok(tokens)
}

/// The specification of a type.
fn type_specification<'a>(
    alloc: Global,
    file: usize,
    node: &'a Node,
) -> Result<Specification<'a>, Memory>
    ensures { IfOk result (λ s. specification_view s ≡ type_specified file (view node.now)) }
{
    Ok(Specification {
        entity: Entity::Type,
        file,
        first: node.first(),
        last: node.last(),
        iota: 0,
        names: one_token(alloc, node.first() as usize)?,
        of: first_part(node.parts()),
        values: &[],
        tree: node,
    })
}

/// The specification of constants or variables that has this behind its names.
fn named_specification<'a>(
    alloc: Global,
    file: usize,
    entity: Entity,
    iota: usize,
    node: &'a Node,
    source: Option<&'a Node>,
) -> Result<Specification<'a>, Memory>
    ensures { IfOk result (λ s. specification_view s ≡ named_specified file entity iota (view node.now) (option_map (λ n. view n.now) source.entry)) }
{
    Ok(Specification {
        entity,
        file,
        first: node.first(),
        last: node.last(),
        iota,
        names: name_tokens(alloc, node.parts())?,
        of: type_behind(source),
        values: values_behind(source),
        tree: node,
    })
}

/// The specification of this number in a group, which may repeat what an earlier one says.
fn specification_of<'a>(
    alloc: Global,
    file: usize,
    sort: Sort,
    iota: usize,
    repeated: Option<&'a Node>,
    node: &'a Node,
) -> Result<Specification<'a>, Memory>
    ensures { IfOk result (λ s. specification_view s ≡ specification_of file sort iota (option_map (λ n. view n.now) repeated.entry) (view node.now)) }
{
    match sort {
        Sort::Type => type_specification(alloc, file, node),
        _ => named_specification(
            alloc,
            file,
            entity_of(sort),
            iota,
            node,
            part_source(node.parts(), repeated),
        ),
    }
}

/// Adds the specifications of a group.
fn push_group<'a>(
    alloc: Global,
    file: usize,
    sort: Sort,
    parts: &'a [Option<Node>],
    found: &mut Vec<Specification<'a>>,
) -> Result<(), Memory>
    ensures { OnOk result (seen_all found.new.items ≡ seen_all found.old.items ++ grouped file sort 0 None (views parts.now)) }
{
    let mut repeated = None;
    let mut iota = 0;
    for part in parts {
        let Some(node) = part else { continue };
        found.push(specification_of(alloc, file, sort, iota, repeated, node)?)?;
        repeated = part_source(node.parts(), repeated);
        iota += 1;
    }
    Ok(())
}

/// The only part.
#[tactic(auto, using(crate::proofs::Parts::more_than_one))]
fn only<'a>(parts: &'a [Option<Node>]) -> Option<&'a Node>
    ensures { option_map (λ n. view n.now) result ≡ only_part (views parts.now) }
{
    match parts {
        [] => None,
        [part] => part.as_ref(),
        [_, _, ..] => None,
    }
}

/// The specifications of a declaration: those in its parentheses, or its parts.
#[tactic(auto, using(crate::proofs::Parts::group_of_none, crate::proofs::Parts::group_of_one))]
fn group_in<'a>(parts: &'a [Option<Node>]) -> &'a [Option<Node>]
    ensures { views result.now ≡ group_in (views parts.now) }
{
    let Some(group) = only(parts) else {
        return parts;
    };
    match group.kind() {
        Kind::Group(_) => group.parts(),
        _ => parts,
    }
}

/// Adds the specifications of a declaration of these parts.
#[tactic(auto, using(crate::proofs::Parts::declared_group))]
fn push_declared<'a>(
    alloc: Global,
    file: usize,
    sort: Sort,
    parts: &'a [Option<Node>],
    found: &mut Vec<Specification<'a>>,
) -> Result<(), Memory>
    ensures { OnOk result (seen_all found.new.items ≡ seen_all found.old.items ++ declared file sort (views parts.now)) }
{
    push_group(alloc, file, sort, group_in(parts), found)
}

/// A function, as it is declared.
fn function<'a>(alloc: Global, file: usize, node: &'a Node) -> Result<Specification<'a>, Memory>
    ensures { IfOk result (λ s. specification_view s ≡ function_specified file (view node.now)) }
{
    Ok(Specification {
        entity: Entity::Function,
        file,
        first: node.first(),
        last: node.last(),
        iota: 0,
        names: one_token(alloc, node.first() as usize + 1)?,
        of: first_part(node.parts()),
        values: &[],
        tree: node,
    })
}

/// Adds the specifications of a declaration.
fn push_declaration<'a>(
    alloc: Global,
    file: usize,
    node: &'a Node,
    found: &mut Vec<Specification<'a>>,
) -> Result<(), Memory>
    ensures { OnOk result (seen_all found.new.items ≡ seen_all found.old.items ++ declaration file (view node.now)) }
{
    match node.kind() {
        Kind::Declaration(sort) => push_declared(alloc, file, sort, node.parts(), found),
        Kind::FunctionDeclaration => {
            found.push(function(alloc, file, node)?)?;
            Ok(())
        }
        _ => Ok(()),
    }
}

/// Adds the specifications of the declarations of a file.
fn push_file<'a>(
    alloc: Global,
    file: usize,
    parts: &'a [Option<Node>],
    found: &mut Vec<Specification<'a>>,
) -> Result<(), Memory>
    ensures { OnOk result (seen_all found.new.items ≡ seen_all found.old.items ++ declarations file (views parts.now)) }
{
    for part in parts {
        let Some(node) = part else { continue };
        push_declaration(alloc, file, node, found)?;
    }
    Ok(())
}

/// The specifications and functions of the package block, in the order of files and places.
///
/// # Errors
///
/// Want of memory.
pub fn specifications<'a>(
    alloc: Global,
    files: &'a [File],
) -> Result<Vec<Specification<'a>>, Memory>
    ensures { IfOk result (λ v. seen_all v.items ≡ specifications 0 (map source_of files.now)) }
{
    let mut found = Vec::new(alloc);
    for number in 0..files.len() {
        push_file(alloc, number, files[number].root().parts(), &mut found)?;
    }
    found.shrink_to_fit();
    Ok(found)
}
