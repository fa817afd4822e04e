//! The functions of a file by number, and what they are made of.

ghost use Rattle.std.specs.Prelude.{◌≡◌, ◌++◌, IfOk, OnOk, length, slice_get};
ghost use Rattle.std.specs.Option.{option_map};
ghost use Rattle.go_tree.specs.Functions.{function_declaration_of, function_declaration_view};
ghost use Rattle.go_tree.specs.Lists.{functions, functions_of, function_here, is_function, seen};
ghost use Rattle.go_tree.specs.Views.{view, views};

use crate::node::Node;
use go_grammar::kind::Kind;
use std::alloc::{AllocError, Global};

/// The functions of a file, numbered from 0 in order of place (Go specification: Function declarations).
#[derive(Debug, Drop)]
pub struct Functions<'a> {
    nodes: Vec<&'a Node>,
}

/// A function (Go specification: Function declarations).
#[derive(Clone, Copy, Debug)]
pub struct FunctionDeclaration<'a> {
    /// The number of the token that is its name.
    pub name: u32,
    /// Its signature.
    pub signature: &'a Node,
    /// Its block; none where the function is written in another language.
    pub body: Option<&'a Node>,
}

impl<'a> Functions<'a> {
    /// The functions among declarations, with a body or without.
    ///
    /// # Errors
    ///
    /// Want of memory.
    pub fn among(
        alloc: Global,
        declarations: &'a [Option<Node>],
    ) -> Result<Functions<'a>, AllocError>
        ensures { IfOk result (λ fs. functions_of fs ≡ functions (views declarations.now)) }
    {
        let mut nodes = Vec::new(alloc);
        for declaration in declarations {
            push_function(declaration, &mut nodes)?;
        }
        Ok(Functions { nodes })
    }

    /// How many there are.
    pub fn count(&self) -> usize
        ensures { result ≡ length (functions_of self.now) }
    {
        self.nodes.len()
    }

    /// The function of this number, if there are so many.
    pub fn get(&self, number: usize) -> Option<&'a Node>
        ensures { slice_get (functions_of self.now) number ≡ option_map (λ n. view n.now) result }
    {
        self.nodes.get(number).copied()
    }
}

impl<'a> FunctionDeclaration<'a> {
    /// What a node is made of, if it is a function.
    pub fn of(node: &'a Node) -> Option<FunctionDeclaration<'a>>
        ensures { function_declaration_of (view node.now) ≡ option_map function_declaration_view result }
    {
        match node.kind() {
            Kind::FunctionDeclaration => {
                let signature = node.part(0)?;
                if node.first() < node.last() {
                    Some(FunctionDeclaration {
                        name: node.first() + 1,
                        signature,
                        body: node.part(1),
                    })
                } else {
                    None
                }
            },
            _ => None,
        }
    }
}

/// Puts a declaration behind the others, if it is a function.
fn push_function<'a>(
    declaration: &'a Option<Node>,
    nodes: &mut Vec<&'a Node>,
) -> Result<(), AllocError>
    ensures { OnOk result (seen nodes.new.items ≡ seen nodes.old.items ++ function_here declaration.now) }
{
    if let Some(node) = declaration {
        if matches!(node.kind(), Kind::FunctionDeclaration) {
            nodes.push(node)?;
        }
    }
    Ok(())
}
