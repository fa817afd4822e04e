//! Functions with their types.

ghost use Rattle.std.specs.Prelude.{◌≡◌, IfOk, map, slice_get};
ghost use Rattle.std.specs.Option.{option_map};
ghost use Rattle.go_typed.specs.Funcs.{FuncView, IsTypedFunc, named_at, tree_of};
ghost use Rattle.go_typed.specs.Lists.{statement_lists};
ghost use Rattle.go_typed.specs.Views.{sort_view, view};

use crate::named_local::NamedLocal;
use crate::node::TypedNode;
use crate::node_table::NodeTable;
use crate::sort::Sort;
use go_base::Memory;
use go_types::TypeId;
use std::alloc::Global;
use std::marker::Model;

/// A function with its types.
///
/// Tokens are counted from the first token of the function, and neither spans nor spellings are kept, so nothing here depends on
/// where it stands. The parts of each node lie one after the other inside its range, and all numbers of locals are in range.
#[derive(Debug, Drop)]
pub struct TypedFunc {
    number: u32,
    signature: TypeId,
    parameters: Vec<Option<u32>>,
    locals: Vec<Sort>,
    tokens: Vec<NamedLocal>,
    root: TypedNode,
    table: NodeTable,
}

impl Model for TypedFunc {
    ghost use Rattle.std.specs.Coded.{codes};
    ghost use Rattle.std.specs.Prelude.{map};
    ghost use Rattle.go_typed.specs.contracts.node.TypedNode as e;
    ghost use Rattle.go_typed.specs.Funcs.{FuncView, IsTypedFunc};
    ghost use Rattle.go_typed.specs.NodeTables.{IsNodeTable};
    ghost use Rattle.go_typed.specs.Views.{sort_view};

    ghost Value = { FuncView };

    ghost coded = { Prim.hlevel (codes, e.the_row.coded) };

    ghost view = { λ f. record { number = f.number; signature = f.signature; parameters = f.parameters.items; locals = map sort_view f.locals.items; tokens = f.tokens.items; root = f.root } };

    ghost invariant = { λ f. IsTypedFunc (record { number = f.number; signature = f.signature; parameters = f.parameters.items; locals = map sort_view f.locals.items; tokens = f.tokens.items; root = f.root }) × IsNodeTable f.root f.table };
}

impl TypedFunc {
    /// The function of this number and type, with its locals: which of them each parameter is and each token names, and what
    /// they stand for.
    ///
    /// # Errors
    ///
    /// Want of memory.
    pub fn new(
        alloc: Global,
        number: u32,
        signature: TypeId,
        mut parameters: Vec<Option<u32>>,
        mut locals: Vec<Sort>,
        mut tokens: Vec<NamedLocal>,
        root: TypedNode,
    ) -> Result<TypedFunc, Memory>
        requires { IsTypedFunc (record { number = number; signature = signature; parameters = parameters.items; locals = map sort_view locals.items; tokens = tokens.items; root = root }) }
        ensures { IfOk result (λ f. f ≡ record { number = number; signature = signature; parameters = parameters.items; locals = map sort_view locals.items; tokens = tokens.items; root = root }) }
    {
        parameters.shrink_to_fit();
        locals.shrink_to_fit();
        tokens.shrink_to_fit();
        let table = NodeTable::of(alloc, &root)?;
        Ok(TypedFunc {
            number,
            signature,
            parameters,
            locals,
            tokens,
            root,
            table,
        })
    }

    /// Its number among the functions of the package, from 0, in the order of files and places.
    pub fn number(&self) -> u32
        ensures { result ≡ self.now.number }
    {
        self.number
    }

    /// Its type (Go specification: Function types).
    pub fn signature(&self) -> TypeId
        ensures { result ≡ self.now.signature }
    {
        self.signature
    }

    /// The locals that its parameters are, in order; none for a parameter that is blank or has no name.
    pub fn parameters(&self) -> &[Option<u32>]
        ensures { result.now ≡ self.now.parameters }
    {
        &self.parameters
    }

    /// What its locals stand for, by their numbers in order of declaration.
    pub fn locals(&self) -> &[Sort]
        ensures { map sort_view result.now ≡ self.now.locals }
    {
        &self.locals
    }

    /// Which local each token names, if it names one, inside types too.
    pub fn tokens(&self) -> &[NamedLocal]
        ensures { result.now ≡ self.now.tokens }
    {
        &self.tokens
    }

    /// The local that the token of this number names, if it names one.
    pub fn local_at(&self, token: u32) -> Option<u32>
        ensures { result ≡ named_at self.now.tokens token }
    {
        match self.tokens.get(token as usize) {
            Some(named) => named.local(),
            None => None,
        }
    }

    /// Its statement list of this number, if there are so many; they are numbered from 0, each before those within it and otherwise
    /// in order of place. It costs the way from the function's root to it.
    pub fn list(&self, number: usize) -> Option<&TypedNode>
        ensures { slice_get (statement_lists (tree_of self.now)) number ≡ option_map (λ n. view n.now) result }
    {
        self.table.list(&self.root, number)
    }

    /// Its tree.
    pub fn root(&self) -> &TypedNode
        ensures root { result.now ≡ self.now.root }
        ensures stands { IsTypedFunc self.now }
    {
        &self.root
    }
}
