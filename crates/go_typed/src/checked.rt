//! Packages that type-check.

ghost use Rattle.std.specs.Prelude.{◌≡◌, map, slice_get};
ghost use Rattle.std.specs.Option.{option_map};
ghost use Rattle.go_typed.specs.Packages.{PackageView, IsPackage};

use crate::env::Env;
use crate::func::TypedFunc;
use crate::node::TypedNode;
use crate::origin::Origin;
use go_base::Name;
use go_tree::file::File;
use go_tree::uses::Uses;
use go_types::Types;
use std::marker::Model;

/// A package that type-checks: its files, what its names mean, its types, and its functions with their types.
///
/// All numbers are in range, and functions have their places in the order of files as numbers.
#[derive(Drop)]
pub struct Checked {
    names: Vec<Name>,
    files: Vec<File>,
    uses: Uses,
    types: Types,
    origins: Vec<Origin>,
    env: Env,
    variables: Vec<TypedNode>,
    functions: Vec<TypedFunc>,
}

impl Model for Checked {
    ghost use Rattle.std.specs.Coded.{codes};
    ghost use Rattle.go_tree.specs.contracts.node.Node as n;
    ghost use Rattle.go_typed.specs.contracts.node.TypedNode as e;
    ghost use Rattle.go_typed.specs.Packages.{PackageView, IsPackage};

    ghost Value = { PackageView };

    ghost coded = { Prim.hlevel (codes, n.the_row.coded, e.the_row.coded) };

    ghost view = { λ c. record { names = c.names.items; files = c.files.items; uses = c.uses; types = c.types; origins = c.origins.items; env = c.env; variables = c.variables.items; functions = c.functions.items } };

    ghost invariant = { λ c. IsPackage (record { names = c.names.items; files = c.files.items; uses = c.uses; types = c.types; origins = c.origins.items; env = c.env; variables = c.variables.items; functions = c.functions.items }) };
}

impl Checked {
    /// The package of these parts: its files in order with their names, what its names mean, its types and where each declared
    /// one stands, what its objects stand for, the specifications of its variables, and its functions.
    pub fn new(
        names: Vec<Name>,
        files: Vec<File>,
        uses: Uses,
        types: Types,
        origins: Vec<Origin>,
        env: Env,
        variables: Vec<TypedNode>,
        functions: Vec<TypedFunc>,
    ) -> Checked
        requires { IsPackage (record { names = names.items; files = files.items; uses = uses; types = types; origins = origins.items; env = env; variables = variables.items; functions = functions.items }) }
        ensures { result ≡ record { names = names.items; files = files.items; uses = uses; types = types; origins = origins.items; env = env; variables = variables.items; functions = functions.items } }
    {
        Checked {
            names,
            files,
            uses,
            types,
            origins,
            env,
            variables,
            functions,
        }
    }

    /// The names of its files, in order.
    pub fn names(&self) -> &[Name]
        ensures { result.now ≡ self.now.names }
    {
        &self.names
    }

    /// Its files, in the order of their names.
    pub fn files(&self) -> &[File]
        ensures { result.now ≡ self.now.files }
    {
        &self.files
    }

    /// What its names mean.
    pub fn uses(&self) -> &Uses
        ensures { result.now ≡ self.now.uses }
    {
        &self.uses
    }

    /// Its types. Further ones may be added that nothing names.
    pub fn types(&self) -> &Types
        ensures types { result.now ≡ self.now.types }
        ensures stands { IsPackage self.now }
    {
        &self.types
    }

    /// Where each declared type stands, by its number.
    pub fn origins(&self) -> &[Origin]
        ensures { result.now ≡ self.now.origins }
    {
        &self.origins
    }

    /// What its objects stand for.
    pub fn env(&self) -> &Env
        ensures { result.now ≡ self.now.env }
    {
        &self.env
    }

    /// The specifications of its variables, in the order of files and places (Go specification: Variable declarations).
    pub fn variables(&self) -> &[TypedNode]
        ensures { result.now ≡ self.now.variables }
    {
        &self.variables
    }

    /// Its functions, with a body or without, in the order of files and places.
    pub fn functions(&self) -> &[TypedFunc]
        ensures { result.now ≡ self.now.functions }
    {
        &self.functions
    }

    /// The function of this number, if there are so many.
    pub fn function(&self, number: u32) -> Option<&TypedFunc>
        ensures { slice_get self.now.functions number ≡ option_map (λ f. f.now) result }
    {
        self.functions.get(number as usize)
    }
}
