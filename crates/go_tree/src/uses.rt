//! What the names of a package mean, by token.

ghost use Rattle.std.specs.Prelude.{◌≡◌, true, Some, is_some, length, map, slice_get};
ghost use Rattle.std.specs.Option.{option_map};
ghost use Rattle.go_tree.specs.declared.object.Declared.{Declared};
ghost use Rattle.go_tree.specs.declared.object.Object.{Object};
ghost use Rattle.go_tree.specs.Uses.{object_of, object_in, local_of, declared_as, has_declaration, may_mean, are_in_order, IsComplete};

use crate::meant::Meant;
use crate::object::{Declared, Object};
use std::marker::Model;

/// What each name of a package means, and where the objects of the package and of its functions are declared.
///
/// It is a table by token, so each answer takes constant time. Each object of the package or of a function that a token means
/// has a declaration under its number, and the token that declares it has it as its object. Objects are numbered in the order of
/// files and places, and a local is meant in its scope alone.
#[derive(Debug, Drop)]
pub struct Uses {
    objects: Vec<Vec<Meant>>,
    package_level: Vec<Declared>,
    locals: Vec<Vec<Declared>>,
}

impl Model for Uses {
    ghost use Rattle.std.specs.Prelude.{map};
    ghost use Rattle.go_tree.specs.Uses.{UsesView, IsComplete};

    ghost Value = { UsesView };

    ghost view = { λ u. record { objects = map (λ v. v.items) u.objects.items; package_level = u.package_level.items; locals = map (λ v. v.items) u.locals.items } };

    ghost invariant = { λ u. IsComplete (record { objects = map (λ v. v.items) u.objects.items; package_level = u.package_level.items; locals = map (λ v. v.items) u.locals.items }) };
}

impl Uses {
    /// The objects of the tokens of each file, those of the package, and the locals of each function.
    pub fn new(
        objects: Vec<Vec<Meant>>,
        package_level: Vec<Declared>,
        locals: Vec<Vec<Declared>>,
    ) -> Uses
        requires { IsComplete (record { objects = map (λ v. v.items) objects.items; package_level = package_level.items; locals = map (λ v. v.items) locals.items }) }
        ensures { result ≡ record { objects = map (λ v. v.items) objects.items; package_level = package_level.items; locals = map (λ v. v.items) locals.items } }
    {
        Uses {
            objects,
            package_level,
            locals,
        }
    }

    /// How many files there are.
    pub fn files(&self) -> usize
        ensures { result ≡ length self.now.objects }
    {
        self.objects.len()
    }

    /// What the token of this number means in the file of this number; each is counted from 0.
    pub fn object(&self, file: usize, token: usize) -> Option<Object>
        ensures object { result ≡ object_of self.now file token }
        ensures declared { (o : Object) → result ≡ Some o → is_some (declared_as self.now o) ≡ has_declaration o }
        ensures complete { IsComplete self.now }
        ensures scope { (o : Object) (d : Declared) → result ≡ Some o → declared_as self.now o ≡ Some d → may_mean d.block d file token ≡ true }
    {
        object_in(&self.objects, file, token)
    }

    /// Where the object is declared; none for what no file declares, and for a number that there isn't.
    pub fn declaration(&self, object: Object) -> Option<Declared>
        ensures { result ≡ declared_as self.now object }
    {
        match object {
            Object::Package(number) => self.package_object(number),
            Object::Local { function, number } => self.local(function, number),
            Object::Import | Object::Predeclared(_) => None,
        }
    }

    /// The objects of the package, in order of files and places.
    pub fn package_objects(&self) -> &[Declared]
        ensures objects { result.now ≡ self.now.package_level }
        ensures order { are_in_order result.now ≡ true }
    {
        &self.package_level
    }

    /// The object of the package of this number, if there are so many: that of `Object::Package(number)`.
    pub fn package_object(&self, number: usize) -> Option<Declared>
        ensures { result ≡ slice_get self.now.package_level number }
    {
        self.package_level.get(number).copied()
    }

    /// How many functions there are.
    pub fn functions(&self) -> usize
        ensures { result ≡ length self.now.locals }
    {
        self.locals.len()
    }

    /// The locals of the function of this number in the order of declaration, if there are so many functions.
    pub fn locals(&self, function: usize) -> Option<&[Declared]>
        ensures { option_map (λ ds. ds.now) result ≡ slice_get self.now.locals function }
    {
        match self.locals.get(function) {
            None => None,
            Some(locals) => Some(locals),
        }
    }

    /// The local of this number of the function of this number, if there are so many: that of
    /// `Object::Local { function, number }`.
    pub fn local(&self, function: usize, number: usize) -> Option<Declared>
        ensures { result ≡ local_of self.now function number }
    {
        self.locals.get(function)?.get(number).copied()
    }
}

/// The object of a token, in a table by file and token.
fn object_in(objects: &[Vec<Meant>], file: usize, token: usize) -> Option<Object>
    ensures { result ≡ object_in (slice_get (map (λ v. v.items) objects.now) file) token }
{
    let tokens = objects.get(file)?;
    tokens.get(token)?.object()
}
