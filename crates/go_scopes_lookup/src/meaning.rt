//! What names mean.

ghost use Rattle.std.specs.Prelude.{◌≡◌, ◌≤◌, ◌<◌, ◌-◌, ◌^◌, ◌++◌, IfOk, OnOk, length, map};
ghost use Rattle.std.specs.Option.{option_map};
ghost use Rattle.go_tree.specs.Declarations.{is_function};
ghost use Rattle.go_tree.specs.Extents.{lies_inside, extent_of};
ghost use Rattle.go_tree.specs.Imports.{imports_fmt};
ghost use Rattle.go_tree.specs.Meanings.{first_numbers, own_number, behind_shared, numbers_behind, numbered, imported_from, meanings};
ghost use Rattle.go_tree.specs.Objects.{predeclared_object, object_by};
ghost use Rattle.go_scopes_lookup.specs.Views.{unit_view, units_view, found_view, entry_view, meaning_view, numbers_view};

use crate::found::Found;
use crate::unit::{Unit, is_fmt_path};
use go_base::Memory;
use go_scopes_events::predeclared::predeclared_object;
use go_tree::context::{Block, Entity};
use go_tree::event::{Declaration, Event};
use go_tree::object::{Extent, Object};
use std::alloc::{AllocError, Global};

/// A name with a meaning.
#[derive(Clone, Copy)]
pub struct Entry<'a> {
    pub name: &'a [u8],
    pub extent: Extent,
    pub object: Object,
    /// Its declaration, if it isn't imported.
    pub source: Option<Found<'a>>,
}

/// What a name means: one of the entries of a package.
#[derive(Clone, Copy)]
pub struct Meaning<'a> {
    pub entry: &'a Entry<'a>,
}

/// Whether the first extent lies inside the second.
pub fn lies_inside(a: Extent, b: Extent) -> bool
    ensures { result ≡ lies_inside a b }
{
    match (a, b) {
        (_, Extent::Everywhere) => true,
        (Extent::Throughout(m), Extent::Throughout(n)) => m == n,
        (Extent::Between { file: m, .. }, Extent::Throughout(n)) => m == n,
        (Extent::Between { file: m, scope: s }, Extent::Between { file: n, scope: r }) => {
            m == n && r.from <= s.from && s.to <= r.to
        }
        (Extent::Everywhere, _) | (Extent::Throughout(_), Extent::Between { .. }) => false,
    }
}

/// Where a declaration gives its name a meaning.
fn extent_of(d: &Found<'_>) -> Extent
    ensures { result ≡ extent_of (found_view d.now) }
{
    match d.declaration.block {
        Block::Package => Extent::Everywhere,
        Block::Local(_) => Extent::Between {
            file: d.file,
            scope: d.declaration.scope,
        },
    }
}

/// The numbers that come next: of the package's objects, of the functions, and of the locals of the present function.
#[derive(Clone, Copy, Debug)]
struct Numbers {
    shared: usize,
    functions: usize,
    local: usize,
}

impl Numbers {
    /// The object of a declaration in this block.
    fn object(self, block: Block) -> Object
        ensures { result ≡ own_number (numbers_view self) block }
    {
        match block {
            Block::Package => Object::Package(self.shared),
            Block::Local(_) => Object::Local {
                function: self.functions.saturating_sub(1),
                number: self.local,
            },
        }
    }

    /// The numbers behind an object of the package.
    fn behind_shared(self, entity: Entity) -> Numbers
        requires shared { self.shared < 2 ^ 64 - 1 }
        requires functions { self.functions < 2 ^ 64 - 1 }
        ensures { numbers_view result ≡ behind_shared (numbers_view self) (is_function entity) }
    {
        let shared = self.shared + 1;
        match entity {
            Entity::Function => Numbers {
                shared,
                functions: self.functions + 1,
                local: 0,
            },
            Entity::Constant | Entity::Type | Entity::Variable | Entity::Parameter => {
                Numbers { shared, ..self }
            }
        }
    }

    /// The numbers behind the declaration.
    fn behind(self, d: &Declaration) -> Numbers
        requires shared { self.shared < 2 ^ 64 - 1 }
        requires functions { self.functions < 2 ^ 64 - 1 }
        requires local { self.local < 2 ^ 64 - 1 }
        ensures { numbers_view result ≡ numbers_behind (numbers_view self) d.now.entity d.now.block }
    {
        match d.block {
            Block::Package => self.behind_shared(d.entity),
            Block::Local(_) => Numbers {
                local: self.local + 1,
                ..self
            },
        }
    }
}

/// What the declarations mean, behind other meanings.
fn push_numbered<'a>(out: &mut Vec<Entry<'a>>, all: &[Found<'a>]) -> Result<(), AllocError>
    ensures { OnOk result (map entry_view out.new.items ≡ map entry_view out.old.items ++ numbered first_numbers (map found_view all.now)) }
{
    let mut numbers = Numbers {
        shared: 0,
        functions: 0,
        local: 0,
    };
    for d in all {
        out.push(Entry {
            name: d.name(),
            extent: extent_of(d),
            object: numbers.object(d.declaration.block),
            source: Some(*d),
        })?;
        numbers = numbers.behind(d.declaration);
    }
    Ok(())
}

/// Whether the file imports `fmt`.
pub fn imports_fmt(alloc: Global, unit: &Unit<'_>) -> Result<bool, Memory>
    ensures { IfOk result (λ b. b ≡ imports_fmt (unit_view unit.now).tokens (unit_view unit.now).events) }
{
    for event in &unit.events {
        if let Event::Import { path } = event {
            if is_fmt_path(alloc, unit.tokens, *path)? {
                return Ok(true);
            }
        }
    }
    Ok(false)
}

/// What the imports mean.
fn imported<'a>(alloc: Global, units: &[Unit<'_>]) -> Result<Vec<Entry<'a>>, Memory>
    requires { length units.now ≤ 256 }
    ensures { IfOk result (λ v. map entry_view v.items ≡ imported_from 0 (units_view units.now)) }
{
    let mut out = Vec::new(alloc);
    for (file, unit) in units.iter().enumerate() {
        if imports_fmt(alloc, unit)? {
            out.push(Entry {
                name: b"fmt",
                extent: Extent::Throughout(file as u32),
                object: Object::Import,
                source: None,
            })?;
        }
    }
    Ok(out)
}

/// What the imports and the declarations of a package mean.
pub fn entries<'a>(
    alloc: Global,
    units: &[Unit<'_>],
    declarations: &[Found<'a>],
) -> Result<Vec<Entry<'a>>, Memory>
    requires { length units.now ≤ 256 }
    ensures { IfOk result (λ v. map entry_view v.items ≡ imported_from 0 (units_view units.now) ++ numbered first_numbers (map found_view declarations.now)) }
{
    let mut out = imported(alloc, units)?;
    push_numbered(&mut out, declarations)?;
    out.shrink_to_fit();
    Ok(out)
}

/// The meanings that these entries are.
pub fn meanings<'a>(alloc: Global, entries: &'a [Entry<'a>]) -> Result<Vec<Meaning<'a>>, AllocError>
    ensures { IfOk result (λ v. map meaning_view v.items ≡ map entry_view entries.entry.now) }
{
    let mut out = Vec::new(alloc);
    for entry in entries {
        out.push(Meaning { entry })?;
    }
    Ok(out)
}

/// What the name means with this declared meaning, or without one.
pub fn object_by(name: &[u8], meaning: Option<Meaning<'_>>) -> Option<Object>
    ensures { result ≡ object_by name.now (option_map meaning_view meaning.entry) }
{
    match meaning {
        None => predeclared_object(name),
        Some(meaning) => Some(meaning.entry.object),
    }
}
