//! Names that mean something else at a site, or that a declared result hides there.

ghost use Rattle.std.specs.Prelude.{◌≡◌, ◌<◌, ◌+◌, ◌++◌, ◌||◌, ℕ, List, Bool, true, false, Some, None, length, map, slice_get, IfOk, OnOk};
ghost use Rattle.std.specs.List.{AllByRecursion, list_any};
ghost use Rattle.std.specs.Option.{option_map, option_to_list};
ghost use Rattle.clone_window.specs.Sameness.{value_of};
ghost use Rattle.go_tree.specs.Meanings.{meanings};
ghost use Rattle.go_scopes.specs.Resolve.{units_of};
ghost use Rattle.go_scopes_named.specs.Named.{IsNamed, all_meanings};
ghost use Rattle.go_typed.specs.Views.{sort_view};
ghost use Rattle.param_choose.specs.Holes as chosen;
ghost use Rattle.param_choose.specs.Locals.{variable_at};
ghost use Rattle.param_choose.specs.Members.{Member as Chosen};
ghost use Rattle.param_choose.specs.Shown.{hole_view, holes_view};
ghost use Rattle.escape_check.specs.Places.{local_text, sources_in};
ghost use Rattle.escape_check.specs.Shown.{IsSound, member_view};
ghost use Rattle.escape_check.specs.Texts.{AreTexts};
ghost use Rattle.escape_check.specs.Types as specs;
ghost use Rattle.escape_check.specs.Collecting.{names_of_type, names_of_types};
ghost use Rattle.escape_check.specs.Sites.{KnowsSite, is_value, truth_named, truths_named};
ghost use Rattle.escape_check.specs.Written.{later_in, type_name_view, written_at};

use crate::hidden_names::{HiddenNames, names_hidden_in};
use crate::member::Member;
use crate::place::Place;
use crate::results::{Declared, later_among};
use crate::rule::MemberRule;
use crate::type_names::{TypeName, type_object};
use go_base::Memory;
use go_constants::Const;
use go_scopes_named::by_name::Named;
use go_tree::object::Object;
use go_typed::checked::Checked;
use go_typed::func::TypedFunc;
use go_typed::sort::Sort;
use go_types::TypeId;
use param_choose::holes::{Hole, holes_of};
use std::alloc::{AllocError, Global};
use std::collections::{HashMap, HashSet};

/// At a window's start a type's name, `true` or `false` doesn't mean what is needed, or is a declared result itself.
#[derive(Clone, Copy)]
pub(crate) struct HiddenAtSite<'a> {
    pub declared: Declared<'a>,
    /// The numbers of the template's holes that are parameters among its holes.
    pub holes: &'a [u32],
    /// What names mean at any token.
    pub named: &'a Named<'a>,
    /// Where in the files of members the names in the types of the template's results are hidden.
    pub hidden: &'a HashMap<(u32, TypeId), HiddenNames<'a>>,
}

impl MemberRule for HiddenAtSite<'_> {
    ghost use Rattle.escape_check.specs.Sites.{KnowsSite};
    ghost use Rattle.escape_check.specs.Written.{hidden_by};

    ghost places = { λ rule p m. hidden_by p rule.declared rule.holes.now m };

    ghost knows = { λ rule p. KnowsSite rule p };

    fn place(
        &self,
        alloc: Global,
        checked: &Checked,
        member: &Member<'_>,
    ) -> Result<Option<Place>, Memory> {
        if self.hides(alloc, checked, member)? {
            return Ok(Some(member.window_place(checked)));
        }
        Ok(None)
    }
}

impl HiddenAtSite<'_> {
    /// Whether a name that is written at a member's site is hidden there: one in the types of its results that occur later, or `true` or
    /// `false` among its holes that are parameters.
    fn hides(&self, alloc: Global, checked: &Checked, member: &Member<'_>) -> Result<bool, Memory>
        requires knows { KnowsSite self.now checked.now }
        requires sound { IsSound checked.now member.now }
        ensures { IfOk result (λ b. b ≡ list_any (specs.is_hidden (sources_in checked.now) (member_view member.now) (later_in self.now.declared (member_view member.now)))
            (written_at checked.now self.now.declared self.now.holes.now (member_view member.now))) }
    {
        let results = self.declared.in_member(alloc, member)?;
        let later = later_among(alloc, member, &results)?;
        let texts = texts_of(alloc, checked, member, &later)?;
        let types = types_of(alloc, member, &later)?;
        // The types of locals are in the package's own table.
        let _ = checked.types();
        if self.hides_any(alloc, checked, member, &texts, &types)? {
            return Ok(true);
        }
        let truths = truths_of(alloc, &holes_of(alloc, member.statements)?, self.holes)?;
        any_hidden(checked, self.named, member, &texts, &truths)
    }

    /// Whether a name in one of some types is hidden at a member's start, where the texts are the names of its results. Each type is looked
    /// at once.
    fn hides_any(
        &self,
        alloc: Global,
        checked: &Checked,
        member: &Member<'_>,
        texts: &HashSet<&[u8]>,
        types: &[TypeId],
    ) -> Result<bool, Memory>
        requires knows { KnowsSite self.now checked.now }
        requires sound { IsSound checked.now member.now }
        requires below { AllByRecursion (λ t. t < length checked.now.types.shapes) types.now }
        ensures { (locals : List ℕ) → AreTexts texts.now (map (local_text (sources_in checked.now) (member_view member.now)) locals)
            → IfOk result (λ b. b ≡ list_any (specs.is_hidden (sources_in checked.now) (member_view member.now) locals) (names_of_types checked.now types.now)) }
    {
        let mut passed = HashSet::new(alloc);
        for of in types {
            if !passed.contains(of) {
                if self.hides_one(alloc, checked, member, texts, *of)? {
                    return Ok(true);
                }
                passed.insert(*of)?;
            }
        }
        Ok(false)
    }

    /// Whether a name in a type is hidden so.
    fn hides_one(
        &self,
        alloc: Global,
        checked: &Checked,
        member: &Member<'_>,
        texts: &HashSet<&[u8]>,
        of: TypeId,
    ) -> Result<bool, Memory>
        requires knows { KnowsSite self.now checked.now }
        requires sound { IsSound checked.now member.now }
        requires below { of < length checked.now.types.shapes }
        ensures { (locals : List ℕ) → AreTexts texts.now (map (local_text (sources_in checked.now) (member_view member.now)) locals)
            → IfOk result (λ b. b ≡ list_any (specs.is_hidden (sources_in checked.now) (member_view member.now) locals) (names_of_type checked.now of)) }
    {
        let Some(token) = member.first.checked_add(member.from) else {
            return Err(Memory);
        };
        if let Some(names) = self.hidden.get(&(member.file, of)) {
            return Ok(names.hides(texts, token));
        }
        let names = names_hidden_in(alloc, checked, self.named, member.file, of)?;
        Ok(names.hides(texts, token))
    }
}

/// The types of those of some locals that are variables.
fn types_of(alloc: Global, member: &Member<'_>, locals: &[u32]) -> Result<Vec<TypeId>, AllocError>
    ensures { IfOk result (λ v. v.items ≡ specs.local_types (member_view member.now) locals.now) }
{
    let mut types = Vec::new(alloc);
    for local in locals {
        push_type(member.func, *local, &mut types)?;
    }
    Ok(types)
}

/// Puts the type of a local behind the others, if it is a variable.
fn push_type(func: &TypedFunc, local: u32, types: &mut Vec<TypeId>) -> Result<(), AllocError>
    ensures { OnOk result (types.new.items ≡ types.old.items ++ specs.variable_types (variable_at func.now.locals local)) }
{
    if let Some(ty) = type_at(func, local) {
        types.push(ty)?;
    }
    Ok(())
}

/// The type of the local of this number, if it is a variable.
fn type_at(func: &TypedFunc, local: u32) -> Option<TypeId>
    ensures { option_to_list result ≡ specs.variable_types (variable_at func.now.locals local) }
{
    match func.locals().get(local as usize) {
        Some(Sort::Value(ty)) => Some(*ty),
        _ => None,
    }
}

/// The names of the truth values among holes of these numbers, each once.
fn truths_of(
    alloc: Global,
    holes: &[Hole<'_>],
    numbers: &[u32],
) -> Result<Vec<TypeName<'static>>, AllocError>
    ensures { (m : Chosen ℕ) (test : specs.TypeName → Bool) → holes_view holes.now ≡ chosen.holes m → IfOk result (λ v. list_any test (map type_name_view v.items) ≡ list_any test (specs.needed_truths numbers.now m)) }
{
    let mut found = Truths {
        yes: false,
        no: false,
    };
    for number in numbers {
        found = found.with(truth_at(hole_at(holes, *number)));
    }
    found.names(alloc)
}

/// Which truth values there are.
#[derive(Clone, Copy)]
struct Truths {
    yes: bool,
    no: bool,
}

impl Truths {
    /// One more.
    fn with(self, truth: Option<bool>) -> Truths
        ensures yes { result.yes ≡ (self.yes || is_value true truth) }
        ensures no { result.no ≡ (self.no || is_value false truth) }
    {
        match truth {
            Some(true) => Truths {
                yes: true,
                no: self.no,
            },
            Some(false) => Truths {
                yes: self.yes,
                no: true,
            },
            None => self,
        }
    }

    /// Their names.
    fn names(self, alloc: Global) -> Result<Vec<TypeName<'static>>, AllocError>
        ensures { IfOk result (λ v. map type_name_view v.items ≡ truths_named self) }
    {
        let mut names = Vec::new(alloc);
        if self.yes {
            names.push(predeclared(b"true"))?;
        }
        if self.no {
            names.push(predeclared(b"false"))?;
        }
        Ok(names)
    }
}

/// The hole of a number, if there is one.
fn hole_at<'h, 'a>(holes: &'h [Hole<'a>], number: u32) -> Option<&'h Hole<'a>>
    ensures { slice_get holes.entry.now number ≡ option_map (λ h. h.now) result }
{
    holes.get(number as usize)
}

/// The truth value for which a hole stands, if there is a hole and it stands for one.
fn truth_at(hole: Option<&Hole<'_>>) -> Option<bool>
    ensures { truth_named result ≡ specs.truth_at (option_map hole_view (option_map (λ h. h.now) hole.entry)) }
{
    match hole {
        Some(hole) => truth_in(hole.sort),
        None => None,
    }
}

/// The truth value that is a constant (Go specification: Boolean types).
fn truth_in(sort: &Sort) -> Option<bool>
    ensures { truth_named result ≡ specs.truth_in (value_of (sort_view sort.now)) }
{
    match sort {
        Sort::Constant(_, value) => truth_of(value.get()),
        Sort::OpenConstant(value) => truth_of(value.get()),
        _ => None,
    }
}

fn truth_of(value: &Const) -> Option<bool>
    ensures { truth_named result ≡ specs.truth_in (Some value.now) }
{
    match value {
        Const::Bool(truth) => Some(*truth),
        _ => None,
    }
}

/// A name that has to mean what is predeclared.
fn predeclared(name: &'static [u8]) -> TypeName<'static>
    ensures { type_name_view result ≡ record { name = name.now; type = None } }
{
    TypeName { name, number: None }
}

/// The names of some locals of a member's function.
fn texts_of<'c>(
    alloc: Global,
    checked: &'c Checked,
    member: &Member<'_>,
    locals: &[u32],
) -> Result<HashSet<&'c [u8]>, AllocError>
    ensures { IfOk result (λ texts. AreTexts texts (map (local_text (sources_in checked.entry.now) (member_view member.now)) locals.now)) }
{
    let mut texts = HashSet::new(alloc);
    for local in locals {
        texts.insert(member.local_text(checked, *local))?;
    }
    Ok(texts)
}

/// Whether one of the names is hidden at a member's start, where the texts are the names of its results.
fn any_hidden(
    checked: &Checked,
    named: &Named<'_>,
    member: &Member<'_>,
    texts: &HashSet<&[u8]>,
    names: &[TypeName<'_>],
) -> Result<bool, Memory>
    requires named { IsNamed named.now }
    requires meanings { all_meanings named.now ≡ meanings (units_of checked.now.files) }
    requires sound { IsSound checked.now member.now }
    ensures { (locals : List ℕ) → AreTexts texts.now (map (local_text (sources_in checked.now) (member_view member.now)) locals)
        → IfOk result (λ b. b ≡ list_any (specs.is_hidden (sources_in checked.now) (member_view member.now) locals) (map type_name_view names.now)) }
{
    let Some(token) = member.first.checked_add(member.from) else {
        return Err(Memory);
    };
    for name in names {
        if is_hidden(checked, named, member, token, texts, name) {
            return Ok(true);
        }
    }
    Ok(false)
}

/// Whether a name is hidden at this token of a member's file, with which the member starts. The texts are the names of its results.
fn is_hidden(
    checked: &Checked,
    named: &Named<'_>,
    member: &Member<'_>,
    token: u32,
    texts: &HashSet<&[u8]>,
    name: &TypeName<'_>,
) -> bool
    requires named { IsNamed named.now }
    requires meanings { all_meanings named.now ≡ meanings (units_of checked.now.files) }
    requires sound { IsSound checked.now member.now }
    requires start { token ≡ member.now.first + member.now.from }
    ensures { (locals : List ℕ) → AreTexts texts.now (map (local_text (sources_in checked.now) (member_view member.now)) locals)
        → result ≡ specs.is_hidden (sources_in checked.now) (member_view member.now) locals (type_name_view name.now) }
{
    let object = named.object_at(member.file, token, name.name);
    texts.contains(&name.name) || !means_type(checked, object, name.number)
}

/// Whether an object is the one that a name in a written type has to mean.
pub(crate) fn means_type(checked: &Checked, object: Option<Object>, number: Option<u64>) -> bool
    ensures { result ≡ specs.means_type (sources_in checked.now) object number }
{
    match number {
        Some(number) => same_object(object, type_object(checked, number)),
        None => matches!(object, Some(Object::Predeclared(_))),
    }
}

/// Whether both are one object of the package or of a function.
fn same_object(a: Option<Object>, b: Option<Object>) -> bool
    ensures { result ≡ specs.same_object a b }
{
    match (a, b) {
        (Some(Object::Package(m)), Some(Object::Package(n))) => m == n,
        (
            Some(
                Object::Local {
                    function: f,
                    number: m,
                },
            ),
            Some(
                Object::Local {
                    function: g,
                    number: n,
                },
            ),
        ) => f == g && m == n,
        _ => false,
    }
}
