//! Members: windows with what is read of their functions.

ghost use Rattle.std.specs.Prelude.{◌≡◌, ◌++◌, [], ◌∷◌, Some, map, slice_get, IfOk, OnOk};
ghost use Rattle.std.specs.List.{AllByRecursion};
ghost use Rattle.go_tree.specs.Uses.{functions_among};
ghost use Rattle.go_typed.specs.Funcs.{tree_of};
ghost use Rattle.param_choose.specs.Ends.{ends_of};
ghost use Rattle.go_typed.specs.Views.{views};
ghost use Rattle.param_choose.specs.Members.{first_in, first_token, is_declared_inside, member_over, members_in};
ghost use Rattle.escape_check.specs.Places.{file_in, local_text, place, sources_in, token_place, window_place};
ghost use Rattle.escape_check.specs.Shown.{IsSound, covers_token, member_view, place_view, unnumbered};

use crate::place::{Place, name_text};
use clone_window::run::statements;
use clone_window::span::last_from;
use go_tree::context::Entity;
use go_tree::object::Declared;
use go_typed::checked::Checked;
use go_typed::func::TypedFunc;
use go_typed::node::TypedNode;
use go_typed::window::Window;
use param_choose::later::ends_at;
use param_choose::template::{declared_in, function_at};
use param_choose::variables::{Extent, is_inside};
use std::alloc::{AllocError, Global};

/// A window with what is read of its function.
#[derive(Clone, Copy)]
pub struct Member<'a> {
    pub window: Window,
    pub func: &'a TypedFunc,
    /// Where the locals of the function are declared.
    pub declared: &'a [Declared],
    /// The statements of the window.
    pub statements: &'a [Option<TypedNode>],
    /// The file of the function.
    pub file: u32,
    /// The number of the function's first token in the file.
    pub first: u32,
    /// The number of the window's first token, counted from that one.
    pub from: u32,
    /// The number of the token behind its last one, counted so too.
    pub upto: u32,
    /// For each local of the function the number behind the last token that names it, counted so too; 0 where none does.
    pub ends: &'a [usize],
}

/// The windows whose functions the package has. The rows say for each function where its locals occur last. Each declaration of the
/// package block is looked at once, and each window.
///
/// # Errors
///
/// Want of memory.
#[tactic(auto, using(crate::proofs::Members::member_there, crate::proofs::Members::member_missing, crate::proofs::Members::sound_more))]
pub fn members_of<'a>(
    alloc: Global,
    checked: &'a Checked,
    ends: &'a [Vec<usize>],
    windows: &[Window],
) -> Result<Vec<Member<'a>>, AllocError>
    requires { map (λ row. row.items) ends.now ≡ map ends_of checked.now.functions }
    ensures members { IfOk result (λ v. map member_view v.items ≡ map unnumbered (members_in checked.now windows.now)) }
    ensures sound { IfOk result (λ v. AllByRecursion (IsSound checked.entry.now) v.items) }
{
    let functions = functions_of(alloc, checked.uses().package_objects())?;
    let mut members = Vec::new(alloc);
    for window in windows {
        if let Some(func) = checked.function(window.func) {
            let object = function_in(&functions, window.func);
            members.push(member_at(checked, ends, object, func, *window))?;
        }
    }
    Ok(members)
}

/// A window of a function of the package.
pub fn member_of<'a>(
    checked: &'a Checked,
    ends: &'a [Vec<usize>],
    func: &'a TypedFunc,
    window: Window,
) -> Member<'a>
    requires ends { map (λ row. row.items) ends.now ≡ map ends_of checked.now.functions }
    requires function { slice_get checked.now.functions window.func ≡ Some func.now }
    ensures window { result.window ≡ window }
    ensures func { result.func.now ≡ func.entry.now }
    ensures shown { member_view result ≡ unnumbered (member_over checked.entry.now.uses window func.entry.now.locals func.entry.now.tokens (tree_of func.entry.now)) }
    ensures sound { IsSound checked.entry.now result }
{
    let object = function_at(checked.uses().package_objects(), window.func);
    member_at(checked, ends, object, func, window)
}

/// The same, where it is known where the function is declared.
fn member_at<'a>(
    checked: &'a Checked,
    ends: &'a [Vec<usize>],
    object: Option<Declared>,
    func: &'a TypedFunc,
    window: Window,
) -> Member<'a>
    requires ends { map (λ row. row.items) ends.now ≡ map ends_of checked.now.functions }
    requires object { object ≡ slice_get (functions_among checked.now.uses.package_level) window.func }
    requires function { slice_get checked.now.functions window.func ≡ Some func.now }
    ensures window { result.window ≡ window }
    ensures func { result.func.now ≡ func.entry.now }
    ensures shown { member_view result ≡ unnumbered (member_over checked.entry.now.uses window func.entry.now.locals func.entry.now.tokens (tree_of func.entry.now)) }
    ensures sound { IsSound checked.entry.now result }
{
    let statements = statements(func, &window);
    let uses = checked.uses();
    Member {
        window,
        func,
        declared: declared_in(uses, window.func),
        statements,
        file: file_in(object),
        first: first_token(object),
        from: first_in(statements),
        upto: last_from(0, statements),
        ends: ends_at(ends, window.func),
    }
}

/// The file of a function; the first one where there is no such function.
fn file_in(function: Option<Declared>) -> u32
    ensures { result ≡ file_in function }
{
    match function {
        Some(declared) => declared.file,
        None => 0,
    }
}

/// The number of a function's first token in its file: a function is named behind it (Go specification: Function declarations).
fn first_token(function: Option<Declared>) -> u32
    ensures { result ≡ first_token function }
{
    match function {
        Some(declared) => declared.name.saturating_sub(1),
        None => 0,
    }
}

/// The first token of statements; 0 where the first one is not there.
fn first_in(statements: &[Option<TypedNode>]) -> u32
    ensures { result ≡ first_in (views statements.now) }
{
    match statements {
        [Some(first), ..] => first.first,
        _ => 0,
    }
}

/// The functions of the package, in order.
fn functions_of(alloc: Global, objects: &[Declared]) -> Result<Vec<Declared>, AllocError>
    ensures { IfOk result (λ v. v.items ≡ functions_among objects.now) }
{
    let mut functions = Vec::new(alloc);
    for object in objects {
        push_function(*object, &mut functions)?;
    }
    Ok(functions)
}

/// Puts an object behind the others, if it is a function.
fn push_function(object: Declared, functions: &mut Vec<Declared>) -> Result<(), AllocError>
    ensures { OnOk result (functions.new.items ≡ functions.old.items ++ functions_among (object ∷ [])) }
{
    if matches!(object.entity, Entity::Function) {
        functions.push(object)?;
    }
    Ok(())
}

/// The function of a number among functions, if there are so many.
fn function_in(functions: &[Declared], number: u32) -> Option<Declared>
    ensures { result ≡ slice_get functions.now number }
{
    functions.get(number as usize).copied()
}

impl Member<'_> {
    /// So many tokens of its function.
    pub fn place(&self, checked: &Checked, from: u32, upto: u32) -> Place
        requires { IsSound checked.now self.now }
        ensures { place_view result ≡ place (sources_in checked.now) (member_view self.now) from upto }
    {
        let first = u64::from(self.first);
        Place {
            file: self.file,
            from: first + u64::from(from),
            upto: first + u64::from(upto),
        }
    }

    /// One of these tokens.
    pub(crate) fn token_place(&self, checked: &Checked, token: u32) -> Place
        requires { IsSound checked.now self.now }
        ensures { place_view result ≡ token_place (sources_in checked.now) (member_view self.now) token }
    {
        let from = u64::from(self.first) + u64::from(token);
        Place {
            file: self.file,
            from,
            upto: from + 1,
        }
    }

    /// The place of its window.
    pub fn window_place(&self, checked: &Checked) -> Place
        requires { IsSound checked.now self.now }
        ensures { place_view result ≡ window_place (sources_in checked.now) (member_view self.now) }
    {
        self.place(checked, self.from, self.upto)
    }

    /// Whether a local is declared in its window.
    pub(crate) fn is_inside(&self, local: u32) -> bool
        ensures { result ≡ is_declared_inside (member_view self.now) local }
    {
        is_inside(self.declared, self.extent(), local)
    }

    /// Whether a token of a file is one of its window.
    pub(crate) fn has_token(&self, file: u32, token: u64) -> bool
        ensures { result ≡ covers_token file token self.now }
    {
        let first = u64::from(self.first);
        file == self.file
            && first + u64::from(self.from) <= token
            && token < first + u64::from(self.upto)
    }

    /// Where its window stands.
    pub(crate) fn extent(&self) -> Extent
        ensures first { result.first ≡ self.now.first }
        ensures from { result.from ≡ self.now.from }
        ensures upto { result.upto ≡ self.now.upto }
    {
        Extent {
            first: self.first,
            from: self.from,
            upto: self.upto,
            start: 0,
        }
    }

    /// The name of a local of its function; none where there is no such local.
    pub fn local_text<'c>(&self, checked: &'c Checked, local: u32) -> &'c [u8]
        ensures { result.now ≡ local_text (sources_in checked.entry.now) (member_view self.now) local }
    {
        match self.declared.get(local as usize) {
            Some(declared) => name_text(checked, *declared),
            None => &[],
        }
    }
}
