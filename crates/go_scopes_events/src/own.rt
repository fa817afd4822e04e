//! What a node tells by itself.

ghost use Rattle.std.specs.Prelude.{◌≡◌, ◌<◌, ◌++◌, ◌∷◌, [], IfOk, OnOk, false, true};
ghost use Rattle.go_grammar.specs.Trees.{kind_of, first, last, parts};
ghost use Rattle.go_tree.specs.Views.{view, views};
ghost use Rattle.go_tree.specs.declared.event.Event.TheVariants as event;
ghost use Rattle.go_tree.specs.Shortened.{is_looked_up};
ghost use Rattle.go_tree.specs.Events.{declared, used, parameter_declared, parameter_events, name_events, function_declared, function_events, declaration_events, type_declared, misplaced, is_default, default_events, second_defaults, own_events, statement_events};

use crate::enter::{has_part, scope_from};
use go_grammar::kind::{Kind, Sort};
use go_tree::context::{Block, Context, Entity, Manner, Naming, Role, Scope};
use go_tree::event::{Declaration, Event, Member, Use};
use go_tree::lookup::{LookupRole, LookupSite};
use go_tree::node::Node;
use std::alloc::AllocError;

/// Puts an event behind the others.
fn push(event: Event, out: &mut Vec<Event>) -> Result<(), AllocError>
    ensures { OnOk result (out.new.items ≡ out.old.items ++ event ∷ []) }
{
    out.push(event)?;
    Ok(())
}

/// A field, key or parameter of a group.
fn member(member: Member, group: u32, name: u32) -> Event
    ensures { result ≡ event.Member member group name }
{
    Event::Member {
        member,
        group,
        name,
    }
}

/// The number of a column in 32 bits; a larger one counts as want of memory.
fn short_column(column: usize) -> Result<u32, AllocError>
    ensures { IfOk result (λ n. n ≡ column) }
{
    u32::try_from(column).map_err(|_| AllocError)
}

/// The declaration of a name.
fn declared(context: &Context, name: u32, naming: Naming) -> Result<Event, AllocError>
    ensures { IfOk result (λ e. e ≡ declared context.now name naming) }
{
    Ok(Event::Declaration(Declaration {
        name,
        entity: naming.entity,
        manner: naming.manner,
        block: context.block,
        scope: naming.scope,
        statement: naming.statement,
        source: naming.source,
        column: short_column(context.column)?,
    }))
}

/// The use of a name, which is looked up.
fn used(context: &Context, name: u32) -> Result<Event, AllocError>
    requires { is_looked_up context.now.role ≡ true }
    ensures { IfOk result (λ e. e ≡ used context.now name) }
{
    Ok(Event::Use(Use {
        name,
        role: LookupRole::of(context.role),
        site: LookupSite::of(context.site).ok_or(AllocError)?,
        constant: context.constant,
        initial: context.initial,
    }))
}

/// The declaration of a parameter: in the block of the body.
fn parameter_declared(name: u32, scope: Scope) -> Event
    ensures { result ≡ parameter_declared name scope }
{
    Event::Declaration(Declaration {
        name,
        entity: Entity::Parameter,
        manner: Manner::Declared,
        block: Block::Local(scope.from),
        scope,
        statement: name,
        source: None,
        column: 0,
    })
}

/// Puts what a parameter's name tells behind the others.
fn push_parameter(
    group: u32,
    name: u32,
    scope: Option<Scope>,
    out: &mut Vec<Event>,
) -> Result<(), AllocError>
    ensures { OnOk result (out.new.items ≡ out.old.items ++ parameter_events group name scope) }
{
    push(member(Member::Parameter, group, name), out)?;
    match scope {
        Some(scope) => push(parameter_declared(name, scope), out),
        None => Ok(()),
    }
}

/// Puts what a name tells behind the others, by what it is for.
fn push_name(context: &Context, name: u32, out: &mut Vec<Event>) -> Result<(), AllocError>
    ensures { OnOk result (out.new.items ≡ out.old.items ++ name_events context.now name context.now.role) }
{
    match context.role {
        Role::New(naming) => push(declared(context, name, naming)?, out),
        Role::Field { group } => push(member(Member::Field, group, name), out),
        Role::Key { group } => push(member(Member::Key, group, name), out),
        Role::Parameter { group, scope } => push_parameter(group, name, scope, out),
        Role::Operand | Role::Assigned | Role::Called | Role::Selected { .. } => {
            push(used(context, name)?, out)
        }
    }
}

/// The declaration of a function: its name is the token behind the first one, and it is in scope in the whole package.
fn function_declared(first: u32, last: u32) -> Event
    requires { first < last }
    ensures { result ≡ function_declared first last }
{
    Event::Declaration(Declaration {
        name: first + 1,
        entity: Entity::Function,
        manner: Manner::Declared,
        block: Block::Package,
        scope: Scope {
            from: first,
            to: last,
        },
        statement: first,
        source: Some(first),
        column: 0,
    })
}

/// Puts what a function tells behind the others.
fn push_function(first: u32, last: u32, body: bool, out: &mut Vec<Event>) -> Result<(), AllocError>
    requires { first < last }
    ensures { OnOk result (out.new.items ≡ out.old.items ++ function_events first last body) }
{
    push(function_declared(first, last), out)?;
    if body {
        return Ok(());
    }
    push(Event::Bodiless { first, last }, out)
}

/// Puts what a function with tokens tells behind the others.
fn push_function_of(node: &Node, out: &mut Vec<Event>) -> Result<(), AllocError>
    ensures { OnOk result (out.new.items ≡ out.old.items ++ declaration_events (first (view node.now)) (last (view node.now)) (parts (view node.now))) }
{
    let first = node.first();
    let last = node.last();
    if first < last {
        push_function(first, last, has_part(node, 1), out)
    } else {
        Ok(())
    }
}

/// The declaration of a local type: it is in scope from its name on.
fn type_declared(context: &Context, first: u32) -> Event
    ensures { result ≡ type_declared context.now first }
{
    Event::Declaration(Declaration {
        name: first,
        entity: Entity::Type,
        manner: Manner::Declared,
        block: context.block,
        scope: scope_from(context, first),
        statement: first,
        source: Some(first),
        column: 0,
    })
}

/// Puts a statement behind the others, if it may not stand here.
fn push_misplaced(
    allowed: bool,
    first: u32,
    last: u32,
    out: &mut Vec<Event>,
) -> Result<(), AllocError>
    ensures { OnOk result (out.new.items ≡ out.old.items ++ misplaced allowed first last) }
{
    if allowed {
        return Ok(());
    }
    push(Event::Misplaced { first, last }, out)
}

/// Whether it is a default clause.
fn is_default(kind: Kind) -> bool
    ensures { result ≡ is_default kind }
{
    matches!(kind, Kind::Default)
}

/// Puts a default clause behind the others, if there was one before.
fn push_default(
    default: bool,
    before: bool,
    word: u32,
    out: &mut Vec<Event>,
) -> Result<(), AllocError>
    ensures { OnOk result (out.new.items ≡ out.old.items ++ default_events default before word) }
{
    if default && before {
        return push(Event::SecondDefault { word }, out);
    }
    Ok(())
}

/// Puts the default clauses behind the first one behind the others (Go specification: Switch statements).
fn push_second_defaults(clauses: &[Option<Node>], out: &mut Vec<Event>) -> Result<(), AllocError>
    ensures { OnOk result (out.new.items ≡ out.old.items ++ second_defaults false (views clauses.now)) }
{
    let mut before = false;
    for place in clauses {
        let Some(clause) = place else {
            continue;
        };
        let default = is_default(clause.kind());
        push_default(default, before, clause.first(), out)?;
        before = before || default;
    }
    Ok(())
}

/// Puts what a node tells by itself behind the others.
pub fn push_own(context: &Context, node: &Node, out: &mut Vec<Event>) -> Result<(), AllocError>
    ensures { OnOk result (out.new.items ≡ out.old.items ++ own_events context.now (kind_of (view node.now)) (first (view node.now)) (last (view node.now)) (parts (view node.now))) }
{
    let first = node.first();
    let last = node.last();
    match node.kind() {
        Kind::ImportPath => push(Event::Import { path: first }, out),
        Kind::FunctionDeclaration => push_function_of(node, out),
        Kind::Specification(Sort::Type) => push(type_declared(context, first), out),
        Kind::DeclaredName => push_name(context, first, out),
        Kind::Name => push_name(context, first, out),
        Kind::Switch => push_second_defaults(node.parts(), out),
        Kind::Break => push_misplaced(context.breaks, first, last, out),
        Kind::Continue => push_misplaced(context.continues, first, last, out),
        Kind::Fallthrough => push_misplaced(context.falls, first, last, out),
        _ => Ok(()),
    }
}

/// Puts a node behind the others, if it is a statement of a statement list.
pub fn push_statement(
    listed: bool,
    first: u32,
    last: u32,
    out: &mut Vec<Event>,
) -> Result<(), AllocError>
    ensures { OnOk result (out.new.items ≡ out.old.items ++ statement_events listed first last) }
{
    if listed {
        return push(Event::Statement { first, last }, out);
    }
    Ok(())
}
