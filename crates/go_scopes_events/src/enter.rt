//! The context of a node's parts.

ghost use Rattle.std.specs.Prelude.{◌≡◌, ◌&&◌, not, nat_eq};
ghost use Rattle.go_grammar.specs.Grammar as grammar;
ghost use Rattle.go_grammar.specs.Trees.{kind_of, first, last, parts};
ghost use Rattle.go_tree.specs.Views.{view, views, part_at, parameter_at};
ghost use Rattle.go_tree.specs.declared.context.Role.TheVariants as role;
ghost use Rattle.go_tree.specs.Contexts.{is_there, file_context, opens, block_in, end_in, entity_of, specified, defined, ranged, is_called, called_in, if_name, if_first, field_role, key_role, parameter_role, entry_role, role_in, element_site, length_site, column_site, value_site, values_site, typed_site, function_site, sequence_site, site_in, specification_in, has_values, own_source, source_at, source_in, group_in, body_scope, function_parameters, parameters_in, constant_in, is_package, package_value, typed_initial, initial_in, is_behind_first, listed_in, breaks_in, continues_in, followed_in, falls_in, enter};
ghost use Rattle.go_tree.specs.Events.{begin, pass};

use go_grammar::kind::{Kind, Sort};
use go_tree::context::{Block, Context, Entity, Manner, Naming, Reach, Role, Scope, Site};
use go_tree::node::Node;

/// The context of a whole file of so many tokens.
pub fn file_context(end: u32) -> Context
    ensures { result ≡ file_context end }
{
    Context {
        block: Block::Package,
        end,
        role: Role::Operand,
        site: Site::Elsewhere,
        specification: None,
        source: None,
        column: 0,
        group: None,
        parameters: None,
        constant: false,
        initial: false,
        listed: false,
        breaks: false,
        continues: false,
        followed: false,
        falls: false,
    }
}

/// The context of a part: of the part of this number, where `named` says whether the node's parts end with a parameter that
/// has a name, and `more` whether another part stands behind this one.
pub fn enter(
    context: &Context,
    node: &Node,
    named: bool,
    number: usize,
    part: &Node,
    more: bool,
) -> Context
    ensures { result ≡ enter context.now (kind_of (view node.now)) (first (view node.now)) (last (view node.now)) (parts (view node.now)) named number (view part.now) more }
{
    let kind = node.kind();
    let first = node.first();
    let last = node.last();
    Context {
        block: block_in(context, kind, first),
        end: end_in(context, kind, last),
        role: role_in(context, node, named, number, part),
        site: site_in(context, node, number, part),
        specification: specification_in(context, kind, first),
        source: source_at(context, part),
        column: number,
        group: group_in(context, kind, first),
        parameters: parameters_in(context, node, number, part),
        constant: constant_in(context, kind),
        initial: initial_in(context, kind, number),
        listed: listed_in(kind, number),
        breaks: breaks_in(context, kind),
        continues: continues_in(context, kind),
        followed: followed_in(kind, more),
        falls: falls_in(context, kind, more),
    }
}

/// The context in front of the parts of a node.
pub fn begin(context: &Context, kind: Kind) -> Context
    ensures { result ≡ begin context.now kind }
{
    Context {
        source: source_in(context, kind),
        ..*context
    }
}

/// The context for the parts behind a part.
pub fn pass(context: &Context, part: &Node) -> Context
    ensures { result ≡ pass context.now (view part.now) }
{
    Context {
        source: source_at(context, part),
        ..*context
    }
}

/// Whether a node of the kind is a block, or has one of its own around its parts (Go specification: Blocks).
fn opens(kind: Kind) -> bool
    ensures { result ≡ opens kind }
{
    match kind {
        Kind::Block => true,
        Kind::Case => true,
        Kind::Default => true,
        Kind::If => true,
        Kind::Switch => true,
        Kind::For => true,
        _ => false,
    }
}

/// The innermost block of a part.
fn block_in(context: &Context, kind: Kind, first: u32) -> Block
    ensures { result ≡ block_in context.now kind first }
{
    if opens(kind) {
        Block::Local(first)
    } else {
        context.block
    }
}

/// The token behind that block.
fn end_in(context: &Context, kind: Kind, last: u32) -> u32
    ensures { result ≡ end_in context.now kind last }
{
    if opens(kind) { last } else { context.end }
}

/// The scope from a token to the end of the innermost block.
pub fn scope_from(context: &Context, from: u32) -> Scope
    ensures { result ≡ record { from = from; to = context.now.end } }
{
    Scope {
        from,
        to: context.end,
    }
}

/// What a declaration declares.
fn entity_of(sort: Sort) -> Entity
    ensures { result ≡ entity_of sort }
{
    match sort {
        Sort::Constant => Entity::Constant,
        Sort::Type => Entity::Type,
        Sort::Variable => Entity::Variable,
    }
}

/// What the names of a specification of constants or variables are declared as.
fn specified(context: &Context, sort: Sort, first: u32, last: u32) -> Naming
    ensures { result ≡ specified context.now sort first last }
{
    Naming {
        entity: entity_of(sort),
        manner: Manner::Declared,
        scope: scope_from(context, last),
        statement: first,
        source: context.source,
    }
}

/// What the names before `:=` are declared as.
fn defined(context: &Context, first: u32, last: u32) -> Naming
    ensures { result ≡ defined context.now first last }
{
    Naming {
        entity: Entity::Variable,
        manner: Manner::Defined,
        scope: scope_from(context, last),
        statement: first,
        source: None,
    }
}

/// What the names before `:=` and `range` are declared as.
fn ranged(context: &Context, first: u32, last: u32) -> Naming
    ensures { result ≡ ranged context.now first last }
{
    Naming {
        entity: Entity::Variable,
        manner: Manner::Ranged,
        scope: scope_from(context, last),
        statement: first,
        source: None,
    }
}

/// Whether a name is called.
fn is_called(role: Role) -> bool
    ensures { result ≡ is_called role }
{
    matches!(role, Role::Called)
}

/// What parentheses hand on: the callee of a call may stand in some.
fn called_in(role: Role) -> Role
    ensures { result ≡ called_in role }
{
    match role {
        Role::Called => Role::Called,
        _ => Role::Operand,
    }
}

/// The role, if the part is a name.
fn if_name(part: &Node, role: Role) -> Role
    ensures { result ≡ if_name (view part.now) role }
{
    match part.kind() {
        Kind::Name => role,
        _ => Role::Operand,
    }
}

/// The role, if the part is the first.
fn if_first(number: usize, role: Role) -> Role
    ensures { result ≡ if_first number role }
{
    match number {
        0 => role,
        _ => Role::Operand,
    }
}

/// What a field's name is for, in a group.
fn field_role(group: Option<u32>) -> Role
    ensures { result ≡ field_role group }
{
    match group {
        None => Role::Operand,
        Some(group) => Role::Field { group },
    }
}

/// What a key is for, in a group.
fn key_role(group: Option<u32>) -> Role
    ensures { result ≡ key_role group }
{
    match group {
        None => Role::Operand,
        Some(group) => Role::Key { group },
    }
}

/// What a parameter's name is for, in a group.
fn parameter_role(group: Option<u32>, scope: Option<Scope>) -> Role
    ensures { result ≡ parameter_role group scope }
{
    match group {
        None => Role::Operand,
        Some(group) => Role::Parameter { group, scope },
    }
}

/// What an entry of the parameters is for: a name is a parameter where these have names.
fn entry_role(named: bool, part: &Node, group: u32, scope: Option<Scope>) -> Role
    ensures { result ≡ entry_role named (view part.now) group scope }
{
    if named {
        if_name(part, Role::Parameter { group, scope })
    } else {
        Role::Operand
    }
}

/// What a name is for, if the part is one.
fn role_in(context: &Context, node: &Node, named: bool, number: usize, part: &Node) -> Role
    ensures { result ≡ role_in context.now (kind_of (view node.now)) (first (view node.now)) (last (view node.now)) named number (view part.now) }
{
    let first = node.first();
    let last = node.last();
    match node.kind() {
        Kind::Specification(Sort::Constant) => {
            if_first(
                number,
                Role::New(specified(context, Sort::Constant, first, last)),
            )
        }
        Kind::Specification(Sort::Variable) => {
            if_first(
                number,
                Role::New(specified(context, Sort::Variable, first, last)),
            )
        }
        Kind::Define => if_first(number, Role::New(defined(context, first, last))),
        Kind::DefiningRange => if_first(number, Role::New(ranged(context, first, last))),
        Kind::NameList => context.role,
        Kind::NewNames => context.role,
        Kind::Targets => Role::Assigned,
        Kind::ExpressionList => if_name(part, context.role),
        Kind::Call => if_first(number, Role::Called),
        Kind::Parenthesized => called_in(context.role),
        Kind::Selector => if_name(part, selected(context, last)),
        Kind::Fields => if_first(number, field_role(context.group)),
        Kind::Keyed => if_first(number, key_role(context.group)),
        Kind::Parameters => entry_role(named, part, first, context.parameters),
        Kind::Parameter => if_first(number, parameter_role(context.group, context.parameters)),
        _ => Role::Operand,
    }
}

/// What the operand of a selector is for.
fn selected(context: &Context, last: u32) -> Role
    ensures { result ≡ role.Selected last (is_called context.now.role) }
{
    Role::Selected {
        last,
        called: is_called(context.role),
    }
}

/// Whether the part of this number is there.
pub fn has_part(node: &Node, number: usize) -> bool
    ensures { result ≡ is_there (part_at (parts (view node.now)) number) }
{
    match node.part(number) {
        Some(_) => true,
        None => false,
    }
}

/// Where the element of an array or of a slice stands, and where a function type's parts stand.
fn element_site(array: bool, site: Site) -> Site
    ensures { result ≡ element_site array site }
{
    if array {
        return site;
    }
    match site {
        Site::Right {
            specification,
            reach: Reach::Direct,
        } => Site::Right {
            specification,
            reach: Reach::Indirect,
        },
        other => other,
    }
}

/// Where the length of an array stands.
fn length_site(site: Site) -> Site
    ensures { result ≡ length_site site }
{
    match site {
        Site::Right { specification, .. } => Site::Right {
            specification,
            reach: Reach::Length,
        },
        other => other,
    }
}

/// Where a value of this number stands.
fn column_site(number: usize, site: Site) -> Site
    ensures { result ≡ column_site number site }
{
    match site {
        Site::Value {
            specification,
            alone,
            ..
        } => Site::Value {
            specification,
            column: number,
            alone,
        },
        other => other,
    }
}

/// Whether there is exactly one part.
fn is_alone(parts: &[Option<Node>]) -> bool
    ensures { result ≡ nat_eq (grammar.count (views parts.now)) 1 }
{
    parts.len() == 1
}

/// Where the values of a specification stand.
fn values_site(context: &Context, values: &Node) -> Site
    ensures { result ≡ values_site context.now (view values.now) }
{
    value_site(context.specification, is_alone(values.parts()))
}

/// Where the values of this specification stand.
fn value_site(specification: Option<u32>, alone: bool) -> Site
    ensures { result ≡ value_site specification alone }
{
    match specification {
        None => Site::Elsewhere,
        Some(specification) => Site::Value {
            specification,
            column: 0,
            alone,
        },
    }
}

/// Where a type or the values behind it stand.
fn typed_site(context: &Context, number: usize, part: &Node) -> Site
    ensures { result ≡ typed_site context.now number (view part.now) }
{
    match number {
        0 => context.site,
        _ => values_site(context, part),
    }
}

/// Where the signature of a function or its body stands.
fn function_site(first: u32, number: usize) -> Site
    ensures { result ≡ function_site first number }
{
    match number {
        0 => Site::Type {
            specification: first,
        },
        _ => Site::Elsewhere,
    }
}

/// Where the length of an array or the element of an array or of a slice stands.
fn sequence_site(context: &Context, node: &Node, number: usize) -> Site
    ensures { result ≡ sequence_site context.now (parts (view node.now)) number }
{
    match number {
        0 => length_site(context.site),
        _ => element_site(has_part(node, 0), context.site),
    }
}

/// Where a part stands in a declaration.
fn site_in(context: &Context, node: &Node, number: usize, part: &Node) -> Site
    ensures { result ≡ site_in context.now (kind_of (view node.now)) (first (view node.now)) (parts (view node.now)) number (view part.now) }
{
    let first = node.first();
    match node.kind() {
        Kind::Specification(Sort::Type) => Site::Right {
            specification: first,
            reach: Reach::Direct,
        },
        Kind::Specification(_) => Site::Type {
            specification: first,
        },
        Kind::Values => values_site(context, part),
        Kind::TypedValues => typed_site(context, number, part),
        Kind::ExpressionList => column_site(number, context.site),
        Kind::FunctionDeclaration => function_site(first, number),
        Kind::SequenceType => sequence_site(context, node, number),
        Kind::FunctionType => element_site(false, context.site),
        _ => context.site,
    }
}

/// The specification that a part is in.
fn specification_in(context: &Context, kind: Kind, first: u32) -> Option<u32>
    ensures { result ≡ specification_in context.now kind first }
{
    match kind {
        Kind::Specification(_) => Some(first),
        _ => context.specification,
    }
}

/// Whether a specification has values of its own, or is none of constants.
fn has_values(sort: Sort, node: &Node) -> bool
    ensures { result ≡ has_values sort (parts (view node.now)) }
{
    match sort {
        Sort::Constant => has_part(node, 1),
        _ => true,
    }
}

/// The specification whose values a constant has at a part and behind it.
fn source_at(context: &Context, part: &Node) -> Option<u32>
    ensures { result ≡ source_at context.now (view part.now) }
{
    match part.kind() {
        Kind::Specification(sort) => own_source(context.source, sort, part),
        _ => context.source,
    }
}

/// The specification whose values a specification has: itself, or else an earlier one.
fn own_source(source: Option<u32>, sort: Sort, part: &Node) -> Option<u32>
    ensures { result ≡ own_source source sort (first (view part.now)) (parts (view part.now)) }
{
    if has_values(sort, part) {
        Some(part.first())
    } else {
        source
    }
}

/// The specification whose values a constant has in front of a node's parts: none in a new declaration.
fn source_in(context: &Context, kind: Kind) -> Option<u32>
    ensures { result ≡ source_in context.now kind }
{
    match kind {
        Kind::Declaration(_) => None,
        _ => context.source,
    }
}

/// The struct type, composite literal or list of parameters around a part.
fn group_in(context: &Context, kind: Kind, first: u32) -> Option<u32>
    ensures { result ≡ group_in context.now kind first }
{
    match kind {
        Kind::StructType => Some(first),
        Kind::Composite => Some(first),
        Kind::LiteralValue => Some(first),
        Kind::Parameters => Some(first),
        _ => context.group,
    }
}

/// The scope of parameters: the body, if there is one.
fn body_scope(body: bool, from: u32, to: u32) -> Option<Scope>
    ensures { result ≡ body_scope body from to }
{
    if body { Some(Scope { from, to }) } else { None }
}

/// The scope of the parameters of a function's signature; those of another part are the ones around it.
fn function_parameters(context: &Context, node: &Node, number: usize, part: &Node) -> Option<Scope>
    ensures { result ≡ function_parameters context.now (last (view node.now)) (parts (view node.now)) number (view part.now) }
{
    match number {
        0 => body_scope(has_part(node, 1), part.last(), node.last()),
        _ => context.parameters,
    }
}

/// The scope of the parameters of a signature.
fn parameters_in(context: &Context, node: &Node, number: usize, part: &Node) -> Option<Scope>
    ensures { result ≡ parameters_in context.now (kind_of (view node.now)) (last (view node.now)) (parts (view node.now)) number (view part.now) }
{
    match node.kind() {
        Kind::FunctionDeclaration => function_parameters(context, node, number, part),
        Kind::FunctionType => None,
        _ => context.parameters,
    }
}

/// Whether a part is inside a declaration of constants.
fn constant_in(context: &Context, kind: Kind) -> bool
    ensures { result ≡ constant_in context.now kind }
{
    match kind {
        Kind::Declaration(sort) => matches!(sort, Sort::Constant),
        _ => context.constant,
    }
}

/// Whether it is the block of the package.
fn is_package(block: Block) -> bool
    ensures { result ≡ is_package block }
{
    matches!(block, Block::Package)
}

/// Whether values here are those of a package's variable.
fn package_value(context: &Context) -> bool
    ensures { result ≡ package_value context.now }
{
    is_package(context.block) && !context.constant
}

/// The same of what stands behind a type.
fn typed_initial(context: &Context, number: usize) -> bool
    ensures { result ≡ typed_initial context.now number }
{
    match number {
        0 => false,
        _ => package_value(context),
    }
}

/// Whether a part is inside the value of a package's variable.
fn initial_in(context: &Context, kind: Kind, number: usize) -> bool
    ensures { result ≡ initial_in context.now kind number }
{
    match kind {
        Kind::Values => package_value(context),
        Kind::TypedValues => typed_initial(context, number),
        _ => context.initial,
    }
}

/// Whether a part is a statement of a statement list.
fn listed_in(kind: Kind, number: usize) -> bool
    ensures { result ≡ listed_in kind number }
{
    match kind {
        Kind::Block => true,
        Kind::Case => is_behind_first(number),
        Kind::Default => true,
        _ => false,
    }
}

/// Whether it isn't the first.
fn is_behind_first(number: usize) -> bool
    ensures { result ≡ is_behind_first number }
{
    match number {
        0 => false,
        _ => true,
    }
}

/// Whether there is something to break from (Go specification: Break statements).
fn breaks_in(context: &Context, kind: Kind) -> bool
    ensures { result ≡ breaks_in context.now kind }
{
    match kind {
        Kind::For => true,
        Kind::Switch => true,
        _ => context.breaks,
    }
}

/// Whether there is a loop to continue (Go specification: Continue statements).
fn continues_in(context: &Context, kind: Kind) -> bool
    ensures { result ≡ continues_in context.now kind }
{
    match kind {
        Kind::For => true,
        _ => context.continues,
    }
}

/// Whether a part is a clause with another one behind it.
fn followed_in(kind: Kind, more: bool) -> bool
    ensures { result ≡ followed_in kind more }
{
    match kind {
        Kind::Switch => more,
        _ => false,
    }
}

/// Whether a part is the last statement of such a clause (Go specification: Fallthrough statements).
fn falls_in(context: &Context, kind: Kind, more: bool) -> bool
    ensures { result ≡ falls_in context.now kind more }
{
    match kind {
        Kind::Case => is_last_followed(context, more),
        Kind::Default => is_last_followed(context, more),
        _ => false,
    }
}

/// Whether it is the last part of a clause that another one follows.
fn is_last_followed(context: &Context, more: bool) -> bool
    ensures { result ≡ (context.now.followed && not more) }
{
    context.followed && !more
}

/// Whether a part is there and has a name in front of its type.
fn is_parameter(part: &Option<Node>) -> bool
    ensures { result ≡ parameter_at part.now }
{
    match part {
        Some(node) => matches!(node.kind(), Kind::Parameter),
        None => false,
    }
}

/// Whether the last part is a parameter that has a name.
pub fn ends_named(parts: &[Option<Node>]) -> bool
    ensures { result ≡ grammar.ends_named (views parts.now) }
{
    let mut named = false;
    for part in parts {
        named = is_parameter(part);
    }
    named
}
