//! The engine: a few functions over the table of productions.

ghost use Rattle.std.specs.Prelude.{◌≡◌, ◌&&◌, ◌+◌, ◌^◌, ◌<◌, ◌≤◌, true, false, length, slice_get, suc, IfOk, Some, None};
ghost use Rattle.go_base.specs.Gives.{Meets};
ghost use Rattle.go_tokens.specs.Tokens.{kinds};
ghost use Rattle.go_grammar.specs.declared.kind.Category.{Category};
ghost use Rattle.go_grammar.specs.Categories.{within};
ghost use Rattle.go_grammar.specs.Grammar.{rule, ends, agrees};
ghost use Rattle.go_grammar.specs.Rules.{Rule};
ghost use Rattle.go_grammar.specs.Reader as reader;
ghost use Rattle.go_grammar.specs.Symbols.{right, repeated};
ghost use Rattle.go_grammar.specs.Trees.{kind_of, first, last, weight, depth};
ghost use Rattle.go_tree.specs.Views.{view, views};
ghost use Rattle.go_parse.specs.Engine.{IsFound, IsOpened, IsNotOpened, IsJoined, IsNotJoined, IsFinished, IsLow, IsRowOn, IsOptionOn, stop_refusal, is_worded};

use crate::error::Stop;
use crate::next::{
    begins_result, closed, expect, following, is_pass, is_stop, item, kind_at, lead, turn,
};
use crate::row::{Grown, Row};
use go_grammar::items::Next;
use go_grammar::kind::{Category, Kind, Place};
use go_grammar::lookahead::{begins, continued, opened};
use go_grammar::production::{Repetition, Symbol, production};
use go_tokens::tokens::Tokens;
use go_tree::node::Node;
use std::alloc::Global;

/// The node of the category that begins at a token; it has at most `room` levels.
#[cycle(trees)]
pub fn tree(
    alloc: Global,
    tokens: &Tokens,
    category: Category,
    at: u32,
    room: u32,
) -> Result<Grown, Stop>
    requires size { length tokens.now.tokens < 2 ^ 32 }
    ensures { Meets stop_refusal result (λ g. IsFound (λ n. reader.read n (kinds tokens.now.tokens) room category at) g) (λ _. reader.Tends (λ n. reader.read n (kinds tokens.now.tokens) room category at) None) }
{
    let Some(word) = kind_at(tokens, at) else {
        return Err(Stop::Syntax);
    };
    let Some(kind) = opened(category, word) else {
        return Err(Stop::Syntax);
    };
    let mut grown = opened_node(alloc, tokens, category.place(), kind, at, room)?;
    while let Some(kind) = next_kind(tokens, category, &grown.node) {
        grown = joined_node(alloc, tokens, category.place(), kind, grown, room)?;
    }
    if is_whole(tokens, category, &grown.node) {
        Ok(grown)
    } else {
        Err(Stop::Syntax)
    }
}

/// The kind of node that a finished node becomes the first part of.
fn next_kind(tokens: &Tokens, category: Category, node: &Node) -> Option<Kind>
    ensures { result ≡ reader.continues category (kind_of (view node.now)) (slice_get (kinds tokens.now.tokens) (last (view node.now))) }
{
    continued(category, node.kind(), kind_at(tokens, node.last()))
}

/// Whether a finished node is one of the category.
fn is_whole(tokens: &Tokens, category: Category, node: &Node) -> bool
    ensures { result ≡ (within category (kind_of (view node.now)) && ends category (kind_of (view node.now)) (slice_get (kinds tokens.now.tokens) (last (view node.now)))) }
{
    category.has(node.kind()) && category.may_end(node.kind(), kind_at(tokens, node.last()))
}

/// A node that its first word opens.
#[cycle(trees)]
fn opened_node(
    alloc: Global,
    tokens: &Tokens,
    place: Place,
    kind: Kind,
    at: u32,
    room: u32,
) -> Result<Grown, Stop>
    requires size { length tokens.now.tokens < 2 ^ 32 }
    requires worded { is_worded (rule place kind) ≡ true }
    ensures { Meets stop_refusal result (λ g. IsOpened (kinds tokens.now.tokens) room place kind at g) (λ _. IsNotOpened (kinds tokens.now.tokens) room place kind at) }
{
    if kind.weight() > room {
        return Err(Stop::Syntax);
    }
    let symbols = production(place, kind);
    let row = spelled(
        alloc,
        tokens,
        &symbols,
        Row::empty(alloc, at),
        room - kind.weight(),
    )?;
    finished(kind, at, row)
}

/// A node that begins with a finished one.
#[cycle(trees)]
fn joined_node(
    alloc: Global,
    tokens: &Tokens,
    place: Place,
    kind: Kind,
    grown: Grown,
    room: u32,
) -> Result<Grown, Stop>
    requires size { length tokens.now.tokens < 2 ^ 32 }
    requires told { grown.depth ≡ depth (view grown.node) }
    requires grows { first (view grown.node) < last (view grown.node) }
    requires ends { last (view grown.node) ≤ length tokens.now.tokens }
    ensures { Meets stop_refusal result (λ g. IsJoined (kinds tokens.now.tokens) room place kind (view grown.node) g) (λ _. IsNotJoined (kinds tokens.now.tokens) room place kind (view grown.node)) }
{
    let symbols = production(place, kind);
    if kind.weight() > room
        || grown.depth > room - kind.weight()
        || !may_begin(tokens, &symbols, &grown.node)
    {
        return Err(Stop::Syntax);
    }
    let first = grown.node.first();
    let row = Row::empty(alloc, first).with(grown)?;
    let row = spelled(alloc, tokens, &symbols[1..], row, room - kind.weight())?;
    finished(kind, first, row)
}

/// Whether a node may be the first part of one with these symbols.
fn may_begin(tokens: &Tokens, symbols: &[Symbol], node: &Node) -> bool
    ensures { result ≡ reader.fits (right symbols.now) (kind_of (view node.now)) (slice_get (kinds tokens.now.tokens) (last (view node.now))) }
{
    match symbols.first() {
        Some(Symbol::Part(category)) => is_whole(tokens, *category, node),
        _ => false,
    }
}

/// The node with these parts, if they agree.
fn finished(kind: Kind, first: u32, row: Row) -> Result<Grown, Stop>
    requires { weight kind + row.levels < 2 ^ 32 }
    ensures { Meets (λ e. Some e) result (IsFinished kind first row) (λ e. (e ≡ Stop.Syntax) × (agrees kind (views row.parts.items) ≡ false)) }
{
    let node = Node::new(kind, first, row.last, row.parts);
    if node.agrees() {
        Ok(Grown {
            node,
            depth: kind.weight() + row.levels,
        })
    } else {
        Err(Stop::Syntax)
    }
}

/// The row with the parts that the symbols ask for.
#[cycle(trees)]
fn spelled(
    alloc: Global,
    tokens: &Tokens,
    symbols: &[Symbol],
    row: Row,
    room: u32,
) -> Result<Row, Stop>
    requires size { length tokens.now.tokens < 2 ^ 32 }
    requires low { IsLow room row }
    ensures low { IfOk result (IsLow room) }
    ensures exact { Meets stop_refusal result (λ r. IsRowOn (λ n. reader.spell n (kinds tokens.now.tokens) room (right symbols.now) row.last) row r)
        (λ _. reader.Tends (λ n. reader.spell n (kinds tokens.now.tokens) room (right symbols.now) row.last) None) }
{
    let mut so_far = row;
    for symbol in symbols {
        match *symbol {
            Symbol::Word(word) => so_far.last = expect(tokens, so_far.last, word)?,
            Symbol::Part(category) => {
                let part = tree(alloc, tokens, category, so_far.last, room)?;
                so_far = so_far.with(part)?;
            }
            Symbol::Optional(category) => {
                let here = begins(category, kind_at(tokens, so_far.last));
                so_far = optional(alloc, tokens, category, here, so_far, room)?;
            }
            Symbol::Result => {
                let here = begins_result(tokens, so_far.last);
                so_far = optional(alloc, tokens, Category::Result, here, so_far, room)?;
            }
            Symbol::Items(repetition) => {
                return items(alloc, tokens, repetition, so_far, room);
            }
            Symbol::End => return Ok(so_far),
        }
    }
    Ok(so_far)
}

/// The row with a part of the category, if it is here.
#[cycle(trees)]
fn optional(
    alloc: Global,
    tokens: &Tokens,
    category: Category,
    here: bool,
    row: Row,
    room: u32,
) -> Result<Row, Stop>
    requires size { length tokens.now.tokens < 2 ^ 32 }
    requires low { IsLow room row }
    ensures low { IfOk result (IsLow room) }
    ensures later { IfOk result (λ r. row.last ≤ r.last) }
    ensures exact { Meets stop_refusal result (λ r. IsOptionOn (kinds tokens.now.tokens) room category here row r) (λ _. (r : Rule) → reader.Tends (λ n. reader.option n (kinds tokens.now.tokens) room category r row.last here) None) }
{
    if here {
        let part = tree(alloc, tokens, category, row.last, room)?;
        Ok(row.with(part)?)
    } else {
        Ok(row.without()?)
    }
}

/// The row with items.
#[cycle(trees)]
fn items(
    alloc: Global,
    tokens: &Tokens,
    repetition: Repetition,
    row: Row,
    room: u32,
) -> Result<Row, Stop>
    requires size { length tokens.now.tokens < 2 ^ 32 }
    requires low { IsLow room row }
    ensures low { IfOk result (IsLow room) }
    ensures exact { Meets stop_refusal result (λ r. IsRowOn (λ n. reader.items n (kinds tokens.now.tokens) room (repeated repetition) row.last) row r)
        (λ _. reader.Tends (λ n. reader.items n (kinds tokens.now.tokens) room (repeated repetition) row.last) None) }
{
    let mut so_far = row;
    let mut turned = turn(repetition, kind_at(tokens, so_far.last));
    while !is_stop(turned) {
        if is_pass(turned) {
            so_far.last += 1;
        } else {
            let at = lead(tokens, repetition, so_far.last);
            let part = tree(alloc, tokens, item(repetition), at, room)?;
            so_far = so_far.with(part)?;
            match following(tokens, repetition, so_far.last) {
                Next::On(next) => so_far.last = next,
                Next::Done(end) => {
                    so_far.last = end;
                    return Ok(so_far);
                }
                Next::Wrong => return Err(Stop::Syntax),
            }
        }
        turned = turn(repetition, kind_at(tokens, so_far.last));
    }
    so_far.last = closed(tokens, repetition, so_far.last)?;
    Ok(so_far)
}
