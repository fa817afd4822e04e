//! Tasks.

use go_eval_plans::plan::{Items, Operation};
use go_typed::node::TypedNode;
use go_types::TypeId;
use go_values::Value;

/// What is done to operands.
#[derive(Clone, Copy, Debug)]
pub enum Deed {
    /// A field is taken (Go specification, "Selectors").
    Field(u32),
    /// An element of an array of this length (Go specification, "Index expressions").
    Element(u32),
    /// An element of a slice (Go specification, "Index expressions").
    Cell,
    Planned(Operation),
}

/// A range clause that runs: what it goes over, and which item is next (Go specification, "For statements with range clause").
#[derive(Debug, Drop)]
pub struct Iteration {
    /// How many targets an item has.
    pub targets: u32,
    pub items: Items,
    /// What its operand was at the start.
    pub operand: Value,
    /// How many items there are.
    pub count: u128,
    /// The number of the next item.
    pub next: u128,
    /// Where it begins: of a rune the place of its first byte.
    pub place: usize,
}

/// What is to be done with a node. Operands are the values that stand behind the base of the task.
#[derive(Debug, Drop)]
pub enum What {
    /// The value of the node.
    Value,
    /// The operands of the place that it is.
    Find,
    /// The values of its parts from `next` on, up to `end`.
    Values {
        next: usize,
        end: usize,
    },
    /// The operands of its parts from `next` on, up to `end`.
    Finds {
        next: usize,
        end: usize,
    },
    /// The deed on the operands.
    Perform(Deed),
    /// The right side of `&&`, if the left one is true.
    Both,
    /// The right side of `||`, if the left one is false.
    Either,
    /// The call of the first operand with the others.
    Apply,
    /// The end of the body.
    Return,
    /// `x++`, behind the operands of x.
    Step(Operation),
    /// `x op= y`, behind the operands of x.
    Load(Operation),
    /// The same, behind y; the value of x stands at `value`.
    Operate {
        operation: Operation,
        value: usize,
    },
    /// The values of an assignment, behind the operands of its targets.
    Assign(u32),
    /// Zero values for the targets.
    Zero(u32, Option<TypeId>),
    /// The assignment; its values stand from `values` on.
    Store {
        targets: u32,
        values: usize,
    },
    /// The parts from `next` on, one after the other.
    Sequence {
        next: usize,
    },
    /// The condition of an `if`.
    Condition,
    /// The branch of an `if`.
    Branch,
    /// The tag of a switch.
    Tag {
        tag: bool,
        default: usize,
    },
    /// The clauses of a switch from `next` on, behind the tag.
    Clauses {
        next: usize,
        default: usize,
    },
    /// Whether the clause `next` is the one; what its test gave stands from `test` on.
    Clause {
        next: usize,
        default: usize,
        test: usize,
    },
    /// The expressions of a clause from `next` on, up to `end`, are compared with the tag.
    Matches {
        next: usize,
        end: usize,
        tag: usize,
    },
    /// The expression `next` is compared with the tag.
    Match {
        next: usize,
        end: usize,
        tag: usize,
    },
    /// Behind a clause: the clauses from `next` on, if it falls through.
    Fall {
        next: usize,
    },
    /// A turn of a loop: its condition, if there is one.
    Turn(bool),
    /// Its block, where the condition holds.
    Block,
    /// Behind the block of a loop.
    Round,
    /// The next turn.
    Again,
    /// The test of the array of an element, behind the operands of the array.
    Index,
    /// The index of the element, behind that test; the operands end at `end`.
    Tested {
        end: usize,
    },
    /// The same, behind the index, which stands at `index`.
    Behind {
        index: usize,
    },
    /// The items of a range clause, behind its operand.
    Items {
        targets: u32,
        items: Items,
    },
    /// The items from one on.
    Item(Box<Iteration>),
    /// The assignment of that item and the block, behind the operands of the targets.
    ItemTo(Box<Iteration>),
    /// Behind the block of a loop over items: the items from that one on.
    ItemRound(Box<Iteration>),
    /// Behind a body: the frame of the caller.
    Leave(Vec<Value>),
}

/// What is to be done with a node, and where its operands begin.
#[derive(Debug, Drop)]
pub struct Task<'a> {
    pub node: &'a TypedNode,
    pub base: usize,
    pub what: What,
}
