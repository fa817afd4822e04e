//! Tests: the locals of a window are those that its tokens name, in the order of tokens.
use go_grammar::kind::{Arithmetic, Operator};
use go_typed::{
    Form, Label, LocalUse, NamedLocal, Sort, TypedFunc, TypedNode, Window, walk_locals,
};
use go_typed_parts::typed_func;
use go_types::TypeId;
use std::alloc::Global;
use std::test::Fail;

/// The number of the type of all values here.
const INT: TypeId = 0;

/// A node of a form over the tokens from one up to another.
fn node(
    form: Form,
    tokens: (u32, u32),
    sort: Sort,
    parts: Vec<Option<TypedNode>>,
) -> Option<TypedNode> {
    let label = Label {
        sort,
        varies: true,
        calls: false,
    };
    Some(TypedNode::new(form, tokens.0, tokens.1, label, parts))
}

/// A value at one token.
fn operand(alloc: Global, form: Form, token: u32) -> Option<TypedNode> {
    node(
        form,
        (token, token.saturating_add(1)),
        Sort::Value(INT),
        Vec::new(alloc),
    )
}

/// A statement that gives its target, at its first token, a local and a literal with an operator between them.
fn statement(
    alloc: Global,
    form: Form,
    tokens: (u32, u32),
    target: Form,
    local: u32,
    operator: Arithmetic,
) -> Result<Option<TypedNode>, Fail> {
    let value = (tokens.0.saturating_add(2), tokens.1);
    let x = operand(alloc, Form::Local(local), value.0);
    let y = operand(alloc, Form::Literal, value.1.saturating_sub(1));
    let value = node(
        Form::Binary(Operator::Compute(operator)),
        value,
        Sort::Value(INT),
        vec![in alloc; x, y]?,
    );
    let parts = vec![in alloc; operand(alloc, target, tokens.0), value]?;
    Ok(node(form, tokens, Sort::Nothing, parts))
}

/// `func f(a int) int { b := a + 1; b = b * 2; return b }`, whose locals are `a` and `b`.
fn plain(alloc: Global) -> Result<TypedFunc, Fail> {
    let define = Form::Define(1);
    let first = statement(alloc, define, (8, 13), Form::New(1), 0, Arithmetic::Add)?;
    let assign = Form::Assign(1);
    let second = statement(
        alloc,
        assign,
        (14, 19),
        Form::Local(1),
        1,
        Arithmetic::Multiply,
    )?;
    let value = operand(alloc, Form::Local(1), 21);
    let last = node(
        Form::Return,
        (20, 22),
        Sort::Nothing,
        vec![in alloc; value]?,
    );
    let body = vec![in alloc; first, second, last]?;
    let body = node(Form::Block, (7, 24), Sort::Nothing, body);
    let label = Label {
        sort: Sort::Nothing,
        varies: true,
        calls: false,
    };
    let root = TypedNode::new(Form::Function, 0, 24, label, vec![in alloc; body]?);
    let mut tokens = Vec::new(alloc);
    for token in 0..24 {
        let local = match token {
            3 | 10 => Some(0),
            8 | 14 | 16 | 21 => Some(1),
            _ => None,
        };
        tokens.push(NamedLocal::of(local)?)?;
    }
    let locals = vec![in alloc; Sort::Value(INT), Sort::Value(INT)]?;
    let parameters = vec![in alloc; Some(0)]?;
    Ok(typed_func(alloc, 0, INT, parameters, locals, tokens, root)?)
}

#[test]
fn locals_of_the_plain_window(rt: HostRuntime) -> Result<(), Fail> {
    let alloc = rt.alloc();
    let func = plain(alloc)?;
    let window = Window {
        func: 0,
        list: 0,
        first: 0,
        count: 2,
    };
    let uses = walk_locals(alloc, &func, &window)?;
    let b_a_b_b = [(1, 8), (0, 10), (1, 14), (1, 16)];
    assert_eq!(rt; uses.len(), b_a_b_b.len());
    for (found, (local, token)) in uses.iter().zip(b_a_b_b) {
        assert_eq!(rt; *found, LocalUse { local, token });
    }
    Ok(())
}
