//! Values of one variable in each context, and the types that they take there. What values are without a context are rows of
//! `package_vectors` and `session_vectors`.

ghost use Rattle.go_tree.specs.Units.{word};
ghost use Rattle.go_tree.specs.Views.{view};
ghost use Rattle.go_exprs_engine.specs.Literals.{AllRead};

use crate::source::{declared, file, part};
use crate::typing::{Names, value};
use go_exprs::{Context, TypeError};
use go_ints::Kind;
use go_scopes::resolve::resolve;
use go_tree::file::File;
use go_typed::{Env, Locals, Referent, Sort, TypedNode};
use go_types::{Shape, TypeId, Types};
use std::alloc::Global;
use std::test::Fail;

/// What a value comes to.
#[derive(Clone, Copy, Debug, PartialEq, Eq)]
enum Answer {
    /// It has this integer type.
    Integer(Kind),
    /// It has another type.
    Other,
    /// A fault by its code and its bytes.
    Fault(u8, u32, u32),
}

/// The number of the type `int8`.
const SHORT: TypeId = 1;

/// Values in their contexts.
const ROWS: [(Context, &str, Answer); 9] = [
    (Context::None, "1 << n", Answer::Integer(Kind::Int)),
    (Context::Wanted(SHORT), "100", Answer::Integer(Kind::Int8)),
    (Context::Wanted(SHORT), "300", Answer::Fault(12, 63, 66)),
    (Context::Index, "-1", Answer::Fault(14, 63, 65)),
    (Context::Index, "1 << n", Answer::Integer(Kind::Int)),
    (Context::Index, "t", Answer::Fault(10, 63, 64)),
    (Context::Count, "-1", Answer::Fault(12, 63, 65)),
    (Context::Count, "1 << n", Answer::Fault(10, 63, 69)),
    (Context::Count, "1 + 2", Answer::Integer(Kind::Uint)),
];

/// The variables `n uint`, `x int8`, `b bool` and `t string`.
fn parameters(alloc: Global, types: &mut Types) -> Result<Locals, Fail> {
    let count = types.intern(&Shape::Int(Kind::Uint))?;
    let short = types.intern(&Shape::Int(Kind::Int8))?;
    let truth = types.intern(&Shape::Bool)?;
    let text = types.intern(&Shape::Text)?;
    let sorts = vec![in alloc;
        Some(Sort::Value(count)),
        Some(Sort::Value(short)),
        Some(Sort::Value(truth)),
        Some(Sort::Value(text)),
    ]?;
    Ok(Locals::new(sorts, 0))
}

/// The type of a value.
fn answer_of(types: &Types, typed: &TypedNode) -> Answer {
    let of = match &typed.sort {
        Sort::Value(of) => *of,
        Sort::Constant(of, _) => of.id(),
        _ => return Answer::Other,
    };
    if of >= types.count() {
        return Answer::Other;
    }
    match types.shape(of) {
        Shape::Int(kind) => Answer::Integer(*kind),
        _ => Answer::Other,
    }
}

/// What the value of the first variable of a file comes to.
fn first_value(
    alloc: Global,
    file: &File,
    names: Names<'_>,
    types: &mut Types,
    context: Context,
) -> Result<Answer, Fail>
    requires { AllRead (word file.now.tokens) (view file.now.root) }
{
    let Some(right) = declared(file) else {
        return Err("no declaration".into());
    };
    let Some(list) = right.values else {
        return Err("no value".into());
    };
    let Some(node) = part(file.tokens(), list, 0) else {
        return Err("no value".into());
    };
    match value(alloc, file.tokens(), names, types, node, context) {
        Ok(typed) => Ok(answer_of(types, &typed)),
        Err(TypeError::Fault(fault)) => {
            let span = fault.span;
            Ok(Answer::Fault(fault.code.number(), span.start, span.end))
        }
        Err(TypeError::Memory) => Err("out of memory".into()),
    }
}

/// What a value of a local variable comes to in a context.
fn found(alloc: Global, text: &str, context: Context) -> Result<Answer, Fail> {
    let text = format!(in alloc;
        "package p\n\nfunc f(n uint, x int8, b bool, t string) {{\n\tvar v = {text}\n\t_ = v\n}}\n"
    )?;
    if text.len() > 1_048_576 {
        return Err("a file has at most 1 MiB".into());
    }
    let Some(file) = file(alloc, text.as_bytes()) else {
        return Err("no tree".into());
    };
    let files = [file];
    let Ok(uses) = resolve(alloc, &files) else {
        return Err("a name is wrong".into());
    };
    let mut types = Types::new(alloc);
    let env = Env::new(
        vec![in alloc; Sort::Value(0)]?,
        vec![in alloc; Referent::Function(0)]?,
    );
    let locals = parameters(alloc, &mut types)?;
    let names = Names {
        uses: &uses,
        env: &env,
        locals: &locals,
    };
    first_value(alloc, &files[0], names, &mut types, context)
}

#[test]
fn contexts(rt: HostRuntime) -> Result<(), Fail> {
    for (context, text, wanted) in ROWS {
        assert_eq!(rt; found(rt.alloc(), text, context)?, wanted, "{text}");
    }
    Ok(())
}
