//! Files, and the expressions that stand in them.

ghost use Rattle.std.specs.Prelude.{◌≡◌, ◌≤◌, IfSome, length};
ghost use Rattle.go_tree.specs.Units.{word};
ghost use Rattle.go_tree.specs.Views.{view};
ghost use Rattle.go_exprs_engine.specs.Literals.{AllRead};

use go_exprs::laws::literals_read;
use go_grammar::kind::Kind;
use go_parse::parse;
use go_tokens::lex::lex;
use go_tokens::tokens::Tokens;
use go_tree::file::File;
use go_tree::node::Node;
use std::alloc::Global;

/// The file with this text; none where it has no tree, or memory ran out.
pub fn file(alloc: Global, text: &[u8]) -> Option<File>
    requires { length text.now ≤ 1048576 }
    ensures { IfSome result (λ f. AllRead (word f.tokens) (view f.root)) }
{
    literals_read();
    let Ok(tokens) = lex(alloc, 0, text) else {
        return None;
    };
    let Ok(file) = parse(alloc, &tokens) else {
        return None;
    };
    file.root();
    Some(file)
}

/// A part of a node.
pub fn part<'a>(tokens: &Tokens, node: &'a Node, number: usize) -> Option<&'a Node>
    requires { AllRead (word tokens.now) (view node.now) }
    ensures { IfSome result (λ p. AllRead (word tokens.now) (view p.now)) }
{
    let _tokens = tokens;
    literals_read();
    node.part(number)
}

/// What follows the names of a variable declaration.
#[derive(Clone, Copy)]
pub struct Right<'a> {
    /// The type, if one is written.
    pub of: Option<&'a Node>,
    /// The list of values, if there are any.
    pub values: Option<&'a Node>,
}

/// What follows the names of the first variable declaration of a file, or of its first function's body.
pub fn declared<'a>(file: &'a File) -> Option<Right<'a>>
    requires { AllRead (word file.now.tokens) (view file.now.root) }
    ensures of { IfSome result (λ r. IfSome r.of (λ n. AllRead (word file.now.tokens) (view n.now))) }
    ensures values { IfSome result (λ r. IfSome r.values (λ n. AllRead (word file.now.tokens) (view n.now))) }
{
    let tokens = file.tokens();
    let declaration = part(tokens, file.root(), 1)?;
    let variable = match declaration.kind() {
        Kind::FunctionDeclaration => part(tokens, part(tokens, declaration, 1)?, 0)?,
        _ => declaration,
    };
    let specification = part(tokens, variable, 0)?;
    let rest = part(tokens, specification, 1)?;
    right_side(tokens, rest)
}

/// The type and the values of what follows the names.
fn right_side<'a>(tokens: &Tokens, rest: &'a Node) -> Option<Right<'a>>
    requires { AllRead (word tokens.now) (view rest.now) }
    ensures of { IfSome result (λ r. IfSome r.of (λ n. AllRead (word tokens.now) (view n.now))) }
    ensures values { IfSome result (λ r. IfSome r.values (λ n. AllRead (word tokens.now) (view n.now))) }
{
    match rest.kind() {
        Kind::TypedValues => Some(Right {
            of: part(tokens, rest, 0),
            values: part(tokens, rest, 1),
        }),
        Kind::Values => Some(Right {
            of: None,
            values: part(tokens, rest, 0),
        }),
        _ => Some(Right {
            of: Some(rest),
            values: None,
        }),
    }
}
