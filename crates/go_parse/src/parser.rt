//! The tree of a file.

ghost use Rattle.std.specs.Prelude.{◌≡◌};
ghost use Rattle.go_base.specs.Gives.{Meets};
ghost use Rattle.go_tokens.specs.Tokens.{kinds};
ghost use Rattle.go_grammar.specs.Grammar.{IsFile};
ghost use Rattle.go_grammar.specs.Trees.{Tree};
ghost use Rattle.go_tree.specs.Views.{view};
ghost use Rattle.go_parse.specs.Parse.{parse_refusal, IsSyntaxFault};

use crate::engine::tree;
use crate::error::{ParseError, Stop};
use go_base::{Fault, FaultCode, Span};
use go_grammar::kind::Category;
use go_tokens::tokens::Tokens;
use go_tree::file::File;
use std::alloc::Global;

/// The levels that a tree may have: 100 nodes above a node, and that node.
const ROOM: u32 = 101;

/// The tree of a file: it stands over all the tokens, and no node has more than 100 nodes above it.
///
/// # Errors
///
/// The fault 4 (syntax) over the whole file, exactly where there is no such tree; or want of memory.
pub fn parse(alloc: Global, tokens: &Tokens) -> Result<File, ParseError>
    ensures { Meets parse_refusal result (λ f. (f.tokens ≡ tokens.now) × IsFile (kinds tokens.now.tokens) (view f.root)) (λ fault. IsSyntaxFault tokens.now fault × ((t : Tree) → IsFile (kinds tokens.now.tokens) t → ⊥)) }
{
    let count = tokens.count();
    let grown = match tree(alloc, tokens, Category::File, 0, ROOM) {
        Ok(grown) => grown,
        Err(Stop::Memory) => return Err(ParseError::Memory),
        Err(Stop::Syntax) => return Err(ParseError::Fault(no_tree(tokens))),
    };
    if grown.node.last() != count {
        return Err(ParseError::Fault(no_tree(tokens)));
    }
    let Ok(copy) = tokens.copy(alloc) else {
        return Err(ParseError::Memory);
    };
    Ok(File::new(copy, grown.node))
}

/// The fault of a file without a tree.
fn no_tree(tokens: &Tokens) -> Fault
    ensures { IsSyntaxFault tokens.now result }
{
    Fault {
        code: FaultCode::Syntax,
        span: Span {
            file: tokens.file(),
            start: 0,
            end: tokens.length(),
        },
    }
}
