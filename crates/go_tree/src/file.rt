//! The tree of a whole file.

ghost use Rattle.std.specs.Prelude.{◌≡◌, ◌<◌, ◌≤◌, IfOk, length, slice_get, Some};
ghost use Rattle.std.specs.Option.{option_map};
ghost use Rattle.go_grammar.specs.Trees.{first, last, parts};
ghost use Rattle.go_tokens.specs.declared.token.TokenKind.{TokenKind};
ghost use Rattle.go_tokens.specs.Tokens.{kinds};
ghost use Rattle.go_tree.specs.File.{IsFileTree};
ghost use Rattle.go_tree.specs.Lists.{functions, functions_of};
ghost use Rattle.go_tree.specs.Spans.{span_at, token_text, leaf_token, leaf_text, start_of, end_of, file_of};
ghost use Rattle.go_tree.specs.Views.{view, views, part_at, behind_first};

use crate::functions::Functions;
use crate::node::{Node, part_of};
use go_base::Span;
use go_grammar::kind::Kind;
use go_tokens::tokens::Tokens;
use std::alloc::{AllocError, Global};
use std::marker::Model;

/// A file: its tokens with its text, and the tree that stands over all of them.
#[derive(Drop)]
pub struct File {
    tokens: Tokens,
    root: Node,
}

impl Model for File {
    ghost use Rattle.std.specs.Coded.{codes};
    ghost use Rattle.go_tree.specs.contracts.node.Node as e;
    ghost use Rattle.go_tree.specs.File.{FileTree, IsFileTree};

    ghost Value = { FileTree };

    ghost coded = { Prim.hlevel (codes, e.the_row.coded) };

    ghost view = { λ f. record { tokens = f.tokens; root = f.root } };

    ghost invariant = { λ f. IsFileTree (record { tokens = f.tokens; root = f.root }) };
}

impl File {
    /// The file of these tokens and this tree.
    pub fn new(tokens: Tokens, root: Node) -> File
        requires { IsFileTree (record { tokens = tokens; root = root }) }
        ensures { result ≡ record { tokens = tokens; root = root } }
    {
        File { tokens, root }
    }

    /// The node of the whole file.
    pub fn root(&self) -> &Node
        ensures root { result.now ≡ self.now.root }
        ensures stands { IsFileTree self.now }
    {
        &self.root
    }

    /// The file's number.
    pub fn number(&self) -> u32
        ensures { result ≡ self.now.tokens.file }
    {
        self.tokens.file()
    }

    /// The tokens of the file, with its text.
    pub fn tokens(&self) -> &Tokens
        ensures { result.now ≡ self.now.tokens }
    {
        &self.tokens
    }

    /// How many tokens it has.
    pub fn count(&self) -> u32
        ensures { result ≡ length self.now.tokens.tokens }
    {
        self.tokens.count()
    }

    /// The bytes of the token of this number, from 0; an inserted semicolon has none.
    pub fn text(&self, token: u32) -> &[u8]
        requires { token < length self.now.tokens.tokens }
        ensures { token_text self.now.tokens token ≡ Some result.now }
    {
        self.tokens.text(token)
    }

    /// The bytes of a name or a literal; none for any other node, and for one that lies behind the file's tokens.
    pub fn leaf_text(&self, node: &Node) -> Option<&[u8]>
        ensures { leaf_text self.now.tokens (view node.now) ≡ option_map (λ text. text.now) result }
    {
        let token = leaf_token(node)?;
        if token < self.count() {
            Some(self.text(token))
        } else {
            None
        }
    }

    /// The number of the token that is the package's name (Go specification: Package clause).
    pub fn package_name(&self) -> u32
        ensures second { result ≡ 1 }
        ensures within { result < length self.now.tokens.tokens }
        ensures identifier { slice_get (kinds self.now.tokens.tokens) result ≡ Some TokenKind.Identifier }
    {
        self.root.first() + 1
    }

    /// The node of its imports, if it has any (Go specification: Import declarations).
    pub fn imports(&self) -> Option<&Node>
        ensures { part_at (parts (view self.now.root)) 0 ≡ option_map (λ n. view n.now) result }
    {
        self.root.part(0)
    }

    /// The nodes of its declarations other than imports, in order (Go specification: Source file organization).
    pub fn declarations(&self) -> &[Option<Node>]
        ensures { views result.now ≡ behind_first (parts (view self.now.root)) }
    {
        self.root.behind_first()
    }

    /// The declaration of this number, from 0, if there are so many.
    pub fn declaration(&self, number: usize) -> Option<&Node>
        ensures { part_at (behind_first (parts (view self.now.root))) number ≡ option_map (λ n. view n.now) result }
    {
        part_of(self.declarations(), number)
    }

    /// Its functions by number.
    ///
    /// # Errors
    ///
    /// Want of memory.
    pub fn functions(&self, alloc: Global) -> Result<Functions<'_>, AllocError>
        ensures { IfOk result (λ fs. functions_of fs ≡ functions (behind_first (parts (view self.now.root)))) }
    {
        Functions::among(alloc, self.declarations())
    }

    /// The place of the token of this number, from 0.
    pub fn token_span(&self, token: u32) -> Span
        requires { token < length self.now.tokens.tokens }
        ensures { span_at self.now.tokens.tokens token ≡ Some result }
    {
        self.tokens.get(token).span
    }

    /// Where a node begins: the offset of the first byte of its first token.
    pub fn start(&self, node: &Node) -> u32
        requires { first (view node.now) < length self.now.tokens.tokens }
        ensures { start_of self.now.tokens.tokens (view node.now) ≡ Some result }
    {
        self.token_span(node.first()).start
    }

    /// Where a node ends: the offset behind the last byte of its last token.
    pub fn end(&self, node: &Node) -> u32
        requires some { 1 ≤ last (view node.now) }
        requires within { last (view node.now) ≤ length self.now.tokens.tokens }
        ensures { end_of self.now.tokens.tokens (view node.now) ≡ Some result }
    {
        self.token_span(node.last() - 1).end
    }

    /// The bytes of a node: from where it begins up to where it ends.
    pub fn span(&self, node: &Node) -> Span
        requires some { first (view node.now) < last (view node.now) }
        requires within { last (view node.now) ≤ length self.now.tokens.tokens }
        ensures file { file_of self.now.tokens.tokens (view node.now) ≡ Some result.file }
        ensures start { start_of self.now.tokens.tokens (view node.now) ≡ Some result.start }
        ensures end { end_of self.now.tokens.tokens (view node.now) ≡ Some result.end }
    {
        Span {
            file: self.tokens.get(node.first()).span.file,
            start: self.start(node),
            end: self.end(node),
        }
    }
}

/// The number of the token of a name or a literal (Go specification: Operands).
fn leaf_token(node: &Node) -> Option<u32>
    ensures { result ≡ leaf_token (view node.now) }
{
    match node.kind() {
        Kind::Name => Some(node.first()),
        Kind::DeclaredName => Some(node.first()),
        Kind::Integer => Some(node.first()),
        Kind::Rune => Some(node.first()),
        Kind::Text => Some(node.first()),
        Kind::ImportPath => Some(node.first()),
        _ => None,
    }
}
