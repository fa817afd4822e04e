//! What a file answers.

use go_grammar::kind::Kind;
use go_parse::parse;
use go_tokens::lex::lex;
use go_tree::file::File;
use go_tree::node::Node;
use go_tree::statement_lists::StatementLists;
use std::alloc::Global;
use std::test::Fail;

/// The file of this number with this text.
fn parsed(alloc: Global, number: u32, text: &str) -> Result<File, Fail> {
    if text.len() > 1_048_576 {
        return Err("a file has at most 1 MiB".into());
    }
    let tokens = lex(alloc, number, text.as_bytes())?;
    Ok(parse(alloc, &tokens)?)
}

/// The part of a text over which a node stands.
fn text_of<'a>(file: &File, node: &Node, text: &'a str) -> Result<&'a str, Fail> {
    if node.first() >= node.last() || node.last() > file.count() {
        return Err("a node has a token, and lies within the file".into());
    }
    let span = file.span(node);
    Ok(
        text.get(span.start as usize..span.end as usize)
            .ok_or("a node lies within the text")?,
    )
}

/// A file with so many declarations of a type, and an empty line behind them.
fn with_types(alloc: Global, count: u32) -> Result<String, Fail> {
    let mut text = String::from_str(alloc, "package p\n")?;
    for _ in 0..count {
        text.push_str("type T int\n")?;
    }
    text.push_str("\n\n")?;
    Ok(text)
}

/// Each call on a file.
#[test]
fn reads_a_file(rt: HostRuntime) -> Result<(), Fail> {
    let file = parsed(rt.alloc(), 3, "package p; func f()")?;
    assert_eq!(rt; file.number(), 3);
    assert_eq!(rt; file.count(), 8);
    assert_eq!(rt; file.tokens().length(), 19);
    assert_eq!(rt; file.root().kind(), Kind::File);
    assert!(rt; file.imports().is_none());
    assert_eq!(rt; file.declarations().len(), 1);
    assert!(rt; file.declaration(1).is_none());
    assert_eq!(rt; file.text(file.package_name()), b"p".as_slice());
    assert_eq!(rt; file.text(4), b"f".as_slice());
    assert_eq!(rt; file.text(7), b"".as_slice());
    assert_eq!(rt; file.token_span(4).start, 16);
    let node = file.declaration(0).ok_or("a function")?;
    assert!(rt; file.leaf_text(node).is_none());
    assert_eq!(rt; node.first(), 3);
    assert_eq!(rt; node.last(), 7);
    assert_eq!(rt; file.start(node), 11);
    assert_eq!(rt; file.end(node), 19);
    let span = file.span(node);
    assert_eq!(rt; span.file, 3);
    assert_eq!(rt; span.start, 11);
    assert_eq!(rt; span.end, 19);
    Ok(())
}

/// A file of as many bytes as a file may have.
#[test]
fn reads_the_longest_file(rt: HostRuntime) -> Result<(), Fail> {
    let alloc = rt.alloc();
    let text = with_types(alloc, 95_324)?;
    assert_eq!(rt; text.len(), 1_048_576);
    let file = parsed(alloc, 0, text.as_str())?;
    assert_eq!(rt; file.declarations().len(), 95_324);
    Ok(())
}

/// The text of a name is that of its token.
#[test]
fn reads_the_text_of_a_name(rt: HostRuntime) -> Result<(), Fail> {
    let file = parsed(rt.alloc(), 0, "package p; type T int")?;
    let body = file.declaration(0).ok_or("a declaration")?.part(0);
    let name = body.ok_or("a specification")?.part(0).ok_or("a name")?;
    assert_eq!(rt; file.leaf_text(name).ok_or("a text")?, b"int".as_slice());
    Ok(())
}

/// Functions without a body have numbers, and other declarations have none.
#[test]
fn numbers_functions(rt: HostRuntime) -> Result<(), Fail> {
    let text = "package p; import \"a\"; func f(x int) { }; var v int; func g() int; func h() { }";
    let file = parsed(rt.alloc(), 0, text)?;
    let functions = file.functions(rt.alloc())?;
    assert_eq!(rt; functions.count(), 3);
    for (number, wanted) in ["func f(x int) { }", "func g() int", "func h() { }"]
        .iter()
        .enumerate()
    {
        let node = functions.get(number).ok_or(*wanted)?;
        assert_eq!(rt; text_of(&file, node, text)?, *wanted);
    }
    assert!(rt; functions.get(3).is_none());
    Ok(())
}

/// Blocks and clauses, each in front of those within it.
#[test]
fn numbers_statement_lists(rt: HostRuntime) -> Result<(), Fail> {
    let text =
        "package p; func f(x int) { if x == 1 { a() } else if x == 2 { } else { for { b() } }; \
        switch x { case 1, 2: c(); { d() }; default: e() }; { } }";
    let file = parsed(rt.alloc(), 0, text)?;
    let function = file.declaration(0).ok_or("a function")?;
    let lists = StatementLists::of(rt.alloc(), function)?;
    assert_eq!(rt; lists.count(), 9);
    for (number, wanted) in [
        "{ if x == 1 { a() } else if x == 2 { } else { for { b() } }; \
            switch x { case 1, 2: c(); { d() }; default: e() }; { } }",
        "{ a() }",
        "{ }",
        "{ for { b() } }",
        "{ b() }",
        "case 1, 2: c(); { d() };",
        "{ d() }",
        "default: e()",
        "{ }",
    ]
    .iter()
    .enumerate()
    {
        let node = lists.get(number).ok_or(*wanted)?;
        assert_eq!(rt; text_of(&file, node, text)?, *wanted, "{number}");
    }
    assert!(rt; lists.get(9).is_none());
    Ok(())
}
