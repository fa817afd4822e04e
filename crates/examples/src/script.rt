//! Scripts in pieces of one byte. Whole ones, with their replies, are rows of `session_vectors`.

use clone_script::{Command, CommandReader, ScriptError};
use std::process::Abort;
use std::test::Fail;

/// Commands of every kind.
const COMMANDS: [&[u8]; 11] = [
    b"classes\n",
    b"maximal\n",
    b"extract 1 sum all\n",
    b"edit a.go 68 68 2\n\n}\n",
    b"add b.go 13\npackage main\n\n",
    b"drop b.go\n",
    b"stat\n",
    b"run 9 2\n12\n",
    b"save\n",
    b"show b.go\n",
    b"quit\n",
];

/// Gives one byte more, and asks for a command.
fn take_behind(
    rt: &(impl Abort + AllocGlobal),
    reader: &mut CommandReader,
    byte: u8,
) -> Result<Command, ScriptError> {
    reader.push(&[byte])?;
    reader.next_command(rt.alloc())
}

/// A script of all commands, in pieces of one byte.
#[test]
fn takes_commands_in_pieces(rt: HostRuntime) -> Result<(), Fail> {
    let mut reader = CommandReader::new(rt.alloc());
    for text in COMMANDS {
        let (last, front) = text.split_last().ok_or("a command has bytes")?;
        for byte in front {
            let answer = take_behind(&rt, &mut reader, *byte);
            assert!(rt; matches!(answer, Err(ScriptError::More)));
        }
        let _whole = take_behind(&rt, &mut reader, *last)?;
        assert!(rt; reader.pending().is_empty());
    }
    let other = take_behind(&rt, &mut reader, b'!');
    assert!(rt; matches!(other, Err(ScriptError::Bad)));
    Ok(())
}

/// 1 MiB in pieces of one byte: what is counted is not looked at again.
#[test]
fn takes_many_bytes_in_pieces(rt: HostRuntime) -> Result<(), Fail> {
    let mut reader = CommandReader::new(rt.alloc());
    reader.push(b"add a.go 1048576\n")?;
    for _ in 0..1_048_576 {
        let answer = take_behind(&rt, &mut reader, b'\n');
        assert!(rt; matches!(answer, Err(ScriptError::More)));
    }
    let whole = take_behind(&rt, &mut reader, b'\n')?;
    assert!(rt; matches!(whole, Command::Add { .. }));
    Ok(())
}
