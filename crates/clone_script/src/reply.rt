ghost use Rattle.std.specs.Prelude.{◌≡◌, ◌++◌, List, ℕ, IfOk, OnOk};
ghost use Rattle.std.specs.Option.{option_map};
ghost use Rattle.std.specs.Fmt.{decimal};
ghost use Rattle.clone_script.specs.Replies.{kind_word, edit_reply, counted, place, fault_reply, stat_reply, show_reply, save_reply, bad_reply};

use go_base::{Bytes, Fault, Memory, Name, Span};
use std::alloc::{AllocError, Global};

/// Which command changes the files.
#[derive(Clone, Copy, Debug, PartialEq, Eq)]
pub enum EditKind {
    Edit,
    Add,
    Drop,
}

/// What became of a command that changes the files: it was done, or why it was refused.
#[derive(Clone, Copy, Debug, PartialEq, Eq)]
pub enum EditAnswer {
    Done,
    /// The name isn't held.
    NoFile,
    /// The range isn't one of the file.
    Range,
    /// The package would pass a limit.
    Limit,
    /// The name hasn't the form of a Go file's.
    BadName,
    /// The name is held.
    Held,
}

impl EditKind {
    fn word(self) -> &'static [u8]
        ensures { result.now ≡ kind_word self }
    {
        match self {
            EditKind::Edit => b"edit",
            EditKind::Add => b"add",
            EditKind::Drop => b"drop",
        }
    }
}

/// Puts a number in decimal behind the others.
fn push_number(alloc: Global, out: &mut Vec<u8>, number: u64) -> Result<(), AllocError>
    ensures { OnOk result (out.new.items ≡ out.old.items ++ decimal number) }
{
    let text = number.to_string(alloc)?;
    out.extend_from_slice(text.as_bytes())
}

/// Puts a text and a number behind the others.
pub fn push_field(
    alloc: Global,
    out: &mut Vec<u8>,
    text: &[u8],
    number: u64,
) -> Result<(), AllocError>
    ensures { OnOk result (out.new.items ≡ out.old.items ++ text.now ++ decimal number) }
{
    out.extend_from_slice(text)?;
    push_number(alloc, out, number)
}

/// Puts the number of bytes and then the bytes behind the others, each with a newline behind it.
pub fn push_counted(alloc: Global, out: &mut Vec<u8>, bytes: &[u8]) -> Result<(), AllocError>
    ensures { OnOk result (out.new.items ≡ out.old.items ++ counted bytes.now) }
{
    push_number(alloc, out, bytes.len() as u64)?;
    out.extend_from_slice(b"\n")?;
    out.extend_from_slice(bytes)?;
    out.extend_from_slice(b"\n")
}

/// Puts FILE:START-END behind the others.
pub fn push_place(
    alloc: Global,
    out: &mut Vec<u8>,
    file: &[u8],
    span: Span,
) -> Result<(), AllocError>
    ensures { OnOk result (out.new.items ≡ out.old.items ++ place file.now span) }
{
    out.extend_from_slice(file)?;
    push_field(alloc, out, b":", u64::from(span.start))?;
    push_field(alloc, out, b"-", u64::from(span.end))
}

/// The text before the command's word, and that behind it.
fn around(answer: EditAnswer) -> (&'static [u8], &'static [u8])
    ensures { (word : List ℕ) → edit_reply word answer ≡ result.0.now ++ word ++ result.1.now }
{
    match answer {
        EditAnswer::Done => (b"ok ", b"\n"),
        EditAnswer::NoFile => (b"no ", b" 1 NoFile\n"),
        EditAnswer::Range => (b"no ", b" 2 Range\n"),
        EditAnswer::Limit => (b"no ", b" 3 Limit\n"),
        EditAnswer::BadName => (b"no ", b" 5 BadName\n"),
        EditAnswer::Held => (b"no ", b" 6 Held\n"),
    }
}

/// The reply to `edit`, `add` and `drop`.
pub fn edit_reply(alloc: Global, kind: EditKind, answer: EditAnswer) -> Result<Bytes, Memory>
    ensures { IfOk result (λ reply. reply ≡ edit_reply (kind_word kind) answer) }
{
    let (front, back) = around(answer);
    let mut out = Vec::from_slice(alloc, front)?;
    out.extend_from_slice(kind.word())?;
    out.extend_from_slice(back)?;
    Ok(Bytes::of(out))
}

/// The reply to a command that needs a package without a fault: the fault, and its place in the file.
pub fn fault_reply(alloc: Global, file: &Name, fault: &Fault) -> Result<Bytes, Memory>
    ensures { IfOk result (λ reply. reply ≡ fault_reply file.now fault.now) }
{
    let mut out = Vec::new(alloc);
    push_field(alloc, &mut out, b"fault ", u64::from(fault.code.number()))?;
    out.extend_from_slice(b" ")?;
    out.extend_from_slice(fault.code.word().as_bytes())?;
    out.extend_from_slice(b" ")?;
    push_place(alloc, &mut out, file.bytes(), fault.span)?;
    out.extend_from_slice(b"\n")?;
    Ok(Bytes::of(out))
}

/// The reply to `stat`: the counts of files, bytes, functions with a body, windows, distinct hashes of
/// these, and classes.
pub fn stat_reply(
    alloc: Global,
    files: u32,
    bytes: u32,
    functions: u32,
    windows: u32,
    hashes: u64,
    classes: u32,
) -> Result<Bytes, Memory>
    ensures { IfOk result (λ reply. reply ≡ stat_reply files bytes functions windows hashes classes) }
{
    let mut out = Vec::new(alloc);
    push_field(alloc, &mut out, b"stat files ", u64::from(files))?;
    push_field(alloc, &mut out, b" bytes ", u64::from(bytes))?;
    push_field(alloc, &mut out, b" functions ", u64::from(functions))?;
    push_field(alloc, &mut out, b" windows ", u64::from(windows))?;
    push_field(alloc, &mut out, b" hashes ", hashes)?;
    push_field(alloc, &mut out, b" classes ", u64::from(classes))?;
    out.extend_from_slice(b"\n")?;
    Ok(Bytes::of(out))
}

/// The reply to `show`: how many bytes the file has and these bytes, or that its name isn't held.
pub fn show_reply(alloc: Global, text: Option<&[u8]>) -> Result<Bytes, Memory>
    ensures { IfOk result (λ reply. reply ≡ show_reply (option_map (λ t. t.now) text.entry)) }
{
    let mut out = Vec::new(alloc);
    let Some(text) = text else {
        out.extend_from_slice(b"no show 1 NoFile\n")?;
        return Ok(Bytes::of(out));
    };
    out.extend_from_slice(b"show ")?;
    push_counted(alloc, &mut out, text)?;
    Ok(Bytes::of(out))
}

/// The reply to `save`, where every file that is held was written: how many they are.
pub fn save_reply(alloc: Global, files: u32) -> Result<Bytes, Memory>
    ensures { IfOk result (λ reply. reply ≡ save_reply files) }
{
    let mut out = Vec::new(alloc);
    push_field(alloc, &mut out, b"ok save ", u64::from(files))?;
    out.extend_from_slice(b"\n")?;
    Ok(Bytes::of(out))
}

/// The last reply to a script whose bytes from this offset on are no command.
pub fn bad_reply(alloc: Global, offset: u32) -> Result<Bytes, Memory>
    ensures { IfOk result (λ reply. reply ≡ bad_reply offset) }
{
    let mut out = Vec::new(alloc);
    push_field(alloc, &mut out, b"bad ", u64::from(offset))?;
    out.extend_from_slice(b"\n")?;
    Ok(Bytes::of(out))
}
