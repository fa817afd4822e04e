//! Answers to commands.

ghost use Rattle.std.specs.Prelude.{◌≡◌, IfOk, OnOk, OnErr, IfSome, IfNone};
ghost use Rattle.edit_apply.specs.Edited.{bytes_under};
ghost use Rattle.edit_apply.specs.Answers.{edit_answer, add_answer, remove_answer};
ghost use Rattle.clone_script.specs.Replies.{show_reply};
ghost use Rattle.clone_session.specs.Replies.{told_of, IsRefusal, Changes, TextReply, IsOther};
ghost use Rattle.clone_session.specs.After.{after_command, changed};

use crate::{Check, Session};
use alpha_hash_defs::window_hash::WindowHash;
use clone_script::{Command, EditAnswer, EditKind, edit_reply, show_reply};
use edit_apply::EditError;
use go_base::{Bytes, Memory, Name};
use std::alloc::Global;

/// What a reply tells of a refusal. Want of memory has no reply.
fn told_of(error: EditError) -> Option<EditAnswer>
    ensures { result ≡ told_of error }
{
    match error {
        EditError::NoFile => Some(EditAnswer::NoFile),
        EditError::Range => Some(EditAnswer::Range),
        EditError::Limit => Some(EditAnswer::Limit),
        EditError::Memory => None,
        EditError::BadName => Some(EditAnswer::BadName),
        EditError::Held => Some(EditAnswer::Held),
    }
}

/// The reply to a command that was refused.
fn refused(alloc: Global, kind: EditKind, error: EditError) -> Result<Bytes, Memory>
    ensures { IfOk result (λ reply. IsRefusal kind error reply) }
{
    match told_of(error) {
        Some(answer) => edit_reply(alloc, kind, answer),
        None => Err(Memory),
    }
}

/// `edit`.
fn edit<C: Check, H: WindowHash + Copy + Drop>(
    alloc: Global,
    session: &mut Session<C, H>,
    name: &Name,
    start: u32,
    end: u32,
    bytes: &[u8],
) -> Result<Bytes, Memory>
    ensures reply { IfOk result (λ reply. Changes EditKind.Edit session.old.texts (edit_answer session.old.texts name.now start end bytes.now) reply session.new.texts) }
    ensures after { OnOk result (session.new ≡ changed session.old (edit_answer session.old.texts name.now start end bytes.now)) }
    ensures err { OnErr result (session.new ≡ session.old) }
{
    let done = edit_reply(alloc, EditKind::Edit, EditAnswer::Done)?;
    match session.edit(name, start, end, bytes) {
        Ok(()) => Ok(done),
        Err(error) => refused(alloc, EditKind::Edit, error),
    }
}

/// `add`.
fn add<C: Check, H: WindowHash + Copy + Drop>(
    alloc: Global,
    session: &mut Session<C, H>,
    name: &Name,
    bytes: &[u8],
) -> Result<Bytes, Memory>
    ensures reply { IfOk result (λ reply. Changes EditKind.Add session.old.texts (add_answer session.old.texts name.now bytes.now) reply session.new.texts) }
    ensures after { OnOk result (session.new ≡ changed session.old (add_answer session.old.texts name.now bytes.now)) }
    ensures err { OnErr result (session.new ≡ session.old) }
{
    let done = edit_reply(alloc, EditKind::Add, EditAnswer::Done)?;
    match session.add(name, bytes) {
        Ok(()) => Ok(done),
        Err(error) => refused(alloc, EditKind::Add, error),
    }
}

/// `drop`.
fn remove<C: Check, H: WindowHash + Copy + Drop>(
    alloc: Global,
    session: &mut Session<C, H>,
    name: &Name,
) -> Result<Bytes, Memory>
    ensures reply { IfOk result (λ reply. Changes EditKind.Drop session.old.texts (remove_answer session.old.texts name.now) reply session.new.texts) }
    ensures after { OnOk result (session.new ≡ changed session.old (remove_answer session.old.texts name.now)) }
    ensures err { OnErr result (session.new ≡ session.old) }
{
    let done = edit_reply(alloc, EditKind::Drop, EditAnswer::Done)?;
    match session.remove(name) {
        Ok(()) => Ok(done),
        Err(error) => refused(alloc, EditKind::Drop, error),
    }
}

/// `show`.
fn show<C: Check, H: WindowHash + Copy + Drop>(
    alloc: Global,
    session: &Session<C, H>,
    name: &Name,
) -> Result<Bytes, Memory>
    ensures { IfOk result (λ reply. reply ≡ show_reply (bytes_under session.now.texts name.now)) }
{
    match session.bytes_of(name)? {
        Some(bytes) => show_reply(alloc, Some(bytes.as_slice())),
        None => show_reply(alloc, None),
    }
}

/// The reply to a command that reads or changes the texts, and none to a command of another sort. What is known of the texts goes
/// where they were changed, and stays else. After want of memory all is as it was.
pub fn answer<C: Check, H: WindowHash + Copy + Drop>(
    alloc: Global,
    session: &mut Session<C, H>,
    command: &Command,
) -> Result<Option<Bytes>, Memory>
    ensures reply { IfOk result (λ answer. IfSome answer (λ reply. TextReply session.old.texts command.now reply session.new.texts)) }
    ensures other { IfOk result (λ answer. IfNone answer (IsOther command.now × (session.new.texts ≡ session.old.texts))) }
    ensures after { OnOk result (session.new ≡ after_command session.old command.now) }
    ensures err { OnErr result (session.new ≡ session.old) }
{
    let reply = match command {
        Command::Edit {
            name,
            start,
            end,
            bytes,
        } => edit(alloc, session, name, *start, *end, bytes.as_slice())?,
        Command::Add { name, bytes } => add(alloc, session, name, bytes.as_slice())?,
        Command::Remove { name } => remove(alloc, session, name)?,
        Command::Show { name } => show(alloc, session, name)?,
        Command::Classes
        | Command::Maximal
        | Command::Stat
        | Command::Extract { .. }
        | Command::Run { .. }
        | Command::Save
        | Command::Quit => return Ok(None),
    };
    Ok(Some(reply))
}
