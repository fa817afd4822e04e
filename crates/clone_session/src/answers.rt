//! Replies to the commands on the present package.

ghost use Rattle.std.specs.Prelude.{◌≡◌, ◌<◌, ◌≤◌, length, IfOk, IfSome, IsSome, OnOk, OnErr};
ghost use Rattle.clone_session.specs.Session.{IsGoodVerdict};
ghost use Rattle.clone_session.specs.Replies.{TextReply};
ghost use Rattle.clone_session.specs.After.{after_command};
ghost use Rattle.clone_session.specs.Answers.{fault_line, Answers, IsNoExtraction, IsListing, IsMaximal, IsNumbers, PackageReply, settings_of};

use crate::extract_answers::extracted;
use crate::numbers::numbers_line;
use crate::run_answers::ran;
use crate::{Check, Session};
use alpha_hash_defs::window_hash::WindowHash;
use clone_script::{Command, fault_reply};
use go_base::{Bytes, Fault, Memory, Steps};
use std::alloc::Global;
use std::marker::Brand;
use std::sync::ledger::{Blank, Ledger};

/// Brings what is known up to the present texts, under a counter of its own.
pub fn refresh<C: Check, H: WindowHash + Copy + Drop, L: Ledger>(
    session: &mut Session<C, H>,
    blank: Blank,
) -> Result<(), Memory>
    requires name { blank.name ≡ L.name }
    requires parts { blank.parts ≡ L.parts }
    requires room { 3 ≤ blank.parts }
    ensures kept { session.new ≡ record session.old { verdict = session.new.verdict } }
    ensures known { IsSome session.old.verdict → session.new ≡ session.old }
    ensures fresh { OnOk result (IsSome session.new.verdict) }
{
    let mut steps = Steps::<L>::new(blank);
    session.refresh(&mut steps)
}

/// The line of a fault of the present package.
pub fn fault_line<C: Check, H: WindowHash + Copy + Drop>(
    alloc: Global,
    session: &Session<C, H>,
    fault: &Fault,
) -> Result<Bytes, Memory>
    ensures { IfOk result (λ reply. reply ≡ fault_line session.now.texts fault.now) }
{
    if fault.span.file < session.files() {
        fault_reply(alloc, session.name_at(fault.span.file), fault)
    } else {
        Err(Memory)
    }
}

/// The reply to `classes`.
fn classes<C: Check, H: WindowHash + Copy + Drop>(
    alloc: Global,
    session: &mut Session<C, H>,
) -> Result<Bytes, Memory>
    ensures reply { IfOk result (λ reply. PackageReply (IsListing session.old.bounds) session.old.texts reply) }
    ensures kept { session.new ≡ record session.old { verdict = session.new.verdict } }
    ensures known { IsSome session.old.verdict → session.new ≡ session.old }
{
    refresh::<C, H, Brand>(session, Blank::new(3))?;
    match session.fault() {
        Some(fault) => fault_line(alloc, session, &fault),
        None => session.listing(),
    }
}

/// The reply to `maximal`.
fn maximal<C: Check, H: WindowHash + Copy + Drop>(
    alloc: Global,
    session: &mut Session<C, H>,
) -> Result<Bytes, Memory>
    ensures reply { IfOk result (λ reply. PackageReply (IsMaximal session.old.bounds) session.old.texts reply) }
    ensures kept { session.new ≡ record session.old { verdict = session.new.verdict } }
    ensures known { IsSome session.old.verdict → session.new ≡ session.old }
{
    refresh::<C, H, Brand>(session, Blank::new(3))?;
    match session.fault() {
        Some(fault) => fault_line(alloc, session, &fault),
        None => session.report(),
    }
}

/// The reply to `stat`.
fn stat<C: Check, H: WindowHash + Copy + Drop>(
    alloc: Global,
    session: &mut Session<C, H>,
) -> Result<Bytes, Memory>
    ensures reply { IfOk result (λ reply. PackageReply (IsNumbers session.old.bounds session.old.texts) session.old.texts reply) }
    ensures kept { session.new ≡ record session.old { verdict = session.new.verdict } }
    ensures known { IsSome session.old.verdict → session.new ≡ session.old }
{
    refresh::<C, H, Brand>(session, Blank::new(3))?;
    match session.fault() {
        Some(fault) => fault_line(alloc, session, &fault),
        None => numbers_line(alloc, session),
    }
}

/// The reply to a command on texts.
fn text<C: Check, H: WindowHash + Copy + Drop>(
    session: &mut Session<C, H>,
    command: &Command,
) -> Result<Bytes, Memory>
    ensures reply { IfOk result (λ reply. TextReply session.old.texts command.now reply session.new.texts) }
    ensures bounds { session.new.bounds ≡ session.old.bounds }
    ensures after { OnOk result (session.new ≡ after_command session.old command.now) }
    ensures err { OnErr result (session.new.texts ≡ session.old.texts) }
{
    session.answer(command)?.ok_or(Memory)
}

/// The reply to a command that is neither `save` nor `quit`. What is known of the texts is dropped only where they were changed.
pub fn answer<C: Check, H: WindowHash + Copy + Drop>(
    alloc: Global,
    session: &mut Session<C, H>,
    command: &Command,
) -> Result<Bytes, Memory>
    ensures reply { IfOk result (λ reply. Answers (settings_of session.old.bounds) session.old.texts command.now reply session.new.texts) }
    ensures bounds { session.new.bounds ≡ session.old.bounds }
    ensures known { IsSome session.old.verdict → IsNoExtraction command.now → OnOk result (session.new ≡ after_command session.old command.now) }
{
    match command {
        Command::Classes => classes(alloc, session),
        Command::Maximal => maximal(alloc, session),
        Command::Stat => stat(alloc, session),
        Command::Extract {
            class,
            name,
            choice,
        } => extracted(alloc, session, *class, name, choice),
        Command::Run { turns, input } => ran(alloc, session, u64::from(*turns), input.as_slice()),
        Command::Save | Command::Quit => Err(Memory),
        _ => text(session, command),
    }
}
