//! The words of the statements of a list.

ghost use Rattle.std.specs.Prelude.{◌≡◌, ◌<◌, ◌++◌, ◌+◌, ◌-◌, ◌^◌, true, length, drop, map, min, take, IfOk, OnOk};
ghost use Rattle.go_typed.specs.Packages.{PackageView};
ghost use Rattle.go_typed.specs.Views.{views};
ghost use Rattle.alpha_hash_defs.specs.Packages.{window_hash};
ghost use Rattle.alpha_hash_defs.specs.Words.{window_words};
ghost use Rattle.alpha_hash.specs.Shown.{knows_locals, knows_part, knows_parts, naming, shown};
ghost use Rattle.alpha_hash.specs.Starts.{AreWordsOf, HasWords, IsStart, ends_from, number_of, statement_words};

use crate::names::Names;
use crate::numbers::numbers_of;
use crate::start::{Start, number_of};
use crate::word::Word;
use crate::words::push_statement;
use clone_window::run::statements;
use go_base::Memory;
use go_typed::checked::Checked;
use go_typed::node::TypedNode;
use go_typed::window::Window;
use std::alloc::{AllocError, Global};

/// The most statements of a window.
const MOST: usize = 32;

/// The words of the statements of a run, one statement after the other, and how many words stand in front of each statement and
/// behind the last one.
#[derive(Debug, Drop)]
pub struct ListWords {
    run: Window,
    words: Vec<Word>,
    ends: Vec<usize>,
}

impl ListWords {
    /// The words of the statements of a run; none where the package has no such run.
    ///
    /// # Errors
    ///
    /// Want of memory.
    pub fn of(alloc: Global, checked: &Checked, run: Window) -> Result<ListWords, Memory>
        ensures words { IfOk result (HasWords checked.now) }
        ensures run { IfOk result (λ l. l.run ≡ run) }
    {
        let _types = checked.types();
        match checked.function(run.func) {
            Some(f) => {
                let names = Names {
                    checked,
                    locals: f.locals(),
                };
                words_over(alloc, names, run, statements(f, &run))
            }
            None => {
                let names = Names {
                    checked,
                    locals: &[],
                };
                words_over(alloc, names, run, &[])
            }
        }
    }

    /// How many statements there are.
    pub fn count(&self) -> usize
        ensures count { result ≡ min self.now.run.count (length self.now.ends.items - 1) }
    {
        (self.run.count as usize).min(self.ends.len().saturating_sub(1))
    }

    /// The number of the run.
    ///
    /// # Errors
    ///
    /// Want of memory.
    pub fn number(&self, alloc: Global) -> Result<u64, AllocError>
        ensures { (p : PackageView) → HasWords p self.now → IfOk result (λ n. n ≡ window_hash p self.now.run) }
    {
        let numbers = numbers_of(alloc, &self.words)?;
        Ok(number_of(&numbers, self.words.len()))
    }

    /// The numbers of the windows that begin with the statement at this place, of up to 32 statements.
    ///
    /// # Errors
    ///
    /// Want of memory.
    pub fn start(&self, alloc: Global, index: usize) -> Result<Start, AllocError>
        requires place { index < min self.now.run.count (length self.now.ends.items - 1) }
        requires room { self.now.run.first + self.now.run.count < 2 ^ 32 }
        ensures { (p : PackageView) → HasWords p self.now → IfOk result (IsStart p) }
    {
        let count = MOST.min(self.count() - index);
        let begin = end_at(&self.ends, index);
        let end = end_at(&self.ends, index + count);
        let numbers = numbers_of(alloc, words_between(&self.words, begin, end))?;
        let ends = &self.ends[index..index + count + 1];
        Ok(Start {
            run: Window {
                first: self.run.first + index as u32,
                count: count as u32,
                ..self.run
            },
            numbers: numbers_at(alloc, &numbers, begin, ends)?,
        })
    }
}

/// The words of statements, which are those of this run.
fn words_over(
    alloc: Global,
    names: Names<'_>,
    run: Window,
    statements: &[Option<TypedNode>],
) -> Result<ListWords, Memory>
    requires locals { knows_locals names ≡ true }
    requires statements { knows_parts names (views statements.now) ≡ true }
    ensures run { IfOk result (λ l. l.run ≡ run) }
    ensures words { IfOk result (AreWordsOf (naming names.entry) (views statements.now)) }
{
    let mut words = Vec::new(alloc);
    let mut ends = Vec::new(alloc);
    push_statements(alloc, names, statements, &mut words, &mut ends)?;
    Ok(ListWords { run, words, ends })
}

/// Puts the words of statements behind the others, and how many words there are in front of each statement and behind the last.
fn push_statements(
    alloc: Global,
    names: Names<'_>,
    statements: &[Option<TypedNode>],
    words: &mut Vec<Word>,
    ends: &mut Vec<usize>,
) -> Result<(), Memory>
    requires locals { knows_locals names ≡ true }
    requires statements { knows_parts names (views statements.now) ≡ true }
    ensures words { OnOk result (shown words.new.items ≡ shown words.old.items ++ window_words (naming names.entry) (views statements.now)) }
    ensures ends { OnOk result (ends.new.items ≡ ends.old.items ++ ends_from (naming names.entry) (length words.old.items) (views statements.now)) }
{
    for statement in statements {
        ends.push(words.len())?;
        push_if_there(alloc, names, statement, words)?;
    }
    ends.push(words.len())?;
    Ok(())
}

/// Puts the words of a statement behind the others, if it is there.
fn push_if_there(
    alloc: Global,
    names: Names<'_>,
    statement: &Option<TypedNode>,
    words: &mut Vec<Word>,
) -> Result<(), Memory>
    requires locals { knows_locals names ≡ true }
    requires statement { knows_part names statement.now ≡ true }
    ensures { OnOk result (shown words.new.items ≡ shown words.old.items ++ statement_words (naming names.entry) statement.now) }
{
    match statement {
        Some(node) => push_statement(alloc, names, node, words),
        None => Ok(()),
    }
}

/// How many words stand in front of the statement at this place, if there is one.
fn end_at(ends: &[usize], place: usize) -> usize
    ensures { result ≡ number_of ends.now place }
{
    match ends.get(place) {
        Some(end) => *end,
        None => 0,
    }
}

/// The words from one place up to another one, as far as there are so many.
fn words_between(words: &[Word], begin: usize, end: usize) -> &[Word]
    ensures { result.now ≡ take (end - begin) (drop begin words.now) }
{
    let first = begin.min(words.len());
    let last = end.min(words.len()).max(first);
    &words[first..last]
}

/// The numbers at some ends of rows of words, which begin behind so many words.
fn numbers_at(
    alloc: Global,
    numbers: &[u64],
    begin: usize,
    ends: &[usize],
) -> Result<Vec<u64>, AllocError>
    ensures { IfOk result (λ v. v.items ≡ map (λ e. number_of numbers.now (e - begin)) ends.now) }
{
    let mut out = Vec::with_capacity(alloc, ends.len())?;
    for end in ends {
        out.push(number_of(numbers, end.saturating_sub(begin)))?;
    }
    Ok(out)
}
