//! A session.

ghost use Rattle.std.specs.Prelude.{◌≡◌, List, ◌≤◌, ◌<◌, ◌+◌, ◌-◌, Some, None, IsSome, IsSomeAnd, IfSome, IfNone, IfOk, IfErr, OnOk, OnErr, is_some, length, min, take, drop, slice_get};
ghost use Rattle.std.specs.Option.{option_map};
ghost use Rattle.go_base.specs.Gives.{Gives, Meets};
ghost use Rattle.go_base.specs.Package.{IsPackage};
ghost use Rattle.edit_apply.specs.Edited.{bytes_under};
ghost use Rattle.edit_apply.specs.Answers.{edit_refusal, edit_answer, add_answer, remove_answer};
ghost use Rattle.go_scopes.specs.Views.{failure_of};
ghost use Rattle.go_typed.specs.Contents.{Content as Whole};
ghost use Rattle.go_package_defs.specs.Checked.{IsChecked, IsCheckedPackage, IsGood, IsReported, texts_of};
ghost use Rattle.go_typed.specs.declared.window.Window.{Window as Member};
ghost use Rattle.clone_classes.specs.Classes.{Among};
ghost use Rattle.clone_classes.specs.Listing.{members_of};
ghost use Rattle.clone_session.specs.Replies.{TextReply, IsOther};
ghost use Rattle.clone_window.specs.declared.bounds.Bounds.{Bounds as Limits};
ghost use Rattle.clone_replies.specs.Classes.{classes_in};
ghost use Rattle.clone_replies.specs.Listing.{listing_reply};
ghost use Rattle.clone_replies.specs.Maximal.{covered_in, maximal_in, maximal_reply};
ghost use Rattle.go_eval.specs.Runs.{outcome_view, refusal};
ghost use Rattle.clone_replies.specs.ReplyContents.{run_in};
ghost use Rattle.clone_replies.specs.Numbers.{numbers_in};
ghost use Rattle.clone_session.specs.After.{after_command};
ghost use Rattle.clone_session.specs.Extracting.{IsDone, IsNotDone};
ghost use Rattle.extract_rewrite.specs.Shown.{extract_refusal, extracted_shown};
ghost use Rattle.edit_apply.specs.Applied.{AreApplicable, applied};
ghost use Rattle.go_package_defs.specs.Refusals.{check_refusal};
ghost use Rattle.clone_session.specs.Answers.{IsRunOf};
ghost use Rattle.clone_session.specs.Maximal.{LiesInOneOf};
ghost use Rattle.clone_session.specs.Session.{IsGoodVerdict, fault_in, windows_entered};
ghost use Rattle.clone_session.specs.declared.verdict.Verdict.TheVariants as verdict;

use crate::check::Check;
use crate::extract::taken;
use crate::indexed::{classes_of, indexed};
use crate::laws::listings_follow_from_the_texts;
use crate::maximal::{covered_of, maximal_of, report_of};
use crate::run::{run_of, run_under};
use crate::verdict::{Verdict, judged};
use crate::{answer, copy_under, file_at};
use alpha_hash_defs::window_hash::WindowHash;
use clone_classes::choose::Choice;
use clone_replies::{Numbers, class_reply, numbers_of};
use clone_script::Command;
use edit_apply::{EditError, Texts};
use extract_rewrite::error::ExtractError;
use extract_rewrite::extracted::Extracted;
use go_base::{Bytes, Fault, FileText, Memory, Name, Steps};
use go_eval::outcome::{Outcome, RunError};
use go_package_defs::CheckError;
use go_typed::checked::Checked;
use go_typed::window::Class;
use std::alloc::Global;
use std::marker::{Model, PhantomData};
use std::sync::ledger::Ledger;
use window_index::index::Index;

/// A session: the present texts of a package, and what the check says of them, where it was asked since they changed. Beside a
/// package that type-checks stands the index of its windows. What a check said for a run, which needs no index, is kept apart until
/// windows are asked for.
#[derive(Drop)]
pub struct Session<C, H: WindowHash> {
    alloc: Global,
    texts: Texts,
    min: u32,
    mass: u32,
    hash: H,
    verdict: Option<Verdict>,
    index: Option<Index<H>>,
    judged: Option<Verdict>,
    check: PhantomData<C>,
}

impl<C, H: WindowHash> Model for Session<C, H> {
    ghost use Rattle.std.specs.Coded.{codes};
    ghost use Rattle.std.specs.Prelude.{IfSome};
    ghost use Rattle.go_tree.specs.contracts.node.Node as n;
    ghost use Rattle.go_typed.specs.contracts.node.TypedNode as e;
    ghost use Rattle.clone_session.specs.Session.{SessionView, AreBounds, IsIndexed, IsOf};

    ghost Value = { SessionView };

    ghost coded = { Prim.hlevel (codes, n.the_row.coded, e.the_row.coded) };

    ghost view = { λ s. record { texts = s.texts; bounds = record { fewest = s.min; least = s.mass }; verdict = s.verdict } };

    ghost invariant = { λ s. AreBounds (record { fewest = s.min; least = s.mass }) × IfSome s.verdict (IsOf s.texts)
        × IsIndexed H.number (record { fewest = s.min; least = s.mass }) s.verdict s.index × IfSome s.judged (IsOf s.texts) };
}

impl<C: Check, H: WindowHash + Copy + Drop> Session<C, H> {
    /// A session that begins with these files. Windows have from `min` to 32 statements and at least this mass; they are found by
    /// this hash.
    ///
    /// # Errors
    ///
    /// Want of memory.
    pub fn load(
        alloc: Global,
        files: Vec<FileText>,
        min: u32,
        mass: u32,
        hash: H,
    ) -> Result<Self, Memory>
        requires package { IsPackage files.items }
        requires some { 1 ≤ min }
        requires at_most { min ≤ 32 }
        requires heavy { 1 ≤ mass }
        requires light { mass ≤ 1000 }
        ensures { IfOk result (λ s. s ≡ record { texts = files.items; bounds = record { fewest = min; least = mass }; verdict = None }) }
    {
        Ok(Session {
            alloc,
            texts: Texts::load(alloc, files)?,
            min,
            mass,
            hash,
            verdict: None,
            index: None,
            judged: None,
            check: PhantomData,
        })
    }

    /// Puts new bytes in the place of those from `start` to before `end` of the file of a name.
    ///
    /// # Errors
    ///
    /// The first refusal that applies. Then all is as it was.
    pub fn edit(&mut self, name: &Name, start: u32, end: u32, new: &[u8]) -> Result<(), EditError>
        ensures answer { Gives (λ _. self.new.texts) edit_refusal result (edit_answer self.old.texts name.now start end new.now) }
        ensures stale { OnOk result (self.new ≡ record self.old { texts = self.new.texts; verdict = None }) }
        ensures err { OnErr result (self.new ≡ self.old) }
    {
        self.texts.edit(name, start, end, new)?;
        self.verdict = None;
        self.index = None;
        self.judged = None;
        Ok(())
    }

    /// Takes in a file of a new name.
    ///
    /// # Errors
    ///
    /// The first refusal that applies. Then all is as it was.
    pub fn add(&mut self, name: &Name, bytes: &[u8]) -> Result<(), EditError>
        ensures answer { Gives (λ _. self.new.texts) edit_refusal result (add_answer self.old.texts name.now bytes.now) }
        ensures stale { OnOk result (self.new ≡ record self.old { texts = self.new.texts; verdict = None }) }
        ensures err { OnErr result (self.new ≡ self.old) }
    {
        self.texts.add(name, bytes)?;
        self.verdict = None;
        self.index = None;
        self.judged = None;
        Ok(())
    }

    /// Takes out the file of a name.
    ///
    /// # Errors
    ///
    /// `NoFile` where the name isn't held. Then all is as it was.
    pub fn remove(&mut self, name: &Name) -> Result<(), EditError>
        ensures answer { Gives (λ _. self.new.texts) edit_refusal result (remove_answer self.old.texts name.now) }
        ensures only { IfErr result (λ e. e ≡ EditError.NoFile) }
        ensures stale { OnOk result (self.new ≡ record self.old { texts = self.new.texts; verdict = None }) }
        ensures err { OnErr result (self.new ≡ self.old) }
    {
        self.texts.remove(name)?;
        self.verdict = None;
        self.index = None;
        self.judged = None;
        Ok(())
    }

    /// Brings what is known up to the present texts: they are checked, and the windows of a package that type-checks are put into a
    /// new index, each once. Where they were known already nothing is done, and where a run had them checked that check stands.
    ///
    /// # Errors
    ///
    /// Want of memory. Then the texts are as before, and the next call works anew from them.
    pub fn refresh<L: Ledger>(&mut self, steps: &mut Steps<L>) -> Result<(), Memory>
        ensures kept { self.new ≡ record self.old { verdict = self.new.verdict } }
        ensures fresh { OnOk result (IsSome self.new.verdict) }
        ensures known { IsSome self.old.verdict → self.new ≡ self.old }
        ensures anew { OnErr result (self.new.verdict ≡ None) }
        ensures entered { OnOk result (steps.new.entered ≡ steps.old.entered + windows_entered self.old.bounds self.old.verdict self.new.verdict) }
    {
        if self.is_fresh() {
            return Ok(());
        }
        let verdict = judged::<C>(self.alloc, &self.texts, self.judged.take())?;
        let index = indexed(self.alloc, &verdict, self.hash, self.min, self.mass, steps)?;
        self.verdict = Some(verdict);
        self.index = index;
        Ok(())
    }

    /// Whether what is known is of the present texts: the last `refresh` was done, and nothing changed since.
    pub fn is_fresh(&self) -> bool
        ensures { result ≡ is_some self.now.verdict }
    {
        self.verdict.is_some()
    }

    /// The fault that is reported of the present package; none exactly where it type-checks.
    pub fn fault(&self) -> Option<Fault>
        requires { IsSome self.now.verdict }
        ensures value { result ≡ fault_in self.now.verdict }
        ensures good { IfNone result (IsGood self.now.texts) }
        ensures reported { IfSome result (λ fault. IsReported self.now.texts (failure_of fault)) }
    {
        match &self.verdict {
            Some(Verdict::Faulty(fault)) => Some(*fault),
            _ => None,
        }
    }

    /// The present package with its types.
    pub fn checked(&self) -> &Checked
        requires { IsGoodVerdict self.now.verdict }
        ensures package { self.now.verdict ≡ Some (verdict.Good result.now) }
        ensures checked { IsCheckedPackage result.now }
        ensures texts { texts_of result.now ≡ self.now.texts }
    {
        match &self.verdict {
            Some(Verdict::Good(package)) => package.package(),
            _ => unreachable!(),
        }
    }

    /// The clone classes of the present package.
    ///
    /// # Errors
    ///
    /// Want of memory.
    pub fn classes(&self) -> Result<Vec<Class>, Memory>
        requires { IsGoodVerdict self.now.verdict }
        ensures { IfOk result (λ cs. (c : Whole) → IsChecked self.now.texts c → members_of cs.items ≡ classes_in self.now.bounds c) }
    {
        match (&self.verdict, &self.index) {
            (Some(Verdict::Good(package)), Some(index)) => {
                classes_of(self.alloc, package.package(), index)
            }
            _ => unreachable!(),
        }
    }

    /// The listing of the clone classes of the present package.
    ///
    /// # Errors
    ///
    /// Want of memory.
    pub fn listing(&self) -> Result<Bytes, Memory>
        requires { IsGoodVerdict self.now.verdict }
        ensures { IfOk result (λ reply. (c : Whole) → IsChecked self.now.texts c → reply ≡ listing_reply self.now.bounds c) }
    {
        let classes = self.classes()?;
        listing_of(self.alloc, self.checked(), &classes)
    }

    /// The numbers of the maximal ones among the clone classes of the present package, counted from 1.
    ///
    /// # Errors
    ///
    /// Want of memory.
    pub fn maximal(&self) -> Result<Vec<u32>, Memory>
        requires { IsGoodVerdict self.now.verdict }
        ensures numbers { IfOk result (λ v. (c : Whole) → IsChecked self.now.texts c → v.items ≡ maximal_in self.now.bounds c) }
        // Every member of every class lies within a member of one of these.
        ensures within { IfOk result (λ v. (c : Whole) (class : List Member) (w : Member) → IsChecked self.now.texts c → Among (classes_in self.now.bounds c) class → Among class w → LiesInOneOf (classes_in self.now.bounds c) v.items w) }
    {
        let classes = self.classes()?;
        maximal_of(self.alloc, self.checked(), &classes)
    }

    /// Of the statements in the functions of the file with this number, in the order of the names, how many are covered by members of
    /// clone classes, and how many there are. A file that isn't held has none.
    ///
    /// # Errors
    ///
    /// Want of memory.
    pub fn covered(&self, file: u32) -> Result<(u32, u32), Memory>
        requires { IsGoodVerdict self.now.verdict }
        ensures { IfOk result (λ n. (c : Whole) → IsChecked self.now.texts c → n ≡ covered_in self.now.bounds c file) }
    {
        let classes = self.classes()?;
        covered_of(self.alloc, self.checked(), &classes, file)
    }

    /// The reply to `maximal`: the maximal clone classes of the present package, and how much of each file is covered.
    ///
    /// # Errors
    ///
    /// Want of memory.
    pub fn report(&self) -> Result<Bytes, Memory>
        requires { IsGoodVerdict self.now.verdict }
        ensures { IfOk result (λ reply. (c : Whole) → IsChecked self.now.texts c → reply ≡ maximal_reply self.now.bounds c) }
    {
        let classes = self.classes()?;
        report_of(self.alloc, self.checked(), &classes)
    }

    /// What the run of the present package with this input and so many turns comes to.
    ///
    /// # Errors
    ///
    /// `NoMain` exactly where the package isn't named `main` or has no function `main`; also want of memory.
    pub fn run(&self, input: &[u8], turns: u64) -> Result<Outcome, RunError>
        requires { IsGoodVerdict self.now.verdict }
        ensures { (c : Whole) → IsChecked self.now.texts c → Gives outcome_view refusal result (run_in c input.now turns) }
    {
        run_of(self.alloc, self.checked(), input, turns)
    }

    /// What the run of the present package with this input and so many turns comes to. The texts are checked where they weren't since
    /// they changed; no window is looked for, so that what is known of windows stays as it was.
    ///
    /// # Errors
    ///
    /// The fault that is reported, exactly where the package doesn't type-check; or want of memory.
    pub fn run_present(
        &mut self,
        input: &[u8],
        turns: u64,
    ) -> Result<Result<Outcome, RunError>, CheckError>
        ensures answer { Meets check_refusal result (IsRunOf self.old.texts input.now turns) (λ fault. IsReported self.old.texts (failure_of fault)) }
        ensures kept { self.new ≡ self.old }
    {
        if let Some(verdict) = &self.verdict {
            return run_under(self.alloc, verdict, input, turns);
        }
        let verdict = judged::<C>(self.alloc, &self.texts, self.judged.take())?;
        let answer = run_under(self.alloc, &verdict, input, turns);
        self.judged = Some(verdict);
        answer
    }

    /// The numbers of the present package.
    ///
    /// # Errors
    ///
    /// Want of memory.
    pub fn stat(&self) -> Result<Numbers, Memory>
        requires { IsGoodVerdict self.now.verdict }
        ensures { IfOk result (λ n. (c : Whole) → IsChecked self.now.texts c → n ≡ numbers_in self.now.bounds self.now.texts c) }
    {
        let classes = self.classes()?;
        numbers_of(self.alloc, self.checked(), self.min, self.mass, &classes)
    }

    /// The chosen members of the class with this number in the listing are taken out into a function of this name: at each stands a
    /// call, and the function at the end of the first one's file. Then nothing is known of the texts.
    ///
    /// # Errors
    ///
    /// The refusal of the least code that applies, with the member's number in the class, or with the number that is no member's; or
    /// want of memory. Then all is as it was.
    pub fn extract(
        &mut self,
        class: u32,
        name: &[u8],
        choice: &Choice,
    ) -> Result<Extracted, ExtractError>
        requires { IsGoodVerdict self.old.verdict }
        ensures answer { Meets extract_refusal result (λ x. IsDone self.old.bounds self.old.texts class name.now choice.now (extracted_shown x)) (IsNotDone self.old.bounds self.old.texts class name.now choice.now) }
        ensures texts { IfOk result (λ x. self.new.texts ≡ applied self.old.texts x.edits) }
        ensures stale { OnOk result (self.new ≡ record self.old { texts = self.new.texts; verdict = None }) }
        ensures err { OnErr result (self.new ≡ self.old) }
    {
        let extracted = self.extraction(class, name, choice)?;
        self.texts.apply(extracted.edits.as_slice())?;
        self.verdict = None; // It was that of the old texts.
        self.index = None;
        self.judged = None;
        Ok(extracted)
    }

    /// The edits that take the chosen members of a class out, with what is told of them; nothing is changed.
    fn extraction(
        &self,
        class: u32,
        name: &[u8],
        choice: &Choice,
    ) -> Result<Extracted, ExtractError>
        requires { IsGoodVerdict self.now.verdict }
        ensures answer { Meets extract_refusal result (λ x. IsDone self.now.bounds self.now.texts class name.now choice.now (extracted_shown x)) (IsNotDone self.now.bounds self.now.texts class name.now choice.now) }
        ensures ready { IfOk result (λ x. AreApplicable self.now.texts x.edits) }
    {
        let classes = self.classes()?;
        taken(
            self.alloc,
            self.checked(),
            &self.texts,
            &classes,
            class,
            name,
            choice,
        )
    }

    /// The reply to a command that reads or changes the texts, and none to a command of another sort. What is known of the texts goes
    /// where an `edit`, `add` or `drop` was done, and stays else: after `show`, and after a command that was refused.
    ///
    /// # Errors
    ///
    /// Want of memory. Then all is as it was.
    pub fn answer(&mut self, command: &Command) -> Result<Option<Bytes>, Memory>
        ensures reply { IfOk result (λ answer. IfSome answer (λ reply. TextReply self.old.texts command.now reply self.new.texts)) }
        ensures other { IfOk result (λ answer. IfNone answer (IsOther command.now × (self.new.texts ≡ self.old.texts))) }
        ensures bounds { self.new.bounds ≡ self.old.bounds }
        ensures after { OnOk result (self.new ≡ after_command self.old command.now) }
        ensures err { OnErr result (self.new ≡ self.old) }
    {
        answer(self.alloc, self, command)
    }

    /// A copy of the bytes of the file of a name, if there is one.
    ///
    /// # Errors
    ///
    /// Want of memory.
    pub fn bytes_of(&self, name: &Name) -> Result<Option<Bytes>, Memory>
        ensures { IfOk result (λ bytes. bytes ≡ bytes_under self.now.texts name.now) }
    {
        copy_under(self.alloc, &self.texts, name)
    }

    /// A copy of the file with this number, in the order of the names.
    ///
    /// # Errors
    ///
    /// Want of memory.
    pub fn file_at(&self, file: u32) -> Result<FileText, Memory>
        requires { file < length self.now.texts }
        ensures { IfOk result (λ copy. slice_get self.now.texts file ≡ Some copy) }
    {
        file_at(self.alloc, &self.texts, file)
    }

    /// How many files there are.
    pub fn files(&self) -> u32
        ensures { result ≡ length self.now.texts }
    {
        self.texts.files()
    }

    /// The name of the file with this number, in the order of names.
    pub fn name_at(&self, file: u32) -> &Name
        requires { file < length self.now.texts }
        ensures { option_map (λ f. f.name) (slice_get self.now.texts file) ≡ Some result.now }
    {
        self.texts.name_at(file)
    }

    /// How many bytes the file of a name has.
    pub fn length(&self, name: &Name) -> Option<u32>
        ensures { result ≡ option_map length (bytes_under self.now.texts name.now) }
    {
        self.texts.length(name)
    }

    /// Moves bytes of the file of a name, from an offset on, to the front of the buffer, as many as fit, and answers how many.
    pub fn text_at(&self, name: &Name, from: u32, buf: &mut [u8]) -> usize
        requires { IsSomeAnd (bytes_under self.now.texts name.now) (λ bytes. from ≤ length bytes) }
        ensures count { IfSome (bytes_under self.now.texts name.now) (λ bytes. result ≡ min (length buf.old) (length bytes - from)) }
        ensures copied { IfSome (bytes_under self.now.texts name.now) (λ bytes. take result buf.new ≡ take result (drop from bytes)) }
        ensures kept { drop result buf.new ≡ drop result buf.old }
    {
        self.texts.text_at(name, from, buf)
    }
}

/// The listing of the clone classes of a package that type-checks.
fn listing_of(alloc: Global, checked: &Checked, classes: &[Class]) -> Result<Bytes, Memory>
    requires { IsCheckedPackage checked.now }
    ensures { IfOk result (λ reply. (bounds : Limits) (c : Whole) → IsChecked (texts_of checked.now) c → members_of classes.now ≡ classes_in bounds c → reply ≡ listing_reply bounds c) }
{
    listings_follow_from_the_texts();
    let _count = checked.types().count();
    class_reply(alloc, checked, classes)
}
