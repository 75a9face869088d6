//! The groups of a journal, from its lines.
ghost use Rattle.std.specs.Prelude.{◌≡◌, ◌++◌, ◌+◌, ◌^◌, ◌<◌, ◌≤◌, ℕ, List, [], ◌∷◌, length, None};
ghost use Rattle.std.specs.Prelude.{IfOk, IfErr, IfSome, OnOk, OnErr};
ghost use Rattle.mds_groups.specs.Form.{IsJournal};
ghost use Rattle.mds_groups.specs.Stream.{HasTaken, IsEndFault, Keeps, Refuses, Takes, texts_held};
ghost use Rattle.mds_groups.specs.declared.form.JournalForm.TheVariants.{Plain, Checked};
ghost use Rattle.mds_groups.specs.declared.stream.Stage.TheVariants.{First, FormCheck, Groups};

use crate::{GroupFault, JournalForm, form_check};
use mds_check::GroupCheck;
use mds_check::form::{CHECK_BYTES, read_check};
use mds_journal::JournalFault;
use std::alloc::{AllocError, Global};
use std::mem::replace;

/// Why a line can't be taken.
#[derive(Clone, Copy, Debug, PartialEq, Eq)]
pub enum GroupError {
    /// There was no memory.
    Memory,
    /// The lines are no journal of whole groups.
    Fault(GroupFault),
}

impl From<AllocError> for GroupError {
    ghost use Rattle.mds_groups.specs.declared.stream.GroupError.TheVariants.{Memory};

    ghost from_gives = { λ _ error. error ≡ Memory };

    fn from(_refused: AllocError) -> GroupError {
        GroupError::Memory
    }
}

/// A group of a journal's lines that is whole.
#[derive(Drop)]
pub struct WholeGroup {
    /// The number of its first line.
    pub first: usize,
    /// The texts of its lines, one behind the other, without its check.
    pub texts: Vec<Vec<u8>>,
}

/// What line comes next.
#[derive(Clone, Copy, Debug, PartialEq, Eq)]
pub(crate) enum Stage {
    /// The first one, which names the form.
    First,
    /// Its check.
    FormCheck,
    /// One of a group.
    Groups(JournalForm),
}

/// The groups of a journal. It takes the lines from the first one on, one by one, and hands on each group once it's whole.
#[derive(Drop)]
pub struct GroupStream {
    alloc: Global,
    stage: Stage,
    check: GroupCheck,
    texts: Vec<Vec<u8>>,
}

impl GroupStream {
    /// No line has been taken yet.
    pub fn new(alloc: Global) -> GroupStream
        ensures { HasTaken result [] [] }
    {
        GroupStream {
            alloc,
            stage: Stage::First,
            check: GroupCheck::new(),
            texts: Vec::new(alloc),
        }
    }

    /// The lines that are taken next come behind those of a journal of this form.
    pub fn behind(alloc: Global, form: JournalForm) -> GroupStream
        ensures { (lines : List (List ℕ)) (groups : List (List (List ℕ)))
            → IsJournal form lines groups → HasTaken result lines groups }
    {
        GroupStream {
            alloc,
            stage: Stage::Groups(form),
            check: GroupCheck::new(),
            texts: Vec::new(alloc),
        }
    }

    /// Takes the line of this number, without its gate and its line feed, and hands on the group that it ends. The lines before the
    /// first group end none.
    ///
    /// # Errors
    ///
    /// `Fault` with `Form` where the first line names no form, or with `Damaged` where a line isn't the check that has to stand there,
    /// or is one where there are none; `Memory`. The line isn't taken then.
    pub fn take(&mut self, number: usize, line: &[u8]) -> Result<Option<WholeGroup>, GroupError>
        ensures taken { IfOk result (Takes self.old self.new number line.now) }
        ensures few { IfOk result (λ next. IfSome next
            (λ group. group.first + length group.texts.items ≤ 2 ^ 64)) }
        ensures fault { IfErr result (Refuses self.old number line.now) }
        ensures unchanged { OnErr result (Keeps self.old self.new) }
    {
        match self.stage {
            Stage::First => self.take_first(line),
            Stage::FormCheck => self.take_form_check(line),
            Stage::Groups(JournalForm::Plain) => self.take_plain(number, line),
            Stage::Groups(JournalForm::Checked) => self.take_checked(number, line),
        }
    }

    /// The form of these lines, of which there are so many, where they are all: a journal, whose groups were handed on.
    ///
    /// # Errors
    ///
    /// `Form` where there is no line, `Damaged` where the last group has no check.
    pub fn finish(&self, count: usize) -> Result<JournalForm, GroupFault>
        ensures whole { IfOk result (λ form.
            (lines : List (List ℕ)) (groups : List (List (List ℕ)))
            → HasTaken self.now lines groups → IsJournal form lines groups) }
        ensures fault { IfErr result (λ fault.
            (lines : List (List ℕ)) (groups : List (List (List ℕ)))
            → HasTaken self.now lines groups → count ≡ length lines
            → IsEndFault lines groups fault) }
    {
        match self.stage {
            Stage::First => Err(GroupFault::Journal(JournalFault::Form)),
            Stage::FormCheck => Err(GroupFault::Damaged(0)),
            Stage::Groups(form) => {
                if self.texts.is_empty() {
                    Ok(form)
                } else {
                    Err(GroupFault::Damaged(self.begin(count)))
                }
            }
        }
    }

    fn take_first(&mut self, line: &[u8]) -> Result<Option<WholeGroup>, GroupError>
        requires stage { self.old.stage ≡ First }
        ensures taken { IfOk result (λ next.
            (number : ℕ) → Takes self.old self.new number line.now next) }
        ensures none { IfOk result (λ next. next ≡ None) }
        ensures fault { IfErr result (λ error. (number : ℕ) → Refuses self.old number line.now error) }
        ensures unchanged { OnErr result (Keeps self.old self.new) }
    {
        match JournalForm::of_line(line) {
            Some(JournalForm::Plain) => self.stage = Stage::Groups(JournalForm::Plain),
            Some(JournalForm::Checked) => self.stage = Stage::FormCheck,
            None => return Err(GroupError::Fault(GroupFault::Journal(JournalFault::Form))),
        }
        Ok(None)
    }

    fn take_form_check(&mut self, line: &[u8]) -> Result<Option<WholeGroup>, GroupError>
        requires stage { self.old.stage ≡ FormCheck }
        ensures taken { IfOk result (λ next.
            (number : ℕ) → Takes self.old self.new number line.now next) }
        ensures none { IfOk result (λ next. next ≡ None) }
        ensures fault { IfErr result (λ error. (number : ℕ) → Refuses self.old number line.now error) }
        ensures unchanged { OnErr result (Keeps self.old self.new) }
    {
        if line != form_check().as_slice() {
            return Err(GroupError::Fault(GroupFault::Damaged(0)));
        }
        self.stage = Stage::Groups(JournalForm::Checked);
        Ok(None)
    }

    /// Where there are no checks, each line is a group.
    fn take_plain(&mut self, number: usize, line: &[u8]) -> Result<Option<WholeGroup>, GroupError>
        requires stage { self.old.stage ≡ Groups Plain }
        ensures taken { IfOk result (Takes self.old self.new number line.now) }
        ensures few { IfOk result (λ next. IfSome next
            (λ group. group.first + length group.texts.items ≤ 2 ^ 64)) }
        ensures fault { IfErr result (Refuses self.old number line.now) }
        ensures unchanged { OnErr result (Keeps self.old self.new) }
    {
        if read_check(line).is_some() {
            return Err(GroupError::Fault(GroupFault::Damaged(0)));
        }
        let mut texts = Vec::new(self.alloc);
        push_copy(self.alloc, &mut texts, line)?;
        Ok(Some(WholeGroup {
            first: number,
            texts,
        }))
    }

    fn take_checked(&mut self, number: usize, line: &[u8]) -> Result<Option<WholeGroup>, GroupError>
        requires stage { self.old.stage ≡ Groups Checked }
        ensures taken { IfOk result (Takes self.old self.new number line.now) }
        ensures few { IfOk result (λ next. IfSome next
            (λ group. group.first + length group.texts.items ≤ 2 ^ 64)) }
        ensures fault { IfErr result (Refuses self.old number line.now) }
        ensures unchanged { OnErr result (Keeps self.old self.new) }
    {
        if line.len() != CHECK_BYTES {
            push_copy(self.alloc, &mut self.texts, line)?;
            self.check.take(line);
            return Ok(None);
        }
        let first = self.begin(number);
        if !self.check.take(line) {
            return Err(GroupError::Fault(GroupFault::Damaged(first)));
        }
        let texts = replace(&mut self.texts, Vec::new(self.alloc));
        Ok(Some(WholeGroup { first, texts }))
    }

    /// The number of the first line of the group that is begun, or that the line of this number begins.
    fn begin(&self, number: usize) -> usize
        ensures begin { length self.now.texts.items ≤ number
            → result + length self.now.texts.items ≡ number }
        ensures few { result + length self.now.texts.items < 2 ^ 64 }
    {
        number.saturating_sub(self.texts.len())
    }
}

/// Puts a copy of a text behind the others, which stay as they were where there's no memory.
fn push_copy(alloc: Global, texts: &mut Vec<Vec<u8>>, text: &[u8]) -> Result<(), GroupError>
    ensures pushed { OnOk result (texts_held texts.new.items
        ≡ texts_held texts.old.items ++ text.now ∷ []) }
    ensures unchanged { OnErr result (texts_held texts.new.items ≡ texts_held texts.old.items) }
    ensures memory { IfErr result (λ error. error ≡ GroupError.Memory) }
{
    let copy = Vec::from_slice(alloc, text)?;
    if texts.push(copy).is_err() {
        return Err(GroupError::Memory);
    }
    Ok(())
}
