// Judges answers by a scheme, row by row.
ghost use Rattle.std.specs.Prelude.{◌≡◌, ◌≢◌, ◌<◌, suc, [], IfOk, IfErr, OnOk, None, get_or, length, take};
ghost use Rattle.nq_ir.specs.Parts.{slots};
ghost use Rattle.stitcher.specs.Linked.{is_given, outer_fault, inner_fault, row_fault, answer_fault, fault_by, first_from};
ghost use Rattle.stitcher.specs.Schemes.{IsPath, element_of};
ghost use Rattle.stitcher.specs.Stitching.{rows_of};
ghost use Rattle.foreign_answers.specs.Faults.{told};
ghost use Rattle.foreign_answers.specs.Judging.{column_in, CanJudge, AreGiven, Gives};
ghost use Rattle.foreign_answers.specs.declared.faults.LinkFault.TheVariants as fault;

use crate::faults::LinkFault;
use crate::given::Given;
use nq_model::{List, Memory};
use rows::Rows;
use sql_profile::Answer;
use std::alloc::Global;
use stitcher::IndexScheme;

/// Answers by a scheme, with the home of each path and the columns of the tags of inner bags at it.
#[derive(Drop)]
pub(crate) struct Judge<'a, S: IndexScheme> {
    pub(crate) scheme: &'a S,
    pub(crate) answers: &'a [Answer],
    pub(crate) homes: &'a [(u64, u64)],
    pub(crate) columns: &'a [List<u64>],
}

// A number counted from 1 in place of 0.
fn number_of(place: u64) -> Result<u64, Memory>
    ensures { IfOk result (λ number. number ≡ suc place) }
{
    place.checked_add(1).ok_or(Memory)
}

// The rows of the answer at a path.
fn rows_at(answers: &[Answer], path: u64) -> &Rows
    requires { path < length answers.now }
    ensures { result.now ≡ get_or (rows_of answers.now) path [] }
{
    &answers[path as usize].rows
}

impl<'a, S: IndexScheme> Judge<'a, S> {
    // Whether a bag at a path is given under an index.
    fn is_given(&self, given: &[Given<S::Index>], path: u64, index: S::Index) -> bool
        requires ready { CanJudge (S.scheme self.now.scheme.now) (rows_of self.now.answers.now)
            self.now.homes.now self.now.columns.now }
        requires path { IsPath (S.scheme self.now.scheme.now) path }
        requires counted { length given.now ≡ path }
        requires given { AreGiven S.Index.eq (S.scheme self.now.scheme.now)
            (rows_of self.now.answers.now) given.now }
        ensures { result ≡ is_given (S.scheme self.now.scheme.now) self.now.homes.now
            (column_in self.now.columns.now) (rows_of self.now.answers.now) path index }
    {
        if path == 0 {
            return self.scheme.top() == index;
        }
        let home = self.homes[path as usize];
        given[home.0 as usize].has(home.1, index)
    }

    // Judges a row by the bag that it stands in.
    fn outer(
        &self,
        alloc: Global,
        given: &[Given<S::Index>],
        path: u64,
        row: usize,
    ) -> Result<(), LinkFault>
        requires ready { CanJudge (S.scheme self.now.scheme.now) (rows_of self.now.answers.now)
            self.now.homes.now self.now.columns.now }
        requires path { IsPath (S.scheme self.now.scheme.now) path }
        requires row { row < length (get_or (rows_of self.now.answers.now) path []) }
        requires counted { length given.now ≡ path }
        requires given { AreGiven S.Index.eq (S.scheme self.now.scheme.now)
            (rows_of self.now.answers.now) given.now }
        ensures none { OnOk result (outer_fault (S.scheme self.now.scheme.now) self.now.homes.now
            (column_in self.now.columns.now) (rows_of self.now.answers.now) path row ≡ None) }
        ensures fault { IfErr result (λ e. e ≢ fault.Memory
            → outer_fault (S.scheme self.now.scheme.now) self.now.homes.now
            (column_in self.now.columns.now) (rows_of self.now.answers.now) path row ≡ told e) }
    {
        let index = self
            .scheme
            .outer(alloc, path, rows_at(self.answers, path), row)?;
        if self.is_given(given, path, index) {
            return Ok(());
        }
        Err(LinkFault::Dangling {
            text: number_of(path)?,
            row: number_of(row as u64)?,
        })
    }

    // Judges a row by the indexes that it gives for its inner bags, and enters them after those of
    // the rows before.
    fn inner(
        &self,
        alloc: Global,
        own: &mut Given<S::Index>,
        path: u64,
        row: usize,
    ) -> Result<(), LinkFault>
        requires ready { CanJudge (S.scheme self.now.scheme.now) (rows_of self.now.answers.now)
            self.now.homes.now self.now.columns.now }
        requires path { IsPath (S.scheme self.now.scheme.now) path }
        requires row { row < length (get_or (rows_of self.now.answers.now) path []) }
        requires before { Gives S.Index.eq (S.scheme self.now.scheme.now) path (λ s. take row
            (get_or (rows_of self.now.answers.now) path [])) own.old.firsts }
        ensures after { OnOk result (Gives S.Index.eq (S.scheme self.now.scheme.now) path
            (λ s. take (suc row) (get_or (rows_of self.now.answers.now) path [])) own.new.firsts) }
        ensures none { OnOk result (first_from (inner_fault (S.scheme self.now.scheme.now)
            self.now.homes.now (column_in self.now.columns.now) (rows_of self.now.answers.now)
            path row) 0 (slots (element_of (S.scheme self.now.scheme.now).elements path)) ≡ None) }
        ensures fault { IfErr result (λ e. e ≢ fault.Memory
            → first_from (inner_fault (S.scheme self.now.scheme.now) self.now.homes.now
            (column_in self.now.columns.now) (rows_of self.now.answers.now) path row) 0
            (slots (element_of (S.scheme self.now.scheme.now).elements path)) ≡ told e) }
    {
        let columns = &self.columns[path as usize];
        let number = number_of(row as u64)?;
        for slot in 0..columns.len() {
            let index = self
                .scheme
                .inner(alloc, path, slot as u64, rows_at(self.answers, path), row)?;
            if let Some(earlier) = own.enter(slot as u64, index, number)? {
                return Err(LinkFault::Twice {
                    text: number_of(path)?,
                    row: number,
                    column: columns.as_slice()[slot],
                    earlier,
                });
            }
        }
        Ok(())
    }

    // Judges the answer at a path, where those of the paths before are judged. Gives the indexes
    // that its rows give.
    fn answer(
        &self,
        alloc: Global,
        given: &[Given<S::Index>],
        path: u64,
    ) -> Result<Given<S::Index>, LinkFault>
        requires ready { CanJudge (S.scheme self.now.scheme.now) (rows_of self.now.answers.now)
            self.now.homes.now self.now.columns.now }
        requires path { IsPath (S.scheme self.now.scheme.now) path }
        requires counted { length given.now ≡ path }
        requires given { AreGiven S.Index.eq (S.scheme self.now.scheme.now)
            (rows_of self.now.answers.now) given.now }
        ensures gives { IfOk result (λ own. Gives S.Index.eq (S.scheme self.now.scheme.now) path
            (λ s. get_or (rows_of self.now.answers.now) path []) own.firsts) }
        ensures none { OnOk result (answer_fault (S.scheme self.now.scheme.now) self.now.homes.now
            (column_in self.now.columns.now) (rows_of self.now.answers.now) path ≡ None) }
        ensures fault { IfErr result (λ e. e ≢ fault.Memory
            → answer_fault (S.scheme self.now.scheme.now) self.now.homes.now
            (column_in self.now.columns.now) (rows_of self.now.answers.now) path ≡ told e) }
    {
        let mut own = Given::new(alloc);
        for row in 0..rows_at(self.answers, path).len() {
            self.outer(alloc, given, path, row)?;
            self.inner(alloc, &mut own, path, row)?;
        }
        Ok(own)
    }

    /// Judges all answers, in path order.
    pub(crate) fn all(&self, alloc: Global) -> Result<(), LinkFault>
        requires { CanJudge (S.scheme self.now.scheme.now) (rows_of self.now.answers.now)
            self.now.homes.now self.now.columns.now }
        ensures none { OnOk result (fault_by (S.scheme self.now.scheme.now) self.now.homes.now
            (column_in self.now.columns.now) (rows_of self.now.answers.now) ≡ None) }
        ensures fault { IfErr result (λ e. e ≢ fault.Memory
            → fault_by (S.scheme self.now.scheme.now) self.now.homes.now
            (column_in self.now.columns.now) (rows_of self.now.answers.now) ≡ told e) }
    {
        let mut given = List::with_capacity(alloc, self.answers.len())?;
        for path in 0..self.answers.len() {
            let own = self.answer(alloc, given.as_slice(), path as u64)?;
            given.push(own)?;
        }
        Ok(())
    }
}
