//! The check of a certificate, line by line.
ghost use Rattle.std.specs.Prelude.{◌≡◌, ◌+◌, ◌-◌, ◌≤◌, ◌∷◌, [], length, Option, None, Some};
ghost use Rattle.std.specs.Prelude.{Ok, MatchResult, true};
ghost use Rattle.ngc_certificate_text.specs.Ahead.{Rest, certificate_of, nothing_left, with_items};
ghost use Rattle.ngc_certificate_text.specs.Ahead.{with_pieces};
ghost use Rattle.ngc_certificate_text.specs.Certificate.{PIECE_LIMIT};
ghost use Rattle.ngc_certificate_text.specs.LineContent.{onto, Fits};
ghost use Rattle.ngc_certificate.specs.PieceFault.{◌or◌};
ghost use Rattle.ngc_job.specs.Job.{commands_in};
ghost use Rattle.ngc_checker.specs.FirstRefusal.{settings_fault};
ghost use Rattle.ngc_checker.specs.Held.{accepted_of};
ghost use Rattle.ngc_checker.specs.Judging.{MayJudge, stored_contents, remaining_after, verdict_of};

use crate::accepted::Accepted;
use crate::fault::CheckFault;
use crate::setting_judge::SettingJudge;
use ngc_certificate::{Piece, Setting};
use ngc_certificate_text::{BegunMotion, Indices, LineContent};
use ngc_job::Job;
use std::alloc::Allocator;
use std::marker::Model;

/// The state of a check: the results so far, and what an acceptance returns.
#[derive(Drop)]
pub struct Judge<A: Allocator> {
    job: Job<A>,
    off_walk: SettingJudge,
    on_walk: SettingJudge,
    // The number of remaining pieces of a motion that has begun.
    left: u32,
}

impl<A: Allocator> Model for Judge<A> {
    ghost use Rattle.std.specs.Prelude.{true};
    ghost use Rattle.ngc_job.specs.Job.{commands_in};
    ghost use Rattle.ngc_checker.specs.Judging.{JudgeData, IsJudge};
    ghost use Rattle.ngc_checker.specs.contracts.setting_judge.SettingJudge as walked;
    ghost use Rattle.std.specs.Coded.{codes};

    ghost Value = { JudgeData };

    ghost view = { λ j. record {
      machine = j.job.machine;
      tools = j.job.tools;
      off = j.job.off;
      on = commands_in true j.job;
      off_walk = j.off_walk;
      on_walk = j.on_walk;
      left = j.left;
    } };

    ghost coded = { Prim.hlevel (codes, walked.the_row.coded) };

    ghost invariant = { λ j. IsJudge j.job.machine j.job.off (commands_in true j.job) j.off_walk j.on_walk j.left };
}

fn first_of(first: Option<CheckFault>, later: Option<CheckFault>) -> Option<CheckFault>
    ensures { result ≡ (first or later) }
{
    match first {
        Some(fault) => Some(fault),
        None => later,
    }
}

impl<A: Allocator> Judge<A> {
    /// Returns the state before the first line.
    pub(crate) fn new(job: Job<A>) -> Judge<A>
        ensures verdict { (r : Rest) →
            settings_fault job.machine (Ok job.off) (Ok (commands_in true job)) (certificate_of r)
            ≡ verdict_of result r }
        ensures kept { stored_contents result ≡ accepted_of job }
        ensures left { result.left ≡ 0 }
    {
        let off_walk = SettingJudge::new(job.machine());
        let on_walk = SettingJudge::new(job.machine());
        Judge {
            job,
            off_walk,
            on_walk,
            left: 0,
        }
    }

    fn motion(&mut self, begun: &BegunMotion)
        requires left { self.old.left ≡ 0 }
        requires some { 1 ≤ begun.now.pieces_left }
        requires few { begun.now.pieces_left ≤ PIECE_LIMIT }
        ensures verdict { (r : Rest) → length r.pieces ≡ begun.now.pieces_left →
            verdict_of self.old
            (with_items (record { indices = begun.now.indices; pieces = r.pieces } ∷ []) r)
            ≡ verdict_of self.new r }
        ensures kept { stored_contents self.new ≡ stored_contents self.old }
        ensures left { self.new.left ≡ begun.now.pieces_left }
    {
        let pieces = begun.pieces_left;
        let machine = self.job.machine();
        let (off, on) = (self.job.commands(false), self.job.commands(true));
        match begun.indices {
            Indices::Both(i, j) => {
                self.off_walk.motion(machine, Setting::Off, off, i, pieces);
                self.on_walk.motion(machine, Setting::On, on, j, pieces);
            }
            Indices::Off(i) => {
                self.off_walk.motion(machine, Setting::Off, off, i, pieces);
            }
            Indices::On(j) => {
                self.on_walk.motion(machine, Setting::On, on, j, pieces);
            }
        }
        self.left = pieces;
    }

    // A setting in which no motion has begun ignores the piece.
    fn piece(&mut self, begun: &BegunMotion, piece: &Piece)
        requires left { self.old.left ≡ begun.now.pieces_left }
        requires some { 1 ≤ begun.now.pieces_left }
        ensures verdict { (r : Rest) → length r.pieces + 1 ≡ begun.now.pieces_left →
            verdict_of self.old (with_pieces (piece.now ∷ r.pieces) r) ≡ verdict_of self.new r }
        ensures kept { stored_contents self.new ≡ stored_contents self.old }
        ensures left { self.new.left ≡ begun.now.pieces_left - 1 }
    {
        let left = begun.pieces_left;
        let machine = self.job.machine();
        self.off_walk.piece(machine, Setting::Off, left, piece);
        self.on_walk.piece(machine, Setting::On, left, piece);
        self.left = left - 1;
    }

    /// Checks one more line.
    pub(crate) fn take(&mut self, line_content: &LineContent)
        requires { MayJudge line_content.now self.old }
        ensures verdict { (r : Rest) → Fits line_content.now r →
            verdict_of self.old (onto line_content.now r) ≡ verdict_of self.new r }
        ensures kept { stored_contents self.new ≡ stored_contents self.old }
        ensures left { self.new.left ≡ remaining_after line_content.now self.old.left }
    {
        match line_content {
            LineContent::Motion(begun) => self.motion(begun),
            LineContent::Piece(begun, piece) => self.piece(begun, piece),
            LineContent::Header(_)
            | LineContent::Setting(_, _)
            | LineContent::Counts(_, _)
            | LineContent::End => {}
        }
    }

    /// Returns the result, after the last line.
    pub(crate) fn finish(self) -> Result<Accepted<A>, CheckFault>
        requires { self.left ≡ 0 }
        ensures { MatchResult result (λ a. (verdict_of self nothing_left ≡ None) ×
            (a ≡ stored_contents self)) (λ fault. verdict_of self nothing_left ≡ Some fault) }
    {
        let Judge {
            job,
            mut off_walk,
            mut on_walk,
            left: _,
        } = self;
        let machine = job.machine();
        let first = off_walk.finish(machine, Setting::Off, job.commands(false));
        let later = on_walk.finish(machine, Setting::On, job.commands(true));
        match first_of(first, later) {
            Some(fault) => Err(fault),
            None => Ok(Accepted::new(job)),
        }
    }
}
