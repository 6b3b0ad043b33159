ghost use Rattle.std.specs.Prelude.{◌≡◌, ◌+◌, ◌∷◌};
ghost use Rattle.cert_text.specs.Certificate.{Lines};
ghost use Rattle.cert_checker.specs.Answers.{Answer, answer_as};
ghost use Rattle.cert_checker.specs.Stages.{Rest, answer_at, heading};
ghost use Rattle.cert_checker.specs.Staging.{IsLow, halted_at};

use crate::frames::Frame;
use crate::refusals::{Accepted, Fault};
use crate::sketching::Sketching;
use crate::stages::{Step, answer, stop, take};
use arrayvec::ArrayVec;
use cert_text::Head;
use std::marker::Model;

/// A check of lines that come one after another, seen as the stage before the next of them.
#[derive(Drop)]
pub struct Walk {
    step: Step,
    sketching: Sketching,
    frames: ArrayVec<Frame, 256>,
    counts: ArrayVec<u32, 256>,
}

impl Model for Walk {
    ghost use Rattle.std.specs.Prelude.{reverse};
    ghost use Rattle.cert_checker.specs.Stages.{Stage};
    ghost use Rattle.cert_checker.specs.Staging.{IsReady, stage_of};

    ghost Value = { Stage };

    ghost view = { λ w. stage_of w.step w.sketching (reverse w.frames.items) (reverse w.counts.items) };

    ghost invariant = { λ w. IsReady w.step w.sketching (reverse w.frames.items) (reverse w.counts.items) };
}

impl Walk {
    /// The first line comes next.
    pub(crate) fn new() -> Walk
        ensures { result ≡ heading }
    {
        Walk {
            step: Step::Heading(Head::FormatDue),
            sketching: Sketching::idle(),
            frames: ArrayVec::new(),
            counts: ArrayVec::new(),
        }
    }

    /// Takes the next line, with its end.
    #[inline(always)]
    pub(crate) fn take(&mut self, number: u32, line: &[u8])
        ensures { (lines : Lines) (a : Answer) → Rest self.new (number + 1) lines a → Rest self.old number (line.now ∷ lines) a }
    {
        take(
            &mut self.step,
            &mut self.sketching,
            &mut self.frames,
            &mut self.counts,
            number,
            line,
        );
    }

    /// The next line is none of a certificate.
    pub(crate) fn halt(&mut self, number: u32)
        ensures halted { self.new ≡ halted_at self.old number }
        ensures low { IsLow self.old }
    {
        self.step = stop(&self.step, number);
    }

    /// The answer if no line follows.
    pub(crate) fn answer(&self, number: u32) -> Result<Accepted, Fault>
        ensures { answer_as result ≡ answer_at self.now number }
    {
        answer(
            &self.step,
            self.frames.as_slice(),
            self.counts.as_slice(),
            number,
        )
    }

    /// The answer if one line follows that is none of a certificate.
    pub(crate) fn answer_halted(&self, number: u32) -> Result<Accepted, Fault>
        ensures answer { answer_as result ≡ answer_at (halted_at self.now number) number }
        ensures low { IsLow self.now }
    {
        let last = stop(&self.step, number);
        answer(
            &last,
            self.frames.as_slice(),
            self.counts.as_slice(),
            number,
        )
    }
}
