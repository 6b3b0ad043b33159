ghost use Rattle.std.specs.Prelude.{◌≡◌, ◌<◌, ◌≤◌, ◌+◌, ◌^◌, [], ◌++◌, ℕ, List, length};
ghost use Rattle.arrayvec.specs.ArrayVec.{array_vec_len};
ghost use Rattle.cert_text.specs.Lines.{cut};
ghost use Rattle.cert_checker.specs.Answers.{Answer, Answers, answer_as};
ghost use Rattle.cert_checker.specs.Stages.{Rest};
ghost use Rattle.cert_checker.specs.Staging.{IsPart, NoEnd};
ghost use Rattle.cert_checker.specs.Remains.{Remains, StandsFor};
ghost use Rattle.retro_ports.specs.declared.piecewise.TheConstants.{MOST_BYTES};

use crate::line_ends::first_part;
use crate::line_walk::Walk;
use crate::refusals::{Accepted, Fault};
use arrayvec::ArrayVec;
use cert_text::no_long_lines;
use std::marker::Model;

/// Puts a part of a line behind what is gathered.
fn gather(gathered: &mut ArrayVec<u8, 256>, part: &[u8])
    requires { array_vec_len gathered.old + length part.now ≤ 256 }
    ensures { gathered.new.items ≡ gathered.old.items ++ part.now }
{
    let _ = gathered.try_extend_from_slice(part);
}

/// Takes a part of the line that is gathered, and the line if it ends.
fn take_part(
    walk: &mut Walk,
    gathered: &mut ArrayVec<u8, 256>,
    number: &mut u32,
    part: &[u8],
    ended: bool,
)
    requires no_end { NoEnd gathered.old.items }
    requires part { IsPart ended part.now }
    requires room { number.old + 1 < 2 ^ 32 }
    ensures rest { (others : List ℕ) (a : Answer) → Rest walk.new number.new (cut (gathered.new.items ++ others)) a → Rest walk.old number.old (cut (gathered.old.items ++ (part.now ++ others))) a }
    ensures no_end { NoEnd gathered.new.items }
    ensures number { number.new ≤ number.old + 1 }
{
    no_long_lines();
    if gathered.len() + part.len() > 256 {
        walk.halt(*number);
        return;
    }
    if ended && gathered.is_empty() {
        walk.take(*number, part);
        *number += 1;
        return;
    }
    gather(gathered, part);
    if !ended {
        return;
    }
    walk.take(*number, gathered.as_slice());
    gathered.clear();
    *number += 1;
}

/// The answer if no byte follows those that were gathered.
fn end(walk: &Walk, gathered: &[u8], number: u32) -> Result<Accepted, Fault>
    requires { NoEnd gathered.now }
    ensures { Rest walk.now number (cut gathered.now) (answer_as result) }
{
    no_long_lines();
    if gathered.is_empty() {
        walk.answer(number)
    } else {
        walk.answer_halted(number)
    }
}

/// A check of a certificate whose bytes come in pieces, with the sketches in it. It stands for the bytes that it was fed, and takes no
/// memory.
#[derive(Drop)]
pub struct Checker {
    walk: Walk,
    gathered: ArrayVec<u8, 256>,
    number: u32,
    fed: u32,
}

// A check stands on the stack. Its frames take most of it, and a walk over a sketch the rest.
const _: () = prove!(size_of::<Checker>() <= 262_144);

impl Model for Checker {
    ghost use Rattle.std.specs.Prelude.{◌+◌, ◌≤◌};
    ghost use Rattle.cert_checker.specs.Staging.{NoEnd};
    ghost use Rattle.cert_checker.specs.Remains.{Checking};
    ghost use Rattle.retro_ports.specs.declared.piecewise.TheConstants.{MOST_BYTES};

    ghost Value = { Checking };

    ghost view = { λ k. record { stage = k.walk; gathered = k.gathered.items; number = k.number; fed = k.fed } };

    ghost invariant = { λ k. NoEnd k.gathered.items × (k.number ≤ k.fed + 1) × (k.fed ≤ MOST_BYTES) };
}

impl Checker {
    /// A check that was fed no byte.
    pub fn new() -> Checker
        ensures { StandsFor result [] }
    {
        Checker {
            walk: Walk::new(),
            gathered: ArrayVec::new(),
            number: 1,
            fed: 0,
        }
    }

    /// How many bytes it was fed.
    pub fn fed(&self) -> u32
        ensures value { result ≡ self.now.fed }
        ensures bound { self.now.fed ≤ MOST_BYTES }
    {
        self.fed
    }

    fn feed_part(&mut self, part: &[u8], ended: bool)
        requires room { self.old.fed + length part.now ≤ MOST_BYTES }
        requires part { IsPart ended part.now }
        requires some { 0 < length part.now }
        ensures rest { (others : List ℕ) (a : Answer) → Remains self.new others a → Remains self.old (part.now ++ others) a }
        ensures fed { self.new.fed ≡ self.old.fed + length part.now }
    {
        take_part(
            &mut self.walk,
            &mut self.gathered,
            &mut self.number,
            part,
            ended,
        );
        self.fed += part.len() as u32;
    }

    /// Takes the next piece of the bytes, of which there may be 67,108,864 in all.
    pub fn feed(&mut self, piece: &[u8])
        requires { self.old.fed + length piece.now ≤ MOST_BYTES }
        ensures stands { (bytes : List ℕ) → StandsFor self.old bytes → StandsFor self.new (bytes ++ piece.now) }
        ensures rest { (others : List ℕ) (a : Answer) → Remains self.new others a → Remains self.old (piece.now ++ others) a }
        ensures fed { self.new.fed ≡ self.old.fed + length piece.now }
    {
        let mut rest = piece;
        'parts: while !rest.is_empty() {
            let (len, ended) = first_part(rest);
            let (part, others) = rest.split_at(len);
            self.feed_part(part, ended);
            rest = others;
        }
    }

    /// The answer to the bytes that were fed. `Ok` comes if and only if they are the text of a certificate that proves its claim,
    /// with that claim and its query. `BadText` comes if and only if they are no certificate's text. `Unlisted` and `Unsupported`
    /// come in all other cases, with the first fault that the walk of the certificate in preorder meets.
    pub fn finish(&self) -> Result<Accepted, Fault>
        ensures answer { (bytes : List ℕ) → StandsFor self.now bytes → Answers (cut bytes) (answer_as result) }
        ensures rest { Remains self.now [] (answer_as result) }
    {
        end(&self.walk, self.gathered.as_slice(), self.number)
    }
}
