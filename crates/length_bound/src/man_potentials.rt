ghost use Rattle.std.specs.Prelude.{◌≡◌, SomeIff};
ghost use Rattle.length_bound.specs.ManDuals.{AreManPotentials};

use board_base::are_within_limit;
use std::marker::Model;

/// Dual potentials of an assignment of men to homes, seen as two lists of numbers from -64 to 64: `u` has one for each of at most
/// sixteen men, and `v` has one for each of the sixteen homes of a side.
#[derive(Clone, Copy, PartialEq, Eq, Debug)]
pub struct ManPotentials {
    /// Those of the men come first, and zeros fill the rest.
    men: [i8; 16],
    count: u8,
    homes: [i8; 16],
}

impl Model for ManPotentials {
    ghost use Rattle.board_base.specs.Potentials.{Duals};

    ghost Value = { Duals };

    ghost use Rattle.length_bound.specs.StoredManPotentials.{seen, stored, IsStored, stored-seen};

    ghost view = { seen };

    ghost invariant = { IsStored };

    ghost inverse = { stored };

    ghost inverse_ok = { stored-seen };
}

impl ManPotentials {
    ghost use Rattle.board_base.specs.Potentials.{duals};

    /// The potentials with these numbers; None if and only if more than sixteen `u` are given or a number is below -64 or above 64.
    pub fn new(u: &[i8], v: &[i8; 16]) -> Option<ManPotentials>
        ensures { SomeIff result (AreManPotentials (duals u.now v.now)) (duals u.now v.now) }
    {
        if u.len() <= 16 && are_within_limit(u) && are_within_limit(v) {
            Some(ManPotentials::known(u, v))
        } else {
            None
        }
    }

    /// The potentials with these numbers, which the caller knows to be at most sixteen `u`, and all from -64 to 64.
    pub(crate) fn known(u: &[i8], v: &[i8; 16]) -> ManPotentials
        requires { AreManPotentials (duals u.now v.now) }
        ensures { result ≡ duals u.now v.now }
    {
        let mut men = [0; 16];
        men[..u.len()].copy_from_slice(u);
        ManPotentials {
            men,
            count: u.len() as u8,
            homes: *v,
        }
    }

    /// Those of the men, in ascending order of their squares.
    pub fn u(&self) -> &[i8]
        ensures value { result.now ≡ self.now.u }
        ensures range { AreManPotentials self.now }
    {
        &self.men[..self.count as usize]
    }

    /// Those of the side's sixteen homes, in ascending order.
    pub fn v(&self) -> &[i8; 16]
        ensures value { result.now ≡ self.now.v }
        ensures range { AreManPotentials self.now }
    {
        &self.homes
    }
}
