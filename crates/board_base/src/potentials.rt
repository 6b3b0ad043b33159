ghost use Rattle.std.specs.Prelude.{◌≡◌, IsTrue, ◌↔◌, SomeIff};
ghost use Rattle.std.specs.List.{All};
ghost use Rattle.board_base.specs.Potentials.{ArePotentials, IsWithinLimit};

use std::marker::Model;

/// Dual potentials of an assignment of pawns to files, seen as two lists of numbers from -64 to 64: `u` has one for each of at most
/// eight pawns, and `v` has one for each file.
#[derive(Clone, Copy, PartialEq, Eq, Debug)]
pub struct Potentials {
    /// Those of the pawns come first, and zeros fill the rest.
    pawns: [i8; 8],
    count: u8,
    files: [i8; 8],
}

impl Model for Potentials {
    ghost use Rattle.board_base.specs.Potentials.{Duals};

    ghost Value = { Duals };

    ghost use Rattle.board_base.specs.StoredPotentials.{seen, stored, IsStored, stored-seen};

    ghost view = { seen };

    ghost invariant = { IsStored };

    ghost inverse = { stored };

    ghost inverse_ok = { stored-seen };
}

/// Whether the number is from -64 to 64.
fn is_within_limit(x: i8) -> bool
    ensures { IsTrue result ↔ IsWithinLimit x }
{
    -64 <= x && x <= 64
}

/// Whether each number is from -64 to 64, as each potential is.
pub fn are_within_limit(numbers: &[i8]) -> bool
    ensures { IsTrue result ↔ All IsWithinLimit numbers.now }
{
    numbers.iter().all(|&x| is_within_limit(x))
}

impl Potentials {
    ghost use Rattle.board_base.specs.Potentials.{duals};

    /// The potentials with these numbers; None if and only if more than eight `u` are given or a number is below -64 or above 64.
    pub fn new(u: &[i8], v: &[i8; 8]) -> Option<Potentials>
        ensures { SomeIff result (ArePotentials (duals u.now v.now)) (duals u.now v.now) }
    {
        if u.len() <= 8 && are_within_limit(u) && are_within_limit(v) {
            Some(Potentials::known(u, v))
        } else {
            None
        }
    }

    /// The potentials with these numbers, which the caller knows to be at most eight `u`, and all from -64 to 64.
    pub fn known(u: &[i8], v: &[i8; 8]) -> Potentials
        requires { ArePotentials (duals u.now v.now) }
        ensures { result ≡ duals u.now v.now }
    {
        let mut pawns = [0; 8];
        pawns[..u.len()].copy_from_slice(u);
        Potentials {
            pawns,
            count: u.len() as u8,
            files: *v,
        }
    }

    /// Those of the pawns.
    pub fn u(&self) -> &[i8]
        ensures value { result.now ≡ self.now.u }
        ensures range { ArePotentials self.now }
    {
        &self.pawns[..self.count as usize]
    }

    /// Those of the files, from file a to file h.
    pub fn v(&self) -> &[i8; 8]
        ensures value { result.now ≡ self.now.v }
        ensures range { ArePotentials self.now }
    {
        &self.files
    }
}
