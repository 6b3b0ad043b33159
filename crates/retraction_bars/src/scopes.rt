ghost use Rattle.std.specs.Prelude.{◌≡◌};
ghost use Rattle.retraction_bars.specs.Scopes.{high_of, is_from, is_within, low_of, same_manner};

use board_base::{Square, Unmove};

/// Of which ways a bar is told.
#[derive(Clone, Copy, PartialEq, Eq, Debug)]
pub enum Manner {
    /// All of the man's ways.
    Anywhere,
    /// All from one origin.
    Origin,
    /// Those from one origin that captured nothing.
    Quiet,
    /// Those from one origin that captured a man on the target.
    Taking,
    /// Those from one origin that captured en passant.
    Passing,
}

/// Ways of one man: all, or of those from a square, as a pawn that was promoted or not, the ones of a manner.
#[derive(Clone, Copy, PartialEq, Eq, Debug)]
pub struct Scope {
    /// Which of them.
    pub manner: Manner,
    /// The origin; without meaning if all are meant.
    pub from: Square,
    /// Whether the man was promoted by the move.
    pub promoted: bool,
}

/// Whether the way leaves the scope's origin, by a promotion or by none as the scope has it.
fn is_from(scope: &Scope, u: &Unmove) -> bool
    ensures { result ≡ is_from scope.now u.now }
{
    u.mv.from == scope.from && u.mv.promo.is_some() == scope.promoted
}

/// The way is in the scope.
pub fn is_within(scope: &Scope, u: &Unmove) -> bool
    ensures { result ≡ is_within scope.now u.now }
{
    match scope.manner {
        Manner::Anywhere => true,
        Manner::Origin => is_from(scope, u),
        Manner::Quiet => is_from(scope, u) && u.captured.is_none(),
        Manner::Taking => is_from(scope, u) && u.captured.is_some() && !u.ep,
        Manner::Passing => is_from(scope, u) && u.ep,
    }
}

/// Whether both are the same manner.
pub fn same_manner(a: Manner, b: Manner) -> bool
    ensures { result ≡ same_manner a b }
{
    match (a, b) {
        (Manner::Anywhere, Manner::Anywhere) => true,
        (Manner::Origin, Manner::Origin) => true,
        (Manner::Quiet, Manner::Quiet) => true,
        (Manner::Taking, Manner::Taking) => true,
        (Manner::Passing, Manner::Passing) => true,
        _ => false,
    }
}

/// The number of the first bar that is tried of these ways.
pub fn low_of(manner: Manner) -> u8
    ensures { result ≡ low_of manner }
{
    match manner {
        Manner::Anywhere => 0,
        _ => 69,
    }
}

/// The number after that of the last bar that is tried: what bars all that isn't listed is tried only if ways are told apart.
pub fn high_of(manner: Manner) -> u8
    ensures { result ≡ high_of manner }
{
    match manner {
        Manner::Anywhere | Manner::Origin => 145,
        _ => 146,
    }
}
