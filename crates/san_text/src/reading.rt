ghost use Rattle.std.specs.Prelude.{◌≡◌, MatchResult};
ghost use Rattle.san_text.specs.Fits.{fits, fits_text, IsOnly, IsFaultOf, IsFoundFault};

use crate::fitting::{candidate, fits};
use crate::grammar::{San, read_grammar};
use board_base::{Move, Square};
use play_rules::State;
use thiserror::Error;

/// Why a text of algebraic notation names no move in a state.
#[derive(Clone, Copy, PartialEq, Eq, Debug, Error)]
pub enum SanFault {
    /// The text isn't of the grammar.
    #[error("no text of a move")]
    BadText,
    /// The text is of the grammar, and fits no legal move.
    #[error("no legal move is that")]
    NoMove,
    /// The text fits two legal moves, or more.
    #[error("several legal moves are that")]
    Many,
}

/// The only legal move that what is said fits.
pub fn only(state: &State, said: &San) -> Result<Move, SanFault>
    ensures { MatchResult result (λ m. IsOnly (fits said.now state.now) m) (λ e. IsFoundFault e (fits said.now state.now)) }
{
    state.board().is_whole();
    let mut found = None;
    for i in 0..64 {
        let m = candidate(state.turn(), said, Square::known(i));
        if fits(state, said, &m) {
            if found.is_some() {
                return Err(SanFault::Many);
            }
            found = Some(m);
        }
    }
    match found {
        Some(m) => Ok(m),
        None => Err(SanFault::NoMove),
    }
}

/// The only legal move that a text of algebraic notation fits in this state. `BadText` comes if and only if the text is none of these:
/// `O-O` and `O-O-O`; one of `N`, `B`, `R`, `Q` and `K`, then a file, a rank and `x`, each or none, then the target; a pawn's target,
/// before which its file and `x` may stand, and after which `=` and one of `N`, `B`, `R` and `Q` may; each of them with one `+` or
/// `#` at its end, which isn't tested, or without. `NoMove` comes if and only if it is one of these and fits no legal move, and `Many`
/// if and only if it fits two or more. Takes no memory.
pub fn read_san(state: &State, text: &[u8]) -> Result<Move, SanFault>
    ensures { MatchResult result (λ m. IsOnly (fits_text text.now state.now) m) (λ e. IsFaultOf e text.now state.now) }
{
    match read_grammar(text) {
        Some(said) => only(state, &said),
        None => Err(SanFault::BadText),
    }
}
