use board_base::{MoveList, UnmoveList};
use cert_text::Cert;

/// What a search for a certificate of a claim comes to.
#[derive(Drop)]
pub enum Found {
    /// This certificate proves the claim: no game of any length contradicts it.
    Proved(Cert),
    /// The claim's target isn't refutable at the depth. This is its first open line, the last move of a game first: it has as many
    /// unmoves as the depth, and doesn't end at the array.
    Undecided(UnmoveList),
    /// This game, its first move first, contradicts the claim.
    Countered(MoveList),
    /// More queries than were allowed would have to be visited; so many were, which is all that were allowed.
    Spent { visited: u32 },
}
