ghost use Rattle.std.specs.Prelude.{◌≡◌, ◌≤◌, IfOk, IfSome, length};
ghost use Rattle.query_base.specs.Reach.{EndsWith, Reaches};

use crate::attempts::{Search, Wish};
use crate::replaying::replay;
use crate::settings::{ATTEMPTS, SHARES};
use board_base::{Memory, Move, MoveList};
use query_base::Query;
use std::alloc::Global;

/// How many queries a search looks at that leaves nothing untried.
pub const MOST_QUERIES: u32 = 20_000;

/// How many are enough for nearly all games that are found at all.
pub const FEW_QUERIES: u32 = 4_000;

/// What came of a search for a game.
#[derive(Drop)]
pub struct Hunt {
    /// The game, if one was found.
    pub game: Option<MoveList>,
    /// How many queries were looked at.
    pub looked_at: u32,
}

/// Looks for a game that reaches the query. If a last move is demanded, the game ends with it.
///
/// The search goes back from the query by its retractions, by theirs, and so on until it comes to the array: eight attempts, each with
/// other prices, share `most` queries that may be looked at, of which no more than `MOST_QUERIES` are. It is bounded in memory as well,
/// and gives the same answer each time. A game that it comes to is played through before it is told; it has no more moves than queries
/// were looked at, since each position on its way was. Where none is found, nothing is said of the query. Want of memory is a free answer.
pub fn find_game(
    alloc: Global,
    query: &Query,
    last: Option<Move>,
    most: u32,
) -> Result<Hunt, Memory>
    ensures reached { IfOk result (λ h. IfSome h.game (λ g. Reaches g query.now)) }
    ensures last { IfOk result (λ h. IfSome h.game (λ g. IfSome last (λ m. EndsWith g m))) }
    ensures few { IfOk result (λ h. h.looked_at ≤ most) }
    ensures short { IfOk result (λ h. IfSome h.game (λ g. length g ≤ h.looked_at)) }
{
    let allowed = most.min(MOST_QUERIES);
    if allowed == 0 {
        return Ok(Hunt {
            game: None,
            looked_at: 0,
        });
    }
    let mut search = Search::new(alloc, query)?;
    let wish = Wish { last };
    let mut left = allowed;
    for setting in ATTEMPTS {
        let share = (allowed.saturating_mul(setting.share) / SHARES).min(left);
        let found = search.attempt(alloc, &setting, query, &wish, share)?;
        left -= search.looked_at();
        if let Some(moves) = found {
            let game = replay(alloc, query, &last, moves.as_slice())?;
            return Ok(Hunt {
                game,
                looked_at: allowed - left,
            });
        }
    }
    Ok(Hunt {
        game: None,
        looked_at: allowed - left,
    })
}
