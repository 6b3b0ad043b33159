ghost use Rattle.std.specs.Prelude.{◌↔◌, IsTrue, List};
ghost use Rattle.board_base.specs.declared.moves.Move.{Move};
ghost use Rattle.query_base.specs.Reach.{Reaches};
ghost use Rattle.static_rules.specs.Supports.{HasRightsHomes, Supports};

use crate::set_rules::{caps_supports, frozen_supports, promo_supports};
use board_base::array_of;
use castle_history::held_fits;
use men_account::account_ok;
use play_rules::{has_no_pawn_on_ends, has_one_king_each, in_check};
use query_base::{Query, RuleLine};

/// Whether the king and the rook of each right that is held stand at home, in the array at the query's odds and on the board.
fn rights_fit(query: &Query) -> bool
    ensures { IsTrue result ↔ HasRightsHomes query.now }
{
    held_fits(&array_of(query.odds), query.held) && held_fits(&query.board, query.held)
}

fn breaks_law(query: &Query, rule: &RuleLine) -> bool
    ensures { IsTrue result ↔ Supports query.now rule.now }
{
    match rule {
        RuleLine::Kings => !has_one_king_each(&query.board),
        RuleLine::Ranks => !has_no_pawn_on_ends(&query.board),
        RuleLine::Check => in_check(&query.board, query.turn.other()),
        RuleLine::Rights => !rights_fit(query),
        RuleLine::Count(side) => !account_ok(&query.board, *side, query.odds),
        RuleLine::Frozen(set) => frozen_supports(query, *set),
        RuleLine::Caps(side, set, p) => caps_supports(query, *side, *set, p),
        RuleLine::Promo(side, set) => promo_supports(query, *side, *set),
    }
}

/// Whether the rule line is a reason why no game reaches the query. Games begin from the array at the query's odds: homes whose men are
/// left out aren't counted. `Kings`: some colour hasn't exactly one king. `Ranks`: a pawn stands on rank 1 or 8. `Check`: some king of
/// the side not to move is attacked by the side to move. `Rights`: of a right of `held` the king or the rook is left out, or they
/// aren't both, of its colour, at home. `Count`: the side's pawns, and its queens, rooks, knights, bishops on light squares and bishops
/// on dark squares above those with which it begins, at most 1, 2, 2, 1 and 1, are together more than the pawns with which it begins, at
/// most 8.
/// `Frozen`: each square of the set is occupied, and is a home of a right of `held`, or each square from which its man may have come, or
/// that he may have crossed last, is in the set too; and not each holds what the array at these odds has there. `Caps`: the set is so,
/// but holds what that array has there; the side has as many pawns as there are potentials u; each u and v together are no more than the
/// captures that the pawn needs from the file, where a file on which the side begins without its pawn costs 64, and no v is above 0; and
/// the sum of all u and v is above the men with which the enemy begins, less those on the board, less the enemy homes that are dead and
/// shielded. `Promo`: the set is so; and the side's pawns, and its officers of each kind above its homes of the kind that aren't dead, are
/// together more than the pawns with which it begins. Where the answer is yes, no game of any length reaches the query.
pub fn supports(query: &Query, rule: &RuleLine) -> bool
    ensures answer { IsTrue result ↔ Supports query.now rule.now }
    ensures unreached { IsTrue result → (g : List Move) → Reaches g query.now → ⊥ }
{
    breaks_law(query, rule)
}
