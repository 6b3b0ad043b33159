ghost use Rattle.std.specs.Prelude.{◌≡◌, ◌<◌, ◌≤◌, ◌↔◌, cond, nat_lt, IfSome, IsNone, MatchOption, None, Some, length};
ghost use Rattle.std.specs.Option.{option_map};
ghost use Rattle.board_base.specs.declared.men.Colour.TheVariants.{White, Black};
ghost use Rattle.board_base.specs.Board.{men_squares};
ghost use Rattle.length_bound.specs.Longest.{IsBest, longer_side, side_length};
ghost use Rattle.length_bound.specs.LongerTexts.{IsBestOf, longer_text};

use crate::lengths::{best, length_of};
use crate::texts::LengthText;
use board_base::Colour;
use query_base::Query;

/// What the best potentials of this side show; None if and only if it has more than sixteen men.
fn best_of(query: &Query, side: Colour) -> Option<LengthText>
    ensures { MatchOption result (side_length side query.now ≡ None) (IsBestOf side query.now) }
{
    let Some(potentials) = best(query, side) else {
        return None;
    };
    match length_of(query, side, &potentials) {
        Some(at_least) => Some(LengthText {
            query: *query,
            at_least,
            side,
            potentials,
        }),
        None => unreachable!(),
    }
}

/// The text with the greater length, and the first if they are equal.
fn longer_of(white: LengthText, black: LengthText) -> LengthText
    ensures { result ≡ cond (nat_lt white.at_least black.at_least) black white }
{
    if white.at_least < black.at_least {
        black
    } else {
        white
    }
}

/// The text with the greater length of those that there are.
fn longer(white: Option<LengthText>, black: Option<LengthText>) -> Option<LengthText>
    ensures { result ≡ longer_text white black }
{
    match white {
        None => black,
        Some(w) => match black {
            None => Some(w),
            Some(b) => Some(longer_of(w, b)),
        },
    }
}

/// The greatest length of the query's games that `best` shows: of the sides of at most sixteen men the one whose potentials show the
/// greater length, and White if they are equal, with that length, of at most 9999 half-moves, and the potentials. None if and only if
/// both sides have more than sixteen men.
pub fn longest(query: &Query) -> Option<LengthText>
    ensures best { IfSome result (IsBest query.now) }
    ensures side { option_map (λ t. t.side) result ≡ longer_side (side_length White query.now) (side_length Black query.now) }
    ensures none { IsNone result ↔ ((16 < length (men_squares White query.now.board)) × (16 < length (men_squares Black query.now.board))) }
    ensures small { IfSome result (λ t. t.at_least ≤ 9999) }
{
    longer(best_of(query, Colour::White), best_of(query, Colour::Black))
}
