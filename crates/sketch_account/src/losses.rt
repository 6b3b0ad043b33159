ghost use Rattle.std.specs.Prelude.{◌≡◌, ◌+◌, ◌<◌, ◌≤◌, Bool, ℕ, List, Some, false};
ghost use Rattle.std.specs.List.{All};
ghost use Rattle.board_base.specs.Board.{array_of, at, is_in, same_kind};
ghost use Rattle.board_base.specs.declared.men.Kind.TheVariants.{Pawn};
ghost use Rattle.board_base.specs.declared.men.Man.{Man as AMan};
ghost use Rattle.capture_prices.specs.Prices.{PriceList};
ghost use Rattle.balance_rule.specs.Costs.{never};
ghost use Rattle.balance_rule.specs.LeastWays.{IsLeast, ends_on, seen_by};
ghost use Rattle.sketch_grounds.specs.Account.{lost_row};
ghost use Rattle.sketch_grounds.specs.Limits.{loss_in, lost, lost_as, pawn_lost, piece_lost};
ghost use Rattle.sketch_grounds.specs.Zones.{Room};
ghost use Rattle.sketch_account.specs.Grounds.{IsGround};

use crate::grounds::Ground;
use balance_rule::{NEVER, capped_sum, fee_at, number_of_home, seen_by, toll_at};
use board_base::Kind;

/// What is added to each cost.
pub(crate) const BASE: u16 = 96;

/// What it costs at least that the pawn of this file is gone, of the ways that end on the square with this number.
fn loss_at(ground: &Ground, f: u8, i: u8) -> u16
    requires file { f < 8 }
    requires inside { i < 64 }
    ensures { (o : List Bool) (p : PriceList) (R : Room) → IsGround o p R ground.now → is_in ground.now.base.frozen (seen_by ground.now.base.side (8 + f)) ≡ false → IsLeast ground.now.base.side ground.now.base.frozen (seen_by ground.now.base.side (8 + f)) (ends_on (seen_by ground.now.base.side (8 + f)) (seen_by ground.now.base.side i)) (loss_in p ground.now.base.frozen R ground.now.base.side (seen_by ground.now.base.side (8 + f))) result }
{
    let reach = &ground.base.reaches[f as usize];
    if i < 56 {
        capped_sum(
            BASE.saturating_sub(ground.base.tariff.earned[i as usize]),
            fee_at(reach, i),
        )
    } else {
        capped_sum(
            BASE.saturating_sub(ground.most_promoted[i as usize - 56]),
            toll_at(reach, i),
        )
    }
}

/// What it costs at least that the pawn of this file is gone.
fn pawn_lost(ground: &Ground, f: u8) -> u16
    requires { f < 8 }
    ensures small { result ≤ never }
    ensures value { (o : List Bool) (p : PriceList) (R : Room) → IsGround o p R ground.now → is_in ground.now.base.frozen (seen_by ground.now.base.side (8 + f)) ≡ false → result ≡ pawn_lost p ground.now.base.frozen R ground.now.base.side (seen_by ground.now.base.side (8 + f)) }
{
    let mut least = NEVER;
    for i in 8..64 {
        least = loss_at(ground, f, i).min(least);
    }
    least
}

/// What it costs at least that the man of this file, who begins as a piece of this kind, is gone.
fn piece_lost(ground: &Ground, first: Kind, f: u8) -> u16
    requires { f < 8 }
    ensures small { result ≤ never }
    ensures value { (o : List Bool) (p : PriceList) (R : Room) (m : AMan) → IsGround o p R ground.now → at (array_of o) (seen_by ground.now.base.side f) ≡ Some m → m.colour ≡ ground.now.base.side → m.kind ≡ first → same_kind first Pawn ≡ false → result ≡ piece_lost p ground.now.base.frozen R ground.now.base.side first (seen_by ground.now.base.side f) }
{
    if first == Kind::King {
        NEVER
    } else {
        BASE.saturating_sub(ground.most_at_home[f as usize])
    }
}

/// What it costs at least that the man who begins on this number of his side as a man of this kind is gone.
fn lost_as(ground: &Ground, first: Kind, n: u8) -> u16
    requires { n < 16 }
    ensures small { result ≤ never }
    ensures value { (o : List Bool) (p : PriceList) (R : Room) (m : AMan) → IsGround o p R ground.now → at (array_of o) (seen_by ground.now.base.side n) ≡ Some m → m.colour ≡ ground.now.base.side → m.kind ≡ first → result ≡ lost_as p ground.now.base.frozen R ground.now.base.side first (seen_by ground.now.base.side n) }
{
    if ground.base.frozen.has(seen_by(ground.base.side, n)) {
        NEVER
    } else if n >= 8 {
        pawn_lost(ground, n - 8)
    } else {
        piece_lost(ground, first, n)
    }
}

/// What it costs at least that the man who began on this number of the side is gone; `NEVER` if nobody of the side did.
fn lost(ground: &Ground, n: u8) -> u16
    requires { n < 16 }
    ensures small { result ≤ never }
    ensures value { (o : List Bool) (p : PriceList) (R : Room) → IsGround o p R ground.now → result ≡ lost p ground.now.base.frozen R ground.now.base.side (at (array_of o) (seen_by ground.now.base.side n)) (seen_by ground.now.base.side n) }
{
    match ground.base.first.at(seen_by(ground.base.side, n)) {
        Some(first) if ground.base.side == first.colour => lost_as(ground, first.kind, n),
        _ => NEVER,
    }
}

/// What it costs that the man of each of the side's homes is gone.
pub(crate) fn lost_row(ground: &Ground) -> [u16; 16]
    ensures small { All (λ cost. cost ≤ never) result }
    ensures value { (o : List Bool) (p : PriceList) (R : Room) → IsGround o p R ground.now → result ≡ lost_row p ground.now.base.frozen R ground.now.base.side (array_of o) }
{
    let mut row = [0; 16];
    for j in 0..16 {
        row[j as usize] = lost(ground, number_of_home(ground.base.side, j));
    }
    row
}
