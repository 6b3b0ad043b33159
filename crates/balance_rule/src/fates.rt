ghost use Rattle.std.specs.Prelude.{◌≡◌, ◌+◌, ◌<◌, ◌≤◌, Bool, ℕ, List, true, false};
ghost use Rattle.board_base.specs.Board.{array_of, at, is_in};
ghost use Rattle.board_base.specs.Legal.{is_officer};
ghost use Rattle.board_base.specs.declared.men.Colour.{Colour as AColour};
ghost use Rattle.board_base.specs.declared.men.Kind.{Kind as AKind};
ghost use Rattle.men_fates.specs.Fates.{brings};
ghost use Rattle.men_fates.specs.Ways.{toll};
ghost use Rattle.capture_prices.specs.Prices.{PriceList, gate, take};
ghost use Rattle.balance_rule.specs.Costs.{gone, gone_as, loss_cost, never, pawn_gone, pawn_stands, piece_gone, piece_stands, stands, stands_as};
ghost use Rattle.balance_rule.specs.Grounds.{ArePromoted, IsGround};
ghost use Rattle.balance_rule.specs.FirstMen.{BeginsOn};
ghost use Rattle.balance_rule.specs.LeastWays.{IsLeast, IsReach, ends_on, seen_by};

use crate::grounds::Ground;
use crate::reaches::{NEVER, Reach, capped_sum, fee_at, toll_at};
use crate::views::{number_of, seen_by};
use board_base::{Kind, Man, Square, SquareSet};

/// What is added to each cost.
const BASE: u16 = 96;

/// The least toll of the ways that bring a pawn to the last rank and then, as an officer with these regions from there, to a square.
fn toll_promoted(reach: &Reach, regions: &[SquareSet; 8], s: Square) -> u16
    ensures small { result ≤ never }
    ensures least { (p : PriceList) (set : List Bool) (c : AColour) (kind : AKind) (h : ℕ) → h < 64 → IsReach p set c h reach.now → is_officer kind ≡ true → ArePromoted set c kind regions.now → IsLeast c set h (λ way. brings set c h way kind s) (toll (take p c) (gate p) h) result }
{
    let mut least = NEVER;
    for f in 0..8 {
        if regions[f as usize].has(s) {
            least = toll_at(reach, 56 + f).min(least);
        }
    }
    least
}

/// The least toll of the ways that bring the pawn of this file to a square as a man of this kind.
fn toll_to(ground: &Ground, f: u8, kind: Kind, s: Square) -> u16
    requires { f < 8 }
    ensures { (o : List Bool) (p : PriceList) → IsGround o p ground.now → is_in ground.now.frozen (seen_by ground.now.side (8 + f)) ≡ false → IsLeast ground.now.side ground.now.frozen (seen_by ground.now.side (8 + f)) (λ way. brings ground.now.frozen ground.now.side (seen_by ground.now.side (8 + f)) way kind s) (toll (take p ground.now.side) (gate p) (seen_by ground.now.side (8 + f))) result }
{
    let reach = &ground.reaches[f as usize];
    let i = number_of(ground.side, s);
    match kind {
        Kind::Pawn if i < 56 => toll_at(reach, i),
        Kind::Pawn | Kind::King => NEVER,
        Kind::Knight => toll_promoted(reach, &ground.knights, s),
        Kind::Bishop => toll_promoted(reach, &ground.bishops, s),
        Kind::Rook => toll_promoted(reach, &ground.rooks, s),
        Kind::Queen => toll_promoted(reach, &ground.queens, s),
    }
}

/// What it costs at least that the pawn of this file stands on a square as a man of this kind.
fn pawn_stands(ground: &Ground, f: u8, kind: Kind, s: Square) -> u16
    requires { f < 8 }
    ensures small { result ≤ never }
    ensures value { (o : List Bool) (p : PriceList) → IsGround o p ground.now → is_in ground.now.frozen (seen_by ground.now.side (8 + f)) ≡ false → result ≡ pawn_stands p ground.now.frozen ground.now.side (seen_by ground.now.side (8 + f)) kind s }
{
    capped_sum(BASE, toll_to(ground, f, kind, s))
}

/// What it costs at least that the pawn of this file is gone, of the ways that end on the square with this number.
pub fn loss_at(ground: &Ground, f: u8, i: u8) -> u16
    requires file { f < 8 }
    requires inside { i < 64 }
    ensures { (o : List Bool) (p : PriceList) → IsGround o p ground.now → is_in ground.now.frozen (seen_by ground.now.side (8 + f)) ≡ false → IsLeast ground.now.side ground.now.frozen (seen_by ground.now.side (8 + f)) (ends_on (seen_by ground.now.side (8 + f)) (seen_by ground.now.side i)) (loss_cost p ground.now.frozen ground.now.side (seen_by ground.now.side (8 + f))) result }
{
    let reach = &ground.reaches[f as usize];
    if i < 56 {
        capped_sum(
            BASE.saturating_sub(ground.tariff.earned[i as usize]),
            fee_at(reach, i),
        )
    } else {
        capped_sum(
            BASE.saturating_sub(ground.most_promoted[i as usize - 56]),
            toll_at(reach, i),
        )
    }
}

/// What it costs at least that the pawn of this file is gone.
fn pawn_gone(ground: &Ground, f: u8) -> u16
    requires { f < 8 }
    ensures small { result ≤ never }
    ensures value { (o : List Bool) (p : PriceList) → IsGround o p ground.now → is_in ground.now.frozen (seen_by ground.now.side (8 + f)) ≡ false → result ≡ pawn_gone p ground.now.frozen ground.now.side (seen_by ground.now.side (8 + f)) }
{
    let mut least = NEVER;
    for i in 8..64 {
        least = loss_at(ground, f, i).min(least);
    }
    least
}

/// What it costs that the man of this file, who begins as a piece of the first kind, stands on a square as a man of the second.
fn piece_stands(ground: &Ground, first: Kind, f: u8, kind: Kind, s: Square) -> u16
    requires { f < 8 }
    ensures small { result ≤ never }
    ensures value { (o : List Bool) (p : PriceList) → IsGround o p ground.now → BeginsOn ground.now.side first f → result ≡ piece_stands ground.now.frozen first (seen_by ground.now.side f) kind s }
{
    if first == kind && (first == Kind::King || ground.regions[f as usize].has(s)) {
        BASE
    } else {
        NEVER
    }
}

/// What it costs at least that the man of this file, who begins as a piece of this kind, is gone.
fn piece_gone(ground: &Ground, first: Kind, f: u8) -> u16
    requires { f < 8 }
    ensures small { result ≤ never }
    ensures value { (o : List Bool) (p : PriceList) → IsGround o p ground.now → BeginsOn ground.now.side first f → result ≡ piece_gone p ground.now.frozen ground.now.side first (seen_by ground.now.side f) }
{
    if first == Kind::King {
        NEVER
    } else {
        BASE.saturating_sub(ground.most_at_home[f as usize])
    }
}

/// What it costs at least that the man who begins on this number of his side as a man of the first kind stands on a square as a man of
/// the second.
fn stands_as(ground: &Ground, first: Kind, n: u8, kind: Kind, s: Square) -> u16
    requires { n < 16 }
    ensures small { result ≤ never }
    ensures value { (o : List Bool) (p : PriceList) → IsGround o p ground.now → BeginsOn ground.now.side first n → result ≡ stands_as p ground.now.frozen ground.now.side first (seen_by ground.now.side n) kind s }
{
    let home = seen_by(ground.side, n);
    if ground.frozen.has(home) || ground.frozen.has(s) {
        if home.index() == s.index() {
            BASE
        } else {
            NEVER
        }
    } else if n >= 8 {
        pawn_stands(ground, n - 8, kind, s)
    } else {
        piece_stands(ground, first, n, kind, s)
    }
}

/// What it costs at least that the man who begins on this number of his side as a man of this kind is gone.
fn gone_as(ground: &Ground, first: Kind, n: u8) -> u16
    requires { n < 16 }
    ensures small { result ≤ never }
    ensures value { (o : List Bool) (p : PriceList) → IsGround o p ground.now → BeginsOn ground.now.side first n → result ≡ gone_as p ground.now.frozen ground.now.side first (seen_by ground.now.side n) }
{
    if ground.frozen.has(seen_by(ground.side, n)) {
        NEVER
    } else if n >= 8 {
        pawn_gone(ground, n - 8)
    } else {
        piece_gone(ground, first, n)
    }
}

/// What it costs at least that the man on this place of a square began on this number of the side; `NEVER` if nobody of the side did.
pub fn stands(ground: &Ground, n: u8, place: Option<Man>, s: Square) -> u16
    requires { n < 16 }
    ensures small { result ≤ never }
    ensures value { (o : List Bool) (p : PriceList) → IsGround o p ground.now → result ≡ stands p ground.now.frozen ground.now.side (at (array_of o) (seen_by ground.now.side n)) (seen_by ground.now.side n) place s }
{
    let Some(first) = ground.first.at(seen_by(ground.side, n)) else {
        return NEVER;
    };
    match place {
        Some(man) if ground.side == first.colour => stands_as(ground, first.kind, n, man.kind, s),
        _ => NEVER,
    }
}

/// What it costs at least that the man who began on this number of the side is gone; `NEVER` if nobody of the side did.
pub(crate) fn gone(ground: &Ground, n: u8) -> u16
    requires { n < 16 }
    ensures small { result ≤ never }
    ensures value { (o : List Bool) (p : PriceList) → IsGround o p ground.now → result ≡ gone p ground.now.frozen ground.now.side (at (array_of o) (seen_by ground.now.side n)) (seen_by ground.now.side n) }
{
    match ground.first.at(seen_by(ground.side, n)) {
        Some(first) if ground.side == first.colour => gone_as(ground, first.kind, n),
        _ => NEVER,
    }
}
