ghost use Rattle.std.specs.Prelude.{◌≡◌, ◌+◌, ◌<◌, ◌≤◌, ◌-◌, ◌&&◌, ℕ, Bool, IsTrue, List, [], cond, false, slice_index_or};
ghost use Rattle.std.specs.Bool.{beq};
ghost use Rattle.std.specs.List.{list_any, range_with_len};
ghost use Rattle.board_base.specs.Board.{array_of, at, is_in};
ghost use Rattle.capture_prices.specs.Prices.{PriceList};
ghost use Rattle.balance_rule.specs.Costs.{most_earned, never};
ghost use Rattle.cage_rules.specs.Regions.{is_officer_home, region};
ghost use Rattle.balance_rule.specs.FirstMen.{BeginsOn};
ghost use Rattle.balance_rule.specs.Grounds.{IsGround};
ghost use Rattle.balance_rule.specs.LeastWays.{IsLeast, ends_on, seen_by};
ghost use Rattle.men_fates.specs.Ways.{way_end};
ghost use Rattle.ledger_facts.specs.Accounts.{is_lost_by, loss_as, lost, lost_as, may_be_struck, may_fall_on, pawn_lost, piece_lost};

use balance_rule::{Ground, NEVER, both, capped_sum, fee_at, loss_at, seen_by, toll_at};
use board_base::{Kind, SquareSet};

/// What is added to each cost.
pub(crate) const BASE: u16 = 96;

/// Whether the sets have a square in common.
fn meets(a: SquareSet, b: SquareSet) -> bool
    ensures { result ≡ list_any (λ s. is_in a s && is_in b s) (range_with_len 0 64) }
{
    both(a, b).next_from(0) < 64
}

/// The region of the officer of this file.
fn region_at(ground: &Ground, f: u8) -> SquareSet
    requires { f < 8 }
    ensures { result ≡ slice_index_or ground.now.regions f [] }
{
    ground.regions[f as usize]
}

/// Where a pawn who was promoted on this file may come.
fn promoted_at(ground: &Ground, f: u8) -> SquareSet
    requires { f < 8 }
    ensures { result ≡ slice_index_or ground.now.promoted f [] }
{
    ground.promoted[f as usize]
}

/// Whether a pawn may take a pawn of the side whose way ends on the square with this number: there, or after the last rank as an officer.
fn may_be_struck(ground: &Ground, i: u8) -> bool
    requires { i < 64 }
    ensures { (o : List Bool) (p : PriceList) → IsGround o p ground.now → (h : ℕ) (way : List ℕ) → way_end h way ≡ seen_by ground.now.side i → result ≡ may_be_struck ground.now.frozen ground.now.side h way }
{
    if i < 56 {
        ground.exposed.has(seen_by(ground.side, i))
    } else {
        meets(promoted_at(ground, i - 56), ground.exposed)
    }
}

/// Whether the two are equal.
pub(crate) fn agrees(first: bool, second: bool) -> bool
    ensures { result ≡ beq first second }
{
    if first { second } else { !second }
}

/// Whether ways that end on the square with this number count: he was promoted or not, and a pawn may have taken him if one did.
fn counts(ground: &Ground, promoted: bool, struck: bool, i: u8) -> bool
    requires { i < 64 }
    ensures { (o : List Bool) (p : PriceList) → IsGround o p ground.now → (h : ℕ) (way : List ℕ) → way_end h way ≡ seen_by ground.now.side i → result ≡ is_lost_by promoted struck ground.now.frozen ground.now.side h way }
{
    let became = agrees(promoted, i >= 56);
    let exposed = may_be_struck(ground, i);
    became & (!struck | exposed)
}

/// What it costs at least that the pawn of this file is gone and no pawn took him, of the ways that end on the square with this number.
fn unstruck_at(ground: &Ground, f: u8, i: u8) -> u16
    requires file { f < 8 }
    requires inside { i < 64 }
    ensures { (o : List Bool) (p : PriceList) → IsGround o p ground.now → is_in ground.now.frozen (seen_by ground.now.side (8 + f)) ≡ false → IsLeast ground.now.side ground.now.frozen (seen_by ground.now.side (8 + f)) (ends_on (seen_by ground.now.side (8 + f)) (seen_by ground.now.side i)) (loss_as false p ground.now.frozen ground.now.side (seen_by ground.now.side (8 + f))) result }
{
    let reach = &ground.reaches[f as usize];
    if i < 56 {
        capped_sum(BASE, fee_at(reach, i))
    } else {
        capped_sum(BASE, toll_at(reach, i))
    }
}

/// What it costs at least that the pawn of this file is gone, of the ways that end on the square with this number.
fn loss_as(ground: &Ground, struck: bool, f: u8, i: u8) -> u16
    requires file { f < 8 }
    requires inside { i < 64 }
    ensures { (o : List Bool) (p : PriceList) → IsGround o p ground.now → is_in ground.now.frozen (seen_by ground.now.side (8 + f)) ≡ false → IsLeast ground.now.side ground.now.frozen (seen_by ground.now.side (8 + f)) (ends_on (seen_by ground.now.side (8 + f)) (seen_by ground.now.side i)) (loss_as struck p ground.now.frozen ground.now.side (seen_by ground.now.side (8 + f))) result }
{
    if struck {
        loss_at(ground, f, i)
    } else {
        unstruck_at(ground, f, i)
    }
}

/// What it costs at least that the pawn of this file is so gone.
fn pawn_lost(ground: &Ground, promoted: bool, struck: bool, f: u8) -> u16
    requires { f < 8 }
    ensures small { result ≤ never }
    ensures value { (o : List Bool) (p : PriceList) → IsGround o p ground.now → is_in ground.now.frozen (seen_by ground.now.side (8 + f)) ≡ false → result ≡ pawn_lost promoted struck p ground.now.frozen ground.now.side (seen_by ground.now.side (8 + f)) }
{
    let mut least = NEVER;
    for i in 8..64 {
        if counts(ground, promoted, struck, i) {
            least = loss_as(ground, struck, f, i).min(least);
        }
    }
    least
}

/// What it costs at least that a pawn took the knight, bishop, rook or queen of this file.
fn struck_piece(ground: &Ground, f: u8) -> u16
    requires { f < 8 }
    ensures small { result ≤ never }
    ensures value { (o : List Bool) (p : PriceList) → IsGround o p ground.now → IsTrue (is_officer_home (seen_by ground.now.side f)) → result ≡ cond (may_fall_on ground.now.frozen ground.now.side (is_in (region ground.now.frozen (seen_by ground.now.side f)))) (96 - most_earned p ground.now.frozen ground.now.side (is_in (region ground.now.frozen (seen_by ground.now.side f)))) never }
{
    if meets(region_at(ground, f), ground.exposed) {
        BASE.saturating_sub(ground.most_at_home[f as usize])
    } else {
        NEVER
    }
}

/// What it costs at least that the man of this file, who begins as a piece of this kind, is so gone.
fn piece_lost(ground: &Ground, promoted: bool, struck: bool, first: Kind, f: u8) -> u16
    requires { f < 8 }
    ensures small { result ≤ never }
    ensures value { (o : List Bool) (p : PriceList) → IsGround o p ground.now → BeginsOn ground.now.side first f → result ≡ piece_lost promoted struck p ground.now.frozen ground.now.side first (seen_by ground.now.side f) }
{
    if promoted {
        NEVER
    } else if first == Kind::King {
        NEVER
    } else if struck {
        struck_piece(ground, f)
    } else {
        BASE
    }
}

/// What it costs at least that the man who begins on this number of his side as a man of this kind is so gone.
fn lost_as(ground: &Ground, promoted: bool, struck: bool, first: Kind, n: u8) -> u16
    requires { n < 16 }
    ensures small { result ≤ never }
    ensures value { (o : List Bool) (p : PriceList) → IsGround o p ground.now → BeginsOn ground.now.side first n → result ≡ lost_as promoted struck p ground.now.frozen ground.now.side first (seen_by ground.now.side n) }
{
    if ground.frozen.has(seen_by(ground.side, n)) {
        NEVER
    } else if n >= 8 {
        pawn_lost(ground, promoted, struck, n - 8)
    } else {
        piece_lost(ground, promoted, struck, first, n)
    }
}

/// What it costs at least that the man who began on this number of the side is so gone; `NEVER` if nobody of the side did.
pub(crate) fn lost(ground: &Ground, promoted: bool, struck: bool, n: u8) -> u16
    requires { n < 16 }
    ensures small { result ≤ never }
    ensures value { (o : List Bool) (p : PriceList) → IsGround o p ground.now → result ≡ lost promoted struck p ground.now.frozen ground.now.side (at (array_of o) (seen_by ground.now.side n)) (seen_by ground.now.side n) }
{
    match ground.first.at(seen_by(ground.side, n)) {
        Some(first) if ground.side == first.colour => {
            lost_as(ground, promoted, struck, first.kind, n)
        }
        _ => NEVER,
    }
}
