ghost use Rattle.std.specs.Prelude.{◌≡◌, ◌+◌, ◌<◌, ◌≤◌, ◌==◌, ◌&&◌, ◌||◌, Bool, List, cond, not, false};
ghost use Rattle.std.specs.Bool.{beq};
ghost use Rattle.board_base.specs.Board.{array_of, at, is_a, is_in};
ghost use Rattle.board_base.specs.declared.men.Kind.TheVariants.{Pawn};
ghost use Rattle.capture_prices.specs.Prices.{PriceList};
ghost use Rattle.balance_rule.specs.Costs.{never, stands};
ghost use Rattle.balance_rule.specs.FirstMen.{BeginsOn};
ghost use Rattle.balance_rule.specs.Grounds.{IsGround};
ghost use Rattle.balance_rule.specs.LeastWays.{seen_by};
ghost use Rattle.ledger_facts.specs.Accounts.{goes, goes_as, has_become, pawn_goes, stands_if};

use crate::losses::{BASE, agrees};
use balance_rule::{Ground, NEVER, capped_sum, number_of, seen_by, stands};
use board_base::{Colour, Kind, Man, Square, SquareSet};
use ledger_facts::Supposition;

/// What it costs at least that the pawn of this file went to a square as a pawn, and captured nowhere, or somewhere.
fn pawn_goes(ground: &Ground, straight: bool, f: u8, s: Square) -> u16
    requires { f < 8 }
    ensures small { result ≤ never }
    ensures value { (o : List Bool) (p : PriceList) → IsGround o p ground.now → is_in ground.now.frozen (seen_by ground.now.side (8 + f)) ≡ false → result ≡ pawn_goes straight p ground.now.frozen ground.now.side (seen_by ground.now.side (8 + f)) s }
{
    let i = number_of(ground.side, s);
    if i >= 56 {
        return NEVER;
    }
    let reach = &ground.reaches[f as usize];
    if straight {
        capped_sum(BASE, reach.straight[i as usize])
    } else {
        capped_sum(BASE, reach.aside[i as usize])
    }
}

/// The same, if the pawn may be of the set, and then stands where he began.
fn pawn_comes(ground: &Ground, straight: bool, n: u8, s: Square) -> u16
    requires few { n < 16 }
    requires pawn { 8 ≤ n }
    ensures small { result ≤ never }
    ensures value { (o : List Bool) (p : PriceList) → IsGround o p ground.now → result ≡ cond (is_in ground.now.frozen (seen_by ground.now.side n) || is_in ground.now.frozen s) (cond (seen_by ground.now.side n == s) 96 never) (pawn_goes straight p ground.now.frozen ground.now.side (seen_by ground.now.side n) s) }
{
    let home = seen_by(ground.side, n);
    if ground.frozen.has(home) || ground.frozen.has(s) {
        if home.index() == s.index() {
            BASE
        } else {
            NEVER
        }
    } else {
        pawn_goes(ground, straight, n - 8, s)
    }
}

/// Whether a pawn stands on the place.
fn is_pawn(place: Option<Man>) -> bool
    ensures { result ≡ is_a Pawn place }
{
    match place {
        Some(man) => Kind::Pawn == man.kind,
        None => false,
    }
}

/// What it costs at least that the man on this place of a square began on this number of his side and went there as a pawn, where he begins
/// as a man of this kind.
fn goes_as(
    ground: &Ground,
    straight: bool,
    first: Kind,
    n: u8,
    place: Option<Man>,
    s: Square,
) -> u16
    requires { n < 16 }
    ensures small { result ≤ never }
    ensures value { (o : List Bool) (p : PriceList) → IsGround o p ground.now → BeginsOn ground.now.side first n → result ≡ goes_as straight p ground.now.frozen ground.now.side first (seen_by ground.now.side n) place s }
{
    if n < 8 {
        NEVER
    } else if is_pawn(place) {
        pawn_comes(ground, straight, n, s)
    } else {
        NEVER
    }
}

/// The same; `NEVER` if nobody of the side began there.
fn goes(ground: &Ground, straight: bool, n: u8, place: Option<Man>, s: Square) -> u16
    requires { n < 16 }
    ensures small { result ≤ never }
    ensures value { (o : List Bool) (p : PriceList) → IsGround o p ground.now → result ≡ goes straight p ground.now.frozen ground.now.side (at (array_of o) (seen_by ground.now.side n)) (seen_by ground.now.side n) place s }
{
    match ground.first.at(seen_by(ground.side, n)) {
        Some(first) if ground.side == first.colour => {
            goes_as(ground, straight, first.kind, n, place, s)
        }
        _ => NEVER,
    }
}

/// A cell, or `NEVER` if it is barred.
pub(crate) fn unless(barred: bool, cost: u16) -> u16
    requires { cost ≤ never }
    ensures value { result ≡ cond barred never cost }
    ensures small { result ≤ never }
{
    if barred { NEVER } else { cost }
}

/// Whether the man of this number of the side was a pawn in the array, and this place has none.
fn has_become(ground: &Ground, n: u8, place: Option<Man>) -> bool
    requires { n < 16 }
    ensures { (o : List Bool) (p : PriceList) → IsGround o p ground.now → result ≡ has_become (at (array_of o) (seen_by ground.now.side n)) place }
{
    let first = is_pawn(ground.first.at(seen_by(ground.side, n)));
    first & !is_pawn(place)
}

/// Whether the squares are the same.
pub(crate) fn same_square(a: Square, b: Square) -> bool
    ensures { result ≡ (a == b) }
{
    a.index() == b.index()
}

/// The cell of a man who is supposed to have begun on some homes: barred on others, if this is his square.
pub(crate) fn began(n: u8, plain: u16, side: Colour, homes: SquareSet, here: bool) -> u16
    requires few { n < 16 }
    requires small { plain ≤ never }
    ensures small { result ≤ never }
    ensures value { result ≡ cond (here && not (is_in homes (seen_by side n))) never plain }
{
    let member = homes.has(seen_by(side, n));
    unless(here & !member, plain)
}

/// The cell of a pawn who is supposed to have gone straight, or aside, if this is his square.
fn went(ground: &Ground, straight: bool, n: u8, place: Option<Man>, s: Square, here: bool) -> u16
    requires { n < 16 }
    ensures small { result ≤ never }
    ensures value { (o : List Bool) (p : PriceList) → IsGround o p ground.now → result ≡ cond here (goes straight p ground.now.frozen ground.now.side (at (array_of o) (seen_by ground.now.side n)) (seen_by ground.now.side n) place s) (stands p ground.now.frozen ground.now.side (at (array_of o) (seen_by ground.now.side n)) (seen_by ground.now.side n) place s) }
{
    if here {
        goes(ground, straight, n, place, s)
    } else {
        stands(ground, n, place, s)
    }
}

/// The cell of a man who is supposed to have begun on this home and to stand, promoted or not: barred if this isn't so here.
fn stood(ground: &Ground, promoted: bool, n: u8, place: Option<Man>, plain: u16, k: Square) -> u16
    requires few { n < 16 }
    requires small { plain ≤ never }
    ensures small { result ≤ never }
    ensures value { (o : List Bool) (p : PriceList) → IsGround o p ground.now → result ≡ cond ((seen_by ground.now.side n == k) && not (beq promoted (has_become (at (array_of o) (seen_by ground.now.side n)) place))) never plain }
{
    let here = same_square(seen_by(ground.side, n), k);
    let so = agrees(promoted, has_become(ground, n, place));
    unless(here & !so, plain)
}

/// What it costs at least that the man on this place of a square began on this number of the side, if the supposition is true and this is
/// what it costs otherwise.
pub(crate) fn stands_if(
    ground: &Ground,
    supposition: &Supposition,
    n: u8,
    place: Option<Man>,
    s: Square,
) -> u16
    requires { n < 16 }
    ensures small { result ≤ never }
    ensures value { (o : List Bool) (p : PriceList) → IsGround o p ground.now → result ≡ stands_if supposition.now p ground.now.frozen ground.now.side (at (array_of o) (seen_by ground.now.side n)) (seen_by ground.now.side n) place s }
{
    let plain = stands(ground, n, place, s);
    match *supposition {
        Supposition::Began(t, homes) => began(n, plain, ground.side, homes, same_square(s, t)),
        Supposition::Went(t, straight) => went(ground, straight, n, place, s, same_square(s, t)),
        Supposition::Stands(k, promoted) => stood(ground, promoted, n, place, plain, k),
        Supposition::Gone(k, _, _) => unless(same_square(seen_by(ground.side, n), k), plain),
        Supposition::AtMost(_, _, _) => plain,
        Supposition::AtLeast(_, _, _) => plain,
    }
}
