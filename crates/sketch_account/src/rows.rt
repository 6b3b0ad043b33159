ghost use Rattle.std.specs.Prelude.{◌≡◌, ◌+◌, ◌<◌, ◌≤◌, ◌&&◌, ◌||◌, ℕ, Bool, List, Some, true, false};
ghost use Rattle.std.specs.List.{All, list_any, range_with_len};
ghost use Rattle.board_base.specs.Board.{array_of, at, is_in, same_kind};
ghost use Rattle.board_base.specs.declared.men.Colour.{Colour as AColour};
ghost use Rattle.board_base.specs.declared.men.Kind.{Kind as AKind};
ghost use Rattle.board_base.specs.declared.men.Kind.TheVariants.{Pawn, King};
ghost use Rattle.board_base.specs.declared.men.Man.{Man as AMan};
ghost use Rattle.capture_prices.specs.Prices.{PriceList};
ghost use Rattle.balance_rule.specs.Costs.{never};
ghost use Rattle.balance_rule.specs.LeastWays.{seen_by};
ghost use Rattle.sketch_grounds.specs.Account.{figure_comes, figure_row};
ghost use Rattle.sketch_grounds.specs.Limits.{Limit, comes_as};
ghost use Rattle.sketch_grounds.specs.Zones.{Room};
ghost use Rattle.sketch_account.specs.Grounds.{IsGround};
ghost use Rattle.sketch_account.specs.Over.{IsLeastOver};
ghost use Rattle.sketch_account.specs.Rows.{IsComer, IsManner, counted};

use crate::goals::{free_squares, goals_of, meets};
use crate::grounds::Ground;
use crate::losses::BASE;
use crate::ways::least_to;
use balance_rule::{NEVER, capped_sum, number_of_home, seen_by};
use board_base::{Kind, Square, SquareSet};
use figures::Figure;

/// How the man of a figure may have come: as a mark says, and otherwise.
#[derive(Clone, Copy)]
pub struct Manner {
    /// Never promoted if he is an officer, and never captured if he is a pawn.
    pub plain: bool,
    /// Promoted, or with a capture.
    pub other: bool,
}

/// A figure with its manner, where it may stand off the wall, and where its man's way may have ended.
#[derive(Clone, Copy)]
pub(crate) struct Comer {
    pub(crate) figure: Figure,
    pub(crate) manner: Manner,
    pub(crate) free: SquareSet,
    pub(crate) goals: SquareSet,
}

/// The figure with its manner.
pub(crate) fn comer_of(ground: &Ground, figure: Figure, manner: Manner) -> Comer
    ensures figure { result.figure ≡ figure }
    ensures comer { (o : List Bool) (p : PriceList) (R : Room) (l : Limit) → IsGround o p R ground.now → figure.colour ≡ ground.now.base.side → IsManner l manner → IsComer R ground.now.base.side ground.now.base.frozen l result }
{
    Comer {
        figure,
        manner,
        free: free_squares(ground.base.frozen, &figure),
        goals: goals_of(ground, &figure),
    }
}

/// Whether the figure may be of some kind at all.
fn has_kind(figure: &Figure) -> bool
    ensures { result ≡ list_any (λ k. true) figure.now.kinds }
{
    let pawn = figure.may_be(Kind::Pawn);
    let knight = figure.may_be(Kind::Knight);
    let bishop = figure.may_be(Kind::Bishop);
    let rook = figure.may_be(Kind::Rook);
    let queen = figure.may_be(Kind::Queen);
    let king = figure.may_be(Kind::King);
    pawn | ((knight | bishop) | (rook | (queen | king)))
}

/// What it costs that the figure's man began on a home in the wall: nothing if the figure may stand there.
fn home_cost(figure: &Figure, home: Square) -> u16
    ensures small { result ≤ never }
    ensures value { (p : PriceList) (wall : List Bool) (R : Room) (c : AColour) (l : Limit) (first : AKind) (h : ℕ) → h ≡ home → is_in wall h ≡ true → IsLeastOver figure.now (comes_as p wall R c l first h) result }
{
    let some = has_kind(figure);
    let there = figure.squares.has(home);
    if some & there { BASE } else { NEVER }
}

/// What it costs at least that the pawn of this file came as the figure.
fn pawn_cost(ground: &Ground, x: &Comer, f: u8) -> u16
    requires { f < 8 }
    ensures small { result ≤ never }
    ensures value { (o : List Bool) (p : PriceList) (R : Room) (l : Limit) → IsGround o p R ground.now → IsComer R ground.now.base.side ground.now.base.frozen l x.now → is_in ground.now.base.frozen (seen_by ground.now.base.side (8 + f)) ≡ false → IsLeastOver x.now.figure (comes_as p ground.now.base.frozen R ground.now.base.side l Pawn (seen_by ground.now.base.side (8 + f))) result }
{
    let reach = &ground.base.reaches[f as usize];
    capped_sum(
        BASE,
        least_to(
            reach,
            ground.base.side,
            x.goals,
            x.manner.plain,
            x.manner.other,
        ),
    )
}

/// Whether the piece of this file, who is of this kind, has room for some of these squares.
fn has_place(ground: &Ground, first: Kind, free: SquareSet, f: u8) -> bool
    requires { f < 8 }
    ensures { (o : List Bool) (p : PriceList) (R : Room) (m : AMan) → IsGround o p R ground.now → at (array_of o) (seen_by ground.now.base.side f) ≡ Some m → m.kind ≡ first → same_kind first Pawn ≡ false → result ≡ list_any (λ s. is_in free s && (same_kind first King || R (Some m) (seen_by ground.now.base.side f) s)) (range_with_len 0 64) }
{
    if first == Kind::King {
        free.next_from(0) < 64
    } else {
        meets(free, ground.rooms[f as usize])
    }
}

/// What it costs that the piece of this file, who is of this kind, came as the figure.
fn piece_cost(ground: &Ground, x: &Comer, first: Kind, f: u8) -> u16
    requires { f < 8 }
    ensures small { result ≤ never }
    ensures value { (o : List Bool) (p : PriceList) (R : Room) (l : Limit) (m : AMan) → IsGround o p R ground.now → IsComer R ground.now.base.side ground.now.base.frozen l x.now → at (array_of o) (seen_by ground.now.base.side f) ≡ Some m → m.colour ≡ ground.now.base.side → m.kind ≡ first → same_kind first Pawn ≡ false → is_in ground.now.base.frozen (seen_by ground.now.base.side f) ≡ false → IsLeastOver x.now.figure (comes_as p ground.now.base.frozen R ground.now.base.side l first (seen_by ground.now.base.side f)) result }
{
    let may_be = x.figure.may_be(first);
    let place = has_place(ground, first, x.free, f);
    if (x.manner.plain & may_be) & place {
        BASE
    } else {
        NEVER
    }
}

/// What it costs at least that the man who begins on this number of the side as a man of this kind came as the figure.
fn cost_as(ground: &Ground, x: &Comer, first: Kind, n: u8) -> u16
    requires { n < 16 }
    ensures small { result ≤ never }
    ensures value { (o : List Bool) (p : PriceList) (R : Room) (l : Limit) (m : AMan) → IsGround o p R ground.now → IsComer R ground.now.base.side ground.now.base.frozen l x.now → at (array_of o) (seen_by ground.now.base.side n) ≡ Some m → m.colour ≡ ground.now.base.side → m.kind ≡ first → IsLeastOver x.now.figure (comes_as p ground.now.base.frozen R ground.now.base.side l first (seen_by ground.now.base.side n)) result }
{
    let home = seen_by(ground.base.side, n);
    if ground.base.frozen.has(home) {
        home_cost(&x.figure, home)
    } else if n >= 8 {
        pawn_cost(ground, x, n - 8)
    } else {
        piece_cost(ground, x, first, n)
    }
}

/// What it costs at least that the man who began on this number of the side came as the figure; `NEVER` if nobody of the side did.
fn comes(ground: &Ground, x: &Comer, n: u8) -> u16
    requires { n < 16 }
    ensures small { result ≤ never }
    ensures value { (o : List Bool) (p : PriceList) (R : Room) (l : Limit) → IsGround o p R ground.now → IsComer R ground.now.base.side ground.now.base.frozen l x.now → result ≡ figure_comes p ground.now.base.frozen R (at (array_of o) (seen_by ground.now.base.side n)) (seen_by ground.now.base.side n) (counted x.now.figure l) }
{
    match ground.base.first.at(seen_by(ground.base.side, n)) {
        Some(first) if ground.base.side == first.colour => cost_as(ground, x, first.kind, n),
        _ => NEVER,
    }
}

/// What it costs that the man of each of the side's homes came as the figure.
pub(crate) fn figure_row(ground: &Ground, x: &Comer) -> [u16; 16]
    ensures small { All (λ cost. cost ≤ never) result }
    ensures value { (o : List Bool) (p : PriceList) (R : Room) (l : Limit) → IsGround o p R ground.now → IsComer R ground.now.base.side ground.now.base.frozen l x.now → result ≡ figure_row p ground.now.base.frozen R ground.now.base.side (array_of o) (counted x.now.figure l) }
{
    let mut row = [0; 16];
    for j in 0..16 {
        row[j as usize] = comes(ground, x, number_of_home(ground.base.side, j));
    }
    row
}
