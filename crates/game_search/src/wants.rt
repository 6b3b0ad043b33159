use crate::diagrams::seen_by;
use board_base::{Colour, Kind, Unmove, is_a};
use home_ways::is_dark;
use query_base::Query;

/// Kinds of men; bishops of dark and of light squares, as their side sees them.
#[derive(Clone, Copy)]
pub struct Kinds {
    pub pawn: bool,
    pub knight: bool,
    pub rook: bool,
    pub queen: bool,
    pub dark_bishop: bool,
    pub light_bishop: bool,
}

const ALL_KINDS: Kinds = Kinds {
    pawn: true,
    knight: true,
    rook: true,
    queen: true,
    dark_bishop: true,
    light_bishop: true,
};

/// What may come back to a side: men who were captured, and pawns in place of promoted men.
#[derive(Clone, Copy)]
pub struct Wants {
    /// Kinds of which a man is missing.
    pub missing: Kinds,
    /// Kinds of which a man was promoted.
    pub promoted: Kinds,
    /// Whether men may come back who have to be promoted, as victims of pawns.
    pub victims: bool,
    /// Whether a pawn is missing.
    pub has_room: bool,
}

impl Kinds {
    /// A man of this kind on this square, as his side sees it, is among them.
    fn has(&self, kind: Kind, square: usize) -> bool {
        match kind {
            Kind::Pawn => self.pawn,
            Kind::Knight => self.knight,
            Kind::Bishop => {
                if is_dark(square) {
                    self.dark_bishop
                } else {
                    self.light_bishop
                }
            }
            Kind::Rook => self.rook,
            Kind::Queen => self.queen,
            Kind::King => false,
        }
    }
}

impl Wants {
    /// All that the count of pawns allows.
    pub fn relaxed(&self) -> Wants {
        if self.has_room {
            Wants {
                missing: ALL_KINDS,
                promoted: ALL_KINDS,
                ..*self
            }
        } else {
            *self
        }
    }

    /// A man of this kind may come back whom a pawn captured.
    fn falls_to_pawn(&self, kind: Kind, square: usize) -> bool {
        self.missing.has(kind, square) || self.victims && kind != Kind::Pawn
    }
}

/// What may come back to both sides.
#[derive(Clone, Copy)]
pub struct BothWants {
    pub white: Wants,
    pub black: Wants,
}

impl BothWants {
    pub fn relaxed(&self) -> BothWants {
        BothWants {
            white: self.white.relaxed(),
            black: self.black.relaxed(),
        }
    }

    fn of(&self, side: Colour) -> &Wants {
        match side {
            Colour::White => &self.white,
            Colour::Black => &self.black,
        }
    }

    /// Whether the search goes on by this retraction: who comes back is missing, and who becomes a pawn was promoted.
    pub fn allow(&self, query: &Query, u: &Unmove) -> bool {
        let theirs = seen_by(query.turn, u.mv.to);
        let mover = query.turn.other();
        let by_pawn = u.mv.promo.is_some() || is_a(Kind::Pawn, query.board.at(u.mv.to));
        let comes_back = match u.captured {
            None => true,
            Some(kind) if by_pawn => self.of(query.turn).falls_to_pawn(kind, theirs),
            Some(kind) => self.of(query.turn).missing.has(kind, theirs),
        };
        let unpromotes = match u.mv.promo {
            None => true,
            Some(kind) => self.of(mover).promoted.has(kind, seen_by(mover, u.mv.to)),
        };
        comes_back && unpromotes
    }
}
