ghost use Rattle.std.specs.Prelude.{◌≡◌, ◌&&◌, ◌||◌, not, Bool, [], ◌∷◌};
ghost use Rattle.std.specs.List.{list_all, list_any};
ghost use Rattle.board_base.specs.declared.men.Kind.{Kind as AnyKind};
ghost use Rattle.board_base.specs.Board.{same_kind};

use board_base::Kind;
use std::marker::Model;

/// A set of kinds, seen as the list of them in their order.
#[derive(Clone, Copy)]
pub struct KindSet {
    pawn: bool,
    knight: bool,
    bishop: bool,
    rook: bool,
    queen: bool,
    king: bool,
}

impl Model for KindSet {
    ghost use Rattle.std.specs.Prelude.{List};
    ghost use Rattle.board_base.specs.declared.men.Kind.{Kind as AKind};
    ghost use Rattle.board_base.specs.declared.men.Kind.TheVariants.{Pawn, Knight, Bishop, Rook, Queen, King};
    ghost use Rattle.figures.specs.Kinds.{kinds_of, has_kind, has-pawn, has-knight, has-bishop, has-rook, has-queen, has-king};

    ghost Value = { List AKind };

    ghost view = { λ s. kinds_of s.pawn s.knight s.bishop s.rook s.queen s.king };

    ghost inverse = { λ l. record { pawn = has_kind Pawn l; knight = has_kind Knight l; bishop = has_kind Bishop l; rook = has_kind Rook l; queen = has_kind Queen l; king = has_kind King l } };

    ghost inverse_ok = { λ s fits i. record { pawn = has-pawn s.pawn s.knight s.bishop s.rook s.queen s.king i; knight = has-knight s.pawn s.knight s.bishop s.rook s.queen s.king i; bishop = has-bishop s.pawn s.knight s.bishop s.rook s.queen s.king i; rook = has-rook s.pawn s.knight s.bishop s.rook s.queen s.king i; queen = has-queen s.pawn s.knight s.bishop s.rook s.queen s.king i; king = has-king s.pawn s.knight s.bishop s.rook s.queen s.king i } };
}

/// Whether the kind is among those that are asked, and passes the test.
fn is_met<F: Fn(Kind) -> bool>(test: &F, asked: bool, kind: Kind) -> bool
    requires { F.IsAlwaysCallable test.now }
    ensures { (p : AnyKind → Bool) → ((k : AnyKind) (b : Bool) → F.post test.now k b → b ≡ p k) → result ≡ (asked && p kind) }
{
    if asked { test(kind) } else { false }
}

/// Whether the kind isn't among those that are asked, or passes the test.
fn is_spared<F: Fn(Kind) -> bool>(test: &F, asked: bool, kind: Kind) -> bool
    requires { F.IsAlwaysCallable test.now }
    ensures { (p : AnyKind → Bool) → ((k : AnyKind) (b : Bool) → F.post test.now k b → b ≡ p k) → result ≡ (not asked || p kind) }
{
    if asked { test(kind) } else { true }
}

impl KindSet {
    /// No kind.
    pub fn none() -> KindSet
        ensures { result ≡ [] }
    {
        KindSet {
            pawn: false,
            knight: false,
            bishop: false,
            rook: false,
            queen: false,
            king: false,
        }
    }

    /// The kind alone.
    pub fn one(kind: Kind) -> KindSet
        ensures { result ≡ kind ∷ [] }
    {
        KindSet {
            pawn: kind == Kind::Pawn,
            knight: kind == Kind::Knight,
            bishop: kind == Kind::Bishop,
            rook: kind == Kind::Rook,
            queen: kind == Kind::Queen,
            king: kind == Kind::King,
        }
    }

    /// Knight, rook and queen.
    pub fn knight_rook_queen() -> KindSet
        ensures { result ≡ Kind.Knight ∷ Kind.Rook ∷ Kind.Queen ∷ [] }
    {
        KindSet {
            pawn: false,
            knight: true,
            bishop: false,
            rook: true,
            queen: true,
            king: false,
        }
    }

    /// Whether the kind is in the set.
    pub fn has(self, kind: Kind) -> bool
        ensures { result ≡ list_any (λ k. same_kind k kind) self }
    {
        match kind {
            Kind::Pawn => self.pawn,
            Kind::Knight => self.knight,
            Kind::Bishop => self.bishop,
            Kind::Rook => self.rook,
            Kind::Queen => self.queen,
            Kind::King => self.king,
        }
    }

    /// Whether some kind of the set passes the test.
    pub fn any<F: Fn(Kind) -> bool>(self, test: F) -> bool
        requires { F.IsAlwaysCallable test }
        ensures { (p : AnyKind → Bool) → ((k : AnyKind) (b : Bool) → F.post test k b → b ≡ p k) → result ≡ list_any p self }
    {
        let pawn = is_met(&test, self.pawn, Kind::Pawn);
        let knight = is_met(&test, self.knight, Kind::Knight);
        let bishop = is_met(&test, self.bishop, Kind::Bishop);
        let rook = is_met(&test, self.rook, Kind::Rook);
        let queen = is_met(&test, self.queen, Kind::Queen);
        let king = is_met(&test, self.king, Kind::King);
        pawn | (knight | (bishop | (rook | (queen | king))))
    }

    /// Whether each kind of the set passes the test.
    pub fn all<F: Fn(Kind) -> bool>(self, test: F) -> bool
        requires { F.IsAlwaysCallable test }
        ensures { (p : AnyKind → Bool) → ((k : AnyKind) (b : Bool) → F.post test k b → b ≡ p k) → result ≡ list_all p self }
    {
        let pawn = is_spared(&test, self.pawn, Kind::Pawn);
        let knight = is_spared(&test, self.knight, Kind::Knight);
        let bishop = is_spared(&test, self.bishop, Kind::Bishop);
        let rook = is_spared(&test, self.rook, Kind::Rook);
        let queen = is_spared(&test, self.queen, Kind::Queen);
        let king = is_spared(&test, self.king, Kind::King);
        pawn & (knight & (bishop & (rook & (queen & king))))
    }

    /// Whether no other kind than this is in the set.
    pub fn is_only(self, kind: Kind) -> bool
        ensures { result ≡ list_all (same_kind kind) self }
    {
        match kind {
            Kind::Pawn => !(self.knight | self.bishop | self.rook | self.queen | self.king),
            Kind::Knight => !(self.pawn | self.bishop | self.rook | self.queen | self.king),
            Kind::Bishop => !(self.pawn | self.knight | self.rook | self.queen | self.king),
            Kind::Rook => !(self.pawn | self.knight | self.bishop | self.queen | self.king),
            Kind::Queen => !(self.pawn | self.knight | self.bishop | self.rook | self.king),
            Kind::King => !(self.pawn | self.knight | self.bishop | self.rook | self.queen),
        }
    }
}
