ghost use Rattle.std.specs.Prelude.{◌≡◌, ℕ, IsTrue, List, Some};
ghost use Rattle.std.specs.Cmp.{IsTotalOrder};
ghost use Rattle.std.specs.declared.cmp.Ordering.TheVariants.{Equal};
ghost use Rattle.board_base.specs.Texts.{move_of, move_text, unmove_from, unmove_text, can_promote, can_capture, move_order, unmove_order};
ghost use Rattle.board_base.specs.declared.moves.Move.{Move as AnyMove};
ghost use Rattle.board_base.specs.declared.unmoves.Unmove.{Unmove as AnyUnmove};

/// Whatever is read as a move is the one text of that move, which may be written.
pub fn one_text_of_a_move()
    ensures text { (text : List ℕ) (m : AnyMove) → move_of text ≡ Some m → text ≡ move_text m }
    ensures promotion { (text : List ℕ) (m : AnyMove) → move_of text ≡ Some m → IsTrue (can_promote m.promo) }
{}

/// Whatever is read as an unmove is the one text of that unmove, which may be written.
pub fn one_text_of_an_unmove()
    ensures text { (text : List ℕ) (u : AnyUnmove) → unmove_from text ≡ Some u → text ≡ unmove_text u }
    ensures promotion { (text : List ℕ) (u : AnyUnmove) → unmove_from text ≡ Some u → IsTrue (can_promote u.mv.promo) }
    ensures capture { (text : List ℕ) (u : AnyUnmove) → unmove_from text ≡ Some u → IsTrue (can_capture u.mv.promo u.captured u.ep) }
{}

/// The order of moves is a total order, in which no two moves are equal.
pub fn order_of_moves()
    ensures total { IsTotalOrder move_order }
    ensures exact { (a b : AnyMove) → move_order a b ≡ Equal → a ≡ b }
{}

/// The order of unmoves is a total order, in which no two unmoves are equal that have texts.
pub fn order_of_unmoves()
    ensures total { IsTotalOrder unmove_order }
    ensures exact { (a b : AnyUnmove) → IsTrue (can_capture a.mv.promo a.captured a.ep) → IsTrue (can_capture b.mv.promo b.captured b.ep) → unmove_order a b ≡ Equal → a ≡ b }
{}
