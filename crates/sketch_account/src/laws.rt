ghost use Rattle.std.specs.Prelude.{◌≡◌, Bool, List, []};
ghost use Rattle.board_base.specs.Board.{Places};
ghost use Rattle.board_base.specs.declared.men.Colour.{Colour as AColour};
ghost use Rattle.capture_prices.specs.Prices.{PriceList};
ghost use Rattle.balance_rule.specs.Balance.{side_cost};
ghost use Rattle.figures.specs.Figures.{sketch_of};
ghost use Rattle.sketch_grounds.specs.Account.{by_marks, figures_cost};
ghost use Rattle.sketch_grounds.specs.Zones.{room_past};

/// The law that the account of a board's own sketch, in which each figure has one kind, one square and no mark, is if no zone is known the
/// balance of captures of that board, for each side, at any odds and prices and beside any set.
pub fn plain_accounts_balance()
    ensures { (o : List Bool) (board : Places) (p : PriceList) (set : List Bool) (c : AColour) → figures_cost o p set (room_past set []) (by_marks (sketch_of board)) c ≡ side_cost o board p set c }
{}
