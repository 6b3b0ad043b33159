ghost use Rattle.std.specs.Prelude.{◌+◌, ◌≤◌, Bool, IsTrue, List};
ghost use Rattle.board_base.specs.Game.{board_after};
ghost use Rattle.board_base.specs.declared.men.Colour.TheVariants.{White, Black};
ghost use Rattle.board_base.specs.declared.moves.Move.{Move};
ghost use Rattle.query_base.specs.Asked.{Asked};
ghost use Rattle.query_base.specs.Reach.{Reaches};
ghost use Rattle.cage_rules.specs.Laws.{Walled};
ghost use Rattle.cage_rules.specs.Reach.{LeadsTo};
ghost use Rattle.capture_prices.specs.Prices.{PriceList, are_prices};
ghost use Rattle.balance_rule.specs.Balance.{BalanceAt, BalanceSupports, most_cost, side_cost};

/// The law of the balance of captures: if for some prices each way of giving homes to the men costs more than the gates make up
/// for, no game of any length leads to the query at these odds, and none reaches it if they are its own.
pub fn balance_closes()
    ensures from_odds { (o : List Bool) (q : Asked) (set : List Bool) (p : PriceList) → BalanceAt o q set p → (g : List Move) → LeadsTo o g q → ⊥ }
    ensures reached { (q : Asked) (set : List Bool) (p : PriceList) → BalanceSupports q set p → (g : List Move) → Reaches g q → ⊥ }
{}

/// The law behind it, of each moment of each game: wherever the men of a set stay, the least costs of both sides are no more than what
/// their true homes cost at most.
pub fn costs_bound_walls()
    ensures { (o : List Bool) (g : List Move) (set : List Bool) (p : PriceList) → IsTrue (are_prices p) → Walled o g set → side_cost o (board_after o g) p set White + side_cost o (board_after o g) p set Black ≤ most_cost o p }
{}
