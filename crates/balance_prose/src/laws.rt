ghost use Rattle.std.specs.Prelude.{ℕ, Bool, List};
ghost use Rattle.board_base.specs.declared.men.Colour.TheVariants.{White, Black};
ghost use Rattle.query_base.specs.Asked.{Asked};
ghost use Rattle.capture_prices.specs.Prices.{PriceList};
ghost use Rattle.balance_rule.specs.Balance.{BalanceSupports};
ghost use Rattle.balance_prose.specs.Accounts.{AreLeastHomes, CountTooMany};
ghost use Rattle.balance_prose.specs.Counted.{OneTreads};

use men_ledger::files_are_shared;

/// Where prices support a query, the men count more with any homes at which they cost the least than they, with the gates, make up for.
/// This does nothing when it runs.
pub fn balance_counts_too_many()
    ensures { (q : Asked) (set : List Bool) (p : PriceList) (white black : List ℕ) → BalanceSupports q set p → AreLeastHomes q p set White white → AreLeastHomes q p set Black black → CountTooMany q p set white black }
{}

/// The law of files for a gate: of the two pawns of its file who keep to it at most one treads its square, in every game. This does
/// nothing when it runs.
pub fn one_treads()
    ensures { (o : List Bool) (s : ℕ) → OneTreads o s }
{
    files_are_shared();
}
