ghost use Rattle.std.specs.Prelude.{◌≡◌};
ghost use Rattle.price_search.specs.FlatPrices.{flat_prices};

use capture_prices::Prices;
use price_search::Payers;

/// The flat prices at which these pay.
pub(crate) fn flat_prices(payers: Payers) -> Prices
    ensures { result ≡ flat_prices payers }
{
    match payers {
        Payers::Both => Prices::known(&[24; 16], &[24; 16], &[]),
        Payers::WhiteAlone => Prices::known(&[24; 16], &[0; 16], &[]),
        Payers::BlackAlone => Prices::known(&[0; 16], &[24; 16], &[]),
    }
}
