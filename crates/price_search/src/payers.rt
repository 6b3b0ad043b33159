ghost use Rattle.std.specs.Prelude.{◌≡◌};
ghost use Rattle.price_search.specs.FlatPrices.{flat_prices, once_prices};

use capture_prices::Prices;

/// Whose captures by pawns have a price, if each of them has the same and there are no gates.
#[derive(Clone, Copy, PartialEq, Eq)]
pub enum Payers {
    Both,
    WhiteAlone,
    BlackAlone,
}

/// The flat prices at which these pay.
pub(crate) fn flat_prices(payers: Payers) -> Prices
    ensures { result ≡ flat_prices payers }
{
    match payers {
        Payers::Both => Prices::known(&[24; 16], &[24; 16], &[]),
        Payers::WhiteAlone => Prices::known(&[24; 16], &[0; 16], &[]),
        Payers::BlackAlone => Prices::known(&[0; 16], &[24; 16], &[]),
    }
}

/// The same with 1 in the place of 24.
pub(crate) fn once_prices(payers: Payers) -> Prices
    ensures { result ≡ once_prices payers }
{
    match payers {
        Payers::Both => Prices::known(&[1; 16], &[1; 16], &[]),
        Payers::WhiteAlone => Prices::known(&[1; 16], &[0; 16], &[]),
        Payers::BlackAlone => Prices::known(&[0; 16], &[1; 16], &[]),
    }
}

/// The flat prices by their places.
pub(crate) fn flat_places(payers: Payers) -> [u8; 96] {
    let (white, black) = match payers {
        Payers::Both => (24, 24),
        Payers::WhiteAlone => (24, 0),
        Payers::BlackAlone => (0, 24),
    };
    let mut prices = [0; 96];
    for class in 0..16 {
        prices[class] = white;
        prices[16 + class] = black;
    }
    prices
}
