//! Lines of prices of certificates for published problems, as text.

use capture_prices::Prices;
use price_text::read_prices;

/// Every price is the same.
pub(crate) const FLAT: &str =
    "24 24 24 24 24 24 24 24 24 24 24 24 24 24 24 24 / 24 24 24 24 24 24 24 24 24 24 24 24 24 24 24 24 /";

/// For L'Alfiere, 1922.
pub(crate) const ALFIERE_PRICES: &str =
    "24 24 24 24 24 24 24 24 24 25 26 27 24 24 21 21 / 24 24 24 24 24 24 24 24 24 24 24 24 24 24 24 24 / h2 3 f3 3 h3 3 f4 3";

/// For Prager Presse, with gates on the h-file.
pub(crate) const GATED: &str =
    "8 24 20 24 18 24 26 27 24 24 27 26 26 27 27 27 / 1 0 21 8 24 17 24 18 24 17 24 19 24 19 24 20 / h2 29 h3 29 h4 7 h5 7";

/// They force the mark of a knight there.
pub(crate) const FOR_KNIGHT: &str =
    "17 22 22 22 17 22 20 21 21 22 20 21 22 23 20 23 / 0 0 22 22 24 24 24 24 24 24 35 24 35 34 35 34 /";

/// They force the mark of a rook there.
pub(crate) const FOR_ROOK: &str =
    "15 24 24 24 15 24 27 28 24 24 28 28 28 28 27 27 / 5 4 24 15 24 19 24 19 24 19 24 19 24 19 24 19 / h2 14 h3 14 h4 14 h5 14";

/// They force the mark of a queen or a rook there.
pub(crate) const FOR_QUEEN: &str =
    "24 24 24 24 12 17 30 27 24 24 29 30 30 29 27 30 / 0 0 24 12 24 17 24 17 24 17 24 18 24 18 24 18 / h2 15 h3 15 h4 15 h5 15";

/// For Teplitz, with gates on the a-file.
pub(crate) const GATED_ON_A: &str =
    "25 24 25 24 24 24 25 24 25 25 24 24 24 24 24 25 / 22 23 22 24 23 24 24 24 24 24 24 24 24 24 24 24 / a6 3 a7 3";

/// For Teplitz, with gates on the b-file.
pub(crate) const GATED_ON_B: &str =
    "25 26 26 26 24 24 26 25 26 26 24 24 24 24 26 26 / 21 23 21 22 23 23 22 23 23 23 24 23 23 24 24 24 / b6 1 b7 1";

/// The prices of a line.
pub(crate) fn prices(line: &str) -> Option<Prices> {
    read_prices(line.as_bytes())
}
