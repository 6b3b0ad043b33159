ghost use Rattle.std.specs.Prelude.{ℕ, ◌≡◌, ◌↔◌, IsTrue, List, Some};
ghost use Rattle.capture_prices.specs.Prices.{PriceList, are_prices};
ghost use Rattle.price_text.specs.PriceTexts.{prices_of, prices_text};

/// Prices have one text: a text is read as prices if and only if it is the one that is written of them, and they are prices. This does
/// nothing when it runs.
pub fn one_text_of_prices()
    ensures { (text : List ℕ) (p : PriceList) → prices_of text ≡ Some p ↔ (IsTrue (are_prices p) × (text ≡ prices_text p)) }
{}
