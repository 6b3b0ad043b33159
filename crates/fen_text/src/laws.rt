ghost use Rattle.std.specs.Prelude.{ℕ, ◌≡◌, ◌≢◌, ◌≤◌, ◌↔◌, Bool, List, length, Some};
ghost use Rattle.board_base.specs.Board.{AreOdds, no_odds};
ghost use Rattle.query_base.specs.Asked.{Asked as AnyQuery};
ghost use Rattle.fen_text.specs.ClockLines.{clock_line, clock_text};
ghost use Rattle.fen_text.specs.Fen.{fen_of_four};
ghost use Rattle.fen_text.specs.OddsLines.{odds_line, odds_text};
ghost use Rattle.fen_text.specs.Spelling.{spelling};

/// Each query has one text of four fields: a text that is read as it is the one that is written of it, so two texts of four
/// fields that are read as one query are equal. Of six fields there are more, since a number may have leading zeros. A text of
/// four fields has at most 81 bytes. This does nothing when it runs.
pub fn one_text_each()
    ensures spelled { (text : List ℕ) (q : AnyQuery) → fen_of_four text ≡ Some q → text ≡ spelling q }
    ensures equal { (a b : List ℕ) (q : AnyQuery) → fen_of_four a ≡ Some q → fen_of_four b ≡ Some q → a ≡ b }
    ensures short { (text : List ℕ) (q : AnyQuery) → fen_of_four text ≡ Some q → length text ≤ 81 }
{}

/// A line is read as odds if and only if men may be left out on their squares, there is such a square, and it is the line that is
/// written of them. So there is one line for each odds but none. This does nothing when it runs.
pub fn one_text_of_odds()
    ensures { (text : List ℕ) (odds : List Bool) → odds_line text ≡ Some odds ↔ (AreOdds odds × (odds ≢ no_odds) × (text ≡ odds_text odds)) }
{}

/// A line is read as a clock if and only if this is at most 9999, and it is the line that is written of it. So there is one line for
/// each clock. This does nothing when it runs.
pub fn one_text_of_a_clock()
    ensures { (text : List ℕ) (n : ℕ) → clock_line text ≡ Some n ↔ ((n ≤ 9999) × (text ≡ clock_text n)) }
{}
