ghost use Rattle.std.specs.Prelude.{◌≡◌, ◌≤◌, List, None, length};
ghost use Rattle.board_base.specs.declared.moves.Move.{Move};
ghost use Rattle.query_base.specs.Asked.{Asked};
ghost use Rattle.query_base.specs.Reach.{Reaches};
ghost use Rattle.cert_text.specs.Certificate.{Lines};
ghost use Rattle.length_bound.specs.LengthAnswers.{AnswersLength, IsShown, LengthAnswer};
ghost use Rattle.length_bound.specs.LengthText.{AreLengthLines};
ghost use Rattle.length_bound.specs.Longest.{IsBest};
ghost use Rattle.length_bound.specs.declared.texts.LengthText.{LengthText as AText};

use crate::laws::games_are_long;

/// The law that what the text of a length says has one text, and that lines say one thing, of a query that bars no move. This does
/// nothing when it runs.
pub fn one_length_text_each()
    ensures equal { (a b : Lines) (text : AText) → AreLengthLines a text → AreLengthLines b text → a ≡ b }
    ensures said { (lines : Lines) (s t : AText) → AreLengthLines lines s → AreLengthLines lines t → s ≡ t }
    ensures plain { (lines : Lines) (text : AText) → AreLengthLines lines text → text.query.barred ≡ None }
{}

/// The law that there is no more than one answer to the lines of a text of a length. This does nothing when it runs.
pub fn one_length_answer()
    ensures { (lines : Lines) (a b : LengthAnswer) → AnswersLength lines a → AnswersLength lines b → a ≡ b }
{}

/// The law that if a text's potentials show its number, no game that reaches its query has fewer half-moves; and that potentials
/// with the greatest sum do show the number that they are best for. This does nothing when it runs.
pub fn shown_lengths_hold()
    ensures least { (text : AText) → IsShown text → (g : List Move) → Reaches g text.query → text.at_least ≤ length g }
    ensures best { (q : Asked) (text : AText) → IsBest q text → IsShown text }
{
    games_are_long();
}
