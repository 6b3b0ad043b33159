ghost use Rattle.std.specs.Prelude.{◌≡◌};
ghost use Rattle.board_base.specs.Board.{array_of, at};
ghost use Rattle.ledger_search.specs.Questions.{about, is_asked, is_man, only, shares_side};

use board_base::{Board, Kind, Man, Square, SquareSet, array_of, is_a, is_of};
use ledger_facts::Supposition;
use query_base::Query;

/// What may be asked of a square.
#[derive(Clone, Copy, PartialEq, Eq, Debug)]
pub enum Question {
    /// Whether the man on this square began there.
    Home(Square),
    /// Whether the pawn there has captured nowhere if this is true, and somewhere otherwise.
    Way(bool),
    /// Whether the man who began there stands on the board, and was promoted if this is true, and never otherwise.
    Stay(bool),
    /// Whether he was taken; he had been promoted if the first is true, and never otherwise; a pawn took him if the second is true, and
    /// none otherwise.
    Loss(bool, bool),
}

/// The set of one square.
fn only(s: Square) -> SquareSet
    ensures { result ≡ only s }
{
    SquareSet::from_bits(0).with(s)
}

/// What is supposed if the answer of a square is yes.
pub(crate) fn about(question: &Question, s: Square) -> Supposition
    ensures { result ≡ about question.now s }
{
    match *question {
        Question::Home(t) => Supposition::Began(t, only(s)),
        Question::Way(straight) => Supposition::Went(s, straight),
        Question::Stay(promoted) => Supposition::Stands(s, promoted),
        Question::Loss(promoted, struck) => Supposition::Gone(s, promoted, struck),
    }
}

/// Whether the place has a man.
pub(crate) fn is_man(place: Option<Man>) -> bool
    ensures { result ≡ is_man place }
{
    match place {
        Some(_) => true,
        None => false,
    }
}

/// Whether men of one side stand on the places.
fn shares_side(first: Option<Man>, second: Option<Man>) -> bool
    ensures { result ≡ shares_side first second }
{
    match first {
        Some(man) => is_of(man.colour, second),
        None => false,
    }
}

/// Whether the question is asked of a square of this board: homes of his side of a man, ways of pawns, and fates of the men of the array.
fn is_asked_on(board: &Board, first: &Board, question: &Question, s: Square) -> bool
    ensures { result ≡ is_asked question.now board.now first.now s }
{
    match *question {
        Question::Home(t) => shares_side(board.at(t), first.at(s)),
        Question::Way(_) => is_a(Kind::Pawn, board.at(s)),
        Question::Stay(_) => is_man(first.at(s)),
        Question::Loss(_, _) => is_man(first.at(s)),
    }
}

/// The same of a square of the query's.
pub(crate) fn is_asked(query: &Query, question: &Question, s: Square) -> bool
    ensures { result ≡ is_asked question.now query.now.board (array_of query.now.odds) s }
{
    is_asked_on(&query.board, &array_of(query.odds), question, s)
}
