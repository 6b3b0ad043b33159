ghost use Rattle.std.specs.Prelude.{◌≡◌, ◌++◌, IfOk};
ghost use Rattle.retraction_bars.specs.Phrases.{phrase};

use prose_words::say;
use std::alloc::AllocError;

/// A phrase of the sentences.
#[derive(Clone, Copy)]
pub enum Phrase {
    OnFirst,
    OnOwnFirst,
    Each,
    ElseEach,
    ToComeFrom,
    Or,
    AnySquare,
    LastMove,
    GaveCheck,
    Occupied,
    ItGave,
    TheKing,
    AndTheRook,
    NeverMoved,
    RuledOut,
    TooMany,
    ByClock,
    NotPassed,
    Illegal,
    From,
    Quietly,
    Capturing,
    EnPassant,
    AsPawn,
    Also,
    AtOnce,
    Is,
    Stop,
}

/// The words of a phrase.
#[tactic(auto, unfolding(crate::specs::Phrases::phrase))]
fn phrase_of(p: Phrase) -> &'static [u8]
    ensures { result.now ≡ phrase p }
{
    match p {
        Phrase::OnFirst => b": on their first squares.",
        Phrase::OnOwnFirst => b": on its first square.",
        Phrase::Each => b" Each",
        Phrase::ElseEach => b" Otherwise each",
        Phrase::ToComeFrom => b" square to come from is occupied",
        Phrase::Or => b", or ",
        Phrase::AnySquare => b" from any square",
        Phrase::LastMove => b"the last move was ",
        Phrase::GaveCheck => b" gave check already",
        Phrase::Occupied => b"occupied",
        Phrase::ItGave => b"it attacked the king already",
        Phrase::TheKing => b"the king of ",
        Phrase::AndTheRook => b" and the rook of ",
        Phrase::NeverMoved => b" never moved",
        Phrase::RuledOut => b"ruled out",
        Phrase::TooMany => b" would have had too many pawns and promoted men",
        Phrase::ByClock => b"the clock forbids it",
        Phrase::NotPassed => b"no double step came just before",
        Phrase::Illegal => b"no legal move",
        Phrase::From => b" from",
        Phrase::Quietly => b" without a capture from",
        Phrase::Capturing => b" capturing from",
        Phrase::EnPassant => b" en passant from",
        Phrase::AsPawn => b" (pawn)",
        Phrase::Also => b" and",
        Phrase::AtOnce => b" both give check, and no single move gives both.",
        Phrase::Is => b": ",
        Phrase::Stop => b".",
    }
}

/// Adds the words of a phrase.
pub fn say_phrase(p: Phrase, out: &mut Vec<u8>) -> Result<(), AllocError>
    ensures { IfOk result (λ _. out.new.items ≡ out.old.items ++ phrase p) }
{
    say(phrase_of(p), out)
}
