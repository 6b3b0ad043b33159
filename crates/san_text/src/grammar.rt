ghost use Rattle.std.specs.Prelude.{ℕ, ◌≡◌, List, Some};
ghost use Rattle.san_text.specs.Forms.{IsForm, SaysSo};
ghost use Rattle.san_text.specs.declared.grammar.San.{San as ASan};
ghost use Rattle.san_text.specs.Grammar.{is_end, target_of, file_of, rank_of, file_head, rank_head, takes_head, after_file, after_rank, after_takes, piece_of, promoted_of, promotion_of, pawn_end, pawn_of, castling_end, castling_of, san_of, piece_letter};

use board_base::{Kind, Square, read_square};

/// What a text says of a move that isn't castling.
#[derive(Clone, Copy)]
pub struct Going {
    /// The kind of the man that goes.
    pub kind: Kind,
    /// The origin's file, from 0 for a to 7 for h, if the text gives it.
    pub file: Option<u8>,
    /// The origin's rank, from 0 to 7, if the text gives it.
    pub rank: Option<u8>,
    /// The move captures.
    pub takes: bool,
    /// The target.
    pub to: Square,
    /// What the pawn becomes, if the text gives it.
    pub promo: Option<Kind>,
}

/// What a text of algebraic notation says of a move.
#[derive(Clone, Copy)]
pub enum San {
    /// Castling with the rook of file h (article 3.8).
    Short,
    /// Castling with the rook of file a (article 3.8).
    Long,
    /// Any other move.
    Goes(Going),
}

/// Nothing is left but one sign of check or mate, if that.
fn is_end(text: &[u8]) -> bool
    ensures { result ≡ is_end text.now }
{
    match text {
        [] => true,
        [sign] => *sign == b'+' || *sign == b'#',
        _ => false,
    }
}

fn read_file(byte: u8) -> Option<u8>
    ensures { result ≡ file_of byte }
{
    if b'a' <= byte && byte <= b'h' {
        Some(byte - b'a')
    } else {
        None
    }
}

fn read_rank(byte: u8) -> Option<u8>
    ensures { result ≡ rank_of byte }
{
    if b'1' <= byte && byte <= b'8' {
        Some(byte - b'1')
    } else {
        None
    }
}

fn read_target(text: &[u8]) -> Option<Square>
    ensures { result ≡ target_of text.now }
{
    match text {
        [file, rank, rest @ ..] => {
            if is_end(rest) {
                read_square(*file, *rank)
            } else {
                None
            }
        }
        _ => None,
    }
}

fn split_file(text: &[u8]) -> (Option<u8>, &[u8])
    ensures file { result.0 ≡ file_head text.now }
    ensures rest { result.1.now ≡ after_file text.now }
{
    if read_target(text).is_some() {
        return (None, text);
    }
    match text {
        [] => (None, text),
        [byte, rest @ ..] => match read_file(*byte) {
            Some(file) => (Some(file), rest),
            None => (None, text),
        },
    }
}

fn split_rank(text: &[u8]) -> (Option<u8>, &[u8])
    ensures rank { result.0 ≡ rank_head text.now }
    ensures rest { result.1.now ≡ after_rank text.now }
{
    match text {
        [] => (None, text),
        [byte, rest @ ..] => match read_rank(*byte) {
            Some(rank) => (Some(rank), rest),
            None => (None, text),
        },
    }
}

fn split_takes(text: &[u8]) -> (bool, &[u8])
    ensures takes { result.0 ≡ takes_head text.now }
    ensures rest { result.1.now ≡ after_takes text.now }
{
    match text {
        [b'x', rest @ ..] => (true, rest),
        _ => (false, text),
    }
}

/// What a text says of the move of a piece, after the piece's letter.
#[tactic(auto, unfolding(crate::specs::Grammar::piece_of))]
fn read_piece(kind: Kind, text: &[u8]) -> Option<San>
    ensures { result ≡ piece_of kind text.now }
{
    let (file, text) = split_file(text);
    let (rank, text) = split_rank(text);
    let (takes, text) = split_takes(text);
    match read_target(text) {
        Some(to) => Some(San::Goes(Going {
            kind,
            file,
            rank,
            takes,
            to,
            promo: None,
        })),
        None => None,
    }
}

fn read_promoted(byte: u8) -> Option<Kind>
    ensures { result ≡ promoted_of byte }
{
    match byte {
        b'N' => Some(Kind::Knight),
        b'B' => Some(Kind::Bishop),
        b'R' => Some(Kind::Rook),
        b'Q' => Some(Kind::Queen),
        _ => None,
    }
}

fn read_letter(byte: u8) -> Option<Kind>
    ensures { result ≡ piece_letter byte }
{
    match byte {
        b'K' => Some(Kind::King),
        _ => read_promoted(byte),
    }
}

/// What may follow a pawn's target: nothing, or what the pawn becomes.
fn read_promotion(text: &[u8]) -> Option<Option<Kind>>
    ensures { result ≡ promotion_of text.now }
{
    match text {
        [sign, letter, rest @ ..] => {
            if *sign == b'=' && is_end(rest) {
                match read_promoted(*letter) {
                    Some(kind) => Some(Some(kind)),
                    None => None,
                }
            } else {
                None
            }
        }
        _ => { if is_end(text) { Some(None) } else { None } }
    }
}

fn read_pawn_end(file: Option<u8>, text: &[u8]) -> Option<San>
    ensures { result ≡ pawn_end file text.now }
{
    match text {
        [a, b, rest @ ..] => match (read_square(*a, *b), read_promotion(rest)) {
            (Some(to), Some(promo)) => Some(San::Goes(Going {
                kind: Kind::Pawn,
                file,
                rank: None,
                takes: file.is_some(),
                to,
                promo,
            })),
            _ => None,
        },
        _ => None,
    }
}

/// What a text says of the move of a pawn.
fn read_pawn(text: &[u8]) -> Option<San>
    ensures { result ≡ pawn_of text.now }
{
    match text {
        [a, b, rest @ ..] => {
            if *b == b'x' {
                match read_file(*a) {
                    Some(file) => read_pawn_end(Some(file), rest),
                    None => None,
                }
            } else {
                read_pawn_end(None, text)
            }
        }
        _ => None,
    }
}

fn read_castling_end(text: &[u8]) -> Option<San>
    ensures { result ≡ castling_end text.now }
{
    match text {
        [a, b, rest @ ..] => {
            if *a == b'-' && *b == b'O' && is_end(rest) {
                Some(San::Long)
            } else {
                None
            }
        }
        _ => { if is_end(text) { Some(San::Short) } else { None } }
    }
}

/// What a text says of a castling, after its first letter.
fn read_castling(text: &[u8]) -> Option<San>
    ensures { result ≡ castling_of text.now }
{
    match text {
        [a, b, rest @ ..] => {
            if *a == b'-' && *b == b'O' {
                read_castling_end(rest)
            } else {
                None
            }
        }
        _ => None,
    }
}

/// What a text of algebraic notation says of a move; None if and only if the text isn't of the grammar.
#[tactic(auto, unfolding(crate::specs::Grammar::san_of))]
pub fn read_grammar(text: &[u8]) -> Option<San>
    ensures { result ≡ san_of text.now }
{
    match text {
        [] => None,
        [byte, rest @ ..] => {
            if *byte == b'O' {
                return read_castling(rest);
            }
            match read_letter(*byte) {
                Some(kind) => read_piece(kind, rest),
                None => read_pawn(text),
            }
        }
    }
}

/// The grammar by its forms: a text is read as what its parts say in their order, before one sign of check or mate or none, and each
/// text of such parts is read as what they say.
pub fn texts_have_forms()
    ensures read { (text : List ℕ) (said : ASan) → san_of text ≡ Some said → IsForm said × SaysSo text said }
    ensures back { (text : List ℕ) (said : ASan) → IsForm said → SaysSo text said → san_of text ≡ Some said }
{}
