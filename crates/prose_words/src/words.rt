//! Words for sides, men, squares and numbers.

ghost use Rattle.std.specs.Prelude.{◌≡◌, ◌∷◌, ◌++◌, IfOk};
ghost use Rattle.std.specs.Fmt.{decimal};
ghost use Rattle.board_base.specs.Board.{is_in};
ghost use Rattle.board_base.specs.Texts.{square_text};
ghost use Rattle.prose_words.specs.Words.{colour_word, given_square, initial, kind_word, man_letter, man_words, place_initial, place_letter, side_word, squares_words, wing_word};

use board_base::{Castle, Colour, Kind, Man, Square, SquareSet, kind_letter};
use itoa::Buffer;
use std::alloc::AllocError;

/// Adds these bytes.
pub fn say(text: &[u8], out: &mut Vec<u8>) -> Result<(), AllocError>
    ensures { IfOk result (λ _. out.new.items ≡ out.old.items ++ text.now) }
{
    out.extend_from_slice(text)
}

/// A side by its name.
pub fn side_word(side: Colour) -> &'static [u8]
    ensures { result.now ≡ side_word side }
{
    match side {
        Colour::White => b"White",
        Colour::Black => b"Black",
    }
}

/// The colour of a man, with a space behind.
pub fn colour_word(side: Colour) -> &'static [u8]
    ensures { result.now ≡ colour_word side }
{
    match side {
        Colour::White => b"white ",
        Colour::Black => b"black ",
    }
}

/// What a man is, in a word.
pub fn kind_word(kind: Kind) -> &'static [u8]
    ensures { result.now ≡ kind_word kind }
{
    match kind {
        Kind::Pawn => b"pawn",
        Kind::Knight => b"knight",
        Kind::Bishop => b"bishop",
        Kind::Rook => b"rook",
        Kind::Queen => b"queen",
        Kind::King => b"king",
    }
}

/// The letter before a man's move in long notation; a pawn's has none.
pub fn initial(kind: Kind) -> &'static [u8]
    ensures { result.now ≡ initial kind }
{
    match kind {
        Kind::Pawn => b"",
        Kind::Knight => b"N",
        Kind::Bishop => b"B",
        Kind::Rook => b"R",
        Kind::Queen => b"Q",
        Kind::King => b"K",
    }
}

/// The same for the man of a place; none if nobody stands there.
pub fn place_initial(place: Option<Man>) -> &'static [u8]
    ensures { result.now ≡ place_initial place }
{
    match place {
        None => b"",
        Some(man) => initial(man.kind),
    }
}

/// The letter of a man of White's in the diagram.
fn capital_letter(kind: Kind) -> u8
    ensures { result ≡ man_letter Colour.White kind }
{
    match kind {
        Kind::Pawn => b'P',
        Kind::Knight => b'N',
        Kind::Bishop => b'B',
        Kind::Rook => b'R',
        Kind::Queen => b'Q',
        Kind::King => b'K',
    }
}

/// The letter of a place in the diagram: a capital one for a man of White's, and a full stop if nobody stands.
pub fn place_letter(place: Option<Man>) -> u8
    ensures { result ≡ place_letter place }
{
    match place {
        None => b'.',
        Some(man) => match man.colour {
            Colour::White => capital_letter(man.kind),
            Colour::Black => kind_letter(man.kind),
        },
    }
}

/// The side of the board to which a king castles.
pub fn wing_word(castle: Castle) -> &'static [u8]
    ensures { result.now ≡ wing_word castle }
{
    match castle {
        Castle::WhiteShort | Castle::BlackShort => b"king's",
        Castle::WhiteLong | Castle::BlackLong => b"queen's",
    }
}

/// A square by its file and rank, as in `e4`.
pub fn push_square(s: Square, out: &mut Vec<u8>) -> Result<(), AllocError>
    ensures { IfOk result (λ _. out.new.items ≡ out.old.items ++ square_text s) }
{
    out.push(b'a' + s.file())?;
    out.push(b'1' + s.rank())?;
    Ok(())
}

/// A number in decimal digits.
pub fn push_number(n: usize, out: &mut Vec<u8>) -> Result<(), AllocError>
    ensures { IfOk result (λ _. out.new.items ≡ out.old.items ++ decimal n) }
{
    let mut digits = Buffer::new();
    say(digits.format(n).as_bytes(), out)
}

/// A man as in `a black knight`; `nobody` if there is none.
pub fn push_man(place: Option<Man>, out: &mut Vec<u8>) -> Result<(), AllocError>
    ensures { IfOk result (λ _. out.new.items ≡ out.old.items ++ man_words place) }
{
    match place {
        None => say(b"nobody", out),
        Some(man) => {
            say(b"a ", out)?;
            say(colour_word(man.colour), out)?;
            say(kind_word(man.kind), out)
        }
    }
}

/// A square after a space, if it is to be written.
pub fn push_square_if(given: bool, s: Square, out: &mut Vec<u8>) -> Result<(), AllocError>
    ensures { IfOk result (λ _. out.new.items ≡ out.old.items ++ given_square given s) }
{
    if given {
        say(b" ", out)?;
        push_square(s, out)
    } else {
        Ok(())
    }
}

/// The squares of the set, ascending, each after a space.
pub fn push_squares(set: SquareSet, out: &mut Vec<u8>) -> Result<(), AllocError>
    ensures { IfOk result (λ _. out.new.items ≡ out.old.items ++ squares_words (is_in set)) }
{
    for i in 0..64 {
        let s = Square::known(i);
        push_square_if(set.has(s), s, out)?;
    }
    Ok(())
}
