//! What a line says that refuses an input.

ghost use Rattle.std.specs.Prelude.{◌↔◌, IfSome, IsSome, codes};
ghost use Rattle.front_door.specs.Hints.{Says};
ghost use Rattle.front_door.specs.Refusals.{RefusesField, front_of};

/// What was refused, by the line that says so.
#[derive(Clone, Copy, PartialEq, Eq, Debug)]
pub enum Refusal {
    /// The line of this number.
    Line(u32),
    /// The FEN line, behind so many bytes, in this field.
    Fen { field: u32, at: usize },
    /// The word of this number of a game.
    Word(u32),
    /// The ply of this number, to which no legal move fits.
    Ply(u32),
    /// The first line of a certificate, as text.
    FirstLine,
}

/// The number with which the text begins, and what follows it.
fn split_number(text: &[u8]) -> (u32, &[u8]) {
    let mut number: u32 = 0;
    for (i, byte) in text.iter().enumerate() {
        if !byte.is_ascii_digit() {
            return (number, &text[i..]);
        }
        number = number
            .saturating_mul(10)
            .saturating_add(u32::from(*byte - b'0'));
    }
    (number, &[])
}

/// What follows the text in the line, if it begins with it.
fn behind<'a>(line: &'a [u8], text: &[u8]) -> Option<&'a [u8]>
    ensures { IsSome result ↔ Says line.now text.now }
{
    if line.starts_with(text) {
        Some(&line[text.len()..])
    } else {
        None
    }
}

/// What the line refuses; None if it is no such line.
pub(crate) fn refusal_of(line: &[u8]) -> Option<Refusal>
    ensures front { IfSome result (λ refusal. Says line.now (front_of refusal)) }
    ensures fen { Says line.now (codes "bad fen field ") → RefusesField result }
{
    if let Some(rest) = behind(line, b"bad fen field ") {
        let (field, rest) = split_number(rest);
        let at = match behind(rest, b" byte ") {
            Some(rest) => split_number(rest).0 as usize,
            None => 0,
        };
        return Some(Refusal::Fen { field, at });
    }
    if let Some(rest) = behind(line, b"bad line ") {
        return Some(Refusal::Line(split_number(rest).0));
    }
    if let Some(rest) = behind(line, b"refused word ") {
        return Some(Refusal::Word(split_number(rest).0));
    }
    if let Some(rest) = behind(line, b"refused ply ") {
        let (ply, rest) = split_number(rest);
        behind(rest, b" none")?;
        return Some(Refusal::Ply(ply));
    }
    behind(line, b"refused line 1 text")?;
    Some(Refusal::FirstLine)
}
