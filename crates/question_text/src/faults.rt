use fen_text::FenFault;

/// Why an input doesn't ask for a position, or states no claim about one.
#[derive(Clone, Copy, PartialEq, Eq, Debug)]
pub enum InputFault {
    /// The line of this number, from 1, is missing, or isn't the line that is due there, or is one too many; or it says another
    /// clock than the FEN behind it.
    BadLine { line: u32 },
    /// The line that is due as a FEN isn't one.
    BadFen(FenFault),
}
