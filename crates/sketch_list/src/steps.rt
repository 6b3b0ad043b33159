/// Whom a listed step takes.
#[derive(Clone, Copy)]
pub enum Victim {
    /// Nobody.
    Nobody,
    /// A pawn on the target.
    TakenPawn,
    /// A bishop there.
    TakenBishop,
    /// A knight, a rook or a queen there: not known which.
    TakenOther,
    /// A pawn en passant.
    PassedPawn,
}
