use crate::step_lists::StepList;
use board_base::Castle;

/// What is said of several moves of each game that reaches a query. A claim holds if no list of moves, however long, is such a
/// game and contradicts it.
#[derive(Drop, Debug)]
pub enum LineClaim {
    /// The rights to these two castlings aren't both kept: one of their kings or rooks has moved (article 3.8.2.1), or was captured
    /// or left out.
    NotBoth(Castle, Castle),
    /// The game ends with the moves of these unmoves, its last move first; each captured what its unmove says, en passant if
    /// it is so marked.
    Line(StepList),
}
