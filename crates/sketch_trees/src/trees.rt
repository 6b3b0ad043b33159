use crate::children::{Child, cases_of};
use crate::looking::Look;
use crate::marking::Marking;
use crate::search::{Close, Search};
use board_base::Memory;

/// How many nodes are one below another at most, under the first.
pub const MOST_BELOW: u8 = 60;

/// In which ranks children are looked at.
const RANKS: [u8; 3] = [0, 1, 2];

impl Search {
    /// Whether all of these are refuted by trees of so many nodes below one another at most.
    #[cycle(refuting)]
    fn refutes_all(&mut self, children: &[Child], room: u8) -> Result<bool, Memory> {
        for rank in RANKS {
            for child in children {
                if child.rank == rank && !self.refutes(child, room)? {
                    return Ok(false);
                }
            }
        }
        Ok(true)
    }

    /// Whether it is refuted by a tree of so many nodes below one another at most. Why is noted then.
    #[cycle(refuting)]
    pub fn refutes(&mut self, child: &Child, room: u8) -> Result<bool, Memory> {
        match self.look(&child.sketch, MOST_BELOW.saturating_sub(room))? {
            Look::Refuted => return Ok(true),
            Look::Failed => {}
            Look::Open(marking, steps) => {
                if room > 0 && self.refutes_all(steps.as_slice(), room - 1)? {
                    self.note_refuted(&child.sketch, marking, Close::Steps)?;
                    return Ok(true);
                }
                self.note_failed(&child.sketch)?;
            }
        }
        self.refutes_cases(child, room)
    }

    /// Whether each case of the man is refuted of whom it isn't known what he is, if there is one.
    #[cycle(refuting)]
    fn refutes_cases(&mut self, child: &Child, room: u8) -> Result<bool, Memory> {
        let Some(square) = child.unknown else {
            return Ok(false);
        };
        if room == 0 {
            return Ok(false);
        }
        let cases = cases_of(self.alloc, &child.sketch, square)?;
        if cases.is_empty() || !self.refutes_all(cases.as_slice(), room - 1)? {
            return Ok(false);
        }
        self.note_refuted(&child.sketch, Marking::new(), Close::Split(square))?;
        Ok(true)
    }
}
