/// Why a line is refused.
#[derive(Clone, Copy, PartialEq, Eq, Debug)]
pub enum SketchFault {
    /// On this line the label isn't that of the next step or case, or no more is left.
    Stray {
        /// The number of the line.
        line: u32,
    },
    /// On this line a mark isn't forced, or the end of a node isn't so, or more steps are left behind the last node that it announced.
    Unsupported {
        /// The number of the line.
        line: u32,
    },
    /// No such line can come here: one of marks is due, or one of a node, or none; or it announces nodes and 64 are above it.
    Misplaced,
}
