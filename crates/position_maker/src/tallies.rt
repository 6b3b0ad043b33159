/// What is counted on the way, and the number that was drawn by last.
#[derive(Clone, Copy)]
pub struct Tally {
    pub number: u64,
    pub plies: u32,
    pub unmoves: u64,
    pub missing: u32,
}
