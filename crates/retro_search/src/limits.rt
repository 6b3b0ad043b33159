ghost use Rattle.std.specs.Prelude.{◌≤◌};

/// How far a search goes: it takes back at most `depth` moves, 0 to 64, and visits at most `nodes` queries, 1 to 500,000.
#[derive(Clone, Copy)]
pub struct Limits {
    /// The most moves that are taken back.
    pub depth: u8,
    /// The most queries that are visited.
    pub nodes: u32,
    pub ghost shallow: { depth ≤ 64 },
    pub ghost some: { 1 ≤ nodes },
    pub ghost few: { nodes ≤ 500_000 },
}
