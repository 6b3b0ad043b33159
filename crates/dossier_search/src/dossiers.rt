/// What a search for a dossier comes to. Steps and parts are counted from 1.
#[derive(Drop)]
pub enum Dossier {
    /// The text of the dossier, which proves the claim.
    Written(Vec<u8>),
    /// This step is the first that isn't listed, so no parts are due.
    Unlisted { step: u8 },
    /// Rule lines don't refute the target of this part at the depth, and no prices were found; each part before it is proved.
    Undecided { part: u32 },
    /// The search of this part by rule lines visited as many queries as it was allowed to, its target costs more, and no prices were
    /// found; each part before it is proved.
    Spent { part: u32 },
}
