//! Facts on lists, ranges, sums, injections and rounds of a fixpoint, which know nothing of chess and which every crate above uses.
//! It has no code: `proofs/` has the lemmas, by topic.
#![tactic(auto)]
