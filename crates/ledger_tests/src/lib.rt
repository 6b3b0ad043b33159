//! Tests of ledgers on published problems, whose solutions say what became of the men.
#![tactic(auto)]

#[cfg(test)]
mod ledgers;
#[cfg(test)]
mod paragraphs;
