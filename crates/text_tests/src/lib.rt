//! Tests of the texts of certificates: what their lines and bodies are read as, and what is written.
#![tactic(auto)]

#[cfg(test)]
mod balance_lines;
#[cfg(test)]
mod certificate_texts;
#[cfg(test)]
mod sketch_bodies;
#[cfg(test)]
mod sketch_certificates;
#[cfg(test)]
mod sketch_lines;
#[cfg(test)]
mod written_certificates;
