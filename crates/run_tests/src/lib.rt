//! Tests of runs: failing reads and writes, refused memory, wide and deep inputs, inputs that are cut, odd words.
#![tactic(auto)]

#[cfg(test)]
mod faults;
#[cfg(test)]
mod fronts;
#[cfg(test)]
mod long_certificates;
#[cfg(test)]
mod refusals;
#[cfg(test)]
mod refused_memory;
#[cfg(test)]
mod rows;
#[cfg(test)]
mod wide_certificates;
#[cfg(test)]
mod words;
