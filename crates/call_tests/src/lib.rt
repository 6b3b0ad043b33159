//! Tests of the calls of the crates below: what each answers on boards, men, queries and streams that are written out.
#![tactic(auto)]

#[cfg(test)]
mod claims;
#[cfg(test)]
mod demands;
#[cfg(test)]
mod men;
#[cfg(test)]
mod odds;
#[cfg(test)]
mod ports;
#[cfg(test)]
mod queries;
#[cfg(test)]
mod step_claims;
