//! Tests of a crew: that its workers work at once, that each job is taken or left once, and what it hands back.
#![tactic(auto)]

#[cfg(test)]
mod crews;
#[cfg(test)]
mod signs;
#[cfg(test)]
mod turnstile;
