//! Tests of what `tell_evidence` tells: of each kind of evidence one text, written by hand.
#![tactic(auto)]

#[cfg(test)]
mod reading;
#[cfg(test)]
mod told;
