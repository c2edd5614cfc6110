//! Tests of the crates that read a log, each by its public calls: the text and its grammar, the
//! workers that read it, the desk that they share, logs of any length and the words for their
//! faults; and a gate that the tests of other crates take too.
#![tactic(auto)]

#[cfg(test)]
mod desk_tests;
#[cfg(test)]
mod fault_words_tests;
#[cfg(test)]
mod gather_tests;
pub mod holding;
#[cfg(test)]
mod reading_tests;
#[cfg(test)]
mod session_log_tests;
