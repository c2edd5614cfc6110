//! Tests of the words of the command line, by public calls.
#![tactic(auto)]

#[cfg(test)]
mod cobra_words_tests;
