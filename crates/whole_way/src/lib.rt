//! Tests that cross crates, over bytes in memory: a log goes in, and what a command prints and how
//! it ends is compared.
#![tactic(auto)]

#[cfg(test)]
mod chains;
#[cfg(test)]
mod checks;
#[cfg(test)]
mod commands;
#[cfg(test)]
mod gates;
#[cfg(test)]
mod logs;
#[cfg(test)]
mod tape;
#[cfg(test)]
mod tests;
