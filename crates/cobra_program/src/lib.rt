//! The program: from the words of a call to what it leaves in the world, and its exit status.
//!
//! Called by `cobra_poly`, which gives it the words and the world. It opens no file and makes no
//! device.
#![tactic(auto)]

mod audits;
mod calls;
mod stages;
mod texts;

pub use calls::program;
