//! The program's `main`: its words, and the world. What it does with them stands in `cobra_program`.
#![tactic(auto)]

mod outside;

use crate::outside::{SystemErrors, SystemFiles, SystemInputs};
use cobra_calls::World;
use cobra_program::program;
use output::Counted;
use std::process::ExitCode;
use std::rt::Runtime;
use std::time::Instant;
use std::{env, io};

/// The words of the call.
fn words<R: Runtime + AllocGlobal>(rt: &R) -> io::Result<Vec<String>> {
    Ok(env::args(rt)?.collect(rt.alloc())?)
}

fn main(rt: HostRuntime) -> ExitCode {
    let start = Instant::now(&rt).ok();
    let mut world = World {
        inputs: SystemInputs {
            rt: &rt,
            input: Some(rt.stdin()),
            failures: 0,
            reads: 0,
        },
        output: Counted::new(rt.stdout()),
        errors: SystemErrors {
            rt: &rt,
            is_broken: false,
        },
    };
    let mut files = SystemFiles {
        rt: &rt,
        failures: 0,
    };
    let status = program(&rt, rt.alloc(), start, words(&rt), &mut world, &mut files);
    ExitCode::from(status)
}
