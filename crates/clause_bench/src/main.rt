//! Decides formulas in DIMACS by the search of `clause_search`, for `bench/solve.py` and
//! `tests/solving.py`: `clause_bench FILE BUDGET` writes what a solver does, `s` and `v` lines.
#![tactic(auto)]

ghost use Rattle.std.specs.Prelude.{◌<◌, ◌^◌};

use clause_search::{Found, search_clauses};
use cobra_cli::{CountedRead, read_all};
use refutation::Checker;
use serializability::Literal;
use std::alloc::{AllocError, Global};
use std::io::{BufWriter, Write};
use std::rt::Files;
use std::{env, fs, io};

/// The most bytes of a formula.
const MOST_BYTES: usize = 1 << 30;

/// A formula as it is read.
#[derive(Drop)]
struct Formula {
    checker: Checker,
    variables: u32,
}

/// The literal that a number stands for.
fn literal_of(number: i64) -> Literal {
    Literal {
        variable: u32::try_from(number.unsigned_abs()).unwrap_or(u32::MAX),
        positive: number > 0,
    }
}

/// The number that a word is.
fn number_of(word: &[u8]) -> Option<i64> {
    std::str::from_utf8(word).ok()?.parse::<i64>().ok()
}

/// The number of variables of a formula's first line, `p cnf VARIABLES CLAUSES`.
fn variables_of(line: &[u8]) -> u32 {
    let word = line.split(|byte| *byte == b' ').nth(2);
    let number = word.and_then(|word| number_of(word));
    number
        .and_then(|number| u32::try_from(number).ok())
        .unwrap_or(0)
}

/// Gives a checker the clause of a line.
fn give_line(
    checker: &mut Checker,
    line: &[u8],
    clause: &mut Vec<Literal>,
) -> Result<(), AllocError> {
    clause.clear();
    for word in line.split(|byte| *byte == b' ') {
        match number_of(word) {
            Some(0) => checker.give(clause)?,
            Some(number) => clause.push(literal_of(number))?,
            None => {}
        }
    }
    Ok(())
}

/// Reads a formula, each clause of which stands on a line.
fn read_formula(alloc: Global, text: &[u8]) -> Result<Formula, AllocError> {
    let mut lines = text.split(|byte| *byte == b'\n');
    let variables = variables_of(lines.next().unwrap_or(&[]));
    let mut checker = Checker::new(alloc, (variables as usize).saturating_add(1))?;
    let mut clause = Vec::new(alloc);
    for line in lines {
        give_line(&mut checker, line, &mut clause)?;
    }
    Ok(Formula { checker, variables })
}

/// Writes the values of variables.
fn put_values<W: Write>(out: &mut W, values: &[bool]) -> io::Result<()> {
    write!(out, "v")?;
    for (place, value) in values.iter().enumerate() {
        let sign = if *value { "" } else { "-" };
        let variable = place.saturating_add(1);
        write!(out, " {sign}{variable}")?;
    }
    writeln!(out, " 0")
}

/// Writes what a search comes to.
fn put_found<W: Write>(out: &mut W, found: &Found) -> io::Result<()> {
    match found {
        Found::Refuted => writeln!(out, "s UNSATISFIABLE"),
        Found::Satisfied(values) => {
            writeln!(out, "s SATISFIABLE")?;
            put_values(out, values)
        }
        Found::Spent => writeln!(out, "s UNKNOWN"),
    }
}

/// Decides the formula of a file.
fn decide<R: Files, W: Write + Drop>(
    rt: &R,
    alloc: Global,
    path: &str,
    budget: u32,
    output: W,
) -> io::Result<()> {
    let mut source = CountedRead {
        reader: fs::open(rt, path)?,
        failures: 0,
    };
    let Ok(text) = read_all(alloc, &mut source, MOST_BYTES) else {
        return Ok(());
    };
    let mut formula = read_formula(alloc, &text)?;
    let found = search_clauses(alloc, &mut formula.checker, formula.variables, budget)?;
    let learnt = formula.checker.len();
    let mut out = BufWriter::new(alloc, output)?;
    put_found(&mut out, &found)?;
    writeln!(out, "c {learnt} clauses stand or stood")?;
    out.flush()
}

fn main(rt: HostRuntime) -> io::Result<()> {
    let words: Vec<String> = env::args(&rt)?.collect(rt.alloc())?;
    if let [_, path, budget] = words.as_slice() {
        let budget = budget.parse::<u32>().unwrap_or(1);
        decide(&rt, rt.alloc(), path, budget, rt.stdout())?;
    }
    Ok(())
}
