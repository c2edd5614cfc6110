use clap::Error;
use cobra_words::{Command, Format, Request, StrategyName, Words, words_of};
use isolation::Isolation;
use std::alloc::Global;
use std::process::Abort;

fn words(rt: &impl Abort, alloc: Global, line: &str) -> Vec<String> {
    let mut words = Vec::new(alloc);
    for word in line.split_whitespace() {
        let word = String::from_str(alloc, word).expect(rt, "memory");
        words.push(word).expect(rt, "memory");
    }
    words
}

fn read<'a>(rt: &impl Abort, alloc: Global, words: &'a [String]) -> Words<'a> {
    words_of(alloc, words)
        .expect(rt, "memory")
        .expect(rt, "words that are let through")
}

/// The call that words ask for.
fn request<'a>(rt: &impl Abort, alloc: Global, words: &'a [String]) -> Request<'a> {
    match read(rt, alloc, words) {
        Words::Request(request) => request,
        Words::Shown(_text) => panic!(rt; "no call"),
    }
}

/// The text of help, usage or version that answers words.
fn answer(rt: &impl Abort, alloc: Global, line: &str) -> Error {
    let words = words(rt, alloc, line);
    match read(rt, alloc, &words) {
        Words::Shown(text) => text,
        Words::Request(_request) => panic!(rt; "{line} is a call"),
    }
}

/// Words are answered by a text, with this status.
fn see_status(rt: &impl Abort, alloc: Global, line: &str, status: i32) {
    assert_eq!(rt; answer(rt, alloc, line).exit_code(), status, "{line}");
}

#[test]
fn refused_words(rt: HostRuntime) {
    for line in [
        "cobra_poly",
        "cobra_poly settle",
        "cobra_poly solve --budget 0 log",
        "cobra_poly solve --budget 100000001 log",
        "cobra_poly solve --strategy first log",
        "cobra_poly check --budget 0 log",
        "cobra_poly check --budget 1000001 log",
        "cobra_poly check --strategy best log",
        "cobra_poly check --plain log",
        "cobra_poly check --format text log",
        "cobra_poly explain --format svg log",
        "cobra_poly explain --format dot --format dot log",
        "cobra_poly explain --plain log",
        "cobra_poly explain --level best log",
        "cobra_poly explain --level snapshot --format json log",
        "cobra_poly check --workers 17 log",
        "cobra_poly encode --workers 0",
        "cobra_poly encode --workers 17",
        "cobra_poly encode --workers four",
        "cobra_poly encode --workers 2 --workers 2",
        "cobra_poly encode --plain --plain",
        "cobra_poly encode --budget 3",
        "cobra_poly encode one two",
        "cobra_poly decode log",
        "cobra_poly refute log",
        "cobra_poly verify log",
        "cobra_poly verify --order o --workers 4 log",
        "cobra_poly verify --order o --plain log",
        "cobra_poly audit --size 900 log",
        "cobra_poly audit --faults 0 log",
        "cobra_poly audit --faults 1001 log",
        "cobra_poly audit --seconds 0 log",
        "cobra_poly audit --format dot log",
        "cobra_poly audit --plain log",
        "cobra_poly check --size 3 log",
        "cobra_poly split --plain log",
        "cobra_poly pieces log",
    ] {
        see_status(&rt, rt.alloc(), line, 2);
    }
}

#[test]
fn helped_words(rt: HostRuntime) {
    for line in [
        "cobra_poly --help",
        "cobra_poly encode --help",
        "cobra_poly check --help",
    ] {
        see_status(&rt, rt.alloc(), line, 0);
    }
}

/// Words are answered by a text that has this part.
fn see_text(rt: &impl Abort, alloc: Global, line: &str, part: &str) {
    let text = answer(rt, alloc, line);
    let text = format!(in alloc; "{text}").expect(rt, "memory");
    assert!(rt; text.contains(part), "{line}: {text}");
}

#[test]
fn texts_of_help(rt: HostRuntime) {
    for (line, part) in [
        (
            "cobra_poly --version",
            "cobra_poly 1.0.0 (commit unknown, not stamped)\n",
        ),
        (
            "cobra_poly encode --help",
            "  0  the formula; the contradiction",
        ),
        (
            "cobra_poly decode --help",
            "  3  unsatisfiable claimed, not checked; or unknown\n",
        ),
        (
            "cobra_poly refute --help",
            "  1  not serializable: the formula is refuted\n",
        ),
        ("cobra_poly check --help", "  1  not serializable: and why"),
        (
            "cobra_poly explain --help",
            "  3  as check, and what to try next\n",
        ),
        (
            "cobra_poly check --help",
            "--budget <N>       How many cubes a search may close, 1 to 1000000 [default: 10000]\n",
        ),
        ("cobra_poly verify --help", "  0  accepted\n"),
        (
            "cobra_poly stats --help",
            "How many workers take part, 1 to 16 [default: 4]\n",
        ),
        (
            "cobra_poly audit --help",
            "one over the formula may meet, 1 to 1000000 [default: 100000]\n",
        ),
        ("cobra_poly split --help", "  0  the split log\n"),
    ] {
        see_text(&rt, rt.alloc(), line, part);
    }
}

/// Whether a call reads the log from this file, or from standard input where it has no name.
fn is_log(request: &Request<'_>, file: &str) -> bool {
    match request.log {
        Some(log) => log == file,
        None => file.is_empty(),
    }
}

/// Words are a call that reads the log from this file.
fn see_log(rt: &impl Abort, alloc: Global, line: &str, file: &str) {
    let words = words(rt, alloc, line);
    assert!(rt; is_log(&request(rt, alloc, &words), file), "{line}");
}

#[test]
fn files_of_logs(rt: HostRuntime) {
    for (line, file) in [
        ("cobra_poly check", ""),
        ("cobra_poly check -", ""),
        ("cobra_poly decode --model - -", ""),
        ("cobra_poly check ./-", "./-"),
        ("cobra_poly explain --format dot log", "log"),
        ("cobra_poly refute --plain --proof p log", "log"),
        ("cobra_poly verify --order order log", "log"),
    ] {
        see_log(&rt, rt.alloc(), line, file);
    }
}

/// The strategy and the budget of a call, where it is one of `check`.
fn asked(request: &Request<'_>) -> Option<(StrategyName, usize)> {
    match &request.command {
        Command::Check => Some((request.strategy, request.budget.get())),
        _ => None,
    }
}

/// Words are a call of `check` with this strategy and budget.
fn see_asked(rt: &impl Abort, alloc: Global, line: &str, strategy: StrategyName, budget: usize) {
    let words = words(rt, alloc, line);
    let found = asked(&request(rt, alloc, &words));
    assert!(rt; found == Some((strategy, budget)), "{line}");
}

#[test]
fn words_of_check(rt: HostRuntime) {
    for (line, strategy, budget) in [
        ("cobra_poly check", StrategyName::First, 10_000),
        (
            "cobra_poly check --strategy most --budget 1 log",
            StrategyName::Most,
            1,
        ),
        (
            "cobra_poly check --budget 1000000 --strategy least",
            StrategyName::Least,
            1_000_000,
        ),
        (
            "cobra_poly check --strategy forced",
            StrategyName::Forced,
            10_000,
        ),
        (
            "cobra_poly check --strategy first",
            StrategyName::First,
            10_000,
        ),
    ] {
        see_asked(&rt, rt.alloc(), line, strategy, budget);
    }
}

/// The form in which a call asks why a log has no order.
fn form_asked(request: &Request<'_>) -> Option<Format> {
    match &request.command {
        Command::Explain { format } => Some(*format),
        Command::Audit(words) => Some(words.explanation),
        _ => None,
    }
}

/// Words are a call that asks so in this form.
fn see_form(rt: &impl Abort, alloc: Global, line: &str, form: Format) {
    let words = words(rt, alloc, line);
    assert!(rt;
        form_asked(&request(rt, alloc, &words)) == Some(form),
        "{line}"
    );
}

#[test]
fn words_of_explain(rt: HostRuntime) {
    for (line, form) in [
        ("cobra_poly explain log", Format::Text),
        ("cobra_poly explain --format text", Format::Text),
        ("cobra_poly explain --format dot --budget 3", Format::Dot),
        ("cobra_poly explain --level snapshot log", Format::Text),
        (
            "cobra_poly explain --level snapshot --format dot log",
            Format::Dot,
        ),
        (
            "cobra_poly explain --format text --level causal",
            Format::Text,
        ),
        (
            "cobra_poly audit --level causal --format json",
            Format::Text,
        ),
    ] {
        see_form(&rt, rt.alloc(), line, form);
    }
}

/// What a call of `audit` asks for: the least number of commits, of faults, the seconds, the budget,
/// and whether moments are left out.
fn audit_asked(request: &Request<'_>) -> Option<(usize, usize, Option<u32>, usize, bool)> {
    match &request.command {
        Command::Audit(words) => Some((
            words.at_least,
            words.faults,
            words.seconds,
            request.budget.get(),
            words.no_moments,
        )),
        _ => None,
    }
}

/// Words are a call of `audit` with these.
fn see_audit(
    rt: &impl Abort,
    alloc: Global,
    line: &str,
    wanted: (usize, usize, Option<u32>, usize, bool),
) {
    let words = words(rt, alloc, line);
    assert!(rt;
        audit_asked(&request(rt, alloc, &words)) == Some(wanted),
        "{line}"
    );
}

#[test]
fn words_of_audit(rt: HostRuntime) {
    for (line, wanted) in [
        ("cobra_poly audit log", (1, 1, None, 100_000, false)),
        (
            "cobra_poly audit --faults 9 --at-least 100 --seconds 60 --budget 1 --no-moments",
            (100, 9, Some(60), 1, true),
        ),
    ] {
        see_audit(&rt, rt.alloc(), line, wanted);
    }
}

/// The level that a call of `audit` asks for by name.
fn asked_level(request: &Request<'_>) -> Option<Isolation> {
    match &request.command {
        Command::Audit(words) => words.level,
        _ => None,
    }
}

/// Words are a call of `audit` that asks for this level.
fn see_level(rt: &impl Abort, alloc: Global, line: &str, level: Option<Isolation>) {
    let words = words(rt, alloc, line);
    assert!(rt; asked_level(&request(rt, alloc, &words)) == level, "{line}");
}

#[test]
fn words_of_levels(rt: HostRuntime) {
    for (line, level) in [
        ("cobra_poly audit", None),
        (
            "cobra_poly audit --level strict-serializable",
            Some(Isolation::StrictSerializable),
        ),
        (
            "cobra_poly audit --level serializable",
            Some(Isolation::Serializable),
        ),
        (
            "cobra_poly audit --level strict-snapshot",
            Some(Isolation::StrictSnapshot),
        ),
        (
            "cobra_poly audit --level snapshot",
            Some(Isolation::Snapshot),
        ),
        (
            "cobra_poly explain --level snapshot",
            Some(Isolation::Snapshot),
        ),
    ] {
        see_level(&rt, rt.alloc(), line, level);
    }
}

/// Whether a call is one of `audit` that asks for these files.
fn asks_for_files(request: &Request<'_>, part: &str, order: &str) -> bool {
    match &request.command {
        Command::Audit(words) => words.part == Some(part) && words.order == Some(order),
        _ => false,
    }
}

/// Words are a call of `audit` that asks for these files.
fn see_files(rt: &impl Abort, alloc: Global, line: &str, part: &str, order: &str) {
    let words = words(rt, alloc, line);
    assert!(rt;
        asks_for_files(&request(rt, alloc, &words), part, order),
        "{line}"
    );
}

#[test]
fn files_of_audit(rt: HostRuntime) {
    let line = "cobra_poly audit --part some.log --order an.order log";
    see_files(&rt, rt.alloc(), line, "some.log", "an.order");
}
