//! Numbers that stand twice.

ghost use Rattle.std.specs.Prelude.{◌≡◌, ◌==◌, [], Some, min, if◌then◌else◌};
ghost use Rattle.std.specs.Option.{option_map_or};
ghost use Rattle.log_definitions.specs.WellFormed.{repeated};
ghost use Rattle.long_reading.specs.Statements.{by_line, AscendFrom};

/// A number, and the line where it stands. They are ordered by number, then by line.
#[derive(Clone, Copy, Debug, PartialEq, Eq, PartialOrd, Ord)]
pub struct Stated {
    pub number: u64,
    pub line: usize,
}

/// The least line so far, with that of the second of two neighbours, where they have one number.
fn with_pair(first: Option<usize>, one: Stated, next: Stated) -> Option<usize>
    ensures { result ≡ (if one.number == next.number
        then Some (option_map_or (λ line. min line next.line) first next.line) else first) }
{
    if one.number != next.number {
        return first;
    }
    match first {
        Some(line) => Some(line.min(next.line)),
        None => Some(next.line),
    }
}

/// The first line whose number stood before. It takes no time that the numbers could make long:
/// they are sorted, and then equal ones are neighbours, by their lines.
pub fn first_repeated(stated: &mut [Stated]) -> Option<usize>
    requires { AscendFrom 0 (by_line stated.old) }
    ensures { result ≡ repeated [] (by_line stated.old) }
{
    stated.sort_unstable();
    let mut first = None;
    for i in 1..stated.len() {
        first = with_pair(first, stated[i - 1], stated[i]);
    }
    first
}
