//! The lines of a log.

use session_log::next_line;

/// A line of a log, without its line feed, and whether it has one.
#[derive(Clone, Copy)]
pub struct LogLine<'a> {
    pub bytes: &'a [u8],
    pub ended: bool,
}

/// The line of this number, from 1.
pub fn line_at(log: &[u8], number: usize) -> Option<LogLine<'_>> {
    let mut rest = log;
    let mut n: usize = 0;
    while !rest.is_empty() {
        let (bytes, ended, after) = next_line(rest);
        n = n.saturating_add(1);
        if n == number {
            return Some(LogLine { bytes, ended });
        }
        rest = after;
    }
    None
}

/// The number of the first line that passes the test, where that is below this number.
pub fn earlier_line<F: Fn(&[u8]) -> bool>(log: &[u8], number: usize, test: F) -> Option<usize>
    requires { F.IsAlwaysCallable test }
{
    let mut rest = log;
    let mut n: usize = 0;
    while !rest.is_empty() {
        let (bytes, _, after) = next_line(rest);
        n = n.saturating_add(1);
        if n >= number {
            return None;
        }
        if test(bytes) {
            return Some(n);
        }
        rest = after;
    }
    None
}
