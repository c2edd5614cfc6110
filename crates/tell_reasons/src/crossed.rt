//! Reads of all four pairs of two versions of a key and two of another.

ghost use Rattle.std.specs.Prelude.{◌≡◌, ◌++◌, OnOk};
ghost use Rattle.tell_reasons.specs.Crossed.{pair_text, crossing_text};

use crate::say;
use crate::words::Said;
use log_lines::PlacedHistory as Log;
use reason_laws::{Crossing, PairRead};

/// Appends what a transaction reads, as `    5.1 reads x 1 (line 19) and y 3 (line 20)`.
fn put_pair(out: &mut Vec<u8>, log: &Log<'_>, pair: PairRead) -> Said
    ensures text { OnOk result (out.new.items ≡ out.old.items ++ pair_text log.now pair) }
{
    say!(out, log; Text(b"    "), Does(pair.node, b" reads ", pair.first), Text(b" and "),
        Operation(pair.node, pair.second), AtLine(pair.node, pair.second), Text(b"\n"))
}

/// Appends that all four pairs of two versions of a key and two of another were read, and what that
/// is called.
#[tactic(auto, using(std::proofs::Common::append_assoc))]
pub fn put_crossing(out: &mut Vec<u8>, log: &Log<'_>, crossing: Crossing) -> Said
    ensures text { OnOk result (out.new.items ≡ out.old.items ++ crossing_text log.now crossing) }
{
    say!(out, log; Text(b"four transactions read these pairs of versions; in a serial order each key changes once from one version to the other, so it has at most three of them:\n"))?;
    put_pair(out, log, crossing.one_one)?;
    put_pair(out, log, crossing.one_two)?;
    put_pair(out, log, crossing.two_one)?;
    put_pair(out, log, crossing.two_two)?;
    say!(out, log; Text(b"known as: long fork (G-nonadjacent-item)\n"))
}
