//! Parts of which none holds another one, and parts that add nothing to others.

ghost use Rattle.std.specs.Prelude.{◌≡◌, ◌+◌, ◌-◌, ◌≤◌, ◌<◌, ℕ, List, length, IfOk};
ghost use Rattle.session_log.specs.Text.{ClientSession};
ghost use Rattle.audit_command.specs.declared.options.AuditOptions.{AuditOptions};
ghost use Rattle.audit_command.specs.Audited.{AreToldParts, AreParts};
ghost use Rattle.audit_command.specs.Distinct.{AreLeastFirst, has_txns, has_name, adds_no_name};
ghost use Rattle.audit_command.specs.Distinct.{is_among, holds_txns, holds_one, adds_nothing, is_told_by};

use audit_report::{ToldPart, ToldTxn};
use std::alloc::{AllocError, Global};

/// Whether these are the transactions of the part.
fn has_txns(part: &ToldPart, txns: &[ToldTxn]) -> bool
    ensures has { result ≡ has_txns txns.now part.now }
{
    part.txns.as_slice() == txns
}

/// Whether this is one of the part's transactions.
fn is_among(part: &ToldPart, txn: ToldTxn) -> bool
    ensures among { result ≡ is_among txn part.now }
{
    part.txns.iter().any(|own| *own == txn)
}

/// Whether the part has all these transactions.
fn holds_txns(part: &ToldPart, txns: &[ToldTxn]) -> bool
    ensures holds { result ≡ holds_txns txns.now part.now }
{
    txns.iter().all(|txn| is_among(part, *txn))
}

/// Whether the part has all transactions of one of these.
fn holds_one(parts: &[ToldPart], part: &ToldPart) -> bool
    ensures holds { result ≡ holds_one parts.now part.now }
{
    parts.iter().any(|told| holds_txns(part, &told.txns))
}

/// Whether this is the name.
fn has_name(own: &Option<String>, name: &str) -> bool
    ensures has { result ≡ has_name name.now own.now }
{
    match own {
        None => false,
        Some(own) => own.as_str() == name,
    }
}

/// Whether a name is the one that is told, or there is none.
fn adds_no_name(name: &Option<String>, told: &Option<String>) -> bool
    ensures adds { result ≡ adds_no_name name.now told.now }
{
    match name {
        None => true,
        Some(name) => has_name(told, name.as_str()),
    }
}

/// Whether a part adds nothing to one that is told: it has its transactions, and no other name.
pub fn adds_nothing(part: &ToldPart, told: &ToldPart) -> bool
    ensures adds { result ≡ adds_nothing part.now told.now }
{
    has_txns(told, &part.txns) && adds_no_name(&part.known_as, &told.known_as)
}

/// Whether a part adds nothing to one of these.
pub fn is_told_by(part: &ToldPart, parts: &[ToldPart]) -> bool
    ensures told { result ≡ is_told_by part.now parts.now }
{
    parts.iter().any(|told| adds_nothing(part, told))
}

/// The parts, but for each that has all transactions of one before it.
pub fn without_doubles(alloc: Global, parts: Vec<ToldPart>) -> Result<Vec<ToldPart>, AllocError>
    ensures parts { (o : AuditOptions) (n : ℕ) (ss : List ClientSession)
        → 0 < length parts.items → length parts.items ≤ 1 + (o.faults - 1)
        → AreLeastFirst parts.items → AreToldParts o n ss parts.items
        → IfOk result (λ kept. AreParts o n ss kept.items) }
{
    let mut kept = Vec::new(alloc);
    for part in parts {
        let holds = holds_one(&kept, &part);
        if !holds {
            kept.push(part)?;
        }
    }
    Ok(kept)
}
