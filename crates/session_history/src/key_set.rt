//! The keys of a log by their numbers.

ghost use Rattle.std.specs.Prelude.{◌≡◌, IfOk};
ghost use Rattle.session_history.specs.Numbering.{KeepsPlaces};

use indexmap::IndexSet;
use session_log::Key;
use std::alloc::{AllocError, Global};

/// The keys, each with its place here as its index. Each is entered once, so keys that collide cost
/// no more than a comparison of each two.
pub fn indexed(alloc: Global, texts: Vec<Key>) -> Result<IndexSet<Key>, AllocError>
    requires { KeepsPlaces texts.items }
    ensures { IfOk result (λ keys. keys.keys ≡ texts.items) }
{
    let mut keys = IndexSet::with_capacity(alloc, texts.len())?;
    for text in texts {
        keys.insert(text)?;
    }
    Ok(keys)
}
