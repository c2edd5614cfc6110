//! Lists by number.

ghost use Rattle.std.specs.Prelude.{◌≡◌, ◌<◌, ◌==◌, ◌++◌, ◌∷◌, [], ℕ, List, length, if◌then◌else◌};
ghost use Rattle.std.specs.Prelude.{IfOk, OnOk};
ghost use Rattle.write_chains.specs.Lists.{AreLists};

use std::alloc::{AllocError, Global};

/// So many lists, which are empty.
pub fn empty_lists<T: Drop>(alloc: Global, count: usize) -> Result<Vec<Vec<T>>, AllocError>
    ensures empty { IfOk result (λ lists. AreLists count (λ _. []) lists.items) }
{
    let mut lists = Vec::with_capacity(alloc, count)?;
    for i in 0..count {
        lists.push(Vec::new(alloc))?;
    }
    Ok(lists)
}

/// Adds an item to the end of a list.
pub fn push_at<T: Drop>(lists: &mut [Vec<T>], at: usize, item: T) -> Result<(), AllocError>
    requires at { at < length lists.old }
    ensures pushed { OnOk result ((n : ℕ) (f : ℕ → List T) → AreLists n f lists.old →
        AreLists n (λ v. f v ++ (if at == v then item ∷ [] else [])) lists.new) }
{
    let list = &mut lists[at];
    list.push(item)?;
    Ok(())
}
