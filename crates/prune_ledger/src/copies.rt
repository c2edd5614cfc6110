//! Copies of choices.

ghost use Rattle.std.specs.Prelude.{◌≡◌, IfOk};

use polygraph::{Choice, Edges};
use reach_laws::Edge;
use std::alloc::{AllocError, Global};

/// The same choices.
pub fn copy_choices(alloc: Global, choices: &[Choice]) -> Result<Vec<Choice>, AllocError>
    ensures { IfOk result (λ v. v.items ≡ choices.now) }
{
    let mut copies = Vec::with_capacity(alloc, choices.len())?;
    for choice in choices {
        copies.push(copy_choice(alloc, choice)?)?;
    }
    Ok(copies)
}

fn copy_choice(alloc: Global, choice: &Choice) -> Result<Choice, AllocError>
    ensures { IfOk result (λ c. c ≡ choice.now) }
{
    let one = copy_edges(alloc, choice.one())?;
    let two = copy_edges(alloc, choice.two())?;
    Ok(Choice::new(one, two))
}

fn copy_edges(alloc: Global, edges: &[Edge]) -> Result<Edges, AllocError>
    ensures { IfOk result (λ e. e ≡ edges.now) }
{
    if edges.len() == 1 {
        return Ok(Edges::single(edges[0]));
    }
    Ok(Edges::many(Vec::from_slice(alloc, edges)?))
}
