//! The choices between chains.

ghost use Rattle.std.specs.Prelude.{◌≡◌, ◌≤◌, ◌++◌, length, map, IfOk, IfErr, OnOk};
ghost use Rattle.chain_laws.specs.Chains.{edges_to, chain_choices};
ghost use Rattle.log_definitions.specs.Numbers.{log_of};
ghost use Rattle.write_chains.specs.Views.{chain_view};
ghost use Rattle.polygraph.specs.Limits.{IsPolyFault};
ghost use Rattle.coalesce.specs.Between.{between, among};
ghost use Rattle.polygraph.specs.declared.index.TheConstants.{MAX_CHOICES};

use polygraph::{Choice, Edges, MAX_CHOICES, PolyFault};
use reach_laws::Edge;
use serializability::NodeIx;
use std::alloc::{AllocError, Global};
use write_chains::{Chain, Chains};

/// An edge from each of these nodes.
fn edges_from_each(alloc: Global, sources: &[NodeIx], target: NodeIx) -> Result<Edges, AllocError>
    ensures edges { IfOk result (λ e. e ≡ map (λ u. (u, target)) sources.now) }
{
    if sources.len() == 1 {
        return Ok(Edges::single(Edge::new(sources[0], target)));
    }
    let edges = sources
        .iter()
        .map(|source| Edge::new(*source, target))
        .collect(alloc)?;
    Ok(Edges::many(edges))
}

/// The edges by which a chain stands before this head: from each reader of its last writer, and
/// from that writer itself where it has no reader.
fn edges_before(alloc: Global, first: &Chain, head: NodeIx) -> Result<Edges, AllocError>
    ensures edges { IfOk result (λ e. e ≡ edges_to first.now.tail head first.now.readers.items) }
{
    if first.readers.is_empty() {
        Ok(Edges::single(Edge::new(first.tail, head)))
    } else {
        edges_from_each(alloc, &first.readers, head)
    }
}

/// The one chain first, or the other.
fn choice_between(alloc: Global, one: &Chain, two: &Chain) -> Result<Choice, AllocError>
    ensures choice { IfOk result (λ c. c ≡ between (chain_view one.now) (chain_view two.now)) }
{
    let one_first = edges_before(alloc, one, two.head)?;
    let two_first = edges_before(alloc, two, one.head)?;
    Ok(Choice::new(one_first, two_first))
}

/// Adds the choices between a chain and each of the others.
fn add_choices_with(
    alloc: Global,
    choices: &mut Vec<Choice>,
    chain: &Chain,
    others: &[Chain],
) -> Result<(), AllocError>
    ensures choices { OnOk result (choices.new.items
        ≡ choices.old.items ++ map (between (chain_view chain.now)) (map chain_view others.now)) }
{
    for other in others {
        choices.push(choice_between(alloc, chain, other)?)?;
    }
    Ok(())
}

/// Adds the choices between these chains.
fn add_choices_among(
    alloc: Global,
    choices: &mut Vec<Choice>,
    chains: &[Chain],
) -> Result<(), AllocError>
    ensures choices { OnOk result
        (choices.new.items ≡ choices.old.items ++ among (map chain_view chains.now)) }
{
    for (index, chain) in chains.iter().enumerate() {
        add_choices_with(alloc, choices, chain, &chains[index + 1..])?;
    }
    Ok(())
}

/// The number of choices between the chains of so many keys: each chain has one with each before
/// it.
fn choice_count(chains: &Chains, keys: usize) -> Result<usize, PolyFault>
    requires keys { keys ≡ (log_of chains.now).keys }
    ensures count { IfOk result (λ k. k ≡ length (chain_choices (log_of chains.now))) }
    ensures few { OnOk result (length (chain_choices (log_of chains.now)) ≤ MAX_CHOICES) }
    ensures fault { IfErr result (IsPolyFault (chain_choices (log_of chains.now))) }
{
    let mut count = 0;
    for key in 0..keys {
        for before in 0..chains.chains_of(key).len() {
            count += before;
            if count > MAX_CHOICES {
                return Err(PolyFault::TooManyChoices);
            }
        }
    }
    Ok(count)
}

/// The choices between the chains of each key: by key, the lesser head and the greater head.
pub fn choices_of(alloc: Global, chains: &Chains, keys: usize) -> Result<Vec<Choice>, PolyFault>
    requires keys { keys ≡ (log_of chains.now).keys }
    ensures choices { IfOk result (λ c. c.items ≡ chain_choices (log_of chains.now)) }
    ensures few { OnOk result (length (chain_choices (log_of chains.now)) ≤ MAX_CHOICES) }
    ensures fault { IfErr result (IsPolyFault (chain_choices (log_of chains.now))) }
{
    let mut choices = Vec::with_capacity(alloc, choice_count(chains, keys)?)?;
    for key in 0..keys {
        add_choices_among(alloc, &mut choices, chains.chains_of(key))?;
    }
    Ok(choices)
}
