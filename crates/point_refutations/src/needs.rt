//! What rests on a step.

ghost use Rattle.std.specs.Prelude.{◌≡◌};
ghost use Rattle.point_refutations.specs.Refuted as spec;

use crate::refutation::{Edge, Ending, Missed, Since, Step, Why};

/// Whether an edge is by this step.
fn rests_on(index: usize, why: Why) -> bool
    ensures { result ≡ spec.rests_on index why }
{
    match why {
        Why::Step(step) | Why::Later(step) => step == index,
        Why::Missed(
            Missed {
                since: Since::Step(step),
                ..
            },
        ) => step == index,
        _ => false,
    }
}

/// Whether one of these is.
fn some_rests_on(index: usize, edges: &[Edge]) -> bool
    ensures { result ≡ spec.some_rests_on index edges.now }
{
    edges.iter().any(|edge| rests_on(index, edge.why))
}

/// Whether an edge of a step is.
fn step_rests_on(index: usize, step: &Step) -> bool
    ensures { result ≡ spec.step_rests_on index step.now }
{
    match step {
        Step::Shown { edges, .. } => some_rests_on(index, edges),
        Step::Forced { against, .. } | Step::Later { against, .. } => {
            some_rests_on(index, &against.edges)
        }
    }
}

/// Whether one of these steps rests on this one.
fn one_rests_on(index: usize, steps: &[Step]) -> bool
    ensures { result ≡ spec.one_rests_on index steps.now }
{
    steps.iter().any(|step| step_rests_on(index, step))
}

/// Whether the ending does.
fn ending_rests_on(index: usize, ending: &Ending) -> bool
    ensures { result ≡ spec.ending_rests_on index ending.now }
{
    match ending {
        Ending::Circle(edges) => some_rests_on(index, edges),
        Ending::Neither {
            not_one,
            not_other,
            ..
        } => some_rests_on(index, &not_one.edges) || some_rests_on(index, &not_other.edges),
    }
}

/// Whether the ending or a step rests on this step.
fn is_needed(index: usize, steps: &[Step], ending: &Ending) -> bool
    ensures { result ≡ spec.is_needed steps.now ending.now index }
{
    ending_rests_on(index, ending) || one_rests_on(index, steps)
}

/// Whether the ending or a step rests on each of these steps.
pub fn are_needed(steps: &[Step], ending: &Ending) -> bool
    ensures { result ≡ spec.are_needed steps.now ending.now }
{
    (0..steps.len()).all(|index| is_needed(index, steps, ending))
}
