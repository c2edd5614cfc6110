//! Whether a refutation by points rests on moments.

ghost use Rattle.std.specs.Prelude.{◌≡◌};
ghost use Rattle.part_reasons.specs.Timed as spec;

use point_refutations::{Edge, Ending, Refutation, Step, Why};

fn by_moments(why: Why) -> bool
    ensures { result ≡ spec.by_moments why }
{
    matches!(why, Why::Moments)
}

fn is_way_timed(edges: &[Edge]) -> bool
    ensures { result ≡ spec.is_way_timed edges.now }
{
    edges.iter().any(|edge| by_moments(edge.why))
}

fn is_step_timed(step: &Step) -> bool
    ensures { result ≡ spec.is_step_timed step.now }
{
    match step {
        Step::Shown { edges, .. } => is_way_timed(edges),
        Step::Forced { against, .. } | Step::Later { against, .. } => is_way_timed(&against.edges),
    }
}

fn is_ending_timed(ending: &Ending) -> bool
    ensures { result ≡ spec.is_ending_timed ending.now }
{
    match ending {
        Ending::Circle(edges) => is_way_timed(edges),
        Ending::Neither {
            not_one,
            not_other,
            ..
        } => is_way_timed(&not_one.edges) || is_way_timed(&not_other.edges),
    }
}

fn are_steps_timed(steps: &[Step]) -> bool
    ensures { result ≡ spec.are_steps_timed steps.now }
{
    steps.iter().any(|step| is_step_timed(step))
}

/// Whether a refutation by points rests on moments.
pub fn is_timed(refutation: &Refutation) -> bool
    ensures { result ≡ spec.is_timed refutation.now }
{
    are_steps_timed(&refutation.steps) || is_ending_timed(&refutation.ending)
}
