//! What the field calls what a refutation by points shows.

ghost use Rattle.std.specs.Prelude.{◌≡◌, map};
ghost use Rattle.std.specs.Option.{option_copied};
ghost use Rattle.session_log.specs.Text.{view};
ghost use Rattle.tell_points.specs.Names as spec;

use crate::short::are_lost;
use point_refutations::{Against, Edge, Ending, Refutation, Step, Why};
use session_log::Session;
use tell_reasons::names::{
    MISSED, MOMENTS, NO_EDGES, READ, SESSION, Shape, WRITTEN, cycle_name, followed, milder,
};

/// What an edge is, for the name of a circle.
fn shape_of(why: Why) -> Shape
    ensures { result ≡ spec.shape_of why }
{
    match why {
        Why::Session => SESSION,
        Why::Moments => MOMENTS,
        Why::Read { .. } => READ,
        Why::Step(_) | Why::Later(_) => WRITTEN,
        Why::Missed(_) => MISSED,
    }
}

/// What these edges are.
fn shape_of_way(edges: &[Edge]) -> Shape
    ensures { result ≡ spec.shape_of_way edges.now }
{
    edges.iter().fold(NO_EDGES, |shape, edge| followed(shape, shape_of(edge.why)))
}

/// The circle that would close, if a transaction committed first.
fn supposed(against: &Against) -> Shape
    ensures { result ≡ spec.supposed against.now }
{
    let is_read = against.overwritten.is_some();
    followed(
        shape_of_way(&against.edges),
        if is_read { MISSED } else { WRITTEN },
    )
}

/// The circle that would close, if the two writers of a step stood the other way round.
fn refuted(step: &Step) -> Shape
    ensures { result ≡ spec.refuted step.now }
{
    match step {
        Step::Shown { edges, .. } => followed(shape_of_way(edges), WRITTEN),
        Step::Forced { against, .. } | Step::Later { against, .. } => supposed(against),
    }
}

/// The mildest of a circle and of what each step refutes.
fn mildest(circle: Shape, steps: &[Step]) -> Shape
    ensures { result ≡ spec.mildest_after circle steps.now }
{
    steps
        .iter()
        .fold(circle, |found, step| milder(found, refuted(step)))
}

/// The name of a circle, no two neighbours of which miss a write.
fn name_of(circle: Shape) -> &'static str
    ensures { result.now ≡ spec.name_of circle }
{
    cycle_name(Shape {
        first: false,
        beside: false,
        ..circle
    })
}

/// The name of a circle of these edges behind steps. One edge alone leads back to its own
/// transaction, which reads what it writes later.
fn circle_name(steps: &[Step], edges: &[Edge]) -> &'static str
    ensures { result.now ≡ spec.circle_name steps.now edges.now }
{
    match edges {
        [_] => "future read (internal)",
        _ => name_of(mildest(shape_of_way(edges), steps)),
    }
}

/// The name of what steps lead to.
pub fn ending_name(sessions: &[Session], steps: &[Step], ending: &Ending) -> &'static str
    ensures { result.now ≡ spec.ending_name (map view sessions.now) steps.now ending.now }
{
    match ending {
        Ending::Circle(edges) => circle_name(steps, edges),
        Ending::Neither {
            not_one,
            not_other,
            ..
        } => {
            if are_lost(sessions, not_one, not_other) {
                return "lost update (G-single)";
            }
            name_of(mildest(milder(supposed(not_one), supposed(not_other)), steps))
        }
    }
}

/// What the field calls what the refutation of these sessions shows, where it has a name.
pub fn refutation_name(sessions: &[Session], refutation: &Refutation) -> Option<&'static str>
    ensures name { option_copied result ≡ spec.refutation_name (map view sessions.now) refutation.now }
{
    Some(ending_name(sessions, &refutation.steps, &refutation.ending))
}
