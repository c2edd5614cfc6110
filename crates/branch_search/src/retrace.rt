//! How a worker comes to see the cube that it was given.

ghost use Rattle.std.specs.Prelude.{◌≡◌, ℕ, ◌<◌, None, Some, [], IfOk, IfSome, IsTrue, not, length};
ghost use Rattle.std.specs.List.{All};
ghost use Rattle.serializability.specs.Polygraph.{Polygraph};
ghost use Rattle.branching.specs.View.{View, decided};
ghost use Rattle.branch_search.specs.Views.{place_in, kept_view, view_after, IsRetraced, AreViews};
ghost use Rattle.branch_search.specs.Views.{AreLed};

use branching::{CubeView, SavedView};
use cube_machine::OriginRow;
use polygraph::ChoiceIx;
use pruning_laws::Side;
use std::alloc::{AllocError, Global};

/// How many cubes a worker keeps at the most.
const KEPT: usize = 16;

/// How many edges the decisions between two cubes that it keeps have at the least: adding so many
/// takes about as long as keeping a cube.
const APART: usize = 16;

/// What the cube of a node decides beyond its parent's.
#[derive(Clone, Copy)]
pub struct Step {
    pub node: usize,
    pub choice: ChoiceIx,
    pub side: Side,
}

/// The cube of a node, as it was seen.
#[derive(Drop)]
pub struct KeptCube<'a> {
    pub node: usize,
    pub view: SavedView<'a>,
}

/// What a worker keeps of its way, so that a step back costs about what it undoes: some of the
/// cubes that it has seen, the newest over the oldest. Nothing is kept before the first step back.
#[derive(Drop)]
pub struct Trail<'a> {
    pub kept: Vec<KeptCube<'a>>,
    // Where the next cube is kept.
    pub next: usize,
    // How many edges the decisions have that were made since a cube was kept or gone back to.
    pub since: usize,
    // Whether the worker has gone back.
    pub turned: bool,
    // The decisions that are still to be made, the last one first.
    pub ahead: Vec<Step>,
}

impl<'a> Trail<'a> {
    /// Of a worker that has seen no cube.
    pub fn new(alloc: Global) -> Trail<'a>
        ensures none { result.kept.items ≡ [] }
    {
        Trail {
            kept: Vec::new(alloc),
            next: 0,
            since: 0,
            turned: false,
            ahead: Vec::new(alloc),
        }
    }
}

/// Makes the view that of a child of its cube; `false` where the choice is not open.
pub fn go_down<'a>(
    alloc: Global,
    trail: &mut Trail<'a>,
    view: &mut CubeView<'a>,
    step: Step,
) -> Result<bool, AllocError>
    requires kept { All (λ k. k.view.polygraph ≡ view.old.polygraph) trail.old.kept.items }
    ensures kept { IfOk result (λ _. All (λ k. k.view.polygraph ≡ view.new.polygraph)
        trail.new.kept.items) }
    ensures polygraph { view.new.polygraph ≡ view.old.polygraph }
    ensures decided { IfOk result (λ seen. IsTrue seen
        → view.new ≡ decided view.old step.choice step.side) }
    ensures views { (view_of : ℕ → View) → AreViews view_of trail.old.kept.items →
        decided view.old step.choice step.side ≡ view_of step.node →
        IfOk result (λ _. AreViews view_of trail.new.kept.items) }
{
    let Some(edges) = extend(view, step.choice, step.side) else {
        return Ok(false);
    };
    if trail.turned {
        trail.since = trail.since.saturating_add(edges);
        if trail.since >= APART {
            keep(alloc, trail, view, step.node)?;
        }
    }
    Ok(true)
}

/// Makes the view that of a node's cube, by the way from the node up to a cube that was kept, or to
/// node 0, that is noted in the row; `false` where what is noted makes no sense.
///
/// Each node on the way decides one choice, so the way is no longer than the choices are many.
pub fn retrace<'a>(
    alloc: Global,
    trail: &mut Trail<'a>,
    view: &mut CubeView<'a>,
    row: &OriginRow,
    node: usize,
) -> Result<bool, AllocError>
    requires kept { All (λ k. k.view.polygraph ≡ view.old.polygraph) trail.old.kept.items }
    ensures kept { IfOk result (λ _. All (λ k. k.view.polygraph ≡ view.new.polygraph)
        trail.new.kept.items) }
    ensures polygraph { view.new.polygraph ≡ view.old.polygraph }
    ensures retraced { IfOk result (λ seen. IsTrue seen →
        IsRetraced trail.old.kept.items view.old.polygraph node view.new) }
{
    trail.ahead.clear();
    let mut at = node;
    for _ in 0..view.count() + 1 {
        if go_back(trail, view, at) {
            return replay(alloc, trail, view);
        }
        let Some(origin) = row.origin(at) else {
            return Ok(false);
        };
        trail.ahead.push(Step {
            node: at,
            choice: origin.choice,
            side: origin.side,
        })?;
        at = origin.parent;
    }
    Ok(false)
}

/// Makes the view that of a node's cube, where this was kept or is node 0's.
fn go_back<'a>(trail: &mut Trail<'a>, view: &mut CubeView<'a>, node: usize) -> bool
    requires kept { All (λ k. k.view.polygraph ≡ view.old.polygraph) trail.old.kept.items }
    ensures same { trail.new.kept ≡ trail.old.kept }
    ensures ahead { trail.new.ahead ≡ trail.old.ahead }
    ensures polygraph { view.new.polygraph ≡ view.old.polygraph }
    ensures seen { IsTrue result →
        kept_view trail.old.kept.items view.old.polygraph node ≡ Some view.new }
    ensures none { IsTrue (not result) →
        kept_view trail.old.kept.items view.old.polygraph node ≡ None }
{
    if node == 0 {
        view.restart();
        trail.since = 0;
        return true;
    }
    let Some(place) = place_of(&trail.kept, node) else {
        return false;
    };
    view.restore(&trail.kept[place].view);
    trail.next = (place + 1) % KEPT;
    trail.since = 0;
    true
}

/// The place of the cube of a node, where it was kept.
fn place_of(kept: &[KeptCube<'_>], node: usize) -> Option<usize>
    ensures place { result ≡ place_in kept.now node }
    ensures within { IfSome result (λ place. place < length kept.now) }
{
    kept.iter().position(|cube| cube.node == node)
}

/// Makes the decisions that are ahead; `false` where one is made already.
fn replay<'a>(
    alloc: Global,
    trail: &mut Trail<'a>,
    view: &mut CubeView<'a>,
) -> Result<bool, AllocError>
    requires kept { All (λ k. k.view.polygraph ≡ view.old.polygraph) trail.old.kept.items }
    ensures kept { IfOk result (λ _. All (λ k. k.view.polygraph ≡ view.new.polygraph)
        trail.new.kept.items) }
    ensures polygraph { view.new.polygraph ≡ view.old.polygraph }
    ensures made { IfOk result (λ seen. IsTrue seen →
        view.new ≡ view_after trail.old.ahead.items view.old) }
    ensures views { (view_of : ℕ → View) → AreViews view_of trail.old.kept.items →
        AreLed view_of view.old trail.old.ahead.items →
        IfOk result (λ _. AreViews view_of trail.new.kept.items) }
{
    while let Some(step) = trail.ahead.pop() {
        trail.turned = true;
        let Some(edges) = extend(view, step.choice, step.side) else {
            return Ok(false);
        };
        trail.since = trail.since.saturating_add(edges);
        if trail.since >= APART && trail.ahead.len() < KEPT * APART {
            keep(alloc, trail, view, step.node)?;
        }
    }
    Ok(true)
}

/// Keeps the cube that the view sees, a node's.
fn keep<'a>(
    alloc: Global,
    trail: &mut Trail<'a>,
    view: &CubeView<'a>,
    node: usize,
) -> Result<(), AllocError>
    requires kept { All (λ k. k.view.polygraph ≡ view.now.polygraph) trail.old.kept.items }
    ensures kept { IfOk result (λ _. All (λ k. k.view.polygraph ≡ view.now.polygraph)
        trail.new.kept.items) }
    ensures views { (view_of : ℕ → View) → AreViews view_of trail.old.kept.items →
        view.now ≡ view_of node → IfOk result (λ _. AreViews view_of trail.new.kept.items) }
    ensures ahead { trail.new.ahead ≡ trail.old.ahead }
{
    let cube = KeptCube {
        node,
        view: view.save(alloc)?,
    };
    let place = trail.next;
    put(&mut trail.kept, place, cube)?;
    trail.next = place.saturating_add(1) % KEPT;
    trail.since = 0;
    Ok(())
}

/// Puts a cube in the place of another, or behind all where none has that place.
fn put<'a>(kept: &mut Vec<KeptCube<'a>>, place: usize, cube: KeptCube<'a>) -> Result<(), AllocError>
    ensures kept { (p : Polygraph) → All (λ k. k.view.polygraph ≡ p) kept.old.items →
        cube.entry.view.polygraph ≡ p → IfOk result
        (λ _. All (λ k. k.view.polygraph ≡ p) kept.new.items) }
    ensures views { (view_of : ℕ → View) → AreViews view_of kept.old.items →
        cube.entry.view ≡ view_of cube.entry.node
        → IfOk result (λ _. AreViews view_of kept.new.items) }
{
    if place < kept.len() {
        kept[place] = cube;
        return Ok(());
    }
    kept.push(cube)?;
    Ok(())
}

/// Decides one choice more, where it is open, and says how many edges its side has.
fn extend(view: &mut CubeView<'_>, choice: ChoiceIx, side: Side) -> Option<usize>
    ensures polygraph { view.new.polygraph ≡ view.old.polygraph }
    ensures decided { IfSome result (λ _. view.new ≡ decided view.old choice side) }
{
    if choice.get() >= view.count() || !view.is_open(choice) {
        return None;
    }
    let edges = view.choice(choice).edges(side).len();
    view.decide(choice, side);
    Some(edges)
}
