//! What cycles are called, by what their edges are: in plain words, and behind these in brackets
//! the name that the literature has.

ghost use Rattle.std.specs.Prelude.{◌≡◌};
ghost use Rattle.tell_reasons.specs.Names as spec;

/// What the edges of a line are.
#[derive(Clone, Copy)]
pub struct Shape {
    /// How many edges there are, and how many miss a write; a count ends at 255.
    pub edges: u8,
    pub missed: u8,
    pub has_read: bool,
    /// By an order of versions from who wrote the key.
    pub has_written: bool,
    pub has_session: bool,
    pub has_moments: bool,
    /// Whether the first one, the last one, and two neighbours miss a write.
    pub first: bool,
    pub last: bool,
    pub beside: bool,
}

pub const NO_EDGES: Shape = Shape {
    edges: 0,
    missed: 0,
    has_read: false,
    has_written: false,
    has_session: false,
    has_moments: false,
    first: false,
    last: false,
    beside: false,
};

/// One edge, of a kind that no name speaks of.
const EDGE: Shape = Shape {
    edges: 1,
    ..NO_EDGES
};

/// An anti-dependency, or an order of versions where the first transaction reads the key.
pub const MISSED: Shape = Shape {
    missed: 1,
    first: true,
    last: true,
    ..EDGE
};

pub const READ: Shape = Shape {
    has_read: true,
    ..EDGE
};

/// An order of versions where the first transaction wrote the key.
pub const WRITTEN: Shape = Shape {
    has_written: true,
    ..EDGE
};

pub const SESSION: Shape = Shape {
    has_session: true,
    ..EDGE
};

pub const MOMENTS: Shape = Shape {
    has_moments: true,
    ..EDGE
};

/// What the edges of a line and of one behind it are.
pub fn followed(line: Shape, next: Shape) -> Shape
    ensures { result ≡ spec.followed line next }
{
    Shape {
        edges: line.edges.saturating_add(next.edges),
        missed: line.missed.saturating_add(next.missed),
        has_read: line.has_read | next.has_read,
        has_written: line.has_written | next.has_written,
        has_session: line.has_session | next.has_session,
        has_moments: line.has_moments | next.has_moments,
        first: if line.edges == 0 {
            next.first
        } else {
            line.first
        },
        last: if next.edges == 0 {
            line.last
        } else {
            next.last
        },
        beside: line.beside | next.beside | (line.last & next.first),
    }
}

/// With the orders of sessions and of moments that another line has.
fn with_orders(line: Shape, other: Shape) -> Shape
    ensures { result ≡ spec.with_orders line other }
{
    Shape {
        has_session: line.has_session | other.has_session,
        has_moments: line.has_moments | other.has_moments,
        ..line
    }
}

/// Whether no two neighbours in a circle of these edges miss a write; the first stands behind the
/// last.
fn are_apart(line: Shape) -> bool
    ensures { result ≡ spec.are_apart line }
{
    !(line.beside || (line.first && line.last))
}

/// How mild a circle is: by how many of its edges miss a write, where two are as many as more, then
/// by whether none is of an order of writes. Nothing is milder than no edges.
fn mildness(circle: Shape) -> u8
    ensures { result ≡ spec.mildness circle }
{
    if circle.edges == 0 {
        0
    } else {
        2 * circle.missed.min(2) + if circle.has_written { 1 } else { 2 }
    }
}

/// What two circles are that are as mild, with as many edges as the longer one.
fn either(one: Shape, other: Shape) -> Shape
    ensures { result ≡ spec.either one other }
{
    Shape {
        edges: one.edges.max(other.edges),
        missed: one.missed.min(other.missed),
        first: false,
        last: false,
        beside: !(are_apart(one) && are_apart(other)),
        ..followed(one, other)
    }
}

/// The milder one of two circles, or what both are; with the orders of sessions and of moments that
/// either takes.
pub fn milder(one: Shape, other: Shape) -> Shape
    ensures { result ≡ spec.milder one other }
{
    if mildness(one) < mildness(other) {
        with_orders(other, one)
    } else if mildness(other) < mildness(one) {
        with_orders(one, other)
    } else {
        either(one, other)
    }
}

/// Which of three names, by what orders transactions besides their reads and writes.
fn by_order(
    line: Shape,
    none: &'static str,
    session: &'static str,
    moments: &'static str,
) -> &'static str
    ensures { result.now ≡ spec.by_order line none.now session.now moments.now }
{
    if line.has_moments {
        moments
    } else if line.has_session {
        session
    } else {
        none
    }
}

/// The name of a cycle, no edge of which misses a write.
fn name_unmissed(line: Shape) -> &'static str
    ensures { result.now ≡ spec.name_unmissed line }
{
    if line.has_read {
        by_order(
            line,
            "circular information flow (G1c)",
            "a read from the future (G1c-process)",
            "a read from the future (G1c-realtime)",
        )
    } else if line.has_written {
        by_order(
            line,
            "write cycle (G0)",
            "cycle of writes and sessions (G0-process)",
            "cycle of writes and real time (G0-realtime)",
        )
    } else {
        "session order against real time"
    }
}

/// The name of a cycle, one edge of which misses a write.
fn name_once_missed(line: Shape) -> &'static str
    ensures { result.now ≡ spec.name_once_missed line }
{
    if line.has_written || line.edges > 2 {
        by_order(
            line,
            "cycle with one missed write (G-single)",
            "cycle with one missed write and sessions (G-single-process)",
            "cycle with one missed write and real time (G-single-realtime)",
        )
    } else if line.has_read {
        by_order(
            line,
            "read skew (G-single)",
            "read skew by way of sessions (G-single-process)",
            "read skew by way of real time (G-single-realtime)",
        )
    } else {
        by_order(
            line,
            "stale read (G-single)",
            "a session misses its own write (G-single-process)",
            "stale read (G-single-realtime)",
        )
    }
}

/// The name of a cycle, several edges of which miss a write: all; or none next to another, where the
/// first stands behind the last; or others.
fn name_often_missed(line: Shape) -> &'static str
    ensures { result.now ≡ spec.name_often_missed line }
{
    if line.edges == 2 {
        by_order(
            line,
            "write skew (G2-item)",
            "write skew by way of sessions (G2-item-process)",
            "write skew by way of real time (G2-item-realtime)",
        )
    } else if line.missed == line.edges {
        by_order(
            line,
            "write skew in a ring (G2-item)",
            "write skew in a ring by way of sessions (G2-item-process)",
            "write skew in a ring by way of real time (G2-item-realtime)",
        )
    } else if are_apart(line) {
        by_order(
            line,
            "long fork (G-nonadjacent-item)",
            "long fork by way of sessions (G-nonadjacent-item-process)",
            "long fork by way of real time (G-nonadjacent-item-realtime)",
        )
    } else {
        by_order(
            line,
            "cycle of missed writes (G2-item)",
            "cycle of missed writes and sessions (G2-item-process)",
            "cycle of missed writes and real time (G2-item-realtime)",
        )
    }
}

/// The name of a cycle of these edges.
pub fn cycle_name(line: Shape) -> &'static str
    ensures { result.now ≡ spec.cycle_name line }
{
    match line.missed {
        0 => name_unmissed(line),
        1 => name_once_missed(line),
        _ => name_often_missed(line),
    }
}
