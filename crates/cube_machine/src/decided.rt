//! What cubes decide.

ghost use Rattle.std.specs.Prelude.{◌≡◌, ℕ, ◌<◌, ◌==◌, ◌||◌, ◌&&◌, false, IfOk, length, replicate};
ghost use Rattle.std.specs.Prelude.{slice_get};
ghost use Rattle.std.specs.List.{list_all};
ghost use Rattle.pruning_laws.specs.declared.side.Side.{Side};
ghost use Rattle.pruning_laws.specs.Ledger.{same_side};
ghost use Rattle.cube_machine.specs.Ways.{cube_in};
ghost use Rattle.cube_machine.specs.Flags.{either, flag_of, flag_at, is_flagged, is_odd};
ghost use Rattle.cube_machine.specs.Noted.{IsNoted};

use crate::tree::Tree;
use polygraph::ChoiceIx;
use pruning_laws::Side;
use std::alloc::{AllocError, Global};

/// Of one choice whether a cube decides it for each side.
#[derive(Clone, Copy)]
pub struct SideFlags {
    pub one: bool,
    pub two: bool,
}

impl SideFlags {
    /// Neither side.
    const NONE: SideFlags = SideFlags {
        one: false,
        two: false,
    };

    /// Whether the choice is decided for this side.
    pub fn of(self, side: Side) -> bool
        ensures flag { result ≡ flag_of self side }
    {
        match side {
            Side::One => self.one,
            Side::Two => self.two,
        }
    }

    /// Whether the choice is decided.
    fn any(self) -> bool
        ensures any { result ≡ (self.one || self.two) }
    {
        self.one || self.two
    }

    /// The same with the flag of a side turned over.
    fn turned(self, side: Side) -> SideFlags
        ensures turned { (s : Side) → flag_of result s ≡ either (same_side side s)
            (flag_of self s) }
    {
        match side {
            Side::One => SideFlags {
                one: !self.one,
                two: self.two,
            },
            Side::Two => SideFlags {
                one: self.one,
                two: !self.two,
            },
        }
    }
}

/// Of each choice for which sides the cube of one node decides it. The node is the one of which a
/// seat asked last: as a rule the next one is near to it in the tree, and so are the two cubes.
#[derive(Drop)]
pub struct Decided {
    pub node: usize,
    pub flags: Vec<SideFlags>,
}

impl Decided {
    /// Node 0, whose cube decides none of so many choices.
    pub fn none(alloc: Global, count: usize) -> Result<Decided, AllocError>
        ensures node { IfOk result (λ decided. decided.node ≡ 0) }
        ensures flags { IfOk result (λ decided. (c : ℕ) (side : Side)
            → flag_at decided.flags.items c side ≡ false) }
        ensures count { IfOk result (λ decided. length decided.flags.items ≡ count) }
    {
        Ok(Decided {
            node: 0,
            flags: vec![in alloc; SideFlags::NONE; count]?,
        })
    }

    /// Notes what the cube of a node decides: what one of the two cubes decides and the other does
    /// not is met on the ways up from both nodes, to where these meet. It takes no memory.
    pub fn go_to(&mut self, tree: &Tree, id: usize)
        requires noted { IsNoted tree.now.nodes self.old }
        requires within { id < length tree.now.nodes }
        ensures node { self.new.node ≡ id }
        ensures noted { IsNoted tree.now.nodes self.new }
        ensures count { length self.new.flags.items ≡ length self.old.flags.items }
    {
        turn_between(self.flags.as_mut_slice(), tree, self.node, id);
        self.node = id;
    }

    /// Whether the choice of this number is decided.
    pub fn decides(&self, number: usize) -> bool
        requires within { number < length self.now.flags.items }
        ensures decides { result ≡ is_flagged self.now.flags.items number }
    {
        self.flags[number].any()
    }

    /// Whether each choice is decided.
    pub fn all(&self) -> bool
        ensures { result ≡ list_all (λ flags. flags.one || flags.two) self.now.flags.items }
    {
        self.flags.iter().all(|flags| flags.any())
    }
}

/// Turns over the flags of what one of the cubes of two nodes decides and the other does not.
fn turn_between(flags: &mut [SideFlags], tree: &Tree, first: usize, second: usize)
    requires first { first < length tree.now.nodes }
    requires second { second < length tree.now.nodes }
    ensures count { length flags.new ≡ length flags.old }
    ensures each { (c : ℕ) (side : Side) → c < length flags.old → flag_at flags.new c side
        ≡ either (flag_at flags.old c side)
        (either (is_odd (cube_in tree.now.nodes first) c side) (is_odd (cube_in tree.now.nodes second) c side)) }
{
    let mut from = first;
    let mut to = second;
    while from != to {
        if from < to {
            to = go_up(flags, tree, to);
        } else {
            from = go_up(flags, tree, from);
        }
    }
}

/// Turns over the flag of the decision by which a node was led to, and answers its parent; node 0
/// where it has none.
fn go_up(flags: &mut [SideFlags], tree: &Tree, at: usize) -> usize
    requires within { at < length tree.now.nodes }
    ensures up { 0 < at → result < at }
    ensures within { result < length tree.now.nodes }
    ensures count { length flags.new ≡ length flags.old }
    ensures each { (c : ℕ) (side : Side) → c < length flags.old → flag_at flags.new c side
        ≡ either (flag_at flags.old c side)
        (either (is_odd (cube_in tree.now.nodes at) c side) (is_odd (cube_in tree.now.nodes result) c side)) }
{
    match tree.origin(at) {
        Some(origin) => {
            turn(flags, origin.choice, origin.side);
            origin.parent
        }
        None => 0,
    }
}

/// Turns over the flag of a side of a choice, where there is such a choice.
fn turn(flags: &mut [SideFlags], choice: ChoiceIx, side: Side)
    ensures count { length flags.new ≡ length flags.old }
    ensures each { (c : ℕ) (s : Side) → c < length flags.old →
        flag_at flags.new c s ≡ either ((choice == c) && same_side side s) (flag_at flags.old c s) }
{
    let number = choice.get();
    if number < flags.len() {
        flags[number] = flags[number].turned(side);
    }
}

/// Whether a choice is decided for a side, where there is such a choice.
pub fn is_flagged_for(flags: &[SideFlags], choice: ChoiceIx, side: Side) -> bool
    ensures flag { result ≡ flag_at flags.now choice side }
{
    match flags.get(choice.get()) {
        Some(flags) => flags.of(side),
        None => false,
    }
}
