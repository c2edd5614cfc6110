//! Laws of every list of steps of the machine, each the contract of a function that does nothing.

ghost use Rattle.std.specs.Prelude.{◌≡◌, ℕ, ◌+◌, ◌-◌, ◌*◌, ◌^◌, ◌<◌, ◌≤◌, List, length, true};
ghost use Rattle.std.specs.List.{IsDistinct, list_any};
ghost use Rattle.std.specs.Bool.{nat_eq};
ghost use Rattle.serializability.specs.Polygraph.{Polygraph, Fits};
ghost use Rattle.desk.specs.declared.history.Entry.{Entry};
ghost use Rattle.desk.specs.History.{IsLegal, replay};
ghost use Rattle.cube_laws.specs.State.{State, opening_state};
ghost use Rattle.cube_laws.specs.Steps.{next_of, reply_of, has_solved, has_live, is_finished};
ghost use Rattle.cube_laws.specs.Steps.{is_exhausted};
ghost use Rattle.cube_laws.specs.Runs.{EachSolvesRightly, solves, closings};
ghost use Rattle.cube_laws.specs.declared.messages.CubeEvent.{CubeEvent};
ghost use Rattle.cube_laws.specs.declared.messages.CubeReply.{CubeReply};

/// After every list of steps, whoever sends what, an order that solved a node fits the polygraph.
pub fn solving_orders_fit()
    ensures { (p : Polygraph) (budget : ℕ) (history : List (Entry CubeEvent CubeReply)) →
        IsLegal next_of reply_of (opening_state p budget) history → EachSolvesRightly p history }
{}

/// After every list of steps each node was closed at most once, and the count is that of the closed
/// nodes.
pub fn nodes_are_closed_once()
    ensures once { (p : Polygraph) (budget : ℕ) (history : List (Entry CubeEvent CubeReply)) →
        IsLegal next_of reply_of (opening_state p budget) history →
        IsDistinct nat_eq (closings (opening_state p budget) history) }
    ensures count { (p : Polygraph) (budget : ℕ) (history : List (Entry CubeEvent CubeReply)) →
        IsLegal next_of reply_of (opening_state p budget) history →
        (replay next_of (opening_state p budget) history).closed
        ≡ length (closings (opening_state p budget) history) }
{}

/// After every list of steps the number of closed nodes is at most the budget.
pub fn closings_keep_the_budget()
    ensures { (p : Polygraph) (budget : ℕ) (history : List (Entry CubeEvent CubeReply)) →
        IsLegal next_of reply_of (opening_state p budget) history →
        (replay next_of (opening_state p budget) history).closed ≤ budget }
{}

/// After every list of steps a tree for m choices has at most 2^(m+1) - 1 nodes, and for k closed
/// nodes at most 2k + 1.
pub fn trees_are_small()
    ensures choices { (p : Polygraph) (budget : ℕ) (history : List (Entry CubeEvent CubeReply)) →
        IsLegal next_of reply_of (opening_state p budget) history →
        length (replay next_of (opening_state p budget) history).nodes + 1
        ≤ 2 ^ (length p.choices + 1) }
    ensures closed { (p : Polygraph) (budget : ℕ) (history : List (Entry CubeEvent CubeReply)) →
        IsLegal next_of reply_of (opening_state p budget) history →
        length (replay next_of (opening_state p budget) history).nodes
        ≤ 2 * (replay next_of (opening_state p budget) history).closed + 1 }
{}

/// With m choices and a budget of at least 2^(m+1) - 1 the closed nodes are fewer than the budget
/// after every list of steps that leaves a node open or held.
pub fn large_budgets_are_not_spent()
    ensures { (p : Polygraph) (budget : ℕ) (history : List (Entry CubeEvent CubeReply)) →
        IsLegal next_of reply_of (opening_state p budget) history →
        2 ^ (length p.choices + 1) - 1 ≤ budget →
        has_live (replay next_of (opening_state p budget) history).nodes ≡ true →
        (replay next_of (opening_state p budget) history).closed < budget }
{}

/// After every list of steps a node is solved exactly where one of the steps solved it.
pub fn solved_nodes_were_solved()
    ensures { (p : Polygraph) (budget : ℕ) (history : List (Entry CubeEvent CubeReply)) →
        IsLegal next_of reply_of (opening_state p budget) history →
        has_solved (replay next_of (opening_state p budget) history).nodes
        ≡ list_any (λ x. solves x.event x.reply) history }
{}

/// Where after a list of steps no node is solved, open or held, every cube is refuted, and no order
/// fits.
pub fn no_order_fits_where_every_cube_is_refuted()
    ensures { (p : Polygraph) (budget : ℕ) (history : List (Entry CubeEvent CubeReply)) →
        IsLegal next_of reply_of (opening_state p budget) history →
        is_exhausted (replay next_of (opening_state p budget) history) ≡ true →
        (order : List ℕ) → Fits p order → ⊥ }
{}

/// A machine that is finished stays so.
pub fn finished_stays_finished()
    ensures { (s : State) (history : List (Entry CubeEvent CubeReply)) → is_finished s ≡ true →
        IsLegal next_of reply_of s history → is_finished (replay next_of s history) ≡ true }
{}
