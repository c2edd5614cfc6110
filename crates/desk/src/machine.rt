ghost use Rattle.std.specs.Prelude.{◌≡◌, ℕ, Bool, false};

use crate::seat_no::SeatNo;

/// What a desk guards: a state that changes by one event at a time.
///
/// The ghost members are the machine's written definition, which `step` and `waits` are proved to
/// follow. In them a seat is its number.
pub trait Machine: Drop {
    /// What a seat sends.
    type Event: Drop;

    /// What a seat is answered.
    type Reply: Copy;

    /// The state after an event of a seat.
    ghost next: { Self → ℕ → Self.Event → Self };

    /// The reply to an event of a seat.
    ghost reply_at: { Self → ℕ → Self.Event → Self.Reply };

    /// What holds of every state that a desk reaches.
    ghost valid: { Self → Type 0 };

    /// Whether a call with this event waits in this state. Where an impl leaves it out, none does.
    ghost waits_at: { Self → ℕ → Self.Event → Bool } = { λ _ _ _. false };

    /// Takes one event of a seat.
    fn step(&mut self, seat: SeatNo, event: &Self::Event) -> Self::Reply
        requires { valid self.old }
        ensures reply { result ≡ reply_at self.old seat event.now }
        ensures state { self.new ≡ next self.old seat event.now };

    /// Whether a call with this event has to wait for other seats first.
    fn waits(&self, seat: SeatNo, event: &Self::Event) -> bool
        requires { valid self.now }
        ensures { result ≡ waits_at self.now seat event.now };

    /// Every step keeps what holds of the state.
    ghost keeps: { (s : Self) (seat : ℕ) (e : Self.Event) → valid s → valid (next s seat e) };
}
