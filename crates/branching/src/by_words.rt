//! Choices and sides by given words.

ghost use Rattle.std.specs.Prelude.{◌≡◌, ◌<◌, [], MatchOption, length, slice_get};
ghost use Rattle.branching.specs.Picks.{open_choices, by_words, side_by_words, word_at};

use crate::strategy::Strategy;
use crate::view::CubeView;
use polygraph::ChoiceIx;
use pruning_laws::Side;
use std::marker::Model;

/// Picks by the word at the depth, modulo the number of words: the open choice whose rank is the
/// word modulo the number of open ones. Side one is searched first where the word is even. Without
/// words the open choice of least number is picked, and side one is searched first.
#[derive(Drop)]
pub struct ByWords {
    words: Vec<u64>,
}

impl Model for ByWords {
    ghost use Rattle.std.specs.Prelude.{List, ℕ};

    ghost Value = { List ℕ };

    ghost view = { λ s. s.words.items };
}

impl ByWords {
    /// The strategy of these words.
    pub fn new(words: Vec<u64>) -> ByWords
        ensures words { result ≡ words.items }
    {
        ByWords { words }
    }

    /// The word at the depth of a view, where there are words.
    fn word_at(&self, view: &CubeView<'_>) -> Option<u64>
        ensures word { MatchOption result (self.now ≡ [])
            (λ word. (0 < length self.now) × (word ≡ word_at self.now view.now)) }
    {
        if self.words.is_empty() {
            return None;
        }
        Some(self.words[view.depth() % self.words.len()])
    }
}

/// The open choice of this rank, counted from 0.
fn open_at(view: &CubeView<'_>, rank: usize) -> Option<ChoiceIx>
    ensures choice { result ≡ slice_get (open_choices view.now) rank }
{
    let mut from = 0;
    for passed in 0..rank {
        from = view.next_open(from)?.get() + 1;
    }
    view.next_open(from)
}

impl Strategy for ByWords {
    ghost use Rattle.branching.specs.Picked.{word_is_open, word_where_open};

    const NAME: &'static str = "words";

    const USES_MARKS: bool = false;

    ghost picks = { λ s v. by_words s v };

    ghost first_of = { λ s v _. side_by_words s v };

    fn pick(&self, view: &CubeView<'_>) -> Option<ChoiceIx> {
        let Some(word) = self.word_at(view) else {
            return view.next_open(0);
        };
        let open = view.count() - view.depth();
        if open == 0 {
            return None;
        }
        open_at(view, (word % open as u64) as usize)
    }

    fn first_side(&self, view: &CubeView<'_>, _choice: ChoiceIx) -> Side {
        match self.word_at(view) {
            Some(word) if word % 2 == 1 => Side::Two,
            Some(_) | None => Side::One,
        }
    }

    ghost picks_open = { λ s v c e. word_is_open s v c e };

    ghost picks_some = { λ s v e c. word_where_open s v e c };
}
