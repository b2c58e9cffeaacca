//! What a play has come through: how many moves were made, the weights of the
//! places, and where a choice was made, so that it can be taken back.
use crate::window::Window;
use std::collections::VecDeque;
use std::marker::Model;

mod methods;

/// The weights of how many places are kept.
pub const MOST_KEPT: usize = 65536;

/// How many choices are kept.
pub const MOST_CHOICES: usize = 1000;

/// A choice: where, and how many moves were made before it.
#[derive(Clone, Copy)]
struct Choice {
    place: u32,
    made: u64,
}

/// The weights of the places that were come to, the last 65,536 at most; the
/// window over the last 1,000 of them; and the last 1,000 choices.
#[derive(Drop)]
pub struct Trail {
    weights: VecDeque<u8>,
    window: Window,
    choices: VecDeque<Choice>,
    made: u64,
}

// Clauses see the weights, the choices and the number of moves.
impl Model for Trail {
    ghost use Rattle.playing.specs.Trails.{Past, Limited};

    ghost Value = { Past };

    ghost view = { λ t. record { weights = t.weights.items; choices = t.choices.items; made = t.made } };

    ghost invariant = { λ t. Limited t.weights.items t.window t.choices.items };
}
