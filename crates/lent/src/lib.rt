// No function: how a function over a record that a host lends keeps its promise, one walk for each shape of them (proofs/).
#![tactic(auto)]

use dac::Dac;

// What a play by value comes to, for the theorem `play_meets`, which docs/PORT.md names: the record's count of high clocks after it, or too many clocks.
#[derive(Clone, Copy)]
pub enum Played {
    All(u32),
    TooMany,
}

// The record after such a play, and its answer: the theorem `play_meets`, which docs/PORT.md names, is about a step that hands back both.
#[derive(Clone, Copy)]
pub struct Outcome {
    pub after: Dac,
    pub answer: Played,
}
