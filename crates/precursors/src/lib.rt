// Module 5 of document 01: the walk by key with precursors, over words that pass the check. The file is named after the crate's.
#![tactic(auto)]

ghost use Rattle.std.specs.Prelude.{◌≡◌};

mod ord_index_mut;

use arena::{Index, Path, Rank, Slot};
pub use ord_index_mut::find;

// A walk that notes precursors. `bound` is where the link of the last of them leads, `Slot::NONE` where it is absent: its key was not
// smaller, so the walk never goes on to it.
#[derive(Clone, Copy)]
pub struct Tracer {
    pub slot: Slot,
    pub rank: Rank,
    pub bound: Slot,
}

// `Violation` is the crate's `total_order_violation`: the walk would go on to its bound. No arena that passes the check answers it.
#[derive(Clone, Copy)]
pub enum Outcome {
    Found,
    Missing,
    Violation,
}

// Where the walk stops: the slot just before the key's place, and its rank.
#[derive(Clone, Copy)]
pub struct Stop {
    pub slot: Slot,
    pub rank: Rank,
    pub outcome: Outcome,
}

// The precursors of the key's place, with the slot just before it; the place, which is the number of smaller keys; what was found there.
#[derive(Clone, Copy)]
pub struct Trail {
    pub path: Path,
    pub place: Index,
    pub outcome: Outcome,
}

impl Tracer {
    fn stop(self, outcome: Outcome) -> Stop
        ensures { (result.slot ≡ self.slot) × (result.rank ≡ self.rank) × (result.outcome ≡ outcome) }
    {
        Stop {
            slot: self.slot,
            rank: self.rank,
            outcome,
        }
    }
}
