// Module 3 of document 01: the walk by rank over words that pass the check. The files are named after the crate's.
#![tactic(auto)]

ghost use Rattle.std.specs.Prelude.{◌≡◌};

mod index;
mod index_mut;

use arena::{List, Path, Rank, Slot};
pub use index::{at, length, reach, read};
pub use index_mut::{by_rank, seek};

// Where a walk stands.
#[derive(Clone, Copy)]
pub struct Spot {
    pub slot: Slot,
    pub rank: Rank,
}

impl Spot {
    pub(crate) fn at_head(list: List) -> Spot
        ensures { (result.slot.0 ≡ list.entry.head.0) × (result.rank.0 ≡ 0) }
    {
        Spot {
            slot: list.head,
            rank: Rank::HEAD,
        }
    }
}

// The precursors of a target rank, and the slot where the walk ends: none, where that is past the last node.
#[derive(Clone, Copy)]
pub struct Reached {
    pub path: Path,
    pub ended: Option<Slot>,
}
