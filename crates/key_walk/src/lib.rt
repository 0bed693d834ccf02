// Module 4 of document 01: the walk by key over words that pass the check. The file is named after the crate's.
#![tactic(auto)]

mod ord_index;

ghost use Rattle.std.specs.Prelude.{◌≡◌, ◌≤◌};
ghost use Rattle.key_walk.specs.Midway.{visitor_at};

use arena::{Index, Rank, Slot};
pub use ord_index::{search, walk};

// A walk that may still make `left` comparisons. `base` is where the record of its slot begins.
#[derive(Clone, Copy)]
pub struct Visitor {
    pub slot: Slot,
    pub base: usize,
    pub rank: Rank,
    pub left: u32,
}

impl Visitor {
    pub fn at(m: usize, slot: Slot, rank: Rank, left: u32) -> Visitor
        requires { m ≤ 16 }
        ensures { result ≡ visitor_at m slot rank left }
    {
        Visitor {
            slot,
            base: arena::base_of(m, slot),
            rank,
            left,
        }
    }
}

// Where a walk ends: on the key, or before the first that is greater.
#[derive(Clone, Copy)]
pub enum Walked {
    Found(Visitor),
    Missing(Visitor),
}

// What a search answers, with the tally.
#[derive(Clone, Copy)]
pub enum Searched {
    Found(Index, u32),
    Missing(Index, u32),
}

// A search would take more comparisons than its allowance, which it tells.
#[derive(Clone, Copy)]
pub struct Beyond(pub u32);
