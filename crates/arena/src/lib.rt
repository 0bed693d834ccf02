// Module 2 of document 01: slots, ranks and indexes, and the words of an arena.
#![tactic(auto)]

ghost use Rattle.std.specs.Prelude.{◌≡◌, ◌+◌, ◌<◌};

mod keys;
mod layout;
mod links;
mod lists;
mod words;

pub use keys::{Key, below, key_at, key_in, same};
pub use layout::{
    COUNT, FAR, FIRST_FREE_WORD, FREE_WORD, HEADER, HEIGHT, KEY, LAST, LEVELS_WORD, LINK,
    LISTS_WORD, MARK, MARK_WORD, NEXT, ROOM_WORD, TO, VERSION, VERSION_WORD, ZERO_WORD, base_of,
    fits, size, width,
};
pub use links::{Link, distance_in, link_at, put_link, target_in};
pub use lists::List;
pub use words::{cell, header, last_slot, put, put_header, put2, word};

// The number of a record; lists are named by their heads' slots, 0 to L - 1.
#[derive(Clone, Copy, PartialEq, Eq)]
pub struct Slot(pub u32);

// A place in a list, counted from the head, which has rank 0.
#[derive(Clone, Copy, PartialEq, Eq, PartialOrd, Ord)]
pub struct Rank(pub u32);

// A place in a list, counted from the first node, which has index 0.
#[derive(Clone, Copy, PartialEq, Eq, PartialOrd, Ord)]
pub struct Index(pub u32);

// What a walk to an index notes (the crate's `Path`): of each level the precursor's slot and rank, and the slot just before the index.
#[derive(Clone, Copy)]
pub struct Path {
    pub slots: [Slot; 16],
    pub ranks: [Rank; 16],
    pub end: Slot,
}

impl Slot {
    // No slot: document 01's N. It is no `Option`, since the words of an arena hold it (the model's `absent_link`).
    pub const NONE: Slot = Slot(4294967295);
}

impl Rank {
    pub const HEAD: Rank = Rank(0);

    pub const FIRST: Rank = Rank(1);

    // These are no `From`: an index has two ranks, its node's and the one before it, and a name says which.
    pub fn from_index(i: Index) -> Rank
        requires { i.0 < 4294967295 }
        ensures { result.0 ≡ i.0 + 1 }
    {
        Rank(i.0 + Rank::FIRST.0)
    }

    pub fn to_index(self) -> Index
        requires { 0 < self.0 }
        ensures { result.0 + 1 ≡ self.0 }
    {
        Index(self.0 - Rank::FIRST.0)
    }

    // The rank just before an index, and the index just after a rank.
    pub fn before(i: Index) -> Rank
        ensures { result.0 ≡ i.0 }
    {
        Rank(i.0)
    }

    pub fn after(self) -> Index
        ensures { result.0 ≡ self.0 }
    {
        Index(self.0)
    }

    // The rank that a link of distance d leads to.
    pub fn plus(self, d: u32) -> Rank
        requires { self.0 + d < 4294967296 }
        ensures { result.0 ≡ self.0 + d }
    {
        Rank(self.0 + d)
    }
}
