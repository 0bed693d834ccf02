// What a picture shows of a list: runs of indexes, and level by level the link that is held. All of it is read off words that pass, by the
// library's own walk.
ghost use Rattle.std.specs.Prelude.{◌≡◌, suc, ◌+◌, ◌-◌, ◌≤◌, ◌<◌, length, drop, min, IfSome};
ghost use Rattle.std.specs.Iterator.{at_most};
ghost use Rattle.model.specs.Nodes.{slot_at, key_at, height_at};
ghost use Rattle.model.specs.Links.{distance};
ghost use Rattle.model.specs.Passes.{Passes, decode};
ghost use Rattle.arena.specs.Decides.{Decides};
ghost use Rattle.arena.specs.Owners.{Leads};
ghost use Rattle.arena.specs.Held.{nodes_of};
ghost use Rattle.draw.specs.Holds.{Holds};
ghost use Rattle.draw.specs.Once.{passes_prop};

use arena::{Index, List, Path, Slot};

// A list is cut into so many blocks at most; what comes behind is counted and not drawn.
pub const BLOCKS: u32 = 16;

// The lists of words that pass that are still to come, from list `next` on.
#[derive(Drop)]
pub struct Lists<'a> {
    pub words: &'a [u32],
    pub next: u32,
    pub ghost passes: { Passes words.now } by { passes_prop words.now },
    pub ghost few: { next ≤ 16 },
}

// The link that is held just before an index: it leaves the rank `from`, before the index, and leads `far` ranks on; 0 if there is none.
// No `Option`: `Holds` says of an absent link too which owner it leaves, and 0 is document 01's distance of one.
#[derive(Clone, Copy)]
pub struct Held {
    pub from: u32,
    pub far: u32,
}

// The indexes `first` and on, before `past`, of a list: N at most.
#[derive(Clone, Copy)]
pub struct Block<'a, const N: u32> {
    pub list: List<'a>,
    pub first: u32,
    pub past: u32,
    pub ghost order: { first ≤ past },
    pub ghost within: { past ≤ length (nodes_of list) },
    pub ghost narrow: { past ≤ first + N },
}

// The blocks of `room` indexes that are still to come, from index `first` on.
#[derive(Drop)]
pub struct Blocks<'a, const N: u32> {
    list: List<'a>,
    room: u32,
    first: u32,
    left: u32,
    ghost narrow: { room ≤ N },
    ghost within: { first ≤ length (nodes_of list) },
}

impl Held {
    // The link of level l that is held before index i: that of the precursor which the walk to the index notes.
    pub fn before(list: List, i: u32, path: Path, l: usize) -> Held
        requires { (i ≤ length (nodes_of list)) × Leads list.words.now list.levels list.head.0 i path × (l < list.levels) }
        ensures { Holds list.entry.words.now list.entry.head.0 l i result }
    {
        let owner = path.slots[l];
        Held {
            from: path.ranks[l].0,
            far: arena::link_at(list.words, list.levels, owner, l).distance,
        }
    }

    // The link that is held behind index i, before which this one is.
    pub fn behind(self, list: List, i: u32, l: usize) -> Held
        requires { (i < length (nodes_of list)) × (l < list.levels) × Holds list.words.now list.head.0 l i self }
        ensures { Holds list.entry.words.now list.entry.head.0 l (i + 1) result }
    {
        if self.arrives(i) {
            return Held {
                from: i + 1,
                far: distance_at(list, i, l),
            };
        }
        self
    }

    pub fn goes_on(self) -> bool {
        self.far != 0
    }

    // Whether the link leads to the node at index i, before which it is held.
    pub fn arrives(self, i: u32) -> bool
        requires { (self.from ≤ i) × (i < 4294967295) }
        ensures { Decides result (self.from + self.far ≡ i + 1) }
    {
        self.far == i - self.from + 1
    }
}

// The end of a block of n indexes at most.
fn end_of(first: u32, n: u32, count: u32) -> u32
    requires { first ≤ count }
    ensures { (first ≤ result) × (result ≤ count) × (result ≤ first + n) }
{
    first.saturating_add(n).min(count)
}

// How many slots there are.
pub fn slots(list: List) -> u32 {
    arena::header(list.words, arena::LISTS_WORD) + arena::header(list.words, arena::ROOM_WORD)
}

// On how many of the levels the node at an index stands.
pub fn height_at(list: List, i: u32) -> usize
    requires { i < length (nodes_of list) }
    ensures { result ≤ list.entry.levels }
{
    let s = rank_walk::at(list, Index(i));
    let h = arena::cell(list.words, list.levels, s, arena::HEIGHT);
    (h as usize).min(list.levels)
}

// How far the link of level l leads from the node at an index.
fn distance_at(list: List, i: u32, l: usize) -> u32
    requires { (i < length (nodes_of list)) × (l < list.levels) }
    ensures { suc l ≤ height_at (decode list.entry.words.now).levels (nodes_of list.entry) (i + 1) →
        result ≡ distance (suc l) (drop (i + 1) (nodes_of list.entry)) }
{
    let s = rank_walk::at(list, Index(i));
    arena::link_at(list.words, list.levels, s, l).distance
}

// How many keys the blocks of so many indexes leave out.
pub fn left_out(list: List, room: u32) -> u32
    requires { room ≤ 62 }
{
    rank_walk::length(list).saturating_sub(BLOCKS * room)
}

impl<'a> Lists<'a> {
    pub fn of(words: &'a [u32]) -> Lists<'a>
        requires { Passes words.now }
        ensures { result.next ≡ 0 }
    {
        Lists { words, next: 0 }
    }

    // The list of a number, if it is there.
    fn at(words: &'a [u32], head: Slot) -> Option<List<'a>>
        requires { Passes words.now }
        ensures { IfSome result (λ list. (list.words.now ≡ words.now) × (list.head.0 ≡ head.0) × (head.0 < 16)) }
    {
        let Ok(levels) = answers::one_list(words, head) else {
            return None;
        };
        Some(List::new(words, levels, head))
    }
}

impl<'a> Iterator for Lists<'a> {
    type Item = List<'a>;

    ghost remaining = { λ s. at_most (16 - s.next) };

    fn next(&mut self) -> Option<List<'a>> {
        let list = Lists::at(self.words, Slot(self.next))?;
        self.next += 1;
        Some(list)
    }
}

impl<'a, const N: u32> Block<'a, N> {
    pub fn at_head(self) -> bool {
        self.first == 0
    }

    // Whether the list goes on behind it.
    pub fn goes_on(self) -> bool {
        self.past < rank_walk::length(self.list)
    }
}

impl<'a, const N: u32> Blocks<'a, N> {
    // The blocks of a list that are drawn, of so many indexes each; the last may have fewer.
    pub fn of(list: List<'a>, room: u32) -> Blocks<'a, N>
        requires { room ≤ N }
    {
        Blocks {
            list,
            room,
            first: 0,
            left: BLOCKS,
        }
    }
}

impl<'a, const N: u32> Iterator for Blocks<'a, N> {
    type Item = Block<'a, N>;

    ghost remaining = { λ s. at_most s.left };

    fn next(&mut self) -> Option<Block<'a, N>> {
        let list = self.list;
        let first = self.first;
        let n = rank_walk::length(list);
        if self.left == 0 || first == n {
            return None;
        }
        let past = end_of(first, self.room, n);
        self.first = past;
        self.left -= 1;
        Some(Block { list, first, past })
    }
}
