// Reading by rank: the walk without precursors.
ghost use Rattle.std.specs.Prelude.{◌≡◌, suc, ◌<◌, length};
ghost use Rattle.model.specs.Nodes.{slot_at, key_at};
ghost use Rattle.arena.specs.Held.{nodes_of};
ghost use Rattle.walk.specs.Standing.{Standing};

use crate::Spot;
use crate::index_mut::{can_follow, seek_next};
use arena::{Index, Key, List, Rank, Slot};

// The number of nodes of a list.
pub fn length(list: List) -> u32
    ensures { result ≡ length (nodes_of list.entry) }
{
    arena::cell(list.words, list.levels, list.head, arena::COUNT)
}

// The slot at a rank, by a walk on from where one stands in the list, with the levels below `level` still to come.
pub fn reach(list: List, from: Spot, level: usize, target: Rank) -> Slot
    requires { Standing list.words.now list.levels list.head.0 target.0 level from.slot.0 from.rank.0 }
    ensures { result.0 ≡ slot_at list.entry.head.0 (nodes_of list.entry) target.0 }
{
    let mut v = from;
    let mut base = arena::base_of(list.levels, from.slot);
    let mut stage = level;
    // No `for` over the levels with a function that goes along each: on 255 keys that takes a tenth more instructions.
    while 0 < stage {
        let far = arena::distance_in(list.words, base, stage);
        if !can_follow(far, target.0 - v.rank.0) {
            stage -= 1;
            continue;
        }
        let to = arena::target_in(list.words, base, stage);
        v = Spot {
            slot: to,
            rank: v.rank.plus(far),
        };
        base = arena::base_of(list.levels, to);
    }
    seek_next(list, v, target)
}

// The slot at an index, by a walk from the head.
pub fn at(list: List, i: Index) -> Slot
    requires { i.0 < length (nodes_of list) }
    ensures { result.0 ≡ slot_at list.entry.head.0 (nodes_of list.entry) (suc i.0) }
{
    reach(list, Spot::at_head(list), list.levels, Rank::from_index(i))
}

// The key at an index.
pub fn read(list: List, i: Index) -> Key
    requires { i.0 < length (nodes_of list) }
    ensures { result ≡ key_at (nodes_of list.entry) i.0 }
{
    arena::key_at(list.words, list.levels, at(list, i))
}
