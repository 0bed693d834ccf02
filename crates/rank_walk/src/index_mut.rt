// The walk by rank with the precursors and their ranks.
ghost use Rattle.std.specs.Prelude.{◌≡◌, ◌≤◌, ◌<◌, length};
ghost use Rattle.model.specs.Nodes.{slot_at};
ghost use Rattle.arena.specs.Held.{nodes_of};
ghost use Rattle.arena.specs.Owners.{Leads};
ghost use Rattle.arena.specs.Decides.{Decides};
ghost use Rattle.walk.specs.Standing.{Standing};
ghost use Rattle.rank_walk.specs.Ranks.{WalkedByRank};

use crate::index::length as count;
use crate::{Reached, Spot};
use arena::{Index, List, Path, Rank, Slot};

// Whether a link can be followed: its distance `far` is not that of an absent one, 0, and leads no more than `rest` ranks on.
pub fn can_follow(far: u32, rest: u32) -> bool
    ensures { Decides result ((0 < far) × (far ≤ rest)) }
{
    0 < far && far <= rest
}

// By next to rank `limit`.
pub fn seek_next(list: List, from: Spot, limit: Rank) -> Slot
    requires { Standing list.words.now list.levels list.head.0 limit.0 0 from.slot.0 from.rank.0 }
    ensures { result.0 ≡ slot_at list.entry.head.0 (nodes_of list.entry) limit.0 }
{
    let mut slot = from.slot;
    for _rank in from.rank.0..limit.0 {
        slot = Slot(arena::cell(list.words, list.levels, slot, arena::NEXT));
    }
    slot
}

// The walk by rank to index i, stopped one short: the precursors, and the slot just before the index.
pub fn seek(list: List, i: Index) -> Path
    requires { i.0 ≤ length (nodes_of list) }
    ensures { Leads list.entry.words.now list.entry.levels list.entry.head.0 i.0 result }
{
    let mut slots = [list.head; 16];
    let mut ranks = [Rank::HEAD; 16];
    let limit = Rank::before(i);
    let mut v = Spot::at_head(list);
    let mut base = arena::base_of(list.levels, list.head);
    let mut stage = list.levels;
    // No `for` over the levels with a function that goes along each: on 255 keys that takes a tenth more instructions.
    while 0 < stage {
        let far = arena::distance_in(list.words, base, stage);
        if !can_follow(far, limit.0 - v.rank.0) {
            stage -= 1;
            slots[stage] = v.slot;
            ranks[stage] = v.rank;
            continue;
        }
        let to = arena::target_in(list.words, base, stage);
        v = Spot {
            slot: to,
            rank: v.rank.plus(far),
        };
        base = arena::base_of(list.levels, to);
    }
    let end = seek_next(list, v, limit);
    Path { slots, ranks, end }
}

// The walk by rank as document 01 tells it: the precursors of a target rank, and where the walk ends.
pub fn by_rank(list: List, target: Rank) -> Reached
    ensures { WalkedByRank list.entry.words.now list.entry.levels list.entry.head.0 target.0 result }
{
    if target == Rank::HEAD {
        let path = Path {
            slots: [list.head; 16],
            ranks: [Rank::HEAD; 16],
            end: list.head,
        };
        return Reached {
            path,
            ended: Some(list.head),
        };
    }
    let n = count(list);
    if n < target.0 {
        return Reached {
            path: seek(list, Index(n)),
            ended: None,
        };
    }
    let path = seek(list, target.to_index());
    let to = arena::cell(list.words, list.levels, path.end, arena::NEXT);
    Reached {
        path,
        ended: Some(Slot(to)),
    }
}
