// The walk by key, with the precursors and their ranks.
ghost use Rattle.arena.specs.Decides.{Decides};
ghost use Rattle.precursors.specs.Trails.{Readable, GoesBelow, Begun, Stopped, Joined, Trailed};

use crate::{Outcome, Stop, Tracer, Trail};
use arena::{Key, List, Path, Rank, Slot};

// Whether a link leads to a key that is smaller: it is not absent, and slot `to` has such a key.
fn goes_below(list: List, to: Slot, key: Key) -> bool
    requires { Readable list.words.now list.levels to.0 }
    ensures { Decides result (GoesBelow list.entry.words.now list.entry.levels key to.0) }
{
    to != Slot::NONE && arena::below(arena::key_at(list.words, list.levels, to), key)
}

// Below level 0, by next, and stopped before the first key that is not smaller.
fn trace_next(list: List, key: Key, from: Tracer) -> Stop
    requires { Begun list.words.now list.levels list.head.0 0 key from }
    ensures { Stopped list.entry.words.now list.entry.levels list.entry.head.0 key result }
{
    let mut v = from;
    loop {
        let next = Slot(arena::cell(list.words, list.levels, v.slot, arena::NEXT));
        if next == Slot::NONE {
            return v.stop(Outcome::Missing);
        }
        let met = arena::key_at(list.words, list.levels, next);
        if arena::below(key, met) {
            return v.stop(Outcome::Missing);
        }
        if arena::same(key, met) {
            return v.stop(Outcome::Found);
        }
        if next == v.bound {
            return v.stop(Outcome::Violation);
        }
        v.rank = v.rank.plus(1);
        v.slot = next;
    }
}

// The precursors, and the stop in front of the key's place.
fn trail(slots: [Slot; 16], ranks: [Rank; 16], s: Stop) -> Trail
    ensures { Joined slots ranks s result }
{
    Trail {
        path: Path {
            slots,
            ranks,
            end: s.slot,
        },
        place: s.rank.after(),
        outcome: s.outcome,
    }
}

// The walk from the head: the precursors, the place of the key, and whether it is there.
pub fn find(list: List, key: Key) -> Trail
    ensures { Trailed list.entry.words.now list.entry.levels list.entry.head.0 key result }
{
    let mut slots = [list.head; 16];
    let mut ranks = [Rank::HEAD; 16];
    let mut v = Tracer {
        slot: list.head,
        rank: Rank::HEAD,
        bound: Slot::NONE,
    };
    let mut base = arena::base_of(list.levels, list.head);
    let mut stage = list.levels;
    // No `for`: a turn goes along a stage or down to the next, so that no count of turns stands before.
    while 0 < stage {
        let to = arena::target_in(list.words, base, stage);
        if !goes_below(list, to, key) {
            stage -= 1;
            slots[stage] = v.slot;
            ranks[stage] = v.rank;
            v.bound = to;
            continue;
        }
        if to == v.bound {
            return trail(slots, ranks, v.stop(Outcome::Violation));
        }
        v.rank = v.rank.plus(arena::distance_in(list.words, base, stage));
        v.slot = to;
        base = arena::base_of(list.levels, to);
    }
    trail(slots, ranks, trace_next(list, key, v))
}
