// One walk along a list: its nodes by next, each of which must have its form and be where the pending links of its levels go.
ghost use Rattle.std.specs.Prelude.{◌≤◌, ◌<◌};
ghost use Rattle.arena.specs.Decides.{Decides};
ghost use Rattle.link_check.specs.Shape.{count_in};
ghost use Rattle.list_check.specs.Walked.{NodeOk, WalkOk, ListOk};

use arena::{Key, Rank, Slot};
use link_check::{Pending, Records};

// Whether slot s has the form of a node of rank r, after a key k, and is where the pending links below its height go.
fn node_ok(pending: &Pending, s: Slot, k: Key, r: Rank) -> bool
    ensures { Decides result (NodeOk pending.now.records.words.now pending.now.records.dims s.0 k r.0 pending.now.slots pending.now.ranks) }
{
    let records = pending.records;
    if !records.is_node_slot(s) || arena::below(records.key(s), k) {
        return false;
    }
    let h = records.cell(s, arena::HEIGHT) as usize;
    h <= records.dims.levels
        && records.cell(s, arena::LAST) == 0
        && pending.reach(h, s, r)
        && records.absent_from(s, h)
}

// Whether the walk along the list of head a finds it right.
fn walk_ok(records: Records, a: Slot) -> bool
    requires a_lt_lists { a.0 < records.dims.lists }
    requires a_bound { count_in records.words.now records.dims a.0 ≤ records.dims.room }
    ensures { Decides result (WalkOk records.entry.words.now records.entry.dims a.0) }
{
    let mut pending = Pending::new(records, a);
    let mut at = Slot(records.cell(a, arena::NEXT));
    let mut key: Key = 0;
    let mut last = Slot::NONE;
    for index in 0..records.cell(a, arena::COUNT) {
        let rank = Rank(index + 1);
        if !node_ok(&pending, at, key, rank) {
            return false;
        }
        pending.fill(records.cell(at, arena::HEIGHT) as usize, at, rank);
        key = records.key(at);
        last = at;
        at = Slot(records.cell(at, arena::NEXT));
    }
    let named = Slot(records.cell(a, arena::LAST));
    at == Slot::NONE && last == named && pending.absent()
}

// Whether the list of head a is right.
pub fn list_ok(records: Records, a: Slot) -> bool
    requires a_lt_lists { a.0 < records.dims.lists }
    requires a_bound { count_in records.words.now records.dims a.0 ≤ records.dims.room }
    ensures { Decides result (ListOk records.entry.words.now records.entry.dims a.0) }
{
    records.cell(a, arena::HEIGHT) as usize == records.dims.levels && walk_ok(records, a)
}
