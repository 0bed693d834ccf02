// Module 7 of document 01, append's last case: "b's nodes, first to last, each go before the first key not below theirs in a as it then stands".
#![tactic(auto)]

ghost use Rattle.std.specs.Prelude.{◌≡◌, ◌<◌, length};
ghost use Rattle.model.specs.Nodes.{at};
ghost use Rattle.model.specs.Arena.{encode};
ghost use Rattle.model.specs.Passes.{decode, nodes};
ghost use Rattle.arena.specs.Owners.{TwoLists};
ghost use Rattle.arena.specs.Held.{nodes_of};
ghost use Rattle.merge.specs.Merged.{do_merge, moved_first};

use arena::{HEIGHT, Index, List, NEXT, Slot, cell};

fn first_height(list: List) -> u32
    requires { 0 < length (nodes_of list) }
    ensures { result ≡ (at (nodes_of list.entry) 0).height }
{
    let first = Slot(cell(list.words, list.levels, list.head, NEXT));
    cell(list.words, list.levels, first, HEIGHT)
}

// Moves the first node of b to its place in a. The slot just freed is the first free one, so that the node keeps it.
fn move_first(w: &mut [u32], m: usize, a: Slot, b: Slot)
    requires { TwoLists w.old m a.0 b.0 × (0 < length (nodes w.old b.0)) }
    ensures { w.new ≡ encode (moved_first (decode w.old) a.0 b.0) }
{
    let height = first_height(List::new(w, m, b));
    let key = removal::remove_at(w, m, b, Index(0));
    insertion::insert(w, m, a, key, height);
}

// Every node of b, which ends empty.
pub fn merge(w: &mut [u32], m: usize, a: Slot, b: Slot)
    requires { TwoLists w.old m a.0 b.0 }
    ensures { w.new ≡ encode (do_merge (decode w.old) a.0 b.0) }
{
    for _ in 0..rank_walk::length(List::new(w, m, b)) {
        move_first(w, m, a, b);
    }
}
