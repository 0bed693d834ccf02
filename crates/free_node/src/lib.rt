// "A freed slot takes the free column's form."
#![tactic(auto)]

ghost use Rattle.free_node.specs.NodeRecord.{HoldsNode, NodeFreed};

use arena::{HEIGHT, KEY, Link, NEXT, Slot, cell, put, put_link};

// The record of a node, whose links above its height are absent already; `next` is the next free slot.
pub fn free_node(w: &mut [u32], m: usize, s: Slot, next: Slot)
    requires { HoldsNode w.old m s.0 }
    ensures { NodeFreed m s.0 next.0 w.old w.new }
{
    let height = cell(w, m, s, HEIGHT) as usize;
    for l in 0..height {
        put_link(w, m, s, l, Link::ABSENT);
    }
    put(w, m, s, KEY, 0);
    put(w, m, s, HEIGHT, Slot::NONE.0);
    put(w, m, s, NEXT, next.0);
}
