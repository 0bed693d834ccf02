// Module 7 of document 01, truncation: a list ends at a path of precursors, and "the rest are freed in list order".
#![tactic(auto)]

ghost use Rattle.std.specs.Prelude.{◌≡◌, cond, eqb};
ghost use Rattle.model.specs.Nodes.{N};
ghost use Rattle.model.specs.Arena.{count_column, next_column, last_column, encode};
ghost use Rattle.model.specs.Calls.{do_truncate};
ghost use Rattle.model.specs.Cells.{Cell, put_at};
ghost use Rattle.model.specs.Passes.{decode};
ghost use Rattle.arena.specs.Owners.{Listed, Leads, NodeThere};
ghost use Rattle.truncate.specs.Truncation.{Unlinked};

use arena::{
    COUNT, FIRST_FREE_WORD, FREE_WORD, Index, LAST, Link, List, NEXT, Path, Slot, cell, header,
    last_slot, put, put_header, put_link,
};
use free_node::free_node;

// The links of the precursors, level by level.
fn end_links(w: &mut [u32], m: usize, list: Slot, n: Index, path: Path)
    requires { NodeThere w.old m list.0 n.0 × Leads w.old m list.0 n.0 path }
    ensures { Unlinked w.old m list.0 n.0 w.new }
{
    for l in 0..m {
        put_link(w, m, path.slots[l], l, Link::ABSENT);
    }
}

// The head of a list of n nodes, and the end of its chain.
fn end_chain(w: &mut [u32], m: usize, list: Slot, n: Index, end: Slot)
    requires { Cell w.old m list.0 last_column × Cell w.old m end.0 next_column }
    ensures { w.new ≡
        put_at m (put_at m (put_at m w.old list.0 last_column (cond (eqb n.0 0) N end.0)) end.0 next_column N) list.0 count_column n.0 }
{
    put(w, m, list, LAST, last_slot(n.0, end).0);
    put(w, m, end, NEXT, Slot::NONE.0);
    put(w, m, list, COUNT, n.0);
}

// Keeps the first n nodes, to whose end the path leads. In the loop slot s is the next node to go, and `front` stands first on the free chain.
fn trim(w: &mut [u32], m: usize, list: Slot, n: Index, path: Path)
    requires { NodeThere w.old m list.0 n.0 × Leads w.old m list.0 n.0 path }
    ensures { w.new ≡ encode (do_truncate (decode w.old) list.0 n.0) }
{
    let count = cell(w, m, list, COUNT);
    let mut s = Slot(cell(w, m, path.end, NEXT));
    let mut front = Slot(header(w, FIRST_FREE_WORD));
    let free = header(w, FREE_WORD);
    end_links(w, m, list, n, path);
    end_chain(w, m, list, n, path.end);
    for _ in n.0..count {
        let next = Slot(cell(w, m, s, NEXT));
        free_node(w, m, s, front);
        front = s;
        s = next;
    }
    put_header(w, FIRST_FREE_WORD, front.0);
    put_header(w, FREE_WORD, free + (count - n.0));
}

// Keeps the first n nodes; a list of no more than n stays as it is, word for word.
pub fn truncate(w: &mut [u32], m: usize, list: Slot, n: u32)
    requires { Listed w.old m list.0 }
    ensures { w.new ≡ encode (do_truncate (decode w.old) list.0 n) }
{
    let kept = List::new(w, m, list);
    if rank_walk::length(kept) <= n {
        return;
    }
    let path = rank_walk::seek(kept, Index(n));
    trim(w, m, list, Index(n), path);
}
