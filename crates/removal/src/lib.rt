// Module 6 of document 01: removal in an arena that passes.
#![tactic(auto)]

ghost use Rattle.std.specs.Prelude.{◌≡◌, cond, ◌+◌, ◌<◌, eqb};
ghost use Rattle.model.specs.Nodes.{N, key_at};
ghost use Rattle.model.specs.Arena.{encode};
ghost use Rattle.model.specs.Calls.{do_remove};
ghost use Rattle.model.specs.Passes.{decode, nodes};
ghost use Rattle.arena.specs.Owners.{Leads, NodeThere};

use arena::{
    COUNT, FIRST_FREE_WORD, FREE_WORD, HEIGHT, Index, Key, LAST, List, NEXT, Path, Rank, Slot,
    cell, header, key_at, last_slot,
};
use chain_words::{Head, Record, put_chain, put_free};
use level_links::remove_links;

// The last node's slot, once the node at index i of n is gone; slot `end` stands before it.
fn last_without(i: Index, n: u32, end: Slot, last: Slot) -> Slot
    requires { i.0 < 4294967295 }
    ensures { result.0 ≡ cond (eqb (i.0 + 1) n) (cond (eqb i.0 0) N end.0) last.0 }
{
    if Rank::from_index(i).0 == n {
        last_slot(i.0, end)
    } else {
        last
    }
}

// The node at index i goes, and its slot stands first on the free chain; answers its key.
pub fn remove_after(w: &mut [u32], m: usize, list: Slot, i: Index, path: Path) -> Key
    requires { NodeThere w.old m list.0 i.0 × Leads w.old m list.0 i.0 path }
    ensures { w.new ≡ encode (do_remove (decode w.old) list.0 i.0) × (result ≡ key_at (nodes w.old list.0) i.0) }
{
    let o = Slot(cell(w, m, path.end, NEXT));
    let key = key_at(w, m, o);
    let height = cell(w, m, o, HEIGHT);
    let next = Slot(cell(w, m, o, NEXT));
    let n = cell(w, m, list, COUNT);
    let last = last_without(i, n, path.end, Slot(cell(w, m, list, LAST)));
    let first = Slot(header(w, FIRST_FREE_WORD));
    let free = header(w, FREE_WORD);
    remove_links(w, m, list, i, o, height as usize, path);
    let head = Head {
        slot: list,
        count: n - 1,
        last,
    };
    let node = Record {
        slot: o,
        key: 0,
        height: Slot::NONE.0,
        next: first,
    };
    put_chain(w, m, head, path.end, next, node);
    put_free(w, o, free + 1);
    key
}

// "Remove, by .. index, answers the key and puts its slot in front of the free chain."
pub fn remove_at(w: &mut [u32], m: usize, list: Slot, i: Index) -> Key
    requires { NodeThere w.old m list.0 i.0 }
    ensures { w.new ≡ encode (do_remove (decode w.old) list.0 i.0) × (result ≡ key_at (nodes w.old list.0) i.0) }
{
    let path = rank_walk::seek(List::new(w, m, list), i);
    remove_after(w, m, list, i, path)
}
