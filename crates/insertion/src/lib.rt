// Module 6 of document 01: insertion in an arena that passes.
#![tactic(auto)]

ghost use Rattle.std.specs.Prelude.{◌≡◌, cond, ◌≤◌, ◌<◌, eqb, length};
ghost use Rattle.model.specs.Arena.{encode};
ghost use Rattle.model.specs.Calls.{do_insert};
ghost use Rattle.model.specs.Passes.{decode};
ghost use Rattle.arena.specs.Owners.{Listed, Leads};
ghost use Rattle.level_links.specs.AtIndex.{inserted_at, CanInsert};

use arena::{
    COUNT, FIRST_FREE_WORD, FREE_WORD, Index, Key, LAST, List, NEXT, Path, Slot, cell, header,
};
use chain_words::{Head, Record, put_chain, put_free};
use level_links::insert_links;

// The last node's slot, once the node in slot o stands at index i of n.
fn last_with(i: Index, n: u32, o: Slot, last: Slot) -> Slot
    ensures { result.0 ≡ cond (eqb i.0 n) o.0 last.0 }
{
    if i.0 == n { o } else { last }
}

// A key at a height goes into the first free slot and stands before index i, where the keys stay in order.
pub fn insert_before(
    w: &mut [u32],
    m: usize,
    list: Slot,
    key: Key,
    height: u32,
    i: Index,
    path: Path,
)
    requires { CanInsert w.old m list.0 i.0 key height × Leads w.old m list.0 i.0 path }
    ensures { w.new ≡ encode (inserted_at (decode w.old) list.0 i.0 key height) }
{
    let o = Slot(header(w, FIRST_FREE_WORD));
    let free = header(w, FREE_WORD);
    let rest = Slot(cell(w, m, o, NEXT));
    let n = cell(w, m, list, COUNT);
    let next = Slot(cell(w, m, path.end, NEXT));
    let last = last_with(i, n, o, Slot(cell(w, m, list, LAST)));
    insert_links(w, m, list, key, height, i, o, path);
    let head = Head {
        slot: list,
        count: n + 1,
        last,
    };
    let node = Record {
        slot: o,
        key,
        height,
        next,
    };
    put_chain(w, m, head, path.end, o, node);
    put_free(w, rest, free - 1);
}

// "Insert takes the first free slot and stands before the first key not below its own, so before all equal keys, or last if there is no such key."
pub fn insert(w: &mut [u32], m: usize, list: Slot, key: Key, height: u32)
    requires { Listed w.old m list.0 × ((height ≤ m) × (0 < length (decode w.old).free)) }
    ensures { w.new ≡ encode (do_insert (decode w.old) list.0 key height) }
{
    let trail = precursors::find(List::new(w, m, list), key);
    insert_before(w, m, list, key, height, trail.place, trail.path);
}
