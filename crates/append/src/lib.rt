// Module 7 of document 01, append: b follows a, or precedes it, or its nodes are merged into a; "b ends empty."
#![tactic(auto)]

ghost use Rattle.std.specs.Prelude.{◌≡◌, ◌<◌, length};
ghost use Rattle.model.specs.Closed.{do_join};
ghost use Rattle.model.specs.Nodes.{key_at};
ghost use Rattle.model.specs.Lists.{last_key};
ghost use Rattle.model.specs.Arena.{encode};
ghost use Rattle.model.specs.Calls.{do_append};
ghost use Rattle.model.specs.Passes.{decode, nodes};
ghost use Rattle.arena.specs.Owners.{TwoLists, Leads};
ghost use Rattle.arena.specs.Held.{nodes_of};
ghost use Rattle.join.specs.Joins.{Joins};
ghost use Rattle.join_before.specs.Preceded.{do_join_before};

use arena::{Index, Key, LAST, List, NEXT, Path, Slot, below, cell, key_at};

fn first_key(list: List) -> Key
    requires { 0 < length (nodes_of list) }
    ensures { result ≡ key_at (nodes_of list.entry) 0 }
{
    let first = Slot(cell(list.words, list.levels, list.head, NEXT));
    key_at(list.words, list.levels, first)
}

// Not one function with `first_key`, told apart by the column: each promises another key, by a clause of its own.
fn last_key(list: List) -> Key
    requires { 0 < length (nodes_of list) }
    ensures { result ≡ last_key (nodes_of list.entry) }
{
    let last = Slot(cell(list.words, list.levels, list.head, LAST));
    key_at(list.words, list.levels, last)
}

// Not inlined it copies the path once more, and an append behind takes more instructions than the crate's.
#[inline(always)]
fn end_path(list: List) -> Path
    ensures { Leads list.entry.words.now list.entry.levels list.entry.head.0 (length (nodes_of list.entry)) result }
{
    let n = rank_walk::length(list);
    rank_walk::seek(list, Index(n))
}

// Where b follows a: b is hung behind a. (This and the next have frames of their own, so that a merge does not carry a path's arrays.)
#[inline(never)]
fn follow(w: &mut [u32], m: usize, a: Slot, b: Slot)
    requires { Joins w.old m a.0 b.0 }
    ensures { w.new ≡ encode (do_join (decode w.old) a.0 b.0) }
{
    let path = end_path(List::new(w, m, a));
    join::join(w, m, a, b, path);
}

// Where b precedes a: the nodes of b are put before those of a.
#[inline(never)]
fn precede(w: &mut [u32], m: usize, a: Slot, b: Slot)
    requires { Joins w.old m b.0 a.0 }
    ensures { w.new ≡ encode (do_join_before (decode w.old) a.0 b.0) }
{
    let path = end_path(List::new(w, m, b));
    join_before::join_before(w, m, a, b, path);
}

// The three cases, where neither list is empty. A key is at most another where the other is not below it.
fn append_some(w: &mut [u32], m: usize, a: Slot, b: Slot)
    requires two_lists { TwoLists w.old m a.0 b.0 }
    requires nonzero { (0 < length (nodes w.old a.0)) × (0 < length (nodes w.old b.0)) }
    ensures { w.new ≡ encode (do_append (decode w.old) a.0 b.0) }
{
    let (onto, from) = (List::new(w, m, a), List::new(w, m, b));
    if !below(first_key(from), last_key(onto)) {
        follow(w, m, a, b);
        return;
    }
    if !below(first_key(onto), last_key(from)) {
        precede(w, m, a, b);
        return;
    }
    merge::merge(w, m, a, b);
}

// Appends b to a, and leaves b empty.
pub fn append(w: &mut [u32], m: usize, a: Slot, b: Slot)
    requires { TwoLists w.old m a.0 b.0 }
    ensures { w.new ≡ encode (do_append (decode w.old) a.0 b.0) }
{
    if rank_walk::length(List::new(w, m, b)) == 0 {
        return;
    }
    if rank_walk::length(List::new(w, m, a)) == 0 {
        follow(w, m, a, b);
        return;
    }
    append_some(w, m, a, b);
}
