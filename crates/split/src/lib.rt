// Module 7 of document 01, the split: "moves everything from index i into the empty receiving list."
#![tactic(auto)]

ghost use Rattle.std.specs.Prelude.{◌≡◌, []};
ghost use Rattle.model.specs.Nodes.{smaller};
ghost use Rattle.model.specs.Arena.{encode};
ghost use Rattle.model.specs.Calls.{do_split};
ghost use Rattle.model.specs.Cells.{link_at};
ghost use Rattle.model.specs.Links.{absent_link};
ghost use Rattle.model.specs.Passes.{decode, nodes};
ghost use Rattle.arena.specs.Linked.{LinkIn, put_link};
ghost use Rattle.arena.specs.Owners.{TwoLists, Leads};
ghost use Rattle.level_links.specs.OneLevel.{nearer_link, LinksDone};
ghost use Rattle.split.specs.Splits.{Splits};

use arena::{
    COUNT, Index, Key, LAST, Link, List, NEXT, Path, Rank, Slot, cell, last_slot, link_at,
    put_link, put2,
};
use level_links::at_distance;
use link::nearer;

// Level l: the link of the precursor s goes to the head `to`, which stands `by` ranks behind s, and ends here.
fn split_level(w: &mut [u32], m: usize, l: usize, s: Slot, to: Slot, by: u32)
    requires { LinkIn w.old m s.0 l × LinkIn w.old m to.0 l }
    ensures { w.new ≡
        put_link m (put_link m w.old s.0 l absent_link) to.0 l (nearer_link by (link_at m w.old s.0 l)) }
{
    let old = link_at(w, m, s, l);
    let moved = at_distance(old, nearer(old.distance, by));
    put_link(w, m, s, l, Link::ABSENT);
    put_link(w, m, to, l, moved);
}

// Each operation has this loop of its own: one for all would take the level's step as a closure and promise a chain of words, longer than its three lines.
fn split_links(w: &mut [u32], m: usize, from: Slot, to: Slot, i: Index, path: Path)
    requires { Splits w.old m from.0 to.0 i.0 × Leads w.old m from.0 i.0 path }
    ensures { LinksDone w.old (do_split (decode w.old) from.0 to.0 i.0) m w.new }
{
    let place = Rank::before(i);
    for l in 0..m {
        let by = place.0 - path.ranks[l].0;
        split_level(w, m, l, path.slots[l], to, by);
    }
}

// Splits `from` at index i, to which the path leads, into the empty list `to`.
fn split(w: &mut [u32], m: usize, from: Slot, to: Slot, i: Index, path: Path)
    requires { Splits w.old m from.0 to.0 i.0 × Leads w.old m from.0 i.0 path }
    ensures { w.new ≡ encode (do_split (decode w.old) from.0 to.0 i.0) }
{
    split_links(w, m, from, to, i, path);
    let rest = cell(w, m, from, COUNT) - i.0;
    let first = cell(w, m, path.end, NEXT);
    let last = Slot(cell(w, m, from, LAST));
    let kept = last_slot(i.0, path.end);
    let moved = last_slot(rest, last);
    put2(w, m, LAST, from, kept.0, to, moved.0);
    put2(w, m, NEXT, path.end, Slot::NONE.0, to, first);
    put2(w, m, COUNT, from, i.0, to, rest);
}

// Splits at index i.
pub fn split_at(w: &mut [u32], m: usize, from: Slot, to: Slot, i: Index)
    requires { Splits w.old m from.0 to.0 i.0 }
    ensures { w.new ≡ encode (do_split (decode w.old) from.0 to.0 i.0) }
{
    let path = rank_walk::seek(List::new(w, m, from), i);
    split(w, m, from, to, i, path);
}

// "Split by key splits at the number of smaller keys, so equals move."
pub fn split_key(w: &mut [u32], m: usize, from: Slot, to: Slot, key: Key)
    requires { TwoLists w.old m from.0 to.0 × (nodes w.old to.0 ≡ []) }
    ensures { w.new ≡ encode (do_split (decode w.old) from.0 to.0 (smaller key (nodes w.old from.0))) }
{
    let trail = precursors::find(List::new(w, m, from), key);
    split(w, m, from, to, trail.place, trail.path);
}
