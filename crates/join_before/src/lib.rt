// Module 7 of document 01, append's second worker: the nodes of one list put before those of another, where "b precedes a".
#![tactic(auto)]

ghost use Rattle.std.specs.Prelude.{◌≡◌, length};
ghost use Rattle.model.specs.Arena.{next_column, encode};
ghost use Rattle.model.specs.Cells.{Cell, link_at};
ghost use Rattle.model.specs.Passes.{decode, nodes};
ghost use Rattle.arena.specs.Linked.{LinkIn};
ghost use Rattle.arena.specs.Owners.{Leads};
ghost use Rattle.level_links.specs.OneLevel.{farther_link, LinksDone};
ghost use Rattle.join.specs.Joins.{Joins, LevelJoins};
ghost use Rattle.join_before.specs.Preceded.{do_join_before, link_before, next_before};

use arena::{COUNT, LAST, Link, NEXT, Path, Slot, cell, link_at, put, put_link, put2};
use level_links::at_distance;
use link::farther;

// Level l: the head's link of a goes to s, the last owner of b, `by` ranks before it; then the head's link of b goes to the head of a.
// Slot s may be b itself.
fn before_level(w: &mut [u32], m: usize, l: usize, s: Slot, a: Slot, b: Slot, by: u32)
    requires { LevelJoins w.old m l s.0 a.0 by × LinkIn w.old m b.0 l }
    ensures { w.new ≡ link_before m w.old l s.0 (farther_link by (link_at m w.old a.0 l)) a.0 b.0 }
{
    let old = link_at(w, m, a, l);
    let hung = at_distance(old, farther(old.distance, by));
    put_link(w, m, s, l, hung);
    let moved = link_at(w, m, b, l);
    put_link(w, m, a, l, moved);
    put_link(w, m, b, l, Link::ABSENT);
}

// Each operation has this loop of its own: one for all would take the level's step as a closure and promise a chain of words, longer than its three lines.
// The links where b has n nodes.
fn before_links(w: &mut [u32], m: usize, a: Slot, b: Slot, n: u32, path: Path)
    requires joins { Joins w.old m b.0 a.0 × Leads w.old m b.0 (length (nodes w.old b.0)) path }
    requires n_value { n ≡ length (nodes w.old b.0) }
    ensures { LinksDone w.old (do_join_before (decode w.old) a.0 b.0) m w.new }
{
    for l in 0..m {
        let by = n - path.ranks[l].0;
        before_level(w, m, l, path.slots[l], a, b, by);
    }
}

// The same of next, whose word v goes to s.
fn before_next(w: &mut [u32], m: usize, s: Slot, v: u32, a: Slot, b: Slot)
    requires { Cell w.old m s.0 next_column × Cell w.old m a.0 next_column × Cell w.old m b.0 next_column }
    ensures { w.new ≡ next_before m w.old s.0 v a.0 b.0 }
{
    put(w, m, s, NEXT, v);
    let moved = cell(w, m, b, NEXT);
    put2(w, m, NEXT, a, moved, b, Slot::NONE.0);
}

// Puts the nodes of b, to whose end the path leads, before those of a, which is not empty.
pub fn join_before(w: &mut [u32], m: usize, a: Slot, b: Slot, path: Path)
    requires { Joins w.old m b.0 a.0 × Leads w.old m b.0 (length (nodes w.old b.0)) path }
    ensures { w.new ≡ encode (do_join_before (decode w.old) a.0 b.0) }
{
    let n = cell(w, m, b, COUNT);
    before_links(w, m, a, b, n, path);
    let more = cell(w, m, a, COUNT);
    let first = cell(w, m, a, NEXT);
    put(w, m, b, LAST, Slot::NONE.0);
    before_next(w, m, path.end, first, a, b);
    put2(w, m, COUNT, a, n + more, b, 0);
}
