// Module 7 of document 01, append's first worker: a list hung behind another, where "b follows a".
#![tactic(auto)]

ghost use Rattle.std.specs.Prelude.{◌≡◌, length};
ghost use Rattle.model.specs.Arena.{encode};
ghost use Rattle.model.specs.Closed.{do_join};
ghost use Rattle.model.specs.Cells.{link_at};
ghost use Rattle.model.specs.Links.{absent_link};
ghost use Rattle.model.specs.Passes.{decode, nodes};
ghost use Rattle.arena.specs.Linked.{put_link};
ghost use Rattle.arena.specs.Owners.{Leads};
ghost use Rattle.level_links.specs.OneLevel.{farther_link, LinksDone};
ghost use Rattle.join.specs.Joins.{Joins, LevelJoins};

use arena::{COUNT, LAST, Link, NEXT, Path, Slot, cell, link_at, put_link, put2};
use level_links::at_distance;
use link::farther;

// Level l: the head's link of `from` goes to s, the last owner of the other list, which stands `by` ranks before the head.
fn join_level(w: &mut [u32], m: usize, l: usize, s: Slot, from: Slot, by: u32)
    requires { LevelJoins w.old m l s.0 from.0 by }
    ensures { w.new ≡
        put_link m (put_link m w.old s.0 l (farther_link by (link_at m w.old from.0 l))) from.0 l absent_link }
{
    let old = link_at(w, m, from, l);
    let hung = at_distance(old, farther(old.distance, by));
    put_link(w, m, s, l, hung);
    put_link(w, m, from, l, Link::ABSENT);
}

// Each operation has this loop of its own: one for all would take the level's step as a closure and promise a chain of words, longer than its three lines.
// The links where `onto` has n nodes.
fn join_links(w: &mut [u32], m: usize, onto: Slot, from: Slot, n: u32, path: Path)
    requires joins { Joins w.old m onto.0 from.0 × Leads w.old m onto.0 (length (nodes w.old onto.0)) path }
    requires n_value { n ≡ length (nodes w.old onto.0) }
    ensures { LinksDone w.old (do_join (decode w.old) onto.0 from.0) m w.new }
{
    for l in 0..m {
        let by = n - path.ranks[l].0;
        join_level(w, m, l, path.slots[l], from, by);
    }
}

// Hangs `from`, which is not empty, behind `onto`, to whose end the path leads.
pub fn join(w: &mut [u32], m: usize, onto: Slot, from: Slot, path: Path)
    requires { Joins w.old m onto.0 from.0 × Leads w.old m onto.0 (length (nodes w.old onto.0)) path }
    ensures { w.new ≡ encode (do_join (decode w.old) onto.0 from.0) }
{
    let n = cell(w, m, onto, COUNT);
    join_links(w, m, onto, from, n, path);
    let more = cell(w, m, from, COUNT);
    let first = cell(w, m, from, NEXT);
    let last = cell(w, m, from, LAST);
    put2(w, m, LAST, onto, last, from, Slot::NONE.0);
    put2(w, m, NEXT, path.end, first, from, Slot::NONE.0);
    put2(w, m, COUNT, onto, n + more, from, 0);
}
