// The links that change where a node goes in or out: level by level, by a path of precursors.
#![tactic(auto)]

ghost use Rattle.std.specs.Prelude.{◌≡◌, [], ◌∷◌};
ghost use Rattle.model.specs.Arena.{first_free};
ghost use Rattle.model.specs.Calls.{do_remove};
ghost use Rattle.model.specs.Passes.{decode};
ghost use Rattle.arena.specs.Linked.{words_of};
ghost use Rattle.arena.specs.Owners.{Leads, NodeThere};
ghost use Rattle.level_links.specs.AtIndex.{inserted_at, CanInsert, NodeIs};
ghost use Rattle.level_links.specs.OneLevel.{LevelFits, LevelInserted, LevelRemoved, LinksDone};

use arena::{Index, Key, Link, Path, Rank, Slot, link_at, put_link};
use link::{farther, longer, made, nearer, shorter};

// The link k at another distance.
pub fn at_distance(k: Link, distance: u32) -> Link
    ensures { words_of result ≡ k.target.0 ∷ distance ∷ [] }
{
    Link { distance, ..k }
}

// The level, the height, the two slots and `back` stay loose here and below: a struct of them would be built in each loop and taken apart at once.
// Level l, where a node of height h goes into slot o, with `back` nodes between the precursor s and it.
fn insert_level(w: &mut [u32], m: usize, l: usize, h: usize, s: Slot, o: Slot, back: u32)
    requires { LevelFits w.old m l s.0 o.0 back }
    ensures { LevelInserted m l h s.0 o.0 back w.old w.new }
{
    let old = link_at(w, m, s, l);
    if h <= l {
        put_link(w, m, s, l, at_distance(old, longer(old.distance)));
        return;
    }
    let first = Link {
        target: o,
        distance: made(back + 1),
    };
    put_link(w, m, s, l, first);
    put_link(w, m, o, l, at_distance(old, nearer(old.distance, back)));
}

// Level l, where the node of height h in slot o goes out.
fn remove_level(w: &mut [u32], m: usize, l: usize, h: usize, s: Slot, o: Slot, back: u32)
    requires { LevelFits w.old m l s.0 o.0 back }
    ensures { LevelRemoved m l h s.0 o.0 back w.old w.new }
{
    if h <= l {
        let old = link_at(w, m, s, l);
        put_link(w, m, s, l, at_distance(old, shorter(old.distance)));
        return;
    }
    let old = link_at(w, m, o, l);
    put_link(w, m, s, l, at_distance(old, farther(old.distance, back)));
    put_link(w, m, o, l, Link::ABSENT);
}

// Each operation has this loop of its own: one for all would take the level's step as a closure and promise a chain of words, longer than its three lines.
// Every level, for a key that goes in at a height: into the first free slot o, before index i, to which the path leads.
pub fn insert_links(
    w: &mut [u32],
    m: usize,
    list: Slot,
    key: Key,
    height: u32,
    i: Index,
    o: Slot,
    path: Path,
)
    requires can_insert { CanInsert w.old m list.0 i.0 key height × Leads w.old m list.0 i.0 path }
    requires o_value { o.0 ≡ first_free (decode w.old).free }
    ensures { LinksDone w.old (inserted_at (decode w.old) list.0 i.0 key height) m w.new }
{
    let Path { slots, ranks, .. } = path;
    let place = Rank::before(i);
    let h = height as usize;
    for l in 0..m {
        let back = place.0 - ranks[l].0;
        insert_level(w, m, l, h, slots[l], o, back);
    }
}

// Each operation has this loop of its own: one for all would take the level's step as a closure and promise a chain of words, longer than its three lines.
// Every level, for the node at index i, of height h and in slot o, that goes out.
pub fn remove_links(w: &mut [u32], m: usize, list: Slot, i: Index, o: Slot, h: usize, path: Path)
    requires node_there { NodeThere w.old m list.0 i.0 × Leads w.old m list.0 i.0 path }
    requires node_is { NodeIs w.old list.0 i.0 o.0 h }
    ensures { LinksDone w.old (do_remove (decode w.old) list.0 i.0) m w.new }
{
    let Path { slots, ranks, .. } = path;
    let place = Rank::before(i);
    for l in 0..m {
        let back = place.0 - ranks[l].0;
        remove_level(w, m, l, h, slots[l], o, back);
    }
}
