// A link of a record, read and stored whole: its words are named here and nowhere else.
ghost use Rattle.std.specs.Prelude.{◌≡◌, ◌+◌, ◌-◌, ◌<◌, length, get_or};
ghost use Rattle.model.specs.Arena.{to_column, far_column};
ghost use Rattle.model.specs.Cells.{link_at};
ghost use Rattle.model.specs.Links.{absent_link};
ghost use Rattle.arena.specs.Decides.{Decides};
ghost use Rattle.arena.specs.Linked.{LinkIn, words_of, put_link};

use crate::Slot;
use crate::layout::{FAR, LINK, TO, base_of};
use crate::words::put;

// "A link is target slot and distance; an absent one is N, 0."
#[derive(Clone, Copy, PartialEq, Eq)]
pub struct Link {
    pub target: Slot,
    pub distance: u32,
}

impl Link {
    pub const ABSENT: Link = Link {
        target: Slot::NONE,
        distance: 0,
    };

    pub fn is_absent(self) -> bool
        ensures { Decides result (words_of self ≡ absent_link) }
    {
        self == Link::ABSENT
    }
}

// Of the record that begins at word `base`: where its link of a stage goes, and how far that is. A stage is the level and one.
pub fn target_in(w: &[u32], base: usize, stage: usize) -> Slot
    requires { (0 < stage) × (base + to_column (stage - 1) < length w.now) }
    ensures { result.0 ≡ get_or w.now (base + to_column (stage - 1)) 0 }
{
    Slot(w[base + (TO - LINK) + LINK * stage])
}

pub fn distance_in(w: &[u32], base: usize, stage: usize) -> u32
    requires { (0 < stage) × (base + far_column (stage - 1) < length w.now) }
    ensures { result ≡ get_or w.now (base + far_column (stage - 1)) 0 }
{
    w[base + (FAR - LINK) + LINK * stage]
}

// The link of level l of slot s.
pub fn link_at(w: &[u32], m: usize, s: Slot, l: usize) -> Link
    requires { LinkIn w.now m s.0 l }
    ensures { words_of result ≡ link_at m w.now s.0 l }
{
    let base = base_of(m, s);
    Link {
        target: Slot(w[base + (TO + LINK * l)]),
        distance: w[base + (FAR + LINK * l)],
    }
}

pub fn put_link(w: &mut [u32], m: usize, s: Slot, l: usize, k: Link)
    requires { LinkIn w.old m s.0 l }
    ensures { w.new ≡ put_link m w.old s.0 l (words_of k) }
{
    put(w, m, s, TO + LINK * l, k.target.0);
    put(w, m, s, FAR + LINK * l, k.distance);
}
