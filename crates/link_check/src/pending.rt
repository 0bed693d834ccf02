// The pending links of a walk: of each level the link of the last owner that was met there.
ghost use Rattle.std.specs.Prelude.{◌≡◌, ◌+◌, ◌≤◌, ◌<◌, get_or, replicate};
ghost use Rattle.arena.specs.Decides.{Decides};
ghost use Rattle.link_check.specs.LevelLinks.{Reaches, PendingReach, PendingAbsent, OwnerSlots, filled};

use super::Records;
use arena::{Rank, Slot};

// The owners' slots and ranks, by level, as numbers: the lists os and qs of specs/LevelLinks.
#[derive(Drop)]
pub struct Pending<'a> {
    pub records: Records<'a>,
    pub slots: [u32; 16],
    pub ranks: [u32; 16],
    pub ghost owners: { OwnerSlots records.dims slots },
}

impl<'a> Pending<'a> {
    // Of the list of head a, before its first node: every owner is the head.
    pub fn new(records: Records<'a>, a: Slot) -> Pending<'a>
        requires { a.0 < records.dims.lists + records.dims.room }
        ensures records { result.records ≡ records.entry }
        ensures slots { result.slots ≡ replicate 16 a.0 }
        ensures ranks { result.ranks ≡ replicate 16 0 }
    {
        Pending {
            records,
            slots: [a.0; 16],
            ranks: [Rank::HEAD.0; 16],
        }
    }

    // Whether the link of level l of its owner goes to slot s, which has rank r. The sum of two words may pass 32 bits.
    fn reaches(&self, l: usize, s: Slot, r: Rank) -> bool
        requires { l < self.now.records.dims.levels }
        ensures { Decides result (Reaches self.now.records.words.now self.now.records.dims l (get_or self.now.slots l 0) (get_or self.now.ranks l 0) s.0 r.0) }
    {
        let link = self.records.link(Slot(self.slots[l]), l);
        link.target == s && u64::from(self.ranks[l]) + u64::from(link.distance) == u64::from(r.0)
    }

    // Whether at each level below h the pending link goes to slot s, which has rank r.
    pub fn reach(&self, h: usize, s: Slot, r: Rank) -> bool
        requires { h ≤ self.now.records.dims.levels }
        ensures { Decides result (PendingReach self.now.records.words.now self.now.records.dims self.now.slots self.now.ranks h s.0 r.0) }
    {
        for l in 0..h {
            if !self.reaches(l, s, r) {
                return false;
            }
        }
        true
    }

    // Whether every pending link is absent.
    pub fn absent(&self) -> bool
        ensures { Decides result (PendingAbsent self.now.records.words.now self.now.records.dims self.now.slots) }
    {
        for l in 0..self.records.dims.levels {
            if !self.records.link_absent(Slot(self.slots[l]), l) {
                return false;
            }
        }
        true
    }

    // The node in slot s, which has rank r, becomes the owner of each level below h. A loop, since a field beside a borrow and an invariant
    // cannot be lent to `fill`.
    pub fn fill(&mut self, h: usize, s: Slot, r: Rank)
        requires height { h ≤ self.old.records.dims.levels }
        requires slot { s.0 < self.old.records.dims.lists + self.old.records.dims.room }
        ensures records { self.new.records ≡ self.old.records }
        ensures slots { self.new.slots ≡ filled h s.0 self.old.slots }
        ensures ranks { self.new.ranks ≡ filled h r.0 self.old.ranks }
    {
        for l in 0..h {
            self.slots[l] = s.0;
            self.ranks[l] = r.0;
        }
    }
}
