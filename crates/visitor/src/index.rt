// The walk by rank.
ghost use Rattle.std.specs.Prelude.{◌≡◌};
ghost use Rattle.walk.specs.Standing.{Standing};
ghost use Rattle.visitor.specs.Visited.{rank_head, RankStands, rank_at, rank_visit};

use crate::Traverse;
use arena::{Index, List, Rank, Slot};
use rank_walk::Spot;

// `level` is the number of levels still to come: all of them at the head, none after a walk. `found` stays a flag: the slot and the rank are
// there without it too.
#[derive(Clone, Copy)]
pub struct IndexVisitor {
    pub list: Slot,
    pub level: usize,
    pub current: Slot,
    pub rank: Rank,
    pub target: Rank,
    pub found: bool,
}

impl IndexVisitor {
    // At the head of a list, in an arena of m levels.
    pub fn new(list: Slot, m: usize, target: Rank) -> IndexVisitor
        ensures { result ≡ rank_head list m target }
    {
        IndexVisitor {
            list,
            level: m,
            current: list,
            rank: Rank::HEAD,
            target,
            found: false,
        }
    }

    // Where a walk ends: at a rank that it has not passed.
    fn ended(self, w: &[u32], m: usize, rank: Rank, found: bool) -> IndexVisitor
        requires { Standing w.now m self.list.0 rank.0 self.level self.current.0 self.rank.0 }
        ensures { result ≡ rank_at w.now self rank.0 found }
    {
        let from = Spot {
            slot: self.current,
            rank: self.rank,
        };
        let current = rank_walk::reach(List::new(w, m, self.list), from, self.level, rank);
        IndexVisitor {
            level: 0,
            current,
            rank,
            found,
            ..self
        }
    }
}

impl Traverse for IndexVisitor {
    ghost stands = { RankStands };

    ghost visit = { rank_visit };

    fn traversed(self, w: &[u32], m: usize) -> IndexVisitor {
        let n = rank_walk::length(List::new(w, m, self.list));
        if self.rank.0 <= self.target.0 && self.target.0 <= n {
            self.ended(w, m, self.target, true)
        } else {
            self.ended(w, m, Rank::before(Index(n)), false)
        }
    }
}
