// The walk by key.
ghost use Rattle.std.specs.Prelude.{◌≡◌};
ghost use Rattle.visitor.specs.Visited.{key_head, KeyStands, key_at, key_over, key_visit};

use crate::Traverse;
use arena::{Key, List, Rank, Slot};
use key_walk::{Visitor, Walked};

// `level` is the number of levels still to come: all of them at the head, none after a walk. `left` is the number of comparisons left; `over`
// says that the last walk asked for more. `found` and `over` stay two flags: `traversed` takes a visitor with both, which an enum would leave out.
#[derive(Clone, Copy)]
pub struct OrdIndexVisitor {
    pub list: Slot,
    pub level: usize,
    pub current: Slot,
    pub rank: Rank,
    pub target: Key,
    pub left: u32,
    pub found: bool,
    pub over: bool,
}

impl OrdIndexVisitor {
    // At the head of a list, in an arena of m levels.
    pub fn new(list: Slot, m: usize, target: Key, allowance: u32) -> OrdIndexVisitor
        ensures { result ≡ key_head list m target allowance }
    {
        OrdIndexVisitor {
            list,
            level: m,
            current: list,
            rank: Rank::HEAD,
            target,
            left: allowance,
            found: false,
            over: false,
        }
    }

    // Where a walk has ended.
    fn ended(self, at: Visitor, found: bool) -> OrdIndexVisitor
        ensures { result ≡ key_at self at.slot at.rank at.left found }
    {
        OrdIndexVisitor {
            level: 0,
            current: at.slot,
            rank: at.rank,
            left: at.left,
            found,
            over: false,
            ..self
        }
    }

    // Out of comparisons.
    fn out(self) -> OrdIndexVisitor
        ensures { result ≡ key_over self }
    {
        OrdIndexVisitor {
            left: 0,
            found: false,
            over: true,
            ..self
        }
    }
}

impl Traverse for OrdIndexVisitor {
    ghost stands = { KeyStands };

    ghost visit = { key_visit };

    fn traversed(self, w: &[u32], m: usize) -> OrdIndexVisitor {
        if self.found {
            return self;
        }
        let from = Visitor::at(m, self.current, self.rank, self.left);
        match key_walk::walk(List::new(w, m, self.list), self.target, from, self.level) {
            Some(Walked::Found(v)) => self.ended(v, true),
            Some(Walked::Missing(v)) => self.ended(v, false),
            None => self.out(),
        }
    }
}
