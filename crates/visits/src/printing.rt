// What a walk answers, as it is printed: by key `found place tally`, or `beyond` with the tally; by rank `slot rank`, or `none`; and the precursors of
// level 0 and on, as `slot@rank`.
use arena::{Index, Path, Rank, Slot};
use key_walk::{Beyond, Searched};
use std::fmt;
use visitor::{IndexVisitor, OrdIndexVisitor};

#[derive(Clone, Copy)]
pub struct ByKey(pub Result<Searched, Beyond>);

impl ByKey {
    // Of a visitor that was given `allowance` comparisons. The rank of a key that is found is one more than its index.
    pub fn of(v: OrdIndexVisitor, allowance: u32) -> ByKey {
        let spent = allowance.saturating_sub(v.left);
        if v.over {
            return ByKey(Err(Beyond(spent)));
        }
        ByKey(Ok(if v.found {
            Searched::Found(Index(v.rank.0.saturating_sub(1)), spent)
        } else {
            Searched::Missing(v.rank.after(), spent)
        }))
    }
}

impl fmt::Display for ByKey {
    fn fmt<W: fmt::Write>(&self, f: &mut fmt::Formatter<W>) -> fmt::Result {
        match self.0 {
            Ok(Searched::Found(i, n)) => write!(f, "1 {} {n}", i.0),
            Ok(Searched::Missing(i, n)) => write!(f, "0 {} {n}", i.0),
            Err(Beyond(n)) => write!(f, "beyond {n}"),
        }
    }
}

#[derive(Clone, Copy)]
pub struct ByRank(pub Option<(Slot, Rank)>);

impl From<IndexVisitor> for ByRank {
    fn from(v: IndexVisitor) -> ByRank {
        ByRank(v.found.then_some((v.current, v.rank)))
    }
}

impl fmt::Display for ByRank {
    fn fmt<W: fmt::Write>(&self, f: &mut fmt::Formatter<W>) -> fmt::Result {
        match self.0 {
            Some((slot, rank)) => write!(f, "{} {}", slot.0, rank.0),
            None => write!(f, "none"),
        }
    }
}

// Of as many levels.
#[derive(Clone, Copy)]
pub struct Precursors(pub Path, pub usize);

impl fmt::Display for Precursors {
    fn fmt<W: fmt::Write>(&self, f: &mut fmt::Formatter<W>) -> fmt::Result {
        let Path { slots, ranks, .. } = &self.0;
        write!(f, "precursors")?;
        for (slot, rank) in slots.iter().zip(ranks.iter()).take(self.1) {
            write!(f, " {}@{}", slot.0, rank.0)?;
        }
        Ok(())
    }
}
