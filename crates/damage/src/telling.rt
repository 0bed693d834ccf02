// A case as a line: its number, the clause of document 01 that is broken, what was broken, and what the check says.
use super::arenas::{Change, changed};
use std::fmt;

// The clauses of 'An arena passes the check', in its order.
#[derive(Clone, Copy)]
pub enum Clause {
    // No clause is broken. It is no `Option`, which could not print its own words.
    None,
    Length,
    Header,
    Chain,
    LastNode,
    Keys,
    EachSlot,
    FreeChain,
    Form,
    Link,
    AboveHeight,
}

impl fmt::Display for Clause {
    fn fmt<W: fmt::Write>(&self, f: &mut fmt::Formatter<W>) -> fmt::Result {
        f.write_str(match self {
            Clause::None => "no clause",
            Clause::Length => "length",
            Clause::Header => "header",
            Clause::Chain => "chain",
            Clause::LastNode => "last node",
            Clause::Keys => "keys never fall",
            Clause::EachSlot => "each node slot once",
            Clause::FreeChain => "free chain",
            Clause::Form => "column's form",
            Clause::Link => "link",
            Clause::AboveHeight => "links at or above the height",
        })
    }
}

// The number of the next case, and its clause.
#[derive(Drop)]
pub struct Line<'a, R: Print> {
    rt: &'a R,
    number: u32,
    clause: Clause,
}

impl<'a, R: Print> Line<'a, R> {
    pub fn first(rt: &'a R) -> Self {
        Line {
            rt,
            number: 1,
            clause: Clause::None,
        }
    }

    // From here on the cases break this clause.
    pub fn begin(&mut self, clause: Clause) {
        self.clause = clause;
    }

    pub fn tell(&mut self, what: &str, w: &[u32]) {
        let number = self.number;
        let clause = self.clause;
        let answer = if arena_check::check(w) { "yes" } else { "no" };
        self.number = number.wrapping_add(1);
        let _ = println!(self.rt; "{number} {clause}: {what}: {answer}");
    }

    // Cases that are the sample with some changes.
    pub fn tell_each(&mut self, cases: &[(&str, &[Change])]) {
        for (what, changes) in cases {
            self.tell(what, &changed(changes));
        }
    }
}
