// The clauses of a record's form and of its links, each broken by one word or one link.
use super::arenas::Change::{Link, Word};
use super::arenas::{NONE, PAST};
use super::telling::{Clause, Line};
use arena::{HEIGHT, KEY, LAST};

pub fn forms<R: Print>(line: &mut Line<'_, R>) {
    line.begin(Clause::Form);
    line.tell_each(&[
        ("head 0, word 1 is 1 and not M", &[Word(0, HEIGHT, 1)]),
        (
            "head 2, of an empty list, word 1 is 3 and not M",
            &[Word(2, HEIGHT, 3)],
        ),
        ("slot 8, in a list, height M + 1", &[Word(8, HEIGHT, 3)]),
        ("slot 4, in a list, word 3 is 1", &[Word(4, LAST, 1)]),
        ("slot 7, free, word 0 is 1", &[Word(7, KEY, 1)]),
        ("slot 7, free, word 1 is 0", &[Word(7, HEIGHT, 0)]),
        ("slot 7, free, word 3 is 1", &[Word(7, LAST, 1)]),
        ("slot 7, free, a target at level 0", &[Link(7, 0, 5, 0)]),
        (
            "slot 7, free, a distance at level 1",
            &[Link(7, 1, NONE, 1)],
        ),
    ])
}

pub fn links<R: Print>(line: &mut Line<'_, R>) {
    line.begin(Clause::Link);
    line.tell_each(&[
        (
            "head 0, level 0, to slot 3, of height 0",
            &[Link(0, 0, 3, 2)],
        ),
        (
            "head 0, level 0, over slot 5 to slot 8",
            &[Link(0, 0, 8, 3)],
        ),
        (
            "head 0, level 0, to slot 8 as far as slot 5",
            &[Link(0, 0, 8, 1)],
        ),
        (
            "head 0, level 0, to slot 10, of list 1",
            &[Link(0, 0, 10, 1)],
        ),
        (
            "head 2, level 0, of an empty list, to slot 4",
            &[Link(2, 0, 4, 1)],
        ),
        ("head 0, level 1, absent", &[Link(0, 1, NONE, 0)]),
        ("slot 5, level 0, absent", &[Link(5, 0, NONE, 0)]),
    ]);
    distances(line)
}

fn distances<R: Print>(line: &mut Line<'_, R>) {
    line.tell_each(&[
        ("head 0, level 1, distance 2 for 3", &[Link(0, 1, 8, 2)]),
        ("slot 8, level 0, distance 2 for 1", &[Link(8, 0, 6, 2)]),
        ("slot 8, level 0, distance 0 for 1", &[Link(8, 0, 6, 0)]),
        (
            "slot 5, level 0, distance 4294967295",
            &[Link(5, 0, 8, NONE)],
        ),
    ]);
    no_links(line)
}

// These are to be absent, since no node of such a height follows.
fn no_links<R: Print>(line: &mut Line<'_, R>) {
    line.tell_each(&[
        (
            "slot 8, level 1, to slot 6, of height 1",
            &[Link(8, 1, 6, 1)],
        ),
        ("slot 6, level 0, back to slot 5", &[Link(6, 0, 5, 1)]),
        ("slot 6, level 0, past the slots", &[Link(6, 0, PAST, 1)]),
        (
            "slot 6, level 0, no target and distance 1",
            &[Link(6, 0, NONE, 1)],
        ),
    ])
}

pub fn above<R: Print>(line: &mut Line<'_, R>) {
    line.begin(Clause::AboveHeight);
    line.tell_each(&[
        ("slot 3, level 0, to slot 8", &[Link(3, 0, 8, 1)]),
        ("slot 5, level 1, to slot 8", &[Link(5, 1, 8, 2)]),
        (
            "slot 4, level 1, no target and distance 1",
            &[Link(4, 1, NONE, 1)],
        ),
    ])
}
